//! The nodes of a table.
ghost use Rattle.tables.specs.Checks.{Says};

/// The kind of a list's node.
pub const LIST: u8 = 0;

/// The kind of an atom's node.
pub const ATOM: u8 = 1;

/// An element of a table: its kind (0 list, 1 atom), how many nodes it spans with all that it holds, and, of an atom,
/// where its octets lie and how many there are.
#[derive(Clone, Copy, PartialEq, Eq, Debug)]
pub struct Node {
    // A run of nodes is memory that the caller lends, in a fixed format: a number and no enum for the kind, spans and
    // no pointers, and an atom's octets by offset and length.
    pub kind: u8,
    pub span: u32,
    pub offset: u32,
    pub length: u32,
}

/// What a node says.
#[derive(Clone, Copy)]
pub(crate) enum Content<'b> {
    /// A list that holds so many nodes.
    List { held: usize },
    /// An atom of these octets.
    Atom { octets: &'b [u8] },
}

impl Node {
    /// What the node says, with the octets of the table's atoms beside it. None where it is the node of no element.
    pub(crate) fn content<'b>(&self, beside: &'b [u8]) -> Option<Content<'b>>
        ensures { Says beside.now self.now result }
    {
        // Casts that are proved to lose nothing: `TryFrom` would add an error that never comes.
        match self.kind {
            LIST if self.offset == 0 && self.length == 0 => {
                let held = self.span.checked_sub(1)?;
                Some(Content::List {
                    held: held as usize,
                })
            }
            ATOM if self.span == 1 => {
                let start = self.offset as usize;
                let octets = beside.get(start..start + self.length as usize)?;
                Some(Content::Atom { octets })
            }
            _ => None,
        }
    }
}
