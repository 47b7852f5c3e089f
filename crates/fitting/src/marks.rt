//! Search marks: what has been laid of a pattern.
ghost use Rattle.std.specs.Prelude.{◌≡◌};
ghost use Rattle.fitting.specs.Marks.{unused};

/// What a mark stands for.
#[derive(Clone, Copy, PartialEq, Eq, Debug)]
pub(crate) enum Laid {
    /// A list of the pattern that has been entered.
    List,
    /// The first occurrence of a variable, with one element.
    Variable,
    /// The first occurrence of a segment, with a run of elements.
    Segment,
}

/// A search mark, one for each list entered and for each name's first occurrence. The place beside it, on the other
/// stack, is that of the record's element.
#[derive(Clone, Copy, Debug)]
pub struct Mark {
    pub(crate) laid: Laid,
    // The place in the book's text of the list or the name.
    pub(crate) pattern: u32,
    // The number of marks up to the one of the list around it; 0 where there is none.
    pub(crate) around: u16,
    // How many elements a segment has.
    pub(crate) length: u16,
    // The place of the record's element behind it, in the same list.
    pub(crate) behind: Option<u32>,
}

impl Mark {
    /// A mark that nothing is written in yet.
    pub fn unused() -> Mark
        ensures { result ≡ unused }
    {
        Mark {
            laid: Laid::List,
            pattern: 0,
            around: 0,
            length: 0,
            behind: None,
        }
    }
}
