//! A text read into the unused nodes of a lent memory, with a stack as deep as the text's lists.
ghost use Rattle.std.specs.Prelude.{◌≡◌, ◌≤◌, false, length, take, OnErr};
ghost use Rattle.sexp.specs.Reading.{complete};
ghost use Rattle.loading.specs.Fills.{Claims, Finds};
ghost use Rattle.loading.specs.Lacking.{unused, load_verdict};
ghost use Rattle.loading.specs.Loads.{told, marked, Tabled, LoadedExactly, UnloadedAsListed};

use crate::marks::{Guard, Mark};
use sexp::reader::is_missized;
use sexp::refusals::Refusal;
use sexp::tokens::{Cursor, Token};
use tables::nodes::{ATOM, LIST, Node};

// What stood at a cursor: an element, loaded to its end, or the end of the list around it.
#[derive(Clone, Copy)]
enum Found {
    Element,
    Close,
}

// A load under way: where it reads, the node memory, and the mark, which runs ahead.
#[derive(Drop)]
struct Loader<'t, 'm> {
    cursor: Cursor<'t>,
    nodes: &'m mut [Node],
    mark: &'m mut Mark,
}

impl Loader<'_, '_> {
    // Writes a node into the first unused one, for the element at an offset, and tells its index.
    fn claim(&mut self, offset: usize, node: Node) -> Result<usize, Refusal>
        ensures nodes { self.new.nodes.ghost_name ≡ self.old.nodes.ghost_name }
        ensures mark { self.new.mark.ghost_name ≡ self.old.mark.ghost_name }
        ensures claim { Claims self.old self.new offset node result }
    {
        let index = self.mark.used;
        if index >= self.nodes.len() {
            return Err(Refusal::NoNode { offset });
        }
        self.nodes[index] = node;
        self.mark.used = index + 1;
        Ok(index)
    }

    // Loads the element here, or passes the end of the list that is open here. The elements of a list are passed by a
    // loop; its span is written when it closes.
    fn element(&mut self) -> Result<Found, Refusal>
        requires due { complete self.old.cursor.depth self.old.cursor.count ≡ false }
        requires sized { length self.old.cursor.text.now ≤ 32768 }
        ensures nodes { self.new.nodes.ghost_name ≡ self.old.nodes.ghost_name }
        ensures mark { self.new.mark.ghost_name ≡ self.old.mark.ghost_name }
        ensures found { Finds self.old self.new result }
    {
        let step = self.cursor.next()?;
        self.cursor = step.next;
        match step.token {
            Token::Closing { .. } => Ok(Found::Close),
            Token::Atom { offset, octets } => {
                let length = octets.len();
                let node = Node {
                    kind: ATOM,
                    span: 1,
                    offset: (self.cursor.at - length) as u32,
                    length: length as u32,
                };
                self.claim(offset, node)?;
                Ok(Found::Element)
            }
            Token::Opening { offset } => {
                let node = Node {
                    kind: LIST,
                    span: 0,
                    offset: 0,
                    length: 0,
                };
                let index = self.claim(offset, node)?;
                while let Found::Element = self.element()? {}
                self.nodes[index].span = (self.mark.used - index) as u32;
                Ok(Found::Element)
            }
        }
    }
}

/// Reads a text into the unused nodes, moves the mark behind them, and tells the first. A text that is refused leaves
/// the mark where it was. The nodes below the mark stay as they are in any case.
pub fn load(text: &[u8], nodes: &mut [Node], mark: &mut Mark) -> Result<usize, Refusal>
    ensures answer { let verdict = load_verdict (unused nodes.old mark.old.used) text.now in
        result ≡ told mark.old.used verdict }
    ensures mark { let verdict = load_verdict (unused nodes.old mark.old.used) text.now in
        mark.new.used ≡ marked mark.old.used verdict }
    ensures back { OnErr result (mark.new.used ≡ mark.old.used) }
    ensures kept { take mark.old.used nodes.new ≡ take mark.old.used nodes.old }
    ensures table { let verdict = load_verdict (unused nodes.old mark.old.used) text.now in
        Tabled text.now mark.old.used nodes.new verdict }
    ensures loaded { let room = unused nodes.old mark.old.used in
        LoadedExactly room text.now mark.old.used mark.new.used nodes.new result }
    ensures refused { UnloadedAsListed (unused nodes.old mark.old.used) text.now result }
{
    if is_missized(text) {
        return Err(Refusal::TextLength);
    }
    let first = mark.used;
    let guard = Guard { mark, start: first };
    let mut loader = Loader {
        cursor: Cursor {
            text,
            at: 0,
            depth: 0,
            count: 0,
        },
        nodes,
        mark: guard.mark,
    };
    match loader.element()? {
        Found::Element => {
            let at = loader.cursor.at;
            if at < text.len() {
                return Err(Refusal::Malformed { offset: at });
            }
            guard.keep();
            Ok(first)
        }
        // No list is open at the start.
        Found::Close => unreachable!(),
    }
}

#[cfg(test)]
mod tests {
    use super::*;

    const UNUSED: Node = Node {
        kind: 7,
        span: 7,
        offset: 7,
        length: 7,
    };

    fn list(span: u32) -> Node {
        Node {
            kind: LIST,
            span,
            offset: 0,
            length: 0,
        }
    }

    fn atom(offset: u32, length: u32) -> Node {
        Node {
            kind: ATOM,
            span: 1,
            offset,
            length,
        }
    }

    #[test]
    fn loads_behind_what_is_used(rt: HostRuntime) {
        let mut nodes = [UNUSED; 7];
        let mut mark = Mark { used: 1 };
        assert_eq!(rt; load(b"(3:abc(2:de)0:)", &mut nodes, &mut mark), Ok(1));
        assert_eq!(rt; mark.used, 6);
        let table = [
            UNUSED,
            list(5),
            atom(3, 3),
            list(2),
            atom(9, 2),
            atom(14, 0),
            UNUSED,
        ];
        assert_eq!(rt; nodes, table);
    }

    #[test]
    fn sets_the_mark_back(rt: HostRuntime) {
        let mut nodes = [UNUSED; 5];
        let mut mark = Mark { used: 1 };
        let text = b"(3:abc(2:de)0:)";
        let refused = load(text, &mut nodes, &mut mark);
        assert_eq!(rt; refused, Err(Refusal::NoNode { offset: 12 }));
        assert_eq!(rt; mark.used, 1);
        let mut mark = Mark { used: usize::MAX };
        let refused = load(text, &mut nodes, &mut mark);
        assert_eq!(rt; refused, Err(Refusal::NoNode { offset: 0 }));
        assert_eq!(rt; mark.used, usize::MAX);
    }
}
