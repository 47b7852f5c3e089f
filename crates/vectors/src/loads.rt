//! Texts loaded into nodes.
use crate::tally::Tally;
use Refusal::{Malformed, NoNode, OverLimit, TextLength};
use loading::loading::load;
use loading::marks::Mark;
use sexp::refusals::Refusal;
use std::{fmt, io};
use tables::nodes::{LIST, Node};

/// What a load answered, and where it left the mark.
#[derive(Clone, Copy, PartialEq, Eq)]
pub struct Loaded {
    answer: Result<usize, Refusal>,
    mark: usize,
}

impl fmt::Display for Loaded {
    fn fmt<W: fmt::Write>(&self, f: &mut fmt::Formatter<W>) -> fmt::Result {
        let mark = self.mark;
        match self.answer {
            Ok(first) => write!(f, "loaded at {first}, mark {mark}"),
            Err(refusal) => write!(f, "{refusal}, mark {mark}"),
        }
    }
}

// A text, the number of nodes, the mark before, and what the load should answer and leave.
static CASES: [(&str, usize, usize, Result<usize, Refusal>, usize); 12] = [
    ("(1:a())", 4, 0, Ok(0), 3),
    ("(1:a())", 5, 2, Ok(2), 5),
    ("()", 1, 0, Ok(0), 1),
    ("(1:a())", 4, 2, Err(NoNode { offset: 4 }), 2),
    ("()", 3, 3, Err(NoNode { offset: 0 }), 3),
    ("()", 3, 7, Err(NoNode { offset: 0 }), 7),
    // a fault in the octets of the element that has no node, and one behind it
    ("(1:a01:b)", 2, 0, Err(Malformed { offset: 4 }), 0),
    ("(1:a1025:", 2, 0, Err(OverLimit { offset: 4 }), 0),
    ("(1:a1:b", 2, 0, Err(NoNode { offset: 4 }), 0),
    ("(1:a(x", 2, 0, Err(NoNode { offset: 4 }), 0),
    // a fault, with nodes left
    ("(1:a", 4, 1, Err(Malformed { offset: 4 }), 1),
    ("", 4, 1, Err(TextLength), 1),
];

/// Loads that are accepted, refused for the text, and refused for want of a node.
pub(crate) fn loads(rt: &HostRuntime, tally: &mut Tally) -> io::Result<()> {
    for (text, count, used, answer, mark) in &CASES {
        let unused = Node {
            kind: LIST,
            span: 0,
            offset: 0,
            length: 0,
        };
        let mut nodes = vec![in rt.alloc(); unused; *count]?;
        let mut marked = Mark { used: *used };
        let gave = Loaded {
            answer: load(text.as_bytes(), nodes.as_mut_slice(), &mut marked),
            mark: marked.used,
        };
        let should = Loaded {
            answer: *answer,
            mark: *mark,
        };
        let name = format!(in rt.alloc(); "{text} into {count} nodes behind {used}")?;
        tally.case(rt, name.as_str(), &gave, &should)?;
    }
    Ok(())
}
