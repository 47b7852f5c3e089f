//! Whether nodes are the table of a record within the limits.
//! The calls nest as deep as the record's lists, and the elements of one list are passed by a loop.
ghost use Rattle.std.specs.Prelude.{MatchOption, MatchBool};
ghost use Rattle.tables.specs.Checks.{FitsBefore, NoneFits};
ghost use Rattle.tables.specs.Nodes.{IsTable};

use crate::nodes::{Content, Node};
use sexp::tokens::{MOST_DEPTH, MOST_ELEMENTS, MOST_OCTETS};

// The nodes behind the first element, if one of at most so many levels comes first.
#[tactic(auto, using(crate::proofs::Passing::passing))]
fn behind_first<'n>(beside: &[u8], nodes: &'n [Node], levels: usize) -> Option<&'n [Node]>
    ensures { MatchOption result (NoneFits beside.now levels nodes.now)
        (λ rest. FitsBefore beside.now levels nodes.now rest.now) }
{
    let deeper = levels.checked_sub(1)?;
    let (node, rest) = nodes.split_first()?;
    match node.content(beside)? {
        Content::Atom { octets } => (octets.len() <= MOST_OCTETS).then_some(rest),
        Content::List { held } => {
            let (mut inner, behind) = rest.split_at_checked(held)?;
            while !inner.is_empty() {
                inner = behind_first(beside, inner, deeper)?;
            }
            Some(behind)
        }
    }
}

/// Whether nodes are the table of a record, with the octets of its atoms beside them.
#[tactic(auto, using(crate::proofs::Tabled::tabled))]
pub(crate) fn is_table(beside: &[u8], nodes: &[Node]) -> bool
    ensures { MatchBool result (IsTable beside.now nodes.now) (IsTable beside.now nodes.now → ⊥) }
{
    nodes.len() <= MOST_ELEMENTS
        && behind_first(beside, nodes, MOST_DEPTH).is_some_and(|rest| rest.is_empty())
}
