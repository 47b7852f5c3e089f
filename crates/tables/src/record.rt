//! A record laid out in nodes that the caller lends.
ghost use Rattle.tables.specs.Nodes.{IsTable};

use crate::nodes::Node;

/// Borrowed nodes, with the octets of their atoms beside them: the table of a record within the limits.
#[derive(Clone, Copy)]
pub struct TableRecord<'a> {
    nodes: &'a [Node],
    beside: &'a [u8],
    ghost ok: { ∥ IsTable beside.now nodes.now ∥₁ },
}

mod answers;
mod filling;
