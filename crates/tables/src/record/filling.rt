//! What the record holds.
ghost use Rattle.std.specs.Prelude.{◌≡◌, [], ◌∷◌};
ghost use Rattle.sexp.specs.Elements.{list, none};
ghost use Rattle.holder.specs.Copies.{record_of};
ghost use Rattle.tables.specs.Nodes.{list_node};
ghost use Rattle.tables.specs.Meant.{meant, Fills, MeansItsTable};

use super::TableRecord;
use crate::checking::is_table;
use crate::nodes::{LIST, Node};
use sexp::refusals::Refusal;

// The table of the empty list.
const EMPTY_LIST: [Node; 1] = [Node {
    kind: LIST,
    span: 1,
    offset: 0,
    length: 0,
}];

impl<'a> TableRecord<'a> {
    /// The record of the empty list.
    #[tactic(auto, using(crate::proofs::Meaning::empty_table))]
    pub fn new() -> TableRecord<'a>
        ensures nodes { result.nodes.now ≡ list_node 1 ∷ [] }
        ensures beside { result.beside.now ≡ [] }
        ensures empty { record_of (meant result.beside.now result.nodes.now result.ok) ≡ list none none }
    {
        TableRecord {
            nodes: &EMPTY_LIST,
            beside: &[],
        }
    }

    /// Takes nodes, and the octets of their atoms beside them, in place of those held, if they are the table of a
    /// record within the limits. Any others are refused, and the record stays as it was.
    pub fn fill(&mut self, nodes: &'a [Node], beside: &'a [u8]) -> Result<(), Refusal>
        ensures fills { Fills nodes.now self.old.nodes.now self.new.nodes.now
            beside.now self.old.beside.now self.new.beside.now result }
        ensures means { MeansItsTable self.new.beside.now self.new.nodes.now
            (meant self.new.beside.now self.new.nodes.now self.new.ok) }
    {
        if !is_table(beside, nodes) {
            return Err(Refusal::NotATable);
        }
        *self = TableRecord { nodes, beside };
        Ok(())
    }
}
