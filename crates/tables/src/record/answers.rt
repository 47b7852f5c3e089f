//! The questions' answers, each from the one node that a place names.
ghost use Rattle.holder.specs.Placed.{run_at, Stands};
ghost use Rattle.tables.specs.Meant.{meant};
ghost use Rattle.tables.specs.Standing.{Standing};

use super::TableRecord;
use crate::nodes::{LIST, Node};
use crate::places::Place;
use holder::holding::Holder;
use holder::kinds::Kind;

impl TableRecord<'_> {
    // A place, and the node that it names.
    // Casts, here and below, that are proved to lose nothing: `TryFrom` would add an error that never comes.
    #[tactic(auto, using(crate::proofs::Spots::stood))]
    fn standing(&self, place: u32) -> (Place, Node)
        requires { Stands
            (run_at place (meant self.now.beside.now self.now.nodes.now self.now.ok).tree) }
        ensures { Standing self.now.beside.now result.0 result.1
            (run_at place (meant self.now.beside.now self.now.nodes.now self.now.ok).tree) }
    {
        let place = Place::from(place);
        (place, self.nodes[usize::from(place.index)])
    }
}

impl<'a> Holder for TableRecord<'a> {
    ghost meaning = { λ s. meant s.beside.now s.nodes.now s.ok };

    #[tactic(auto, using(crate::proofs::Meaning::few_nodes))]
    fn root(&self) -> u32 {
        u32::from(Place {
            index: 0,
            end: self.nodes.len() as u16,
        })
    }

    fn kind_at(&self, place: u32) -> Kind {
        let (_, node) = self.standing(place);
        if node.kind == LIST {
            Kind::List
        } else {
            Kind::Atom
        }
    }

    fn first_in(&self, place: u32) -> Option<u32> {
        let (place, node) = self.standing(place);
        let end = place.index + node.span as u16;
        (node.span > 1).then_some(u32::from(Place {
            index: place.index + 1,
            end,
        }))
    }

    fn next_after(&self, place: u32) -> Option<u32> {
        let (place, node) = self.standing(place);
        let index = place.index + node.span as u16;
        (index < place.end).then_some(u32::from(Place {
            index,
            end: place.end,
        }))
    }

    fn length_at(&self, place: u32) -> usize {
        let (_, node) = self.standing(place);
        node.length as usize
    }

    fn octet_at(&self, place: u32, index: usize) -> u8 {
        let (_, node) = self.standing(place);
        self.beside[node.offset as usize + index]
    }
}
