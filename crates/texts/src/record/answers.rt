//! The questions' answers.
ghost use Rattle.texts.specs.Meant.{meant};

use super::TextRecord;
use holder::holding::Holder;
use holder::kinds::Kind;

// The root's place.
const ROOT: u32 = 0;

impl<'a> Holder for TextRecord<'a> {
    ghost meaning = { λ s. meant s.text.now s.ok };

    #[tactic(auto, using(crate::proofs::Standing::root_placed))]
    fn root(&self) -> u32 {
        ROOT
    }

    #[tactic(auto, using(crate::proofs::Standing::kinds))]
    fn kind_at(&self, place: u32) -> Kind {
        if self.text[place as usize] == b'(' {
            Kind::List
        } else {
            Kind::Atom
        }
    }

    #[tactic(auto, using(crate::proofs::Standing::first_begins))]
    fn first_in(&self, place: u32) -> Option<u32> {
        self.element_at(place as usize + 1)
    }

    #[tactic(auto, using(crate::proofs::Standing::next_begins))]
    fn next_after(&self, place: u32) -> Option<u32> {
        self.element_at(self.end_of(place))
    }

    fn length_at(&self, place: u32) -> usize {
        self.octets_at(place).len()
    }

    fn octet_at(&self, place: u32, index: usize) -> u8 {
        self.octets_at(place)[index]
    }
}
