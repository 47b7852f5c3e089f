//! The questions' answers: the list is at the place 0, and each reading at the place one above its index.
ghost use Rattle.std.specs.Prelude.{◌≡◌};
ghost use Rattle.std.specs.Fmt.{signed_decimal};
ghost use Rattle.holder.specs.Placed.{run_at, octets_of, IsAtom};
ghost use Rattle.readings.specs.Readings.{readings as meant};
ghost use Rattle.readings.specs.Tables.{table};

use super::ReadingsRecord;
use decimal::{length, octet};
use holder::holding::Holder;
use holder::kinds::Kind;

// The list's place. Places are numbers of 32 bits, and there is no heap for elements.
const ROOT: u32 = 0;

impl ReadingsRecord<'_> {
    // The reading whose atom stands at a place.
    #[tactic(auto, using(crate::proofs::Places::written, crate::proofs::Places::atom_at_reading))]
    fn reading_at(&self, place: u32) -> i32
        requires { IsAtom (run_at place (table self.now.readings.now)) }
        ensures { octets_of (run_at place (table self.now.readings.now)) ≡ signed_decimal result }
    {
        // Casts, here and below, that are proved to lose nothing: `TryFrom` would add an error that never comes.
        self.readings[place as usize - 1]
    }
}

impl<'a> Holder for ReadingsRecord<'a> {
    ghost meaning = { λ s. meant s.readings.now s.ok };

    fn root(&self) -> u32 {
        ROOT
    }

    #[tactic(auto, using(crate::proofs::Places::kind_reading))]
    fn kind_at(&self, place: u32) -> Kind {
        if place == ROOT {
            Kind::List
        } else {
            Kind::Atom
        }
    }

    #[tactic(auto, using(crate::proofs::Places::first_reading))]
    fn first_in(&self, _place: u32) -> Option<u32> {
        (!self.readings.is_empty()).then_some(ROOT + 1)
    }

    #[tactic(auto, using(crate::proofs::Places::next_reading, crate::proofs::Places::reading_stands))]
    fn next_after(&self, place: u32) -> Option<u32> {
        if place == ROOT {
            return None;
        }
        ((place as usize) < self.readings.len()).then_some(place + 1)
    }

    // Here and below one digit is told without writing it out, in half the time.
    fn length_at(&self, place: u32) -> usize {
        match self.reading_at(place) {
            0..=9 => 1,
            reading => length(reading),
        }
    }

    fn octet_at(&self, place: u32, index: usize) -> u8 {
        match self.reading_at(place) {
            digit @ 0..=9 => b'0' + digit as u8,
            reading => octet(reading, index),
        }
    }
}
