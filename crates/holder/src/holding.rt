//! What holds a record.
ghost use Rattle.std.specs.Prelude.{◌≡◌, ◌<◌, length, Some, slice_index};
ghost use Rattle.holder.specs.Placed.{Meaning, run_at, front, inside, behind, octets_of, kind_of};
ghost use Rattle.holder.specs.Placed.{Stands, IsList, IsAtom};

use crate::kinds::Kind;

/// A record behind questions. A place is a number that stands for one of its elements; each answer is what the record
/// says, however often the question is put. The questions are asked only about places that the same holder gave.
// Each question is put by a bare place, and so has a premise: what is built on holders keeps places as numbers.
pub trait Holder {
    ghost meaning: { Self → Meaning };

    /// The root's place.
    fn root(&self) -> u32
        ensures { front (meaning self.now).tree ≡ Some result };

    /// What the element at a place is.
    fn kind_at(&self, place: u32) -> Kind
        requires { Stands (run_at place (meaning self.now).tree) }
        ensures { result ≡ kind_of (run_at place (meaning self.now).tree) };

    /// The place of a list's first element.
    fn first_in(&self, place: u32) -> Option<u32>
        requires { IsList (run_at place (meaning self.now).tree) }
        ensures { result ≡ front (inside (run_at place (meaning self.now).tree)) };

    /// The place of the next element of the same list.
    fn next_after(&self, place: u32) -> Option<u32>
        requires { Stands (run_at place (meaning self.now).tree) }
        ensures { result ≡ front (behind (run_at place (meaning self.now).tree)) };

    /// An atom's number of octets.
    fn length_at(&self, place: u32) -> usize
        requires { IsAtom (run_at place (meaning self.now).tree) }
        ensures { result ≡ length (octets_of (run_at place (meaning self.now).tree)) };

    /// An atom's octet at an index below its length.
    fn octet_at(&self, place: u32, index: usize) -> u8
        requires atom { IsAtom (run_at place (meaning self.now).tree) }
        requires below { index < length (octets_of (run_at place (meaning self.now).tree)) }
        ensures { result ≡ slice_index (octets_of (run_at place (meaning self.now).tree)) index };
}
