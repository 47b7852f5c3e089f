//! The elements of a holder's record. An element is a place at which one stands, so its methods ask for nothing.
ghost use Rattle.std.specs.Prelude.{◌≡◌, ◌<◌, ◌≤◌, length, slice_get, slice_index};
ghost use Rattle.holder.specs.Contents.{Shows};
ghost use Rattle.holder.specs.Placed.{erase, inside, behind, Stands, IsList};
ghost use Rattle.holder.specs.Walks.{run_of, Limited};

use crate::holding::Holder;
use crate::kinds::Kind;
use std::marker::Model;

/// An element of a record. Contracts see the run that begins with it: the element, and those behind it in its list.
#[derive(Drop)]
pub struct Element<'h, H: Holder> {
    holder: &'h H,
    place: u32,
}

impl<'h, H: Holder> Model for Element<'h, H> {
    ghost use Rattle.holder.specs.Codes.{placed_code};
    ghost use Rattle.holder.specs.Placed.{Placed, run_at, Stands};

    ghost Value = { Placed };

    ghost coded = { placed_code };

    ghost view = { λ e. run_at e.place (H.meaning e.holder.now).tree };

    ghost invariant = { λ e. Stands (run_at e.place (H.meaning e.holder.now).tree) };
}

/// The octets of an atom. Contracts see the list of them.
// The fields of `Element`, of which contracts see something else.
#[derive(Drop)]
pub struct Octets<'h, H: Holder> {
    holder: &'h H,
    place: u32,
}

impl<'h, H: Holder> Model for Octets<'h, H> {
    ghost use Rattle.std.specs.Prelude.{ℕ, List};
    ghost use Rattle.holder.specs.Placed.{run_at, octets_of, IsAtom};

    ghost Value = { List ℕ };

    ghost view = { λ a. octets_of (run_at a.place (H.meaning a.holder.now).tree) };

    ghost invariant = { λ a. IsAtom (run_at a.place (H.meaning a.holder.now).tree) };
}

/// What an element is: a list, with its first element if it has one, or an atom.
pub enum Content<'h, H: Holder> {
    List(Option<Element<'h, H>>),
    Atom(Octets<'h, H>),
}

impl<'h, H: Holder> Element<'h, H> {
    /// The root of a holder's record.
    pub fn root(holder: &'h H) -> Element<'h, H>
        ensures { result ≡ (H.meaning holder.now).tree }
    {
        Element {
            holder,
            place: holder.root(),
        }
    }

    /// What the element is.
    #[tactic(auto, using(crate::proofs::Walk::limited))]
    pub fn content(&self) -> Content<'h, H>
        ensures shows { Shows result self.now }
        ensures within { Limited (erase self.now) }
    {
        match self.holder.kind_at(self.place) {
            Kind::List => Content::List(self.first()),
            Kind::Atom => Content::Atom(Octets {
                holder: self.holder,
                place: self.place,
            }),
        }
    }

    // The first element of a list.
    #[tactic(auto, using(crate::proofs::Walk::first_found, crate::proofs::Walk::first_stands))]
    fn first(&self) -> Option<Element<'h, H>>
        requires { IsList self.now }
        ensures { run_of result ≡ inside self.now }
    {
        let place = self.holder.first_in(self.place)?;
        Some(Element {
            holder: self.holder,
            place,
        })
    }

    /// The next element of the same list.
    // Here and in `first` no `map`: the invariant of what a closure makes is not proved.
    #[tactic(auto, using(crate::proofs::Walk::next_found, crate::proofs::Walk::next_stands))]
    pub fn next(&self) -> Option<Element<'h, H>>
        ensures stands { Stands self.now }
        ensures behind { run_of result ≡ behind self.now }
    {
        let place = self.holder.next_after(self.place)?;
        Some(Element {
            holder: self.holder,
            place,
        })
    }
}

impl<'h, H: Holder> Octets<'h, H> {
    /// How many there are.
    #[tactic(auto, using(crate::proofs::Walk::atom_short))]
    pub fn len(&self) -> usize
        ensures len { result ≡ length self.now }
        ensures short { length self.now ≤ 1024 }
    {
        self.holder.length_at(self.place)
    }

    /// The octet at an index.
    pub(crate) fn at(&self, index: usize) -> u8
        requires { index < length self.now }
        ensures { result ≡ slice_index self.now index }
    {
        self.holder.octet_at(self.place, index)
    }

    /// The octet at an index, or none behind the last one.
    pub fn get(&self, index: usize) -> Option<u8>
        ensures { result ≡ slice_get self.now index }
    {
        if index < self.len() {
            Some(self.at(index))
        } else {
            None
        }
    }
}
