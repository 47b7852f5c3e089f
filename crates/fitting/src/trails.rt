//! What has been laid of a pattern: marks on one stack, and the places of the record's elements on another.
ghost use Rattle.std.specs.Prelude.{◌≡◌, [], length, min, reverse, slice_get};
ghost use Rattle.fitting.specs.Stacks.{Pushes, Pops};

use crate::marks::Mark;
use crate::stacks::{Full, Stack};
use std::marker::Model;

/// The two stacks, always of one height. Contracts see one stack of pairs.
#[derive(Drop)]
pub(crate) struct Trail<'m, 'p> {
    marks: Stack<'m, Mark>,
    places: Stack<'p, u32>,
}

impl<'m, 'p> Model for Trail<'m, 'p> {
    ghost use Rattle.std.specs.Prelude.{◌≡◌, length, min};
    ghost use Rattle.std.specs.List.{zip};
    ghost use Rattle.fitting.specs.Entries.{Entry};
    ghost use Rattle.fitting.specs.Stacked.{Stacked};

    ghost Value = { Stacked Entry };

    ghost view = { λ t. record {
      entries = zip t.marks.entries t.places.entries;
      room = min t.marks.room t.places.room;
    } };

    ghost invariant = { λ t. length t.marks.entries ≡ length t.places.entries };
}

impl<'m, 'p> Trail<'m, 'p> {
    /// An empty trail over lent memory.
    pub(crate) fn new(marks: &'m mut [Mark], places: &'p mut [u32]) -> Trail<'m, 'p>
        ensures { result ≡ record { entries = []; room = min (length marks.old) (length places.old) } }
    {
        let marks = Stack::new(marks);
        let places = Stack::new(places);
        Trail { marks, places }
    }

    /// How many entries there are.
    pub(crate) fn len(&self) -> usize
        ensures { result ≡ length self.now.entries }
    {
        self.marks.len()
    }

    /// Puts a mark on the trail, with a place. A full one stays as it is.
    pub(crate) fn push(&mut self, mark: Mark, place: u32) -> Result<(), Full>
        ensures { Pushes self.old (mark, place) self.new result }
    {
        if self.places.is_full() {
            return Err(Full);
        }
        self.marks.push(mark)?;
        self.places.push(place)
    }

    /// Takes the last entry off.
    pub(crate) fn pop(&mut self) -> Option<(Mark, u32)>
        ensures { Pops self.old self.new result }
    {
        let mark = self.marks.pop()?;
        let place = self.places.pop()?;
        Some((mark, place))
    }

    /// The entry at an index, from the bottom.
    pub(crate) fn get(&self, index: usize) -> Option<(Mark, u32)>
        ensures { result ≡ slice_get (reverse self.now.entries) index }
    {
        let mark = self.marks.get(index)?;
        let place = self.places.get(index)?;
        Some((mark, place))
    }
}
