//! A stack over a lent slice.
ghost use Rattle.std.specs.Prelude.{◌≡◌, [], length, reverse, nat_le, slice_get};
ghost use Rattle.fitting.specs.Stacks.{Pushes, Pops};

use std::marker::Model;

/// A stack whose entries lie at the front of a lent slice. Contracts see the list of them, the last one first, and how
/// many there may be.
#[derive(Drop)]
pub(crate) struct Stack<'m, T: Copy> {
    slots: &'m mut [T],
    depth: usize,
}

impl<'m, T: Copy> Model for Stack<'m, T> {
    ghost use Rattle.std.specs.Prelude.{◌≤◌, length, reverse, take};
    ghost use Rattle.fitting.specs.Stacked.{Stacked};

    ghost Value = { Stacked T };

    ghost view = { λ s. record { entries = reverse (take s.depth s.slots.now); room = length s.slots.now } };

    ghost invariant = { λ s. s.depth ≤ length s.slots.now };
}

/// No slot is left for an entry.
#[derive(Clone, Copy, PartialEq, Eq, Debug)]
pub(crate) struct Full;

impl<'m, T: Copy> Stack<'m, T> {
    /// An empty stack over a slice.
    pub(crate) fn new(slots: &'m mut [T]) -> Stack<'m, T>
        ensures { result ≡ record { entries = []; room = length slots.old } }
    {
        Stack { slots, depth: 0 }
    }

    /// How many entries there are.
    pub(crate) fn len(&self) -> usize
        ensures { result ≡ length self.now.entries }
    {
        self.depth
    }

    /// Whether no slot is left.
    pub(crate) fn is_full(&self) -> bool
        ensures { result ≡ nat_le self.now.room (length self.now.entries) }
    {
        self.depth >= self.slots.len()
    }

    /// Puts an entry on the stack. A full one stays as it is.
    pub(crate) fn push(&mut self, entry: T) -> Result<(), Full>
        ensures { Pushes self.old entry self.new result }
    {
        if self.is_full() {
            return Err(Full);
        }
        self.slots[self.depth] = entry;
        self.depth += 1;
        Ok(())
    }

    /// Takes the last entry off.
    pub(crate) fn pop(&mut self) -> Option<T>
        ensures { Pops self.old self.new result }
    {
        let below = self.depth.checked_sub(1)?;
        self.depth = below;
        Some(self.slots[below])
    }

    /// The entry at an index, from the bottom.
    pub(crate) fn get(&self, index: usize) -> Option<T>
        ensures { result ≡ slice_get (reverse self.now.entries) index }
    {
        self.slots[..self.depth].get(index).copied()
    }
}
