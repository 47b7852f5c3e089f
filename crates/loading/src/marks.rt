//! How much of a node memory is used, and the guard that sets it back.
ghost use Rattle.std.specs.Prelude.{◌≡◌};

/// The number of used nodes, which are those at the front of a node memory.
#[derive(Clone, Copy, PartialEq, Eq, Debug)]
pub struct Mark {
    pub used: usize,
}

// Holds a mark while it runs ahead. Let go, it sets the mark back to where it was.
pub(crate) struct Guard<'m> {
    pub(crate) mark: &'m mut Mark,
    pub(crate) start: usize,
}

impl Drop for Guard<'_> {
    fn drop(self)
        ensures { self.exit.0.now.used ≡ self.entry.start }
    {
        let Guard { mark, start } = self;
        mark.used = start;
    }
}

impl<'m> Guard<'m> {
    // Leaves the mark where it has come to.
    pub(crate) fn keep(self)
        ensures { self.exit.0.now ≡ self.entry.mark.now }
    {
        let Guard { mark: _, start: _ } = self;
    }
}
