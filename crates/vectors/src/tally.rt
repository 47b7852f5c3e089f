//! How many cases there were, and how many gave something else than they should.
use std::{fmt, io};

/// The count of the cases.
#[derive(Default, Drop)]
pub struct Tally {
    pub cases: u32,
    pub wrong: u32,
}

impl Tally {
    /// Prints a case, and counts it.
    pub(crate) fn case<T: fmt::Display + PartialEq>(
        &mut self,
        rt: &HostRuntime,
        name: &str,
        gave: &T,
        should: &T,
    ) -> io::Result<()> {
        self.cases = self.cases.saturating_add(1);
        if *gave == *should {
            return println!(rt; "right: {name}: {gave}");
        }
        self.wrong = self.wrong.saturating_add(1);
        println!(rt; "WRONG: {name}: {gave}, and not {should}")
    }
}
