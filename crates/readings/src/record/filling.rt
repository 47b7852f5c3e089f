//! What the record holds.
ghost use Rattle.std.specs.Prelude.{◌≡◌, []};
ghost use Rattle.readings.specs.Readings.{Fills};

use super::{MOST_READINGS, ReadingsRecord};
use sexp::refusals::Refusal;

impl<'a> ReadingsRecord<'a> {
    /// A record of no reading.
    pub fn new() -> ReadingsRecord<'a>
        ensures { result.readings.now ≡ [] }
    {
        ReadingsRecord { readings: &[] }
    }

    /// Takes readings in place of those held. Too many are refused, and the record stays as it was.
    pub fn fill(&mut self, readings: &'a [i32]) -> Result<(), Refusal>
        ensures { Fills readings.now self.old.readings.now self.new.readings.now result }
    {
        if readings.len() > MOST_READINGS {
            return Err(Refusal::OverLimit { offset: 0 });
        }
        self.readings = readings;
        Ok(())
    }
}
