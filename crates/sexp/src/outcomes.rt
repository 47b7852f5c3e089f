//! What the check of a text answers, as it prints.
use crate::reader::Extent;
use crate::refusals::Refusal;
use std::fmt;

/// The answer to the check of a text: how large its record is, or why it is refused.
#[derive(Clone, Copy, PartialEq, Eq, Debug)]
pub struct Outcome(pub Result<Extent, Refusal>);

impl fmt::Display for Outcome {
    ghost use Rattle.std.specs.Prelude.{Some};
    ghost use Rattle.sexp.specs.Lines.{outcome_line};

    ghost output = { λ o. Some (outcome_line o.0) };

    fn fmt<W: fmt::Write>(&self, f: &mut fmt::Formatter<W>) -> fmt::Result {
        match self.0 {
            Ok(extent) => write!(f, "accepted, {extent}"),
            Err(refusal) => write!(f, "{refusal}"),
        }
    }
}
