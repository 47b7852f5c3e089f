//! A rule as a whole: a list of two sides.
ghost use Rattle.holder.specs.Placed.{Stands};
ghost use Rattle.texts.specs.Walked.{run_from};
ghost use Rattle.books.specs.Checks.{Halves, IsVerdict};

use crate::checking::{check_pattern, check_template};
use holder::holding::Holder;
use holder::kinds::Kind;
use sexp::refusals::Refusal;
use texts::record::TextRecord;

// The pattern and the template of the rule at a place, if it is a list of two elements.
fn halves(text: TextRecord<'_>, place: u32) -> Option<(u32, u32)>
    requires { Stands (run_from text.text.now place) }
    ensures { Halves text.entry.text.now (run_from text.entry.text.now place) result }
{
    if text.kind_at(place) == Kind::Atom {
        return None;
    }
    let pattern = text.first_in(place)?;
    let template = text.next_after(pattern)?;
    match text.next_after(template) {
        None => Some((pattern, template)),
        Some(_) => None,
    }
}

/// Whether the element at a place is a rule without a fault, or its first fault.
pub(crate) fn check_rule(text: TextRecord<'_>, place: u32) -> Result<(), Refusal>
    requires { Stands (run_from text.text.now place) }
    ensures { IsVerdict (run_from text.entry.text.now place) result }
{
    let Some((pattern, template)) = halves(text, place) else {
        return Err(Refusal::NotAList {
            offset: place as usize,
        });
    };
    let names = check_pattern(text, pattern)?;
    check_template(text, template, names)?;
    Ok(())
}
