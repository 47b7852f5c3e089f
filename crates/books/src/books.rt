//! Books: rules that have been taken.
ghost use Rattle.std.specs.Prelude.{◌≡◌, length};
ghost use Rattle.rules.specs.Lawful.{LawfulBook};
ghost use Rattle.books.specs.Checks.{RuleStands};
ghost use Rattle.books.specs.Meant.{NamesOf, RuleHeld};

use crate::checking::check_pattern;
use crate::names::Names;
use crate::places::PlacedRule;
use holder::holding::Holder;
use std::marker::Model;
use texts::record::TextRecord;

/// The most rules of a book.
pub const MOST_RULES: usize = 64;

/// A borrowed text, and where its rules lie in it. Contracts see the list of the rules.
#[derive(Drop)]
pub struct Book<'a> {
    pub(crate) record: TextRecord<'a>,
    pub(crate) places: [u32; MOST_RULES],
    pub(crate) taken: usize,
}

impl<'a> Model for Book<'a> {
    ghost use Rattle.std.specs.Prelude.{List, map, take};
    ghost use Rattle.std.specs.Coded.{coded_list};
    ghost use Rattle.rules.specs.Codes.{rule_code};
    ghost use Rattle.rules.specs.Patterns.{Rule};
    ghost use Rattle.books.specs.Meant.{rule_at, Keeps};

    ghost Value = { List Rule };

    ghost coded = { coded_list rule_code };

    ghost view = { λ b. map (rule_at b.record.text.now) (take b.taken b.places) };

    ghost invariant = { λ b. Keeps b.record.text.now b.places b.taken };
}

impl<'a> Book<'a> {
    /// The number of its rules.
    pub fn len(&self) -> usize
        ensures len { result ≡ length self.now }
        ensures lawful { LawfulBook self.now }
    {
        self.taken
    }

    /// The names of the pattern of a rule, or none where no rule has the number.
    pub fn names(&self, rule: usize) -> Option<Names<'a>>
        ensures names { NamesOf self.now rule result }
        ensures lawful { LawfulBook self.now }
    {
        let (text, place) = self.place_of(rule)?;
        let pattern = text.first_in(place)?;
        check_pattern(text, pattern).ok()
    }

    /// Where the pattern and the template of a rule lie, or none where no rule has the number.
    pub fn rule(&self, rule: usize) -> Option<PlacedRule<'a>>
        ensures held { RuleHeld self.now rule result }
        ensures lawful { LawfulBook self.now }
    {
        let (text, place) = self.place_of(rule)?;
        let pattern = text.first_in(place)?;
        let template = text.next_after(pattern)?;
        Some(PlacedRule {
            text,
            pattern,
            template,
        })
    }

    // The text, and where a rule stands in it, or none where no rule has the number.
    fn place_of(&self, rule: usize) -> Option<(TextRecord<'a>, u32)>
        ensures stands { RuleStands self.now rule result }
        ensures lawful { LawfulBook self.now }
    {
        let taken = &self.places[..self.taken];
        let place = *taken.get(rule.checked_sub(1)?)?;
        Some((self.record, place))
    }
}
