//! Drafts: books whose rules are still being taken.
ghost use Rattle.std.specs.Prelude.{◌≡◌, codes};
ghost use Rattle.sexp.specs.Reading.{verdict};
ghost use Rattle.books.specs.Drafts.{begun, beginning, begun_or, take_verdict, numbered, taking};
ghost use Rattle.books.specs.Drafts.{skip_answer, skipped, TakeRefusedAsListed, TakesWhatIsWritten};
ghost use Rattle.rules.specs.Lawful.{LawfulBook};
ghost use Rattle.cases.specs.Cases.{CasesHold};
ghost use Rattle.rules.specs.Complete.{KeysTellFits, CompleteListExists, AtMostOneComplete};

use crate::books::{Book, MOST_RULES};
use crate::sides::check_rule;
use holder::holding::Holder;
use holder::kinds::Kind;
use sexp::refusals::Refusal;
use std::marker::Model;
use texts::record::TextRecord;

/// A borrowed text of rules, those that have been taken, and which one is next. Contracts see the list of the rules
/// taken, and the run of elements that are left.
#[derive(Drop)]
pub struct Draft<'a> {
    record: TextRecord<'a>,
    places: [u32; MOST_RULES],
    taken: usize,
    next: Option<u32>,
}

impl<'a> Model for Draft<'a> {
    ghost use Rattle.std.specs.Prelude.{map, take};
    ghost use Rattle.books.specs.Codes.{drafted_code};
    ghost use Rattle.books.specs.Drafts.{Drafted};
    ghost use Rattle.books.specs.Meant.{rule_at, run_from_next, NextStands, Keeps};

    ghost Value = { Drafted };

    ghost coded = { drafted_code };

    ghost view = { λ d. record {
      taken = map (rule_at d.record.text.now) (take d.taken d.places);
      left = run_from_next d.record.text.now d.next;
    } };

    ghost invariant = { λ d. Keeps d.record.text.now d.places d.taken
        × NextStands d.record.text.now d.next };
}

impl<'a> Draft<'a> {
    /// A draft over the text of the empty list.
    pub fn new() -> Draft<'a>
        ensures { result ≡ begun (codes "()") }
    {
        Draft {
            record: TextRecord::new(),
            places: [0; MOST_RULES],
            taken: 0,
            next: None,
        }
    }

    /// Begins anew over a text, with no rule taken. A text that is refused, and one of no list, leaves the draft.
    pub fn begin(&mut self, text: &'a [u8]) -> Result<(), Refusal>
        ensures answer { result ≡ beginning (verdict text.now) }
        ensures left { self.new ≡ begun_or result (begun text.now) self.old }
    {
        let mut record = TextRecord::new();
        record.fill(text)?;
        let root = record.root();
        match record.kind_at(root) {
            Kind::Atom => Err(Refusal::NotAList { offset: 0 }),
            Kind::List => {
                self.record = record;
                self.taken = 0;
                self.next = record.first_in(root);
                Ok(())
            }
        }
    }

    /// Takes the next rule, and tells its number. A rule that is refused is still next.
    pub fn take(&mut self) -> Result<usize, Refusal>
        ensures answer { result ≡ numbered self.old (take_verdict self.old) }
        ensures left { self.new ≡ taking self.old (take_verdict self.old) }
        ensures refused { TakeRefusedAsListed self.old result }
        ensures written { TakesWhatIsWritten self.old (take_verdict self.old) }
        ensures lawful { LawfulBook self.new.taken }
    {
        let place = self.next.ok_or(Refusal::NoRule)?;
        if self.taken >= MOST_RULES {
            return Err(Refusal::BookFull);
        }
        check_rule(self.record, place)?;
        self.places[self.taken] = place;
        self.taken += 1;
        self.next = self.record.next_after(place);
        Ok(self.taken)
    }

    /// Passes the next rule by.
    pub fn skip(&mut self) -> Result<(), Refusal>
        ensures answer { result ≡ skip_answer self.old }
        ensures left { self.new ≡ skipped self.old }
    {
        let passed = self.next.ok_or(Refusal::NoRule)?;
        self.next = self.record.next_after(passed);
        Ok(())
    }

    /// The book of the rules taken. It takes no more.
    pub fn close(self) -> Book<'a>
        ensures rules { result ≡ self.entry.taken }
        ensures lawful { LawfulBook result }
        ensures keys { KeysTellFits }
        ensures some { CompleteListExists }
        ensures one { AtMostOneComplete }
        ensures cases { CasesHold }
    {
        Book {
            record: self.record,
            places: self.places,
            taken: self.taken,
        }
    }
}
