//! A rule's elements, checked in the order of the text.
ghost use Rattle.std.specs.Prelude.{[]};
ghost use Rattle.holder.specs.Placed.{Stands};
ghost use Rattle.texts.specs.Walked.{run_from};
ghost use Rattle.books.specs.Items.{first_items};
ghost use Rattle.books.specs.Scanning.{scan, scan_atom, scan_element, scan_name, scan_new};
ghost use Rattle.books.specs.Checks.{seen_by, Goes, Reads};
ghost use Rattle.books.specs.Listed.{slot_of};
ghost use Rattle.books.specs.declared.checking.Side.TheVariants.{Pattern, Template};

use crate::names::{Name, Names};
use holder::holding::Holder;
use rules::signs::{PatternAtom, Sign, read_atom};
use sexp::refusals::Refusal;
use sexp::tokens::Token;
use texts::record::TextRecord;

/// The most elements of a pattern, and of a template, their roots counted.
pub(crate) const MOST_ELEMENTS: usize = 256;

/// The most octets of a name.
pub(crate) const MOST_NAME: usize = 32;

// The two parts of a rule.
#[derive(Clone, Copy, PartialEq, Eq)]
pub(crate) enum Side {
    Pattern,
    Template,
}

// A check of one side of a rule: how many of its elements are behind, and the names of the pattern that are.
#[derive(Drop)]
struct Check<'a> {
    record: TextRecord<'a>,
    side: Side,
    elements: usize,
    names: Names<'a>,
}

impl<'a> Check<'a> {
    // Passes an element at an offset, unless it is one too many.
    fn pass(&mut self, offset: usize) -> Result<(), Refusal>
        ensures { Goes self.old (scan_element (seen_by self.old) offset) self.new result }
    {
        if self.elements >= MOST_ELEMENTS {
            return Err(Refusal::RuleLimit { offset });
        }
        self.elements += 1;
        Ok(())
    }

    // Passes a name at an offset.
    fn name(&mut self, offset: usize, name: Name<'a>) -> Result<(), Refusal>
        ensures { let slot = slot_of name.entry in
            Goes self.old (scan_name self.old.side (seen_by self.old) offset slot) self.new result }
    {
        if name.octets.is_empty() || name.octets.len() > MOST_NAME {
            return Err(Refusal::NameLength { offset });
        }
        if name.sign == Sign::Segment && self.elements == 0 {
            return Err(Refusal::WholeSegment { offset });
        }
        match self.names.sign_of(name.octets) {
            Some(sign) if sign != name.sign => Err(Refusal::OtherSign { offset }),
            Some(_) => self.pass(offset),
            None => self.new_name(offset, name),
        }
    }

    // Takes in a name that the pattern has not had before.
    fn new_name(&mut self, offset: usize, name: Name<'a>) -> Result<(), Refusal>
        ensures { let slot = slot_of name.entry in
            Goes self.old (scan_new self.old.side (seen_by self.old) offset slot) self.new result }
    {
        self.pass(offset)?;
        match self.side {
            Side::Template => Err(Refusal::UnboundName { offset }),
            Side::Pattern if self.names.is_crowded(name.sign) => Err(Refusal::RuleLimit { offset }),
            Side::Pattern => {
                self.names.push(name);
                Ok(())
            }
        }
    }

    // Passes an atom at an offset.
    fn atom(&mut self, offset: usize, octets: &'a [u8]) -> Result<(), Refusal>
        ensures { Goes self.old (scan_atom self.old.side (seen_by self.old) offset octets.now) self.new result }
    {
        match read_atom(octets) {
            None => Err(Refusal::UnknownSign { offset }),
            Some(PatternAtom::Constant(_)) => self.pass(offset),
            Some(PatternAtom::Name(sign, octets)) => self.name(offset, Name { sign, octets }),
        }
    }

    // Passes the element at a place, with all that it holds.
    fn element(&mut self, place: u32) -> Result<(), Refusal>
        requires { Stands (run_from self.old.record.text.now place) }
        ensures { let run = run_from self.old.record.text.now place in
            Goes self.old (scan self.old.side (seen_by self.old) (first_items run)) self.new result }
    {
        let offset = place as usize;
        match self.record.token_at(place)?.token {
            Token::Atom { octets, .. } => self.atom(offset, octets),
            Token::Opening { .. } => {
                self.pass(offset)?;
                let mut rest = self.record.first_in(place);
                while let Some(inner) = rest {
                    self.element(inner)?;
                    rest = self.record.next_after(inner);
                }
                Ok(())
            }
            Token::Closing { .. } => unreachable!(),
        }
    }
}

// The names of the pattern at a place, in a rule of which this is one side.
fn check_side<'a>(
    text: TextRecord<'a>,
    side: Side,
    place: u32,
    names: Names<'a>,
) -> Result<Names<'a>, Refusal>
    requires { Stands (run_from text.text.now place) }
    ensures { let items = first_items (run_from text.entry.text.now place) in
        Reads (scan side (record { elements = 0; names = names.entry }) items) result }
{
    let mut check = Check {
        record: text,
        side,
        elements: 0,
        names,
    };
    check.element(place)?;
    Ok(check.names)
}

/// The names of the pattern at a place, or its first fault.
pub(crate) fn check_pattern<'a>(text: TextRecord<'a>, place: u32) -> Result<Names<'a>, Refusal>
    requires { Stands (run_from text.text.now place) }
    ensures { let items = first_items (run_from text.entry.text.now place) in
        Reads (scan Pattern (record { elements = 0; names = [] }) items) result }
{
    check_side(text, Side::Pattern, place, Names::new())
}

/// The first fault of a template at a place, where its pattern has these names.
pub(crate) fn check_template<'a>(
    text: TextRecord<'a>,
    place: u32,
    names: Names<'a>,
) -> Result<Names<'a>, Refusal>
    requires { Stands (run_from text.text.now place) }
    ensures { let items = first_items (run_from text.entry.text.now place) in
        Reads (scan Template (record { elements = 0; names = names.entry }) items) result }
{
    check_side(text, Side::Template, place, names)
}
