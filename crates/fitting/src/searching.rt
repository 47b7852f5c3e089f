//! The search for a fit: the pattern is laid along the record, element by element, and goes on from the last segment
//! that can take one element more.
ghost use Rattle.std.specs.Prelude.{◌≡◌, ◌<◌, ◌≤◌, ◌==◌, true, [], ◌∷◌, slice_index, Some, None, IfSome, MatchOption};
ghost use Rattle.std.specs.Prelude.{if◌then◌else◌};
ghost use Rattle.holder.specs.Placed.{run_at, IsList, Stands, erase};
ghost use Rattle.rules.specs.Patterns.{quote, sign_octet};
ghost use Rattle.rules.specs.declared.signs.Sign.TheVariants.{Variable, Segment};
ghost use Rattle.texts.specs.Label.{accepts, text_tree};
ghost use Rattle.sexp.specs.Reading.{verdict};
ghost use Rattle.fitting.specs.Moves.{Steps, Finds, Reads, IsNew, IsKnown, Walks, Retreats, Seeks, position_of};
ghost use Rattle.fitting.specs.Moves.{HasRoom, Marks, GoesOn, MarksName};
ghost use Rattle.fitting.specs.Trails.{is_marked};
ghost use Rattle.fitting.specs.Searches.{TrailSound, CursorStands, IsEntry, Begins};
ghost use Rattle.fitting.specs.Sound.{Sound};
ghost use Rattle.std.specs.List.{list_all};
ghost use Rattle.search.specs.Least.{OfFit, LeastAfter};
ghost use Rattle.fitting.specs.Finding.{pattern_at, LawfulPattern, Tells, HasFit};

use crate::comparing::{has_octets, pass, pass_same};
use crate::marks::{Laid, Mark};
use crate::trails::Trail;
use books::names::MOST_SEGMENTS;
use holder::holding::Holder;
use holder::kinds::Kind;
use rules::signs::{PatternAtom, Sign, read_atom};
use sexp::tokens::Token;
use texts::record::TextRecord;

/// The lengths of a pattern's segments, and 0 where it has fewer.
pub(crate) type Lengths = [u16; MOST_SEGMENTS];

// Where the search stands: in the pattern and in the record, each in a list that is open or behind its last element.
#[derive(Clone, Copy)]
struct Cursor {
    pattern: Option<u32>,
    element: Option<u32>,
    // The number of marks up to the one of the innermost open list; 0 where none is open.
    around: u16,
}

// What a step came to.
#[derive(Clone, Copy, PartialEq, Eq)]
enum Step {
    // The search stands behind it.
    Laid,
    // The pattern can't go on so.
    Stuck,
    // All of the pattern is laid.
    Done,
}

/// A search under way.
#[derive(Drop)]
pub(crate) struct Search<'s, 'm, 'p, H: Holder> {
    pub(crate) text: TextRecord<'s>,
    pub(crate) record: &'s H,
    trail: Trail<'m, 'p>,
    cursor: Cursor,
    // The lengths of the segments laid, and what the others begin with.
    lengths: Lengths,
    // How many segments are laid.
    segments: usize,
}

impl<'s, 'm, 'p, H: Holder> Search<'s, 'm, 'p, H> {
    // Puts a mark on the trail, with the place of the record's element.
    fn mark(&mut self, laid: Laid, pattern: u32, length: u16, behind: Option<u32>, place: u32)
        requires room { HasRoom self.old }
        ensures { Marks self.old self.new laid pattern length behind place }
    {
        let mark = Mark {
            laid,
            pattern,
            around: self.cursor.around,
            length,
            behind,
        };
        // There is a mark at most for each element of the pattern.
        if self.trail.push(mark, place).is_err() {
            unreachable!()
        }
    }

    // Lays the end of a list.
    fn close(&mut self) -> Step
        requires sound { TrailSound (H.meaning self.old.«record».now).tree self.old }
        requires cursor { CursorStands (H.meaning self.old.«record».now).tree self.old }
        requires ended { self.old.cursor.pattern ≡ None }
        ensures { Steps (H.meaning self.old.«record».now).tree self.old self.new result }
    {
        if self.cursor.element.is_some() {
            return Step::Stuck;
        }
        let Some((list, place)) = self.trail.get(usize::from(self.cursor.around) - 1) else {
            unreachable!()
        };
        self.cursor = Cursor {
            pattern: self.text.next_after(list.pattern),
            element: self.record.next_after(place),
            around: list.around,
        };
        if list.around == 0 {
            Step::Done
        } else {
            Step::Laid
        }
    }

    // Goes on behind an element of the pattern.
    fn go_on(&mut self, pattern: u32, element: Option<u32>) -> Step
        requires { Stands (run_at pattern (text_tree self.old.text.text.now)) }
        ensures { GoesOn self.old pattern element self.new result }
    {
        self.cursor.pattern = self.text.next_after(pattern);
        self.cursor.element = element;
        if self.cursor.around == 0 {
            Step::Done
        } else {
            Step::Laid
        }
    }

    // Enters a list.
    fn enter(&mut self, pattern: u32) -> Step
        requires sound { TrailSound (H.meaning self.old.«record».now).tree self.old }
        requires cursor { CursorStands (H.meaning self.old.«record».now).tree self.old }
        requires at { self.old.cursor.pattern ≡ Some pattern }
        requires list { IsList (run_at pattern (text_tree self.old.text.text.now)) }
        ensures { Steps (H.meaning self.old.«record».now).tree self.old self.new result }
    {
        let Some(place) = self.cursor.element else {
            return Step::Stuck;
        };
        if self.record.kind_at(place) == Kind::Atom {
            return Step::Stuck;
        }
        self.mark(Laid::List, pattern, 0, None, place);
        self.cursor = Cursor {
            pattern: self.text.first_in(pattern),
            element: self.record.first_in(place),
            around: self.trail.len() as u16,
        };
        Step::Laid
    }

    // Lays a constant.
    fn constant(&mut self, pattern: u32, octets: &[u8]) -> Step
        requires sound { TrailSound (H.meaning self.old.«record».now).tree self.old }
        requires cursor { CursorStands (H.meaning self.old.«record».now).tree self.old }
        requires at { self.old.cursor.pattern ≡ Some pattern }
        requires is { Reads (text_tree self.old.text.text.now) pattern (quote ∷ octets.now) }
        ensures { Steps (H.meaning self.old.«record».now).tree self.old self.new result }
    {
        let Some(place) = self.cursor.element else {
            return Step::Stuck;
        };
        if self.record.kind_at(place) == Kind::List || !has_octets(self.record, place, octets) {
            return Step::Stuck;
        }
        self.go_on(pattern, self.record.next_after(place))
    }

    // Lays the first occurrence of a variable.
    fn variable(&mut self, pattern: u32) -> Step
        requires sound { TrailSound (H.meaning self.old.«record».now).tree self.old }
        requires cursor { CursorStands (H.meaning self.old.«record».now).tree self.old }
        requires at { self.old.cursor.pattern ≡ Some pattern }
        requires new { IsNew (H.meaning self.old.«record».now).tree self.old pattern Variable }
        ensures { Steps (H.meaning self.old.«record».now).tree self.old self.new result }
    {
        let Some(place) = self.cursor.element else {
            return Step::Stuck;
        };
        let behind = self.record.next_after(place);
        self.mark(Laid::Variable, pattern, 1, behind, place);
        self.go_on(pattern, behind)
    }

    // Lays the first occurrence of a segment.
    fn segment(&mut self, pattern: u32) -> Step
        requires sound { TrailSound (H.meaning self.old.«record».now).tree self.old }
        requires cursor { CursorStands (H.meaning self.old.«record».now).tree self.old }
        requires at { self.old.cursor.pattern ≡ Some pattern }
        requires new { IsNew (H.meaning self.old.«record».now).tree self.old pattern Segment }
        ensures { Steps (H.meaning self.old.«record».now).tree self.old self.new result }
    {
        let length = self.lengths[self.segments];
        let first = self.cursor.element;
        let Some(behind) = pass(self.record, first, length) else {
            return Step::Stuck;
        };
        self.mark(Laid::Segment, pattern, length, behind, first.unwrap_or(0));
        self.segments += 1;
        self.go_on(pattern, behind)
    }

    // Lays a name that has been laid before.
    fn again(&mut self, pattern: u32, mark: Mark, run: u32) -> Step
        requires sound { TrailSound (H.meaning self.old.«record».now).tree self.old }
        requires cursor { CursorStands (H.meaning self.old.«record».now).tree self.old }
        requires at { self.old.cursor.pattern ≡ Some pattern }
        requires known { IsKnown (H.meaning self.old.«record».now).tree self.old pattern mark run }
        ensures { Steps (H.meaning self.old.«record».now).tree self.old self.new result }
    {
        match pass_same(self.record, run, mark.length, self.cursor.element) {
            Some(behind) => self.go_on(pattern, behind),
            None => Step::Stuck,
        }
    }

    // Whether a mark is of this name.
    fn is_of(&self, mark: Mark, name: &[u8]) -> bool
        requires { MarksName (text_tree self.now.text.text.now) mark }
        ensures { result ≡ is_marked (text_tree self.now.text.text.now) mark name.now }
    {
        if mark.laid == Laid::List {
            return false;
        }
        match self.text.token_at(mark.pattern) {
            Ok(step) => match step.token {
                Token::Atom { octets, .. } => name[..] == octets[1..],
                Token::Opening { .. } | Token::Closing { .. } => unreachable!(),
            },
            Err(_) => unreachable!(),
        }
    }

    /// The mark of a name's first occurrence, with the place of its first element.
    pub(crate) fn find(&self, name: &[u8]) -> Option<(Mark, u32)>
        requires { let rec = (H.meaning self.now.«record».now).tree in
            Sound (text_tree self.now.text.text.now) rec self.now.trail.entries }
        ensures { let rec = (H.meaning self.now.«record».now).tree in
            Finds (text_tree self.now.text.text.now) rec self.now.trail.entries name.now result }
    {
        for index in 0..self.trail.len() {
            let (mark, place) = self.trail.get(index)?;
            if self.is_of(mark, name) {
                return Some((mark, place));
            }
        }
        None
    }

    // Lays a name.
    fn name(&mut self, pattern: u32, sign: Sign, name: &[u8]) -> Step
        requires sound { TrailSound (H.meaning self.old.«record».now).tree self.old }
        requires cursor { CursorStands (H.meaning self.old.«record».now).tree self.old }
        requires at { self.old.cursor.pattern ≡ Some pattern }
        requires is { Reads (text_tree self.old.text.text.now) pattern (sign_octet sign ∷ name.now) }
        ensures { Steps (H.meaning self.old.«record».now).tree self.old self.new result }
    {
        match self.find(name) {
            Some((mark, run)) => self.again(pattern, mark, run),
            None => match sign {
                Sign::Variable => self.variable(pattern),
                Sign::Segment => self.segment(pattern),
            },
        }
    }

    // Lays the atom of the pattern at a place.
    fn atom(&mut self, pattern: u32, octets: &[u8]) -> Step
        requires sound { TrailSound (H.meaning self.old.«record».now).tree self.old }
        requires cursor { CursorStands (H.meaning self.old.«record».now).tree self.old }
        requires at { self.old.cursor.pattern ≡ Some pattern }
        requires is { Reads (text_tree self.old.text.text.now) pattern octets.now }
        ensures { Steps (H.meaning self.old.«record».now).tree self.old self.new result }
    {
        match read_atom(octets) {
            Some(PatternAtom::Constant(octets)) => self.constant(pattern, octets),
            Some(PatternAtom::Name(sign, name)) => self.name(pattern, sign, name),
            None => unreachable!(),
        }
    }

    // Lays the element of the pattern at a place.
    fn element(&mut self, pattern: u32) -> Step
        requires sound { TrailSound (H.meaning self.old.«record».now).tree self.old }
        requires cursor { CursorStands (H.meaning self.old.«record».now).tree self.old }
        requires at { self.old.cursor.pattern ≡ Some pattern }
        ensures { Steps (H.meaning self.old.«record».now).tree self.old self.new result }
    {
        match self.text.token_at(pattern) {
            Ok(step) => match step.token {
                Token::Opening { .. } => self.enter(pattern),
                Token::Atom { octets, .. } => self.atom(pattern, octets),
                Token::Closing { .. } => unreachable!(),
            },
            Err(_) => unreachable!(),
        }
    }

    // Lays what comes next in the pattern.
    fn advance(&mut self) -> Step
        requires sound { TrailSound (H.meaning self.old.«record».now).tree self.old }
        requires cursor { CursorStands (H.meaning self.old.«record».now).tree self.old }
        ensures { Steps (H.meaning self.old.«record».now).tree self.old self.new result }
    {
        match self.cursor.pattern {
            Some(pattern) => self.element(pattern),
            None => self.close(),
        }
    }

    // Lays the pattern as far as it goes, and says whether all of it is laid.
    fn walk(&mut self) -> bool
        requires sound { TrailSound (H.meaning self.old.«record».now).tree self.old }
        requires cursor { CursorStands (H.meaning self.old.«record».now).tree self.old }
        ensures { Walks (H.meaning self.old.«record».now).tree self.old self.new result }
    {
        loop {
            match self.advance() {
                Step::Laid => {}
                Step::Stuck => return false,
                Step::Done => return true,
            }
        }
    }

    // Goes back to the last segment that can take one element more, and takes it.
    fn retreat(&mut self) -> bool
        requires sound { TrailSound (H.meaning self.old.«record».now).tree self.old }
        ensures { let trail = self.old.trail.entries in
            Retreats (H.meaning self.old.«record».now).tree self.old trail self.new result }
    {
        while let Some((mark, place)) = self.trail.pop() {
            if mark.laid == Laid::Segment {
                self.segments -= 1;
                if let Some(next) = mark.behind {
                    self.regrow(mark, place, next);
                    return true;
                }
            }
        }
        false
    }

    // Lays a segment with one element more; those behind it begin anew.
    fn regrow(&mut self, mark: Mark, place: u32, next: u32)
        requires sound { TrailSound (H.meaning self.old.«record».now).tree self.old }
        requires entry { IsEntry (H.meaning self.old.«record».now).tree self.old (mark, place) }
        requires segment { mark.laid ≡ Laid.Segment }
        requires left { mark.behind ≡ Some next }
        requires few { self.old.segments < 4 }
        requires length { slice_index self.old.lengths self.old.segments ≡ mark.length }
        ensures { let trail = (mark, place) ∷ self.old.trail.entries in
            Retreats (H.meaning self.old.«record».now).tree self.old trail self.new true }
    {
        let length = mark.length + 1;
        let first = if mark.length == 0 { next } else { place };
        let behind = self.record.next_after(next);
        self.cursor.around = mark.around;
        self.mark(Laid::Segment, mark.pattern, length, behind, first);
        self.lengths[self.segments..].fill(0);
        self.lengths[self.segments] = length;
        self.segments += 1;
        self.cursor.pattern = self.text.next_after(mark.pattern);
        self.cursor.element = behind;
    }

    // Lays the pattern, going back as often as it must.
    fn seek(&mut self) -> bool
        requires sound { TrailSound (H.meaning self.old.«record».now).tree self.old }
        requires cursor { CursorStands (H.meaning self.old.«record».now).tree self.old }
        ensures { Seeks (H.meaning self.old.«record».now).tree self.old self.new result }
    {
        loop {
            if self.walk() {
                return true;
            }
            if !self.retreat() {
                return false;
            }
        }
    }

    // A search that has laid nothing yet, for a pattern at a place of a book's text; its segments begin with these
    // lengths.
    fn new(
        text: TextRecord<'s>,
        pattern: u32,
        record: &'s H,
        trail: Trail<'m, 'p>,
        lengths: Lengths,
    ) -> Search<'s, 'm, 'p, H>
        ensures text { result.text ≡ text.entry }
        ensures holder { result.«record» ≡ «record».entry }
        ensures trail { result.trail ≡ trail.entry }
        ensures lengths { result.lengths ≡ lengths }
        ensures begins { Begins (H.meaning «record».entry.now).tree pattern result }
    {
        let cursor = Cursor {
            pattern: Some(pattern),
            element: Some(record.root()),
            around: 0,
        };
        Search {
            text,
            record,
            trail,
            cursor,
            lengths,
            segments: 0,
        }
    }

    // Lays the pattern along the lengths, and says whether they are those of a fit.
    fn stands(&mut self) -> bool
        requires sound { TrailSound (H.meaning self.old.«record».now).tree self.old }
        requires cursor { CursorStands (H.meaning self.old.«record».now).tree self.old }
        ensures { Tells (H.meaning self.old.«record».now).tree self.old self.new result }
    {
        self.walk() && are_zeros(&self.lengths[self.segments..])
    }

    // The lengths laid.
    fn found(&self, is_found: bool) -> Option<Lengths>
        ensures { result ≡ (if is_found then Some self.now.lengths else None) }
    {
        is_found.then_some(self.lengths)
    }
}

// Whether all lengths are 0.
fn are_zeros(lengths: &[u16]) -> bool
    ensures { result ≡ list_all (λ length. length == 0) lengths.now }
{
    lengths.iter().all(|length| *length == 0)
}

/// The least lengths of a fit of a pattern and a record, behind these ones or of all.
pub(crate) fn least<'s, 'm, 'p, H: Holder>(
    text: TextRecord<'s>,
    pattern: u32,
    record: &'s H,
    trail: Trail<'m, 'p>,
    behind: Option<Lengths>,
) -> Option<Lengths>
    requires pattern { LawfulPattern text.text.now pattern }
    requires empty { trail.entries ≡ [] }
    requires room { 256 ≤ trail.room }
    ensures { let held = erase (H.meaning «record».entry.now).tree in
        LeastAfter (pattern_at text.entry.text.now pattern) held (position_of behind) result }
{
    match behind {
        None => {
            let mut search = Search::new(text, pattern, record, trail, [0; MOST_SEGMENTS]);
            let is_found = search.seek();
            search.found(is_found)
        }
        Some(lengths) => {
            let mut search = Search::new(text, pattern, record, trail, lengths);
            let _ = search.walk();
            let is_found = search.retreat() && search.seek();
            search.found(is_found)
        }
    }
}

/// The search that has laid a fit of a pattern and a record with these lengths, if there is one. What the pattern's
/// names stand for is found on its trail.
pub(crate) fn fit_of<'s, 'm, 'p, H: Holder>(
    text: TextRecord<'s>,
    pattern: u32,
    record: &'s H,
    trail: Trail<'m, 'p>,
    lengths: Lengths,
) -> Option<Search<'s, 'm, 'p, H>>
    requires pattern { LawfulPattern text.text.now pattern }
    requires empty { trail.entries ≡ [] }
    requires room { 256 ≤ trail.room }
    ensures text { IfSome result (λ search. search.text ≡ text.entry) }
    ensures holder { IfSome result (λ search. search.«record» ≡ «record».entry) }
    ensures fit { let p = pattern_at text.entry.text.now pattern in
        let tree = (H.meaning «record».entry.now).tree in
        MatchOption result (OfFit p (erase tree) lengths → ⊥) (HasFit p (erase tree) lengths tree) }
{
    let mut search = Search::new(text, pattern, record, trail, lengths);
    if search.stands() { Some(search) } else { None }
}

#[cfg(test)]
mod tests {
    use super::*;
    use std::test::Fail;

    // The record of an accepted text.
    fn held(text: &[u8]) -> TextRecord
        requires { accepts (verdict text.now) ≡ true }
        ensures { result.text.now ≡ text.now }
    {
        let mut record = TextRecord::new();
        let _ = record.fill(text);
        record
    }

    // The record of a lawful pattern.
    fn lawful(pattern: &[u8]) -> TextRecord
        requires accepted { accepts (verdict pattern.now) ≡ true }
        requires lawful { LawfulPattern pattern.now 0 }
        ensures { LawfulPattern result.text.now 0 }
    {
        held(pattern)
    }

    // The lengths of the fits of a pattern and a record, one after another.
    fn listed(rt: &HostRuntime, pattern: TextRecord, text: &[u8]) -> Result<Vec<Lengths>, Fail>
        requires lawful { LawfulPattern pattern.text.now 0 }
        requires accepted { accepts (verdict text.now) ≡ true }
    {
        let mut marks = [Mark::unused(); 256];
        let mut places = [0; 256];
        let record = held(text);
        let mut fits = Vec::new(rt.alloc());
        let mut behind = None;
        for _ in 0..100 {
            let trail = Trail::new(&mut marks, &mut places);
            behind = least(pattern, 0, &record, trail, behind);
            match behind {
                Some(lengths) => fits.push(lengths)?,
                None => return Ok(fits),
            }
        }
        Ok(fits)
    }

    // The length of what a name stands for in the fit with these lengths, if there is one.
    fn length_of(pattern: TextRecord, text: &[u8], lengths: Lengths, name: &[u8]) -> Option<u16>
        requires lawful { LawfulPattern pattern.text.now 0 }
        requires accepted { accepts (verdict text.now) ≡ true }
    {
        let mut marks = [Mark::unused(); 256];
        let mut places = [0; 256];
        let record = held(text);
        let trail = Trail::new(&mut marks, &mut places);
        let search = fit_of(pattern, 0, &record, trail, lengths)?;
        let (mark, _) = search.find(name)?;
        Some(mark.length)
    }

    #[test]
    fn finds_all_in_order(rt: HostRuntime) -> Result<(), Fail> {
        let two = lawful(b"(2:!x2:!y)");
        assert_eq!(rt;
            listed(&rt, two, b"(1:a1:b)")?.as_slice(),
            [[0, 2, 0, 0], [1, 1, 0, 0], [2, 0, 0, 0]].as_slice()
        );
        assert_eq!(rt; length_of(two, b"(1:a1:b)", [0, 2, 0, 0], b"y"), Some(2));
        assert_eq!(rt; length_of(two, b"(1:a1:b)", [2, 1, 0, 0], b"y"), None);
        let around = lawful(b"(2:!a2:'t2::v2:!b)");
        assert_eq!(rt;
            listed(&rt, around, b"(1:t1:t1:5)")?.as_slice(),
            [[0, 1, 0, 0], [1, 0, 0, 0]].as_slice()
        );
        let again = lawful(b"((2:!x)2:!x)");
        assert_eq!(rt; listed(&rt, again, b"((1:a)1:a1:b)")?.len(), 0);
        assert_eq!(rt;
            listed(&rt, again, b"((1:a1:b)1:a1:b)")?.as_slice(),
            [[2, 0, 0, 0]].as_slice()
        );
        let one = lawful(b"2::x");
        assert_eq!(rt;
            listed(&rt, one, b"((1:a))")?.as_slice(),
            [[0, 0, 0, 0]].as_slice()
        );
        Ok(())
    }
}
