//! Jobs: the fits of a book and a record, one after another, and what each is made into.
ghost use Rattle.std.specs.Bool.{Decides};
ghost use Rattle.std.specs.Prelude.{◌≡◌, length, IfOk};
ghost use Rattle.holder.specs.Copies.{record_of};
ghost use Rattle.fitting.specs.Calls.{started};
ghost use Rattle.fitting.specs.Jobs.{Small, Nexts, StandingTells, ShowTells, WriteTells};

use crate::keys::{Key, next_key};
use crate::marks::Mark;
use crate::searching::{Search, fit_of};
use crate::trails::Trail;
use books::books::Book;
use books::places::PlacedRule;
use holder::holding::Holder;
use sexp::refusals::Refusal;

/// The fewest marks, and the fewest places, that a call can work with.
pub const MEMORY: usize = 256;

// The most that a count goes to.
const MOST_COUNT: u64 = 1 << 63;

// Where a job stands in its list of fits.
#[derive(Clone, Copy, PartialEq, Eq, Debug)]
enum Position {
    Start,
    At(Key),
    End,
}

/// A job: a position in the list of the fits of a book and a record, and how many have been told.
#[derive(Clone, Copy, PartialEq, Eq, Debug)]
pub struct Job {
    position: Position,
    count: u64,
}

// Whether working memory is too small.
fn is_small(marks: &[Mark], places: &[u32]) -> bool
    ensures { Decides result (Small (length marks.now) (length places.now)) }
{
    marks.len() < MEMORY || places.len() < MEMORY
}

impl Job {
    /// A job on a book, at the start.
    pub fn open(_book: &Book<'_>) -> Job
        ensures { result ≡ started }
    {
        Job {
            position: Position::Start,
            count: 0,
        }
    }

    /// Goes back to the start.
    pub fn rewind(&mut self)
        ensures { self.new ≡ started }
    {
        self.position = Position::Start;
        self.count = 0;
    }

    /// Goes on to the next fit, and tells the number of its rule and how many fits have been told; or that none is
    /// left, and how many there were.
    pub fn next<H: Holder>(
        &mut self,
        book: &Book<'_>,
        holder: &H,
        marks: &mut [Mark],
        places: &mut [u32],
    ) -> Result<(Option<usize>, u64), Refusal>
        ensures { let e = record_of (H.meaning holder.now) in
            Nexts book.now e (length marks.old) (length places.old) self.old result self.new }
    {
        if is_small(marks, places) {
            return Err(Refusal::SmallMemory);
        }
        let next = match self.position {
            Position::Start => next_key(book, holder, marks, places, None),
            Position::At(key) => next_key(book, holder, marks, places, Some(key)),
            Position::End => None,
        };
        match next {
            Some(key) => {
                self.position = Position::At(key);
                if self.count < MOST_COUNT {
                    self.count += 1;
                }
                Ok((Some(key.rule), self.count))
            }
            None => {
                self.position = Position::End;
                Ok((None, self.count))
            }
        }
    }

    // The rule and the laid fit that stand.
    fn standing<'s, 'm, 'p, H: Holder>(
        &self,
        book: &Book<'s>,
        holder: &'s H,
        marks: &'m mut [Mark],
        places: &'p mut [u32],
    ) -> Result<(PlacedRule<'s>, Search<'s, 'm, 'p, H>), Refusal>
        ensures tells { let tree = (H.meaning holder.entry.now).tree in let position = self.now.position in
            StandingTells book.now tree (length marks.old) (length places.old) position result }
        ensures holder { IfOk result (λ t. t.1.«record» ≡ holder.entry) }
    {
        if is_small(marks, places) {
            return Err(Refusal::SmallMemory);
        }
        let Position::At(key) = self.position else {
            return Err(Refusal::NoFit);
        };
        let Some(rule) = book.rule(key.rule) else {
            return Err(Refusal::NoFit);
        };
        let trail = Trail::new(marks, places);
        match fit_of(rule.text, rule.pattern, holder, trail, key.lengths) {
            Some(fit) => Ok((rule, fit)),
            None => Err(Refusal::NoFit),
        }
    }

    /// Where what a name stands for begins, and how many elements it has, at the name's first occurrence.
    pub fn show<'s, H: Holder>(
        &self,
        book: &Book<'s>,
        holder: &'s H,
        marks: &mut [Mark],
        places: &mut [u32],
        name: &[u8],
    ) -> Result<(Option<u32>, usize), Refusal>
        ensures { let tree = (H.meaning holder.now).tree in let position = self.now.position in
            ShowTells book.now tree (length marks.old) (length places.old) position name.now result }
    {
        let (_, fit) = self.standing(book, holder, marks, places)?;
        match fit.find(name) {
            Some((mark, place)) => {
                let length = usize::from(mark.length);
                Ok(((length > 0).then_some(place), length))
            }
            None => Err(Refusal::UnknownName),
        }
    }

    /// Lays the text of the filled template at the front of an output, and tells its length.
    pub fn write<'s, H: Holder>(
        &self,
        book: &Book<'s>,
        holder: &'s H,
        marks: &mut [Mark],
        places: &mut [u32],
        output: &mut [u8],
    ) -> Result<usize, Refusal>
        ensures { let e = record_of (H.meaning holder.now) in let position = self.now.position in
            WriteTells book.now e (length marks.old) (length places.old) position output.old result output.new }
    {
        let (rule, fit) = self.standing(book, holder, marks, places)?;
        fit.write(rule.template, output)
    }
}

#[cfg(test)]
mod tests {
    use super::*;
    use books::drafts::Draft;
    use std::test::Fail;
    use texts::record::TextRecord;

    #[test]
    fn goes_through_a_list(rt: HostRuntime) -> Result<(), Fail> {
        let mut marks = [Mark::unused(); 256];
        let mut places = [0; 256];
        let mut draft = Draft::new();
        assert_eq!(rt;
            draft.begin(b"(((2:!a2:'t2::v2:!b)(5:'temp2::v2:!a2:!b)))"),
            Ok(())
        );
        assert_eq!(rt; draft.take(), Ok(1));
        let book = draft.close();
        let mut held = TextRecord::new();
        let _ = held.fill(b"(1:t1:t1:5)");
        let mut job = Job::open(&book);
        let mut output = [0; 64];
        assert_eq!(rt;
            job.write(&book, &held, &mut marks, &mut places, &mut output),
            Err(Refusal::NoFit)
        );
        assert_eq!(rt;
            job.next(&book, &held, &mut marks, &mut places),
            Ok((Some(1), 1))
        );
        assert_eq!(rt;
            job.show(&book, &held, &mut marks, &mut places, b"a"),
            Ok((None, 0))
        );
        assert_eq!(rt;
            job.show(&book, &held, &mut marks, &mut places, b"v"),
            Ok((Some(4), 1))
        );
        assert_eq!(rt;
            job.write(&book, &held, &mut marks, &mut places, &mut output),
            Ok(14)
        );
        assert_eq!(rt; &output[..14], b"(4:temp1:t1:5)".as_slice());
        assert_eq!(rt;
            job.next(&book, &held, &mut marks, &mut places),
            Ok((Some(1), 2))
        );
        assert_eq!(rt;
            job.write(&book, &held, &mut marks, &mut places, &mut output),
            Ok(14)
        );
        assert_eq!(rt; &output[..14], b"(4:temp1:51:t)".as_slice());
        assert_eq!(rt;
            job.show(&book, &held, &mut marks, &mut places, b"x"),
            Err(Refusal::UnknownName)
        );
        assert_eq!(rt;
            job.next(&book, &held, &mut marks, &mut places),
            Ok((None, 2))
        );
        assert_eq!(rt;
            job.next(&book, &held, &mut marks, &mut places),
            Ok((None, 2))
        );
        assert_eq!(rt;
            job.write(&book, &held, &mut marks, &mut places, &mut output),
            Err(Refusal::NoFit)
        );
        job.rewind();
        assert_eq!(rt;
            job.next(&book, &held, &mut marks, &mut places),
            Ok((Some(1), 1))
        );
        Ok(())
    }
}
