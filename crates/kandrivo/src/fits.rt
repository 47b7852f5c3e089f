//! The fits of a book and a record, one after another.
ghost use Rattle.std.specs.Prelude.{◌≡◌, IfOk};
ghost use Rattle.fitting.specs.Calls.{started};
ghost use Rattle.rules.specs.Lawful.{LawfulBook};
ghost use Rattle.kandrivo.specs.Fits.{reached, GoesOn, GivesText};

use books::books::{Book, MOST_RULES};
use fitting::jobs::{Job, MEMORY};
use fitting::marks::Mark;
use holder::holding::Holder;
use sexp::reader::MOST_TEXT;
use sexp::refusals::Refusal;
use std::alloc::{AllocError, Global};
use std::marker::Model;

/// What is next in a list of fits.
#[derive(Clone, Copy)]
pub(crate) enum Told {
    /// A fit: the number of its rule, and how many have been told.
    Fit { rule: usize, count: u64 },
    /// No fit is left, and how many there were.
    End { count: u64 },
}

/// A book, a record, and a job on them, with all the memory that its calls can need. Contracts see how far the list of
/// the fits has been told.
#[derive(Drop)]
pub(crate) struct Fits<'l, 'b, H: Holder> {
    book: &'l Book<'b>,
    holder: &'l H,
    marks: [Mark; MEMORY],
    places: [u32; MEMORY],
    job: Job,
}

impl<'l, 'b, H: Holder> Model for Fits<'l, 'b, H> {
    ghost use Rattle.kandrivo.specs.Fits.{Reached, reached_code, reached, IsReached};

    ghost Value = { Reached };

    ghost coded = { reached_code };

    ghost view = { λ f. reached f.book.now (H.meaning f.holder.now).tree f.job };

    ghost invariant = { λ f. IsReached f.book.now (H.meaning f.holder.now).tree f.job };
}

impl<'l, 'b, H: Holder> Fits<'l, 'b, H> {
    /// Before the first fit.
    pub(crate) fn new(book: &'l Book<'b>, holder: &'l H) -> Fits<'l, 'b, H>
        ensures { result ≡ reached book.now (H.meaning holder.now).tree started }
    {
        // A book tells by its length that its rules are lawful.
        prove!(book.len() <= MOST_RULES);
        Fits {
            book,
            holder,
            marks: [Mark::unused(); MEMORY],
            places: [0; MEMORY],
            job: Job::open(book),
        }
    }

    /// Goes on to the next fit.
    pub(crate) fn next(&mut self) -> Told
        ensures goes { GoesOn self.old result self.new }
        ensures lawful { LawfulBook self.new.rules }
    {
        let told = self
            .job
            .next(self.book, self.holder, &mut self.marks, &mut self.places);
        let Ok((rule, count)) = told else {
            unreachable!()
        };
        match rule {
            Some(rule) => Told::Fit { rule, count },
            None => Told::End { count },
        }
    }

    /// The text that the fit which was told last gives, or why there is none.
    pub(crate) fn text(&mut self, heap: Global) -> Result<Result<Vec<u8>, Refusal>, AllocError>
        ensures same { self.new ≡ self.old }
        ensures text { IfOk result (λ text. GivesText self.old text) }
    {
        let mut text = vec![in heap; 0u8; MOST_TEXT]?;
        let written = self.job.write(
            self.book,
            self.holder,
            &mut self.marks,
            &mut self.places,
            text.as_mut_slice(),
        );
        Ok(match written {
            Ok(length) => {
                text.truncate(length);
                Ok(text)
            }
            Err(refusal) => Err(refusal),
        })
    }
}
