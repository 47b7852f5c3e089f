//! `kandrivo pick`: the text of one fit of a book and a record.
ghost use Rattle.std.specs.Prelude.{IfOk};
ghost use Rattle.kandrivo.specs.Picks.{Picks};

use crate::drafting::with_book;
use crate::fits::{Fits, Told};
use crate::records::{Act, with_record};
use books::books::Book;
use holder::holding::Holder;
use sexp::refusals::Refusal;
use std::alloc::{AllocError, Global};
use std::io;
use std::io::Write;

// What a pick comes to.
#[derive(Drop)]
enum Picked {
    // The text of the fit.
    Text { text: Vec<u8> },
    // The fit gives no text.
    Refused { refusal: Refusal },
    // No fit has the number, and how many there are.
    NoFit { count: u64 },
}

// What the fit of a number gives. The first fit has the number 1.
fn pick<H: Holder>(
    heap: Global,
    book: &Book<'_>,
    holder: &H,
    number: usize,
) -> Result<Picked, AllocError>
    ensures { IfOk result (λ picked. Picks book.now (H.meaning holder.now).tree number picked) }
{
    let mut fits = Fits::new(book, holder);
    loop {
        match fits.next() {
            Told::Fit { count, .. } if count == number as u64 => {
                return Ok(match fits.text(heap)? {
                    Ok(text) => Picked::Text { text },
                    Err(refusal) => Picked::Refused { refusal },
                });
            }
            Told::Fit { .. } => {}
            Told::End { count } => return Ok(Picked::NoFit { count }),
        }
    }
}

// Writes the text of the fit of a number.
#[derive(Clone, Copy)]
struct Picking<'l, 'b> {
    book: &'l Book<'b>,
    number: usize,
}

impl Act for Picking<'_, '_> {
    fn on<H: Holder>(&self, rt: &HostRuntime, holder: &H) -> io::Result<bool> {
        match pick(rt.alloc(), self.book, holder, self.number)? {
            Picked::Text { text } => {
                rt.stdout().write_all(text.as_slice())?;
                Ok(true)
            }
            Picked::Refused { refusal } => {
                eprintln!(rt; "fit {}: {refusal}", self.number)?;
                Ok(false)
            }
            Picked::NoFit { count } => {
                eprintln!(rt; "there are {count} fits, and none has that number")?;
                Ok(false)
            }
        }
    }
}

/// Writes the text of the fit of a number, of a book and a record.
pub(crate) fn pick_fit(
    rt: &HostRuntime,
    book: &str,
    record: &str,
    number: usize,
) -> io::Result<bool> {
    with_book(
        rt,
        book,
        |book| with_record(rt, record, &Picking { book, number }),
    )
}
