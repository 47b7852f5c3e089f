//! `kandrivo list`: all fits of a book and a record.
ghost use Rattle.std.specs.Prelude.{◌≡◌, IfOk};
ghost use Rattle.kandrivo.specs.Lines.{fit_line};

use crate::drafting::with_book;
use crate::fits::{Fits, Told};
use crate::records::{Act, with_record};
use books::books::Book;
use holder::holding::Holder;
use outlines::escapes::escaped;
use sexp::refusals::Refusal;
use std::alloc::{AllocError, Global};
use std::io;
use std::io::Write;

// The line of a fit: its number, the number of its rule, and the text that it gives or why there is none.
fn fit_line(
    heap: Global,
    count: u64,
    rule: usize,
    text: &Result<Vec<u8>, Refusal>,
) -> Result<Vec<u8>, AllocError>
    ensures { IfOk result (λ line. line.items ≡ fit_line count rule text.now) }
{
    let mut line = format!(in heap; "{count} rule {rule}: ")?.into_bytes();
    match text {
        Ok(text) => {
            let shown = escaped(heap, text.as_slice())?;
            line.extend_from_slice(shown.as_slice())?;
        }
        Err(refusal) => {
            let refusal = format!(in heap; "{refusal}")?;
            line.extend_from_slice(refusal.as_bytes())?;
        }
    }
    line.extend_from_slice(b"\n")?;
    Ok(line)
}

// Prints every fit, one a line, and how many there are.
#[derive(Clone, Copy)]
struct Listing<'l, 'b> {
    book: &'l Book<'b>,
}

impl Act for Listing<'_, '_> {
    fn on<H: Holder>(&self, rt: &HostRuntime, holder: &H) -> io::Result<bool> {
        let mut fits = Fits::new(self.book, holder);
        loop {
            match fits.next() {
                Told::Fit { rule, count } => {
                    let text = fits.text(rt.alloc())?;
                    let line = fit_line(rt.alloc(), count, rule, &text)?;
                    rt.stdout().write_all(line.as_slice())?;
                }
                Told::End { count } => {
                    println!(rt; "end: {count} fits")?;
                    return Ok(true);
                }
            }
        }
    }
}

/// Prints every fit of a book and a record.
pub(crate) fn list_fits(rt: &HostRuntime, book: &str, record: &str) -> io::Result<bool> {
    with_book(rt, book, |book| with_record(rt, record, &Listing { book }))
}
