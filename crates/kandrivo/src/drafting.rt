//! The book of a file's text, whose rules must all be taken.
ghost use Rattle.kandrivo.specs.Books.{TakesAll, IsBook};

use crate::files::read_text;
use books::books::Book;
use books::drafts::Draft;
use sexp::refusals::Refusal;
use std::io;

// Takes all rules of a draft, or tells why one is refused: a rule passed by would be fits lost.
fn take_all(draft: &mut Draft<'_>) -> Result<(), Refusal>
    ensures { TakesAll draft.old draft.new result }
{
    loop {
        match draft.take() {
            Ok(_) => {}
            Err(Refusal::NoRule) => return Ok(()),
            Err(refusal) => return Err(refusal),
        }
    }
}

// The book that a text writes, or why it writes none.
fn book_of(text: &[u8]) -> Result<Book<'_>, Refusal>
    ensures { IsBook text.now result }
{
    let mut draft = Draft::new();
    draft.begin(text)?;
    take_all(&mut draft)?;
    Ok(draft.close())
}

/// Does something with the book of a file's text, and says whether all went well.
pub(crate) fn with_book<F: Fn(&Book<'_>) -> io::Result<bool>>(
    rt: &HostRuntime,
    path: &str,
    act: F,
) -> io::Result<bool>
    requires { F.IsAlwaysCallable act }
{
    let text = match read_text(rt, path) {
        Ok(text) => text,
        Err(e) => {
            eprintln!(rt; "{path}: {e}")?;
            return Ok(false);
        }
    };
    match book_of(text.as_slice()) {
        Ok(book) => act(&book),
        Err(refusal) => {
            eprintln!(rt; "{path}: {refusal}")?;
            Ok(false)
        }
    }
}
