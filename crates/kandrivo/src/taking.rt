//! `kandrivo book`: the rules of a book, taken one after another.
ghost use Rattle.std.specs.Prelude.{◌≡◌, ◌++◌, IfOk, OnOk};
ghost use Rattle.kandrivo.specs.Lines.{name_shown, rule_line};

use crate::files::read_text;
use books::drafts::Draft;
use books::names::Name;
use outlines::escapes::escaped;
use rules::signs::Sign;
use sexp::refusals::Refusal;
use std::alloc::{AllocError, Global};
use std::io;
use std::io::Write;

// Adds a name with its sign to a line.
fn add_name(heap: Global, line: &mut Vec<u8>, name: Name<'_>) -> Result<(), AllocError>
    ensures { OnOk result (line.new.items ≡ line.old.items ++ name_shown name.entry) }
{
    match name.sign {
        Sign::Variable => line.extend_from_slice(b" :")?,
        Sign::Segment => line.extend_from_slice(b" !")?,
    }
    let shown = escaped(heap, name.octets)?;
    line.extend_from_slice(shown.as_slice())
}

// The line of a rule that was taken: its number, and the names of its pattern, each with its sign.
fn rule_line(heap: Global, number: usize, names: &[Name<'_>]) -> Result<Vec<u8>, AllocError>
    ensures { IfOk result (λ line. line.items ≡ rule_line number names.now) }
{
    let mut line = format!(in heap; "rule {number}")?.into_bytes();
    for name in names {
        add_name(heap, &mut line, *name)?;
    }
    line.extend_from_slice(b"\n")?;
    Ok(line)
}

// What each element of a draft comes to: its number as a rule, or why it is refused. A refused one is passed by.
fn take_all(
    heap: Global,
    draft: &mut Draft<'_>,
) -> Result<Vec<Result<usize, Refusal>>, AllocError> {
    let mut answers = Vec::new(heap);
    loop {
        match draft.take() {
            Err(Refusal::NoRule) => return Ok(answers),
            Ok(number) => answers.push(Ok(number))?,
            Err(refusal) => {
                answers.push(Err(refusal))?;
                // There is a rule to pass by.
                let _ = draft.skip();
            }
        }
    }
}

/// Prints what becomes of each rule of a book, and says whether all were taken.
pub(crate) fn print_book(rt: &HostRuntime, path: &str) -> io::Result<bool> {
    let text = match read_text(rt, path) {
        Ok(text) => text,
        Err(e) => {
            eprintln!(rt; "{path}: {e}")?;
            return Ok(false);
        }
    };
    let mut draft = Draft::new();
    if let Err(refusal) = draft.begin(text.as_slice()) {
        eprintln!(rt; "{path}: {refusal}")?;
        return Ok(false);
    }
    let answers = take_all(rt.alloc(), &mut draft)?;
    let book = draft.close();
    let mut taken = 0;
    for answer in answers.as_slice() {
        match answer {
            Ok(number) => {
                taken = *number;
                if let Some(names) = book.names(*number) {
                    let line = rule_line(rt.alloc(), *number, names.as_slice())?;
                    rt.stdout().write_all(line.as_slice())?;
                }
            }
            Err(refusal) => println!(rt; "{refusal}")?,
        }
    }
    println!(rt; "taken {taken}")?;
    Ok(taken == answers.len())
}
