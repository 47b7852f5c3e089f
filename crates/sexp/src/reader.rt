//! The reader: one pass over a text, with a stack as deep as the text's lists.
ghost use Rattle.std.specs.Prelude.{◌≡◌, ◌≤◌, false};
ghost use Rattle.sexp.specs.Checks.{Finds};
ghost use Rattle.sexp.specs.Laws.{answer, AcceptedExactlyCanonical, RefusedAsListed};
ghost use Rattle.sexp.specs.Laws.{DerivesItsText, OneRecord, SameIsEqual};
ghost use Rattle.sexp.specs.Reading.{complete, missized, verdict};

use crate::refusals::Refusal;
use crate::tokens::{Cursor, Token};
use std::fmt;

/// The most octets of a text.
pub const MOST_TEXT: usize = 32768;

/// How large a record is.
#[derive(Clone, Copy, PartialEq, Eq, Debug)]
pub struct Extent {
    pub elements: usize,
    pub depth: usize,
}

impl fmt::Display for Extent {
    ghost use Rattle.std.specs.Prelude.{Some};
    ghost use Rattle.sexp.specs.Lines.{extent_line};

    ghost output = { λ x. Some (extent_line x) };

    fn fmt<W: fmt::Write>(&self, f: &mut fmt::Formatter<W>) -> fmt::Result {
        let Extent { elements, depth } = *self;
        write!(f, "{elements} elements, depth {depth}")
    }
}

// How far a check has come, and how deep the elements passed so far go.
#[derive(Clone, Copy)]
struct Progress<'a> {
    cursor: Cursor<'a>,
    deepest: usize,
}

// What stands at a cursor: an element, checked to its end, or the end of the list around it.
#[derive(Clone, Copy)]
enum Found<'a> {
    Element(Progress<'a>),
    Close(Progress<'a>),
}

impl<'a> Progress<'a> {
    // The element here, or the end of the list that is open here. The elements of a list are passed by a loop.
    fn element(self) -> Result<Found<'a>, Refusal>
        requires due { complete self.cursor.depth self.cursor.count ≡ false }
        requires measured { self.cursor.depth ≤ self.deepest }
        ensures { Finds self.entry result }
    {
        let step = self.cursor.next()?;
        let cursor = step.next;
        match step.token {
            Token::Closing { .. } => Ok(Found::Close(Progress { cursor, ..self })),
            Token::Atom { .. } => {
                let deepest = self.deepest.max(cursor.depth + 1);
                Ok(Found::Element(Progress { cursor, deepest }))
            }
            Token::Opening { .. } => {
                let deepest = self.deepest.max(cursor.depth);
                let mut at = Progress { cursor, deepest };
                loop {
                    match at.element()? {
                        Found::Element(behind) => at = behind,
                        Found::Close(behind) => return Ok(Found::Element(behind)),
                    }
                }
            }
        }
    }
}

/// Whether a text is empty or too long.
pub fn is_missized(text: &[u8]) -> bool
    ensures { result ≡ missized text.now }
{
    text.is_empty() || text.len() > MOST_TEXT
}

/// Whether a text is a record in canonical form within the limits: how large the record is, or the first fault.
pub fn check(text: &[u8]) -> Result<Extent, Refusal>
    ensures verdict { result ≡ answer (verdict text.now) }
    ensures accepted { AcceptedExactlyCanonical text.now result }
    ensures refused { RefusedAsListed text.now result }
    ensures derives { DerivesItsText }
    ensures unique { OneRecord }
    ensures same { SameIsEqual }
{
    if is_missized(text) {
        return Err(Refusal::TextLength);
    }
    let start = Progress {
        cursor: Cursor {
            text,
            at: 0,
            depth: 0,
            count: 0,
        },
        deepest: 0,
    };
    match start.element()? {
        Found::Element(Progress { cursor, deepest }) => {
            if cursor.at < text.len() {
                return Err(Refusal::Malformed { offset: cursor.at });
            }
            Ok(Extent {
                elements: cursor.count,
                depth: deepest,
            })
        }
        // No list is open at the start.
        Found::Close(_) => unreachable!(),
    }
}
