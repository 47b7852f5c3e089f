//! The tokens of a text, read one at a time from the left.
ghost use Rattle.std.specs.Prelude.{◌≡◌, ◌<◌, ◌≤◌, length, Some, None, MatchOption};
ghost use Rattle.sexp.specs.Checks.{short_value, string_from};
ghost use Rattle.sexp.specs.Reading.{digits, behind, padded, begins, complete, full, closes};
ghost use Rattle.sexp.specs.Tokens.{lexeme_at, Tells, StandsInText, FaultsAsListed};

use crate::refusals::Refusal;

/// The most octets of an atom.
pub const MOST_OCTETS: usize = 1024;

/// The most elements of a record.
pub const MOST_ELEMENTS: usize = 4096;

/// The deepest that an element of a record stands.
pub const MOST_DEPTH: usize = 32;

/// A token, told with its offset. An atom's octets are a part of the text; its offset is that of its first digit.
#[derive(Clone, Copy, Debug)]
pub enum Token<'a> {
    Opening { offset: usize },
    Closing { offset: usize },
    Atom { offset: usize, octets: &'a [u8] },
}

/// Where reading stands in a text: an offset, the number of lists open there, and the number of elements begun before.
#[derive(Clone, Copy, Debug)]
pub struct Cursor<'a> {
    pub text: &'a [u8],
    // An offset, and not the rest of the text: offsets are what tokens and refusals tell.
    pub at: usize,
    pub depth: usize,
    pub count: usize,
}

/// A token, and the cursor behind it.
#[derive(Clone, Copy, Debug)]
pub struct Step<'a> {
    pub token: Token<'a>,
    pub next: Cursor<'a>,
}

// Whether the digits at the front of a text are several, the first a 0.
fn is_padded(text: &[u8]) -> bool
    ensures { result ≡ padded (digits text.now) }
{
    match text {
        [first, next, ..] => *first == b'0' && next.is_ascii_digit(),
        _ => false,
    }
}

// The number that the digits at the front of a text write, if an atom may have so many octets, and what stands behind
// them. The digits are passed over once, and none behind the one that takes the number past the limit.
fn length_of(text: &[u8]) -> Option<(usize, &[u8])>
    ensures { MatchOption result (None ≡ short_value (digits text.now))
        (λ found. (Some found.0 ≡ short_value (digits text.now)) × (found.1.now ≡ behind text.now)) }
{
    let mut length = 0;
    let mut rest = text;
    while let [digit, behind @ ..] = rest
        && digit.is_ascii_digit()
    {
        length = length * 10 + usize::from(digit - b'0');
        if length > MOST_OCTETS {
            return None;
        }
        rest = behind;
    }
    Some((length, rest))
}

// Whether an octet begins an element.
fn begins_element(octet: u8) -> bool
    ensures { result ≡ begins octet }
{
    octet == b'(' || octet.is_ascii_digit()
}

impl<'a> Cursor<'a> {
    // Whether the root has been read to its end.
    fn is_complete(self) -> bool
        ensures { result ≡ complete self.entry.depth self.entry.count }
    {
        self.depth == 0 && self.count > 0
    }

    // Whether one more element would pass a limit.
    fn is_full(self) -> bool
        ensures { result ≡ full self.entry.depth self.entry.count }
    {
        self.depth >= MOST_DEPTH || self.count >= MOST_ELEMENTS
    }

    // Whether an octet closes the innermost list.
    fn is_closed_by(self, octet: u8) -> bool
        ensures { result ≡ closes self.entry.depth octet }
    {
        octet == b')' && self.depth > 0
    }

    // The atom here, where a digit stands and one more element is within the limits.
    // Inlined, reading takes a third fewer instructions.
    #[inline(always)]
    fn atom(self) -> Result<Step<'a>, Refusal>
        requires inside { self.at ≤ length self.text.now }
        requires room { self.count < MOST_ELEMENTS }
        ensures { Tells self.entry (string_from self.entry) result }
    {
        let end = self.text.len();
        let (_, rest) = self.text.split_at(self.at);
        if is_padded(rest) {
            return Err(Refusal::Malformed { offset: self.at });
        }
        let Some((length, behind)) = length_of(rest) else {
            return Err(Refusal::OverLimit { offset: self.at });
        };
        let colon = end - behind.len();
        let octets = match behind {
            [b':', octets @ ..] => octets,
            [] => return Err(Refusal::Malformed { offset: end }),
            [..] => return Err(Refusal::Malformed { offset: colon }),
        };
        let Some(octets) = octets.get(..length) else {
            return Err(Refusal::Malformed { offset: end });
        };
        Ok(Step {
            token: Token::Atom {
                offset: self.at,
                octets,
            },
            next: Cursor {
                at: colon + 1 + length,
                count: self.count + 1,
                ..self
            },
        })
    }

    /// The token here. Asked where the text has ended, it answers that the text ends too early.
    // Inlined, reading takes a third fewer instructions, however many functions ask for a token.
    #[inline(always)]
    pub fn next(self) -> Result<Step<'a>, Refusal>
        ensures token { Tells self.entry (lexeme_at self.entry) result }
        ensures rest { StandsInText self.entry result }
        ensures faults { FaultsAsListed self.entry result }
    {
        let offset = self.at;
        let Some(&octet) = self.text.get(offset) else {
            return Err(Refusal::Malformed {
                offset: self.text.len(),
            });
        };
        if self.is_complete() {
            return Err(Refusal::Malformed { offset });
        }
        if self.is_closed_by(octet) {
            return Ok(Step {
                token: Token::Closing { offset },
                next: Cursor {
                    at: offset + 1,
                    depth: self.depth - 1,
                    ..self
                },
            });
        }
        if !begins_element(octet) {
            return Err(Refusal::Malformed { offset });
        }
        if self.is_full() {
            return Err(Refusal::OverLimit { offset });
        }
        if octet == b'(' {
            return Ok(Step {
                token: Token::Opening { offset },
                next: Cursor {
                    at: offset + 1,
                    depth: self.depth + 1,
                    count: self.count + 1,
                    ..self
                },
            });
        }
        self.atom()
    }
}
