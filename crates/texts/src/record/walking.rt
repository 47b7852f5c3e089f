//! The walk over the text.
ghost use Rattle.std.specs.Prelude.{◌≡◌, drop};
ghost use Rattle.holder.specs.Placed.{octets_of, Stands, IsAtom};
ghost use Rattle.sexp.specs.Tokens.{lexeme_at, Tells};
ghost use Rattle.texts.specs.Walked.{run_from, reading_at, end_at, beginning, TellsFirst, TellsElement};

use super::TextRecord;
use sexp::refusals::Refusal;
use sexp::tokens::{Cursor, Step, Token};

impl<'a> TextRecord<'a> {
    /// The token at a place, and the cursor behind it: an atom, or the opening of a list, where an element stands there.
    /// The element is read as a root is.
    #[tactic(auto, using(crate::proofs::Passing::tells_element))]
    pub fn token_at(&self, place: u32) -> Result<Step<'a>, Refusal>
        ensures token { let from = reading_at self.now.text place in Tells from (lexeme_at from) result }
        ensures element { TellsElement (run_from self.now.text.now place) result }
    {
        let cursor = Cursor {
            text: self.text,
            // Casts, here and elsewhere, that are proved to lose nothing: `TryFrom` would add an error that never comes.
            at: place as usize,
            depth: 0,
            count: 0,
        };
        cursor.next()
    }

    // The first token of the element at a place.
    fn first_token(&self, place: u32) -> Step<'a>
        requires { Stands (run_from self.now.text.now place) }
        ensures { TellsFirst self.now.text place result }
    {
        match self.token_at(place) {
            Ok(step) => step,
            Err(_) => unreachable!(),
        }
    }

    // The octets of the atom at a place.
    pub(super) fn octets_at(&self, place: u32) -> &'a [u8]
        requires { IsAtom (run_from self.now.text.now place) }
        ensures { result.now ≡ octets_of (run_from self.now.text.now place) }
    {
        match self.first_token(place).token {
            Token::Atom { octets, .. } => octets,
            Token::Opening { .. } | Token::Closing { .. } => unreachable!(),
        }
    }

    // The offset behind the element at a place. A list's elements are passed token by token.
    pub(super) fn end_of(&self, place: u32) -> usize
        requires { Stands (run_from self.now.text.now place) }
        ensures { result ≡ end_at place (run_from self.now.text.now place) }
    {
        let mut cursor = self.first_token(place).next;
        while cursor.depth > 0 {
            cursor = match cursor.next() {
                Ok(step) => step.next,
                Err(_) => unreachable!(),
            };
        }
        cursor.at
    }

    // The place of the element at an offset, unless a list closes there or the text ends.
    pub(super) fn element_at(&self, offset: usize) -> Option<u32>
        ensures { result ≡ beginning offset (drop offset self.now.text.now) }
    {
        match self.text.get(offset) {
            None | Some(b')') => None,
            Some(_) => Some(offset as u32),
        }
    }
}
