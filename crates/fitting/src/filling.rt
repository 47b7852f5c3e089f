//! A template, filled from what a fit's names stand for: measured, and then laid at the front of an output.
//! The calls nest as deep as the template's lists, and the elements of one list are passed by a loop.
ghost use Rattle.std.specs.Prelude.{◌≡◌, ◌≤◌, length};
ghost use Rattle.sexp.specs.Text.{text};
ghost use Rattle.holder.specs.Walks.{put_front};
ghost use Rattle.fitting.specs.Filling.{HoldsFor, FillsAtom, filled_atom, filled_at};
ghost use Rattle.fitting.specs.Jobs.{Writes};
ghost use Rattle.fitting.specs.Pieces.{IsSize};

use crate::pieces::{Size, put_length, put_run, size_of_run};
use crate::searching::Search;
use holder::holding::Holder;
use rules::signs::{PatternAtom, read_atom};
use sexp::refusals::Refusal;
use sexp::tokens::Token;

impl<'s, 'm, 'p, H: Holder> Search<'s, 'm, 'p, H> {
    // The size of what an atom of the template gives.
    fn size_of_atom(&self, octets: &[u8]) -> Size
        requires { FillsAtom (H.meaning self.now.«record».now).tree self.now octets.now }
        ensures { IsSize (filled_atom (H.meaning self.now.«record».now).tree self.now octets.now) result }
    {
        match read_atom(octets) {
            Some(PatternAtom::Constant(octets)) => Size::of_atom(octets.len()),
            Some(PatternAtom::Name(_, name)) => match self.find(name) {
                Some((mark, first)) => size_of_run(self.record, first, mark.length),
                None => unreachable!(),
            },
            None => unreachable!(),
        }
    }

    // The size of what the element of the template at a place gives.
    fn size(&self, place: u32) -> Size
        requires { HoldsFor (H.meaning self.now.«record».now).tree self.now place }
        ensures { IsSize (filled_at (H.meaning self.now.«record».now).tree self.now place) result }
    {
        match self.text.token_at(place) {
            Ok(step) => match step.token {
                Token::Opening { .. } => {
                    let mut inner = Size::none();
                    let mut rest = self.text.first_in(place);
                    while let Some(at) = rest {
                        inner = inner.then(self.size(at));
                        rest = self.text.next_after(at);
                    }
                    inner.listed()
                }
                Token::Atom { octets, .. } => self.size_of_atom(octets),
                Token::Closing { .. } => unreachable!(),
            },
            Err(_) => unreachable!(),
        }
    }

    // Puts the text of what an atom of the template gives at the front of an output, and tells its length.
    fn put_atom(&self, octets: &[u8], output: &mut [u8]) -> usize
        requires fills { FillsAtom (H.meaning self.now.«record».now).tree self.now octets.now }
        requires room { let rec = (H.meaning self.now.«record».now).tree in
            length (text (filled_atom rec self.now octets.now)) ≤ length output.old }
        ensures end { let rec = (H.meaning self.now.«record».now).tree in
            result ≡ length (text (filled_atom rec self.now octets.now)) }
        ensures put { let rec = (H.meaning self.now.«record».now).tree in
            output.new ≡ put_front (text (filled_atom rec self.now octets.now)) output.old }
    {
        match read_atom(octets) {
            Some(PatternAtom::Constant(octets)) => {
                let start = put_length(octets.len(), output);
                let end = start + octets.len();
                output[start..end].copy_from_slice(octets);
                end
            }
            Some(PatternAtom::Name(_, name)) => match self.find(name) {
                Some((mark, first)) => put_run(self.record, first, mark.length, output),
                None => unreachable!(),
            },
            None => unreachable!(),
        }
    }

    // Puts the text of what the element of the template at a place gives at the front of an output, and tells its
    // length.
    fn put(&self, place: u32, output: &mut [u8]) -> usize
        requires holds { HoldsFor (H.meaning self.now.«record».now).tree self.now place }
        requires room { let rec = (H.meaning self.now.«record».now).tree in
            length (text (filled_at rec self.now place)) ≤ length output.old }
        ensures end { let rec = (H.meaning self.now.«record».now).tree in
            result ≡ length (text (filled_at rec self.now place)) }
        ensures put { let rec = (H.meaning self.now.«record».now).tree in
            output.new ≡ put_front (text (filled_at rec self.now place)) output.old }
    {
        match self.text.token_at(place) {
            Ok(step) => match step.token {
                Token::Opening { .. } => {
                    output[0] = b'(';
                    let mut end = 1;
                    let mut rest = self.text.first_in(place);
                    while let Some(at) = rest {
                        end += self.put(at, &mut output[end..]);
                        rest = self.text.next_after(at);
                    }
                    output[end] = b')';
                    end + 1
                }
                Token::Atom { octets, .. } => self.put_atom(octets, output),
                Token::Closing { .. } => unreachable!(),
            },
            Err(_) => unreachable!(),
        }
    }

    /// Lays the text of the template at a place, filled, at the front of an output, and tells its length.
    pub(crate) fn write(&self, template: u32, output: &mut [u8]) -> Result<usize, Refusal>
        requires { HoldsFor (H.meaning self.now.«record».now).tree self.now template }
        ensures { let rec = (H.meaning self.now.«record».now).tree in
            Writes (filled_at rec self.now template) output.old result output.new }
    {
        let size = self.size(template);
        if !size.is_within() {
            return Err(Refusal::ResultTooLarge);
        }
        if output.len() < size.octets {
            return Err(Refusal::ShortOutput);
        }
        Ok(self.put(template, output))
    }
}
