//! The text of a record, measured and then laid at the front of an output.
//! The calls nest as deep as the record's lists, and the elements of one list are passed by a loop.
// Measuring and putting walk alike: one walk into a trait of sinks would need laws of its own for two short bodies.
// Each passes the elements of a list by a `while let`: an iterator over them would need laws too.
ghost use Rattle.std.specs.Prelude.{◌≡◌, ◌≤◌, length, decimal};
ghost use Rattle.sexp.specs.Text.{text};
ghost use Rattle.holder.specs.Copies.{record_of, laying, laid, ReadingAndCopyingUndo};
ghost use Rattle.holder.specs.Walks.{first_of, atom_text, put_front};

use crate::elements::{Content, Element, Octets};
use crate::holding::Holder;
use itoa::Buffer;
use sexp::reader::MOST_TEXT;
use sexp::refusals::Refusal;

// How many octets a number has in decimal. One digit is told, and put, without writing it out first: most atoms are short.
fn number_length(number: usize) -> usize
    ensures octets { result ≡ length (decimal number) }
    ensures short { result ≤ 40 }
{
    match number {
        0..=9 => 1,
        _ => decimal::length(number),
    }
}

// Puts a number in decimal at the front of an output, and tells its length.
fn put_number(number: usize, output: &mut [u8]) -> usize
    requires { length (decimal number) ≤ length output.old }
    ensures end { result ≡ length (decimal number) }
    ensures put { output.new ≡ put_front (decimal number) output.old }
{
    match number {
        0..=9 => {
            output[0] = b'0' + number as u8;
            1
        }
        _ => {
            let mut buffer = Buffer::new();
            let digits = buffer.format(number).as_bytes();
            output[..digits.len()].copy_from_slice(digits);
            digits.len()
        }
    }
}

impl<H: Holder> Octets<'_, H> {
    // How many octets the atom's text has.
    fn text_length(&self) -> usize
        ensures { result ≡ length (atom_text self.now) }
    {
        let count = self.len();
        number_length(count) + 1 + count
    }

    // Puts the octets into a part of an output that is as long.
    fn put(&self, part: &mut [u8])
        requires { length self.now ≡ length part.old }
        ensures { part.new ≡ self.now }
    {
        for (index, octet) in part.iter_mut().enumerate() {
            *octet = self.at(index);
        }
    }

    // Puts the atom's text at the front of an output, and tells its length.
    fn put_text(&self, output: &mut [u8]) -> usize
        requires { length (atom_text self.now) ≤ length output.old }
        ensures end { result ≡ length (atom_text self.now) }
        ensures put { output.new ≡ put_front (atom_text self.now) output.old }
    {
        let count = self.len();
        let colon = put_number(count, output);
        output[colon] = b':';
        let end = colon + 1 + count;
        self.put(&mut output[colon + 1..end]);
        end
    }
}

impl<H: Holder> Element<'_, H> {
    // How many octets the element's text has.
    fn text_length(&self) -> usize
        ensures { result ≡ length (text (first_of self.now)) }
    {
        match self.content() {
            Content::Atom(octets) => octets.text_length(),
            Content::List(mut rest) => {
                let mut total = 2;
                while let Some(element) = rest {
                    total += element.text_length();
                    rest = element.next();
                }
                total
            }
        }
    }

    // Puts the element's text at the front of an output, and tells its length.
    fn put_text(&self, output: &mut [u8]) -> usize
        requires { length (text (first_of self.now)) ≤ length output.old }
        ensures end { result ≡ length (text (first_of self.now)) }
        ensures put { output.new ≡ put_front (text (first_of self.now)) output.old }
    {
        match self.content() {
            Content::Atom(octets) => octets.put_text(output),
            Content::List(mut rest) => {
                output[0] = b'(';
                let mut at = 1;
                while let Some(element) = rest {
                    at += element.put_text(&mut output[at..]);
                    rest = element.next();
                }
                output[at] = b')';
                at + 1
            }
        }
    }
}

/// Lays the text of a holder's record at the front of an output, and tells its length.
pub fn copy_out<H: Holder>(holder: &H, output: &mut [u8]) -> Result<usize, Refusal>
    ensures answer { result ≡ laying (text (record_of (H.meaning holder.now))) output.old }
    ensures left { output.new ≡ laid (text (record_of (H.meaning holder.now))) output.old }
    ensures undo { ReadingAndCopyingUndo (record_of (H.meaning holder.now)) output.old output.new result }
{
    let root = Element::root(holder);
    let length = root.text_length();
    if length > MOST_TEXT {
        return Err(Refusal::ResultTooLarge);
    }
    if output.len() < length {
        return Err(Refusal::ShortOutput);
    }
    Ok(root.put_text(output))
}
