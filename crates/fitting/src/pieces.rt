//! Runs of a record's elements: how large they are, and their text put at the front of an output.
//! The calls nest as deep as the elements' lists, and the elements of one list are passed by a loop.
ghost use Rattle.std.specs.Prelude.{◌≡◌, ◌≤◌, ◌∷◌, ◌++◌, length, decimal, ◌+◌, [], ℕ, List, Some};
ghost use Rattle.sexp.specs.Elements.{Elements, octets, none, atom, list, ◌then◌};
ghost use Rattle.sexp.specs.Text.{text};
ghost use Rattle.holder.specs.Placed.{run_at, octets_of, Stands, IsAtom};
ghost use Rattle.holder.specs.Walks.{first_of, put_front};
ghost use Rattle.rules.specs.Bindings.{width};
ghost use Rattle.fitting.specs.Cursors.{elements_from, front};
ghost use Rattle.fitting.specs.Pieces.{IsSize, is_within};

use holder::holding::Holder;
use holder::kinds::Kind;
use itoa::Buffer;
use sexp::reader::MOST_TEXT;
use sexp::tokens::{MOST_DEPTH, MOST_ELEMENTS};

/// How large a run is: how many elements it has, those inside lists counted, how deep they go, and how many octets its
/// text has. A number past 64 bits stays the largest.
#[derive(Clone, Copy)]
pub(crate) struct Size {
    pub(crate) elements: usize,
    pub(crate) depth: usize,
    pub(crate) octets: usize,
}

impl Size {
    /// That of no element.
    pub(crate) fn none() -> Size
        ensures { IsSize none result }
    {
        Size {
            elements: 0,
            depth: 0,
            octets: 0,
        }
    }

    /// That of an atom of so many octets.
    pub(crate) fn of_atom(count: usize) -> Size
        requires { count ≤ 1024 }
        ensures { (os : List ℕ) → length os ≡ count → IsSize (atom (octets os) none) result }
    {
        Size {
            elements: 1,
            depth: 1,
            octets: decimal::length(count) + 1 + count,
        }
    }

    /// That of one run and then another.
    pub(crate) fn then(self, other: Size) -> Size
        ensures { (es fs : Elements) → IsSize es self → IsSize fs other → IsSize (es then fs) result }
    {
        Size {
            elements: self.elements.saturating_add(other.elements),
            depth: self.depth.max(other.depth),
            octets: self.octets.saturating_add(other.octets),
        }
    }

    /// That of the list of a run.
    pub(crate) fn listed(self) -> Size
        ensures { (es : Elements) → IsSize es self → IsSize (list es none) result }
    {
        Size {
            elements: self.elements.saturating_add(1),
            depth: self.depth.saturating_add(1),
            octets: self.octets.saturating_add(2),
        }
    }

    /// Whether a record may be so large.
    pub(crate) fn is_within(self) -> bool
        ensures { (es : Elements) → IsSize es self → result ≡ is_within es }
    {
        self.elements <= MOST_ELEMENTS && self.depth <= MOST_DEPTH && self.octets <= MOST_TEXT
    }
}

/// Puts what stands in front of an atom's octets, their number and a colon, at the front of an output, and tells where
/// the octets begin.
pub(crate) fn put_length(count: usize, output: &mut [u8]) -> usize
    requires { length (decimal count) + 1 ≤ length output.old }
    ensures end { result ≡ length (decimal count) + 1 }
    ensures put { output.new ≡ put_front (decimal count ++ (58 ∷ [])) output.old }
{
    let mut buffer = Buffer::new();
    let number = buffer.format(count).as_bytes();
    let colon = number.len();
    output[..colon].copy_from_slice(number);
    output[colon] = b':';
    colon + 1
}

// The size of an element.
fn size_of<H: Holder>(holder: &H, place: u32) -> Size
    requires { Stands (run_at place (H.meaning holder.now).tree) }
    ensures { IsSize (first_of (run_at place (H.meaning holder.now).tree)) result }
{
    match holder.kind_at(place) {
        Kind::Atom => Size::of_atom(holder.length_at(place)),
        Kind::List => {
            let mut inner = Size::none();
            let mut rest = holder.first_in(place);
            while let Some(at) = rest {
                inner = inner.then(size_of(holder, at));
                rest = holder.next_after(at);
            }
            inner.listed()
        }
    }
}

/// The size of so many elements from a place on.
pub(crate) fn size_of_run<H: Holder>(holder: &H, first: u32, count: u16) -> Size
    requires { count ≤ width (elements_from (H.meaning holder.now).tree (Some first)) }
    ensures { IsSize (front count (elements_from (H.meaning holder.now).tree (Some first))) result }
{
    let mut size = Size::none();
    let mut rest = Some(first);
    for _ in 0..count {
        let Some(at) = rest else { unreachable!() };
        size = size.then(size_of(holder, at));
        rest = holder.next_after(at);
    }
    size
}

// Puts the octets of an atom at the front of an output.
fn put_octets<H: Holder>(holder: &H, place: u32, output: &mut [u8])
    requires atom { IsAtom (run_at place (H.meaning holder.now).tree) }
    requires room { length (octets_of (run_at place (H.meaning holder.now).tree)) ≤ length output.old }
    ensures { output.new ≡ put_front (octets_of (run_at place (H.meaning holder.now).tree)) output.old }
{
    let count = holder.length_at(place);
    for (index, octet) in output[..count].iter_mut().enumerate() {
        *octet = holder.octet_at(place, index);
    }
}

// Puts the text of an atom at the front of an output, and tells its length.
fn put_atom<H: Holder>(holder: &H, place: u32, output: &mut [u8]) -> usize
    requires atom { IsAtom (run_at place (H.meaning holder.now).tree) }
    requires room { length (text (first_of (run_at place (H.meaning holder.now).tree))) ≤ length output.old }
    ensures end { result ≡ length (text (first_of (run_at place (H.meaning holder.now).tree))) }
    ensures put { output.new ≡ put_front (text (first_of (run_at place (H.meaning holder.now).tree))) output.old }
{
    let count = holder.length_at(place);
    let start = put_length(count, output);
    put_octets(holder, place, &mut output[start..]);
    start + count
}

// Puts the text of an element at the front of an output, and tells its length.
fn put<H: Holder>(holder: &H, place: u32, output: &mut [u8]) -> usize
    requires stands { Stands (run_at place (H.meaning holder.now).tree) }
    requires room { length (text (first_of (run_at place (H.meaning holder.now).tree))) ≤ length output.old }
    ensures end { result ≡ length (text (first_of (run_at place (H.meaning holder.now).tree))) }
    ensures put { output.new ≡ put_front (text (first_of (run_at place (H.meaning holder.now).tree))) output.old }
{
    match holder.kind_at(place) {
        Kind::Atom => put_atom(holder, place, output),
        Kind::List => {
            output[0] = b'(';
            let mut end = 1;
            let mut rest = holder.first_in(place);
            while let Some(at) = rest {
                end += put(holder, at, &mut output[end..]);
                rest = holder.next_after(at);
            }
            output[end] = b')';
            end + 1
        }
    }
}

/// Puts the text of so many elements from a place on at the front of an output, and tells its length.
pub(crate) fn put_run<H: Holder>(holder: &H, first: u32, count: u16, output: &mut [u8]) -> usize
    requires many { count ≤ width (elements_from (H.meaning holder.now).tree (Some first)) }
    requires room { let run = elements_from (H.meaning holder.now).tree (Some first) in
        length (text (front count run)) ≤ length output.old }
    ensures end { let run = elements_from (H.meaning holder.now).tree (Some first) in
        result ≡ length (text (front count run)) }
    ensures put { let run = elements_from (H.meaning holder.now).tree (Some first) in
        output.new ≡ put_front (text (front count run)) output.old }
{
    let mut end = 0;
    let mut rest = Some(first);
    for _ in 0..count {
        let Some(at) = rest else { unreachable!() };
        end += put(holder, at, &mut output[end..]);
        rest = holder.next_after(at);
    }
    end
}
