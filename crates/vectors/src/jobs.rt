//! Calls on a job, with the memory that it is lent, and what they tell.
ghost use Rattle.std.specs.Prelude.{◌≤◌};

use books::books::Book;
use books::drafts::Draft;
use fitting::jobs::{Job, MEMORY};
use fitting::marks::Mark;
use holder::holding::Holder;
use sexp::reader::MOST_TEXT;
use sexp::refusals::Refusal;
use std::alloc::{AllocError, Global};
use std::fmt;

/// How much working memory a call is lent.
#[derive(Clone, Copy)]
pub(crate) enum Lent {
    /// 256 marks and 256 places.
    Enough,
    /// One mark too few.
    FewMarks,
    /// One place too few.
    FewPlaces,
}

impl Lent {
    fn marks(self) -> usize
        ensures { result ≤ 256 }
    {
        match self {
            Lent::FewMarks => MEMORY - 1,
            _ => MEMORY,
        }
    }

    fn places(self) -> usize
        ensures { result ≤ 256 }
    {
        match self {
            Lent::FewPlaces => MEMORY - 1,
            _ => MEMORY,
        }
    }
}

impl fmt::Display for Lent {
    fn fmt<W: fmt::Write>(&self, f: &mut fmt::Formatter<W>) -> fmt::Result {
        f.write_str(match *self {
            Lent::Enough => "",
            Lent::FewMarks => " with 255 marks",
            Lent::FewPlaces => " with 255 places",
        })
    }
}

/// A call on a job.
#[derive(Clone, Copy)]
pub(crate) enum Call<'a> {
    Next,
    /// Of a name.
    Show(&'a str),
    /// To an output of so many octets.
    Write(usize),
    Rewind,
}

impl fmt::Display for Call<'_> {
    fn fmt<W: fmt::Write>(&self, f: &mut fmt::Formatter<W>) -> fmt::Result {
        match *self {
            Call::Next => write!(f, "next"),
            Call::Show(name) => write!(f, "show \"{name}\""),
            Call::Write(octets) => write!(f, "write to {octets} octets"),
            Call::Rewind => write!(f, "rewind"),
        }
    }
}

/// What a call told.
#[derive(Clone, Copy, PartialEq, Eq)]
pub enum Told<'a> {
    /// The number of a fit's rule, and how many fits have been told.
    Fit(usize, u64),
    /// No fit is left; and how many have been told.
    End(u64),
    /// How many elements a name stands for, and the place of the first.
    Shown(usize, Option<u32>),
    /// The text of a filled template.
    Written(&'a [u8]),
    Rewound,
    Refused(Refusal),
    /// Octets were changed that are no part of the text written.
    Spoilt,
}

impl fmt::Display for Told<'_> {
    fn fmt<W: fmt::Write>(&self, f: &mut fmt::Formatter<W>) -> fmt::Result {
        match *self {
            Told::Fit(rule, count) => write!(f, "rule {rule}, {count} told"),
            Told::End(count) => write!(f, "end, {count} told"),
            Told::Shown(elements, Some(place)) => write!(f, "{elements}, from {place} on"),
            Told::Shown(elements, None) => write!(f, "{elements}, nowhere"),
            Told::Written(text) => f.write_str(readable(text)),
            Told::Rewound => f.write_str("done"),
            Told::Refused(refusal) => refusal.fmt(f),
            Told::Spoilt => f.write_str("other octets changed"),
        }
    }
}

// A text as it is printed.
fn readable(text: &[u8]) -> &str {
    match str::from_utf8(text) {
        Ok(text) if text.len() < 100 => text,
        Ok(_) => "a long text",
        Err(_) => "a text of other octets",
    }
}

/// What was told, or why the book or the record was not taken.
pub(crate) fn or_refused(told: Result<Told<'_>, Refusal>) -> Told<'_> {
    match told {
        Ok(told) => told,
        Err(refusal) => Told::Refused(refusal),
    }
}

// What the output is full of before a text is written.
const UNTOUCHED: u8 = b'.';

fn is_untouched(octets: &[u8]) -> bool {
    octets.iter().all(|octet| *octet == UNTOUCHED)
}

// The text at the front of an output, if the octets behind it are untouched.
fn written(output: &[u8], length: usize) -> Told<'_> {
    match output.split_at_checked(length) {
        Some((text, behind)) if is_untouched(behind) => Told::Written(text),
        _ => Told::Spoilt,
    }
}

/// A job, and what it writes to. What working memory holds is free, so each call is lent new memory.
#[derive(Drop)]
pub(crate) struct Desk {
    job: Job,
    output: Vec<u8>,
}

impl Desk {
    /// A desk with a job on a book without rules.
    pub(crate) fn new(heap: Global) -> Result<Desk, AllocError> {
        Ok(Desk {
            job: Job::open(&Draft::new().close()),
            output: vec![in heap; UNTOUCHED; MOST_TEXT]?,
        })
    }

    /// Opens a job on a book, in place of the one before.
    pub(crate) fn open(&mut self, book: &Book<'_>) {
        self.job = Job::open(book);
    }

    fn next<H: Holder>(&mut self, book: &Book<'_>, holder: &H, lent: Lent) -> Told<'static> {
        let mut marks = [Mark::unused(); MEMORY];
        let mut places = [0; MEMORY];
        let marks = &mut marks[..lent.marks()];
        let places = &mut places[..lent.places()];
        match self.job.next(book, holder, marks, places) {
            Ok((Some(rule), count)) => Told::Fit(rule, count),
            Ok((None, count)) => Told::End(count),
            Err(refusal) => Told::Refused(refusal),
        }
    }

    fn show<H: Holder>(
        &self,
        book: &Book<'_>,
        holder: &H,
        lent: Lent,
        name: &str,
    ) -> Told<'static> {
        let mut marks = [Mark::unused(); MEMORY];
        let mut places = [0; MEMORY];
        let marks = &mut marks[..lent.marks()];
        let places = &mut places[..lent.places()];
        match self.job.show(book, holder, marks, places, name.as_bytes()) {
            Ok((place, elements)) => Told::Shown(elements, place),
            Err(refusal) => Told::Refused(refusal),
        }
    }

    fn write<H: Holder>(
        &mut self,
        book: &Book<'_>,
        holder: &H,
        lent: Lent,
        octets: usize,
    ) -> Told<'_> {
        let mut marks = [Mark::unused(); MEMORY];
        let mut places = [0; MEMORY];
        let marks = &mut marks[..lent.marks()];
        let places = &mut places[..lent.places()];
        let job = self.job;
        let Some(output) = self.output.as_mut_slice().get_mut(..octets) else {
            return Told::Spoilt;
        };
        output.fill(UNTOUCHED);
        match job.write(book, holder, marks, places, output) {
            Ok(length) => written(output, length),
            Err(refusal) if is_untouched(output) => Told::Refused(refusal),
            Err(_) => Told::Spoilt,
        }
    }

    /// Makes a call, and tells what it told.
    pub(crate) fn call<H: Holder>(
        &mut self,
        book: &Book<'_>,
        holder: &H,
        lent: Lent,
        call: Call<'_>,
    ) -> Told<'_> {
        match call {
            Call::Next => self.next(book, holder, lent),
            Call::Show(name) => self.show(book, holder, lent, name),
            Call::Write(octets) => self.write(book, holder, lent, octets),
            Call::Rewind => {
                self.job.rewind();
                Told::Rewound
            }
        }
    }
}
