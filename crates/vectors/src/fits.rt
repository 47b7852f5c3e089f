//! Fits of books and records: what next, show and write tell of each, over every holder that can hold the record.
use crate::drafts::book_of;
use crate::fit_cases::groups;
use crate::jobs::{Call, Desk, Lent, Told};
use crate::tally::Tally;
use books::books::Book;
use holder::copying::copy_out;
use holder::holding::Holder;
use loading::loading::load;
use loading::marks::Mark;
use readings::record::ReadingsRecord;
use sexp::reader::MOST_TEXT;
use sexp::refusals::Refusal;
use sexp::tokens::MOST_ELEMENTS;
use std::alloc::{AllocError, Global};
use std::{fmt, io};
use tables::nodes::{LIST, Node};
use tables::record::TableRecord;
use texts::record::TextRecord;

/// What show tells of a name: how many elements it stands for, and the offset of the first in the record's text and its
/// number, the root's being 0.
pub(crate) type Shown = (&'static str, usize, Option<(u32, u32)>);

/// A fit: the number of its rule, what show tells of the names, and the text that write lays.
pub(crate) type Fit = (usize, &'static [Shown], &'static str);

/// The record of a case.
#[derive(Clone, Copy)]
pub(crate) enum Given<'a> {
    Text(&'a str),
    Readings(&'a [i32]),
}

impl Given<'_> {
    // What can hold it.
    fn holders(self) -> &'static [Held] {
        match self {
            Given::Text(_) => &[Held::Text, Held::Table],
            Given::Readings(_) => &[Held::Text, Held::Table, Held::Readings],
        }
    }
}

/// A book's text, a record, and the complete list of their fits.
#[derive(Clone, Copy)]
pub(crate) struct Case {
    pub(crate) name: &'static str,
    pub(crate) book: &'static str,
    pub(crate) record: Given<'static>,
    pub(crate) fits: &'static [Fit],
}

// What holds a record.
#[derive(Clone, Copy)]
enum Held {
    Text,
    Table,
    Readings,
}

impl fmt::Display for Held {
    fn fmt<W: fmt::Write>(&self, f: &mut fmt::Formatter<W>) -> fmt::Result {
        f.write_str(match *self {
            Held::Text => "text",
            Held::Table => "table",
            Held::Readings => "readings",
        })
    }
}

impl Held {
    // What show should tell of a name.
    fn should(self, (_, elements, first): Shown) -> Told<'static> {
        let place = match (self, first) {
            (_, None) => None,
            (Held::Text, Some((offset, _))) => Some(offset),
            (_, Some((_, number))) => Some(number),
        };
        Told::Shown(elements, place)
    }

    // What was told, but of a table's place the index of the node alone.
    fn seen(self, told: Told<'_>) -> Told<'_> {
        match (self, told) {
            (Held::Table, Told::Shown(elements, Some(place))) => {
                Told::Shown(elements, Some(place % 65536))
            }
            _ => told,
        }
    }
}

/// The calls that are made on a job.
#[derive(Clone, Copy, PartialEq, Eq)]
pub enum Stage {
    Next,
    Show,
    Write,
    // Those behind the last fit.
    End,
    // Those after a rewind.
    Again,
}

impl fmt::Display for Stage {
    fn fmt<W: fmt::Write>(&self, f: &mut fmt::Formatter<W>) -> fmt::Result {
        f.write_str(match *self {
            Stage::Next => "next",
            Stage::Show => "show",
            Stage::Write => "write",
            Stage::End => "the end",
            Stage::Again => "the rewound job",
        })
    }
}

/// What came of a case.
#[derive(Clone, Copy, PartialEq, Eq)]
pub enum Course {
    /// So many fits were told, and then the end.
    Whole(u64),
    /// So many fits were told, and then a call strayed.
    Strayed(u64, Stage),
    /// The book or the record was not taken.
    Refused(Refusal),
}

impl fmt::Display for Course {
    fn fmt<W: fmt::Write>(&self, f: &mut fmt::Formatter<W>) -> fmt::Result {
        match *self {
            Course::Whole(1) => write!(f, "1 fit"),
            Course::Whole(fits) => write!(f, "{fits} fits"),
            Course::Strayed(fits, stage) => write!(f, "{stage} strays, {fits} told"),
            Course::Refused(refusal) => write!(f, "{refusal}"),
        }
    }
}

// A book and a record, and the desk where their fits are told.
#[derive(Drop)]
struct Trial<'t, 's, H: Holder> {
    desk: &'t mut Desk,
    book: &'t Book<'s>,
    holder: &'t H,
    held: Held,
}

impl<H: Holder> Trial<'_, '_, H> {
    // Whether a call tells what it should.
    fn tells(&mut self, call: Call<'_>, should: Told<'_>) -> bool {
        let told = self.desk.call(self.book, self.holder, Lent::Enough, call);
        self.held.seen(told) == should
    }

    // Where the calls stray from a fit, which is next and has this number in the list.
    fn fit(&mut self, (rule, shown, text): Fit, count: u64) -> Option<Stage> {
        if !self.tells(Call::Next, Told::Fit(rule, count)) {
            return Some(Stage::Next);
        }
        for of_name in shown {
            let should = self.held.should(*of_name);
            if !self.tells(Call::Show(of_name.0), should) {
                return Some(Stage::Show);
            }
        }
        let octets = text.len().saturating_add(1);
        if self.tells(Call::Write(octets), Told::Written(text.as_bytes())) {
            None
        } else {
            Some(Stage::Write)
        }
    }

    // Whether the job is at the end, and stays there.
    fn ends(&mut self, count: u64) -> bool {
        self.tells(Call::Next, Told::End(count))
            && self.tells(Call::Next, Told::End(count))
            && self.tells(Call::Show("x"), Told::Refused(Refusal::NoFit))
            && self.tells(Call::Write(0), Told::Refused(Refusal::NoFit))
    }

    // Whether the job, set back, tells the first fit again.
    fn begins_again(&mut self, fits: &[Fit]) -> bool {
        let first = match fits.first() {
            Some((rule, _, _)) => Told::Fit(*rule, 1),
            None => Told::End(0),
        };
        self.tells(Call::Rewind, Told::Rewound) && self.tells(Call::Next, first)
    }

    // Goes through the fits, past the end, and to the first again.
    fn course(&mut self, fits: &[Fit]) -> Course {
        self.desk.open(self.book);
        let mut told: u64 = 0;
        for fit in fits {
            if let Some(stage) = self.fit(*fit, told.saturating_add(1)) {
                return Course::Strayed(told, stage);
            }
            told = told.saturating_add(1);
        }
        if !self.ends(told) {
            Course::Strayed(told, Stage::End)
        } else if !self.begins_again(fits) {
            Course::Strayed(told, Stage::Again)
        } else {
            Course::Whole(told)
        }
    }
}

// What comes of a book and a record behind a holder.
fn follow<H: Holder>(
    desk: &mut Desk,
    book: &Book<'_>,
    holder: &H,
    held: Held,
    fits: &[Fit],
) -> Course {
    let mut trial = Trial {
        desk,
        book,
        holder,
        held,
    };
    trial.course(fits)
}

fn over_text(
    desk: &mut Desk,
    book: &Book<'_>,
    text: &[u8],
    fits: &[Fit],
) -> Result<Course, Refusal> {
    let mut record = TextRecord::new();
    record.fill(text)?;
    Ok(follow(desk, book, &record, Held::Text, fits))
}

// Over the nodes that a text is loaded into.
fn over_table(
    desk: &mut Desk,
    book: &Book<'_>,
    text: &[u8],
    nodes: &mut [Node],
    fits: &[Fit],
) -> Result<Course, Refusal> {
    let mut mark = Mark { used: 0 };
    load(text, nodes, &mut mark)?;
    let mut record = TableRecord::new();
    record.fill(nodes.get(..mark.used).unwrap_or(&[]), text)?;
    Ok(follow(desk, book, &record, Held::Table, fits))
}

fn over_readings(
    desk: &mut Desk,
    book: &Book<'_>,
    readings: &[i32],
    fits: &[Fit],
) -> Result<Course, Refusal> {
    let mut record = ReadingsRecord::new();
    record.fill(readings)?;
    Ok(follow(desk, book, &record, Held::Readings, fits))
}

// The text of a record; that of readings is copied out of their holder.
fn text_of<'t>(record: Given<'t>, output: &'t mut [u8]) -> Result<&'t [u8], Refusal> {
    match record {
        Given::Text(text) => Ok(text.as_bytes()),
        Given::Readings(readings) => {
            let mut held = ReadingsRecord::new();
            held.fill(readings)?;
            let length = copy_out(&held, output)?;
            Ok(output.get(..length).unwrap_or(&[]))
        }
    }
}

/// What cases are gone through on: a desk, nodes that texts are loaded into, and an output that readings are copied to.
#[derive(Drop)]
pub(crate) struct Bench {
    desk: Desk,
    nodes: Vec<Node>,
    output: Vec<u8>,
}

impl Bench {
    pub(crate) fn new(heap: Global) -> Result<Bench, AllocError> {
        let unused = Node {
            kind: LIST,
            span: 0,
            offset: 0,
            length: 0,
        };
        Ok(Bench {
            desk: Desk::new(heap)?,
            nodes: vec![in heap; unused; MOST_ELEMENTS]?,
            output: vec![in heap; 0u8; MOST_TEXT]?,
        })
    }

    // What comes of a book's text and a record behind a holder.
    fn course(
        &mut self,
        held: Held,
        book: &str,
        record: Given<'_>,
        fits: &[Fit],
    ) -> Result<Course, Refusal> {
        let Bench {
            desk,
            nodes,
            output,
        } = self;
        let book = book_of(book.as_bytes())?;
        if let (Held::Readings, Given::Readings(readings)) = (held, record) {
            return over_readings(desk, &book, readings, fits);
        }
        let text = text_of(record, output.as_mut_slice())?;
        match held {
            Held::Table => over_table(desk, &book, text, nodes.as_mut_slice(), fits),
            _ => over_text(desk, &book, text, fits),
        }
    }

    /// Goes through the fits of a book's text and a record, behind each holder that can hold it, and prints what came
    /// of each.
    pub(crate) fn go_over(
        &mut self,
        rt: &HostRuntime,
        tally: &mut Tally,
        name: &str,
        book: &str,
        record: Given<'_>,
        fits: &[Fit],
    ) -> io::Result<()> {
        let should = Course::Whole(fits.len() as u64);
        for held in record.holders() {
            let gave = self
                .course(*held, book, record, fits)
                .unwrap_or_else(Course::Refused);
            let name = format!(in rt.alloc(); "{name}, {held}")?;
            tally.case(rt, name.as_str(), &gave, &should)?;
        }
        Ok(())
    }

    // Goes over cases.
    fn go_through(
        &mut self,
        rt: &HostRuntime,
        tally: &mut Tally,
        cases: &[Case],
    ) -> io::Result<()> {
        for case in cases {
            self.go_over(rt, tally, case.name, case.book, case.record, case.fits)?;
        }
        Ok(())
    }
}

/// Goes through the groups of cases, and prints each case.
pub(crate) fn fits(rt: &HostRuntime, tally: &mut Tally, bench: &mut Bench) -> io::Result<()> {
    for cases in groups() {
        bench.go_through(rt, tally, cases)?;
    }
    Ok(())
}
