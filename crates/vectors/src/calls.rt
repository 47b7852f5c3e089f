//! Calls that are refused, and calls on another book or record than the one before.
use crate::drafts::book_of;
use crate::jobs::Call::{Next, Rewind, Show, Write};
use crate::jobs::Lent::{Enough, FewMarks, FewPlaces};
use crate::jobs::Told::{End, Fit, Refused, Rewound, Shown, Written};
use crate::jobs::{Call, Desk, Lent, Told, or_refused};
use crate::tally::Tally;
use Refusal::{NoFit, ShortOutput, SmallMemory, UnknownName};
use Rules::{Alike, Both, Nothing, Split, Swap, Tank};
use sexp::refusals::Refusal;
use std::{fmt, io};
use texts::record::TextRecord;

// A book.
#[derive(Clone, Copy)]
enum Rules {
    Nothing,
    Split,
    // The pattern of `Split`, written otherwise.
    Alike,
    Swap,
    // `Split`, then `Swap`.
    Both,
    Tank,
}

impl Rules {
    fn text(self) -> &'static str {
        match self {
            Nothing => "()",
            Split => "(((2:!x2:!y)((2:!x)(2:!y))))",
            Alike => "(((2:!x2:!y)2:'k))",
            Swap => "(((2::u2::v)(2::v2::u)))",
            Both => "(((2:!x2:!y)((2:!x)(2:!y)))((2::u2::v)(2::v2::u)))",
            Tank => "(((2:!a2:'t2::v2:!b)(5:'temp2::v2:!a2:!b)))",
        }
    }
}

impl fmt::Display for Rules {
    fn fmt<W: fmt::Write>(&self, f: &mut fmt::Formatter<W>) -> fmt::Result {
        f.write_str(match *self {
            Nothing => "no rule",
            Split => "(!x !y)",
            Alike => "(!x !y) written 'k",
            Swap => "(:u :v)",
            Both => "(!x !y) and (:u :v)",
            Tank => "(!a 't :v !b)",
        })
    }
}

// A call on a book and the record of a text, and what it should tell.
type Step = (Rules, &'static str, Lent, Call<'static>, Told<'static>);

// A job that has just been opened, or set back.
static AT_THE_START: [Step; 6] = [
    (Split, "(1:a1:b)", Enough, Show("x"), Refused(NoFit)),
    (Split, "(1:a1:b)", Enough, Write(99), Refused(NoFit)),
    (Split, "(1:a1:b)", Enough, Next, Fit(1, 1)),
    (Split, "(1:a1:b)", Enough, Rewind, Rewound),
    (Split, "(1:a1:b)", Enough, Show("x"), Refused(NoFit)),
    (Split, "(1:a1:b)", Enough, Next, Fit(1, 1)),
];

// Refused before all else, and nothing has changed then.
static LITTLE_MEMORY: [Step; 15] = [
    (Split, "(1:a1:b)", FewMarks, Show("x"), Refused(SmallMemory)),
    (
        Split,
        "(1:a1:b)",
        FewPlaces,
        Write(99),
        Refused(SmallMemory),
    ),
    (Split, "(1:a1:b)", FewMarks, Next, Refused(SmallMemory)),
    (Split, "(1:a1:b)", FewPlaces, Next, Refused(SmallMemory)),
    (Split, "(1:a1:b)", Enough, Next, Fit(1, 1)),
    (Split, "(1:a1:b)", FewMarks, Next, Refused(SmallMemory)),
    (Split, "(1:a1:b)", FewPlaces, Next, Refused(SmallMemory)),
    (Split, "(1:a1:b)", FewMarks, Show("z"), Refused(SmallMemory)),
    (
        Split,
        "(1:a1:b)",
        FewPlaces,
        Show("x"),
        Refused(SmallMemory),
    ),
    (Split, "(1:a1:b)", FewMarks, Write(0), Refused(SmallMemory)),
    (
        Split,
        "(1:a1:b)",
        FewPlaces,
        Write(99),
        Refused(SmallMemory),
    ),
    (Split, "(1:a1:b)", Enough, Show("y"), Shown(2, Some(1))),
    (Split, "()", Enough, Next, End(1)),
    (Split, "()", FewMarks, Next, Refused(SmallMemory)),
    (Split, "()", FewPlaces, Show("x"), Refused(SmallMemory)),
];

static UNKNOWN_NAMES: [Step; 14] = [
    (Both, "(1:a1:b)", Enough, Next, Fit(1, 1)),
    (Both, "(1:a1:b)", Enough, Show("x"), Shown(0, None)),
    (Both, "(1:a1:b)", Enough, Show("y"), Shown(2, Some(1))),
    (Both, "(1:a1:b)", Enough, Show("u"), Refused(UnknownName)),
    (Both, "(1:a1:b)", Enough, Show("xy"), Refused(UnknownName)),
    (Both, "(1:a1:b)", Enough, Show("!x"), Refused(UnknownName)),
    (Both, "(1:a1:b)", Enough, Show(""), Refused(UnknownName)),
    (Both, "(1:a1:b)", Enough, Next, Fit(1, 2)),
    (Both, "(1:a1:b)", Enough, Next, Fit(1, 3)),
    (Both, "(1:a1:b)", Enough, Next, Fit(2, 4)),
    (Both, "(1:a1:b)", Enough, Show("u"), Shown(1, Some(1))),
    (Both, "(1:a1:b)", Enough, Show("x"), Refused(UnknownName)),
    (Both, "(1:a1:b)", Enough, Next, End(4)),
    (Both, "(1:a1:b)", Enough, Show("z"), Refused(NoFit)),
];

static SHORT_OUTPUTS: [Step; 9] = [
    (Tank, "(1:t1:t1:5)", Enough, Next, Fit(1, 1)),
    (Tank, "(1:t1:t1:5)", Enough, Write(0), Refused(ShortOutput)),
    (Tank, "(1:t1:t1:5)", Enough, Write(13), Refused(ShortOutput)),
    (
        Tank,
        "(1:t1:t1:5)",
        Enough,
        Write(14),
        Written(b"(4:temp1:t1:5)"),
    ),
    (
        Tank,
        "(1:t1:t1:5)",
        Enough,
        Write(99),
        Written(b"(4:temp1:t1:5)"),
    ),
    (Tank, "(1:t1:t1:5)", Enough, Next, Fit(1, 2)),
    (Tank, "(1:t1:t1:5)", Enough, Write(13), Refused(ShortOutput)),
    (
        Tank,
        "(1:t1:t1:5)",
        Enough,
        Write(14),
        Written(b"(4:temp1:51:t)"),
    ),
    (Tank, "(1:t1:t1:5)", Enough, Next, End(2)),
];

// The position is a key: a fit stands where the record handed in has one of that key, and next goes on behind it.
static OTHER_RECORDS: [Step; 18] = [
    (Split, "(1:a1:b)", Enough, Next, Fit(1, 1)),
    (Split, "(1:c1:d)", Enough, Show("y"), Shown(2, Some(1))),
    (
        Split,
        "(1:c1:d)",
        Enough,
        Write(99),
        Written(b"(()(1:c1:d))"),
    ),
    (Split, "(1:a1:b1:c)", Enough, Show("x"), Refused(NoFit)),
    (Split, "(1:a1:b1:c)", Enough, Write(99), Refused(NoFit)),
    (Split, "1:a", Enough, Write(99), Refused(NoFit)),
    (Split, "(1:a1:b)", Enough, Show("x"), Shown(0, None)),
    (Split, "(1:a1:b1:c)", Enough, Next, Fit(1, 2)),
    (
        Split,
        "(1:a1:b1:c)",
        Enough,
        Write(99),
        Written(b"(()(1:a1:b1:c))"),
    ),
    (Split, "(1:a1:b)", Enough, Write(99), Refused(NoFit)),
    (Split, "(1:a1:b)", Enough, Next, Fit(1, 3)),
    (
        Split,
        "(1:a1:b)",
        Enough,
        Write(99),
        Written(b"((1:a)(1:b))"),
    ),
    (Split, "(1:a)", Enough, Next, End(3)),
    (Split, "(1:a1:b)", Enough, Next, End(3)),
    (Split, "(1:a1:b)", Enough, Write(99), Refused(NoFit)),
    (Split, "(1:a1:b)", Enough, Rewind, Rewound),
    (Split, "(1:a)", Enough, Next, Fit(1, 1)),
    (Split, "(1:a)", Enough, Write(99), Written(b"(()(1:a))")),
];

// A fit stands where the rule of its number, in the book handed in, has one of that key.
static OTHER_BOOKS: [Step; 18] = [
    (Split, "(1:a1:b)", Enough, Next, Fit(1, 1)),
    (Alike, "(1:a1:b)", Enough, Write(99), Written(b"1:k")),
    (Both, "(1:a1:b)", Enough, Show("y"), Shown(2, Some(1))),
    (Swap, "(1:a1:b)", Enough, Show("u"), Refused(NoFit)),
    (Nothing, "(1:a1:b)", Enough, Write(99), Refused(NoFit)),
    (Swap, "(1:a1:b)", Enough, Next, End(1)),
    (Both, "(1:a1:b)", Enough, Next, End(1)),
    (Both, "(1:a1:b)", Enough, Rewind, Rewound),
    (Swap, "(1:a1:b)", Enough, Next, Fit(1, 1)),
    (Split, "(1:a1:b)", Enough, Show("x"), Refused(NoFit)),
    (Split, "()", Enough, Show("x"), Shown(0, None)),
    (Both, "(1:a1:b)", Enough, Next, Fit(1, 2)),
    (Both, "(1:a1:b)", Enough, Next, Fit(1, 3)),
    (Both, "(1:a1:b)", Enough, Next, Fit(1, 4)),
    (Both, "(1:a1:b)", Enough, Next, Fit(2, 5)),
    (Split, "(1:a1:b)", Enough, Show("x"), Refused(NoFit)),
    (Both, "(1:a1:b)", Enough, Write(99), Written(b"(1:b1:a)")),
    (Split, "(1:a1:b)", Enough, Next, End(5)),
];

/// What a call tells on the book and the record of these texts.
pub(crate) fn tell<'d>(
    desk: &'d mut Desk,
    book: &str,
    record: &str,
    lent: Lent,
    call: Call<'_>,
) -> Result<Told<'d>, Refusal> {
    let book = book_of(book.as_bytes())?;
    let mut held = TextRecord::new();
    held.fill(record.as_bytes())?;
    Ok(desk.call(&book, &held, lent, call))
}

// Makes the calls on a new job, and prints each.
fn go_through(rt: &HostRuntime, tally: &mut Tally, name: &str, steps: &[Step]) -> io::Result<()> {
    let mut desk = Desk::new(rt.alloc())?;
    for (rules, record, lent, call, should) in steps {
        let name = format!(in rt.alloc(); "{name}, {rules} on {record}: {call}{lent}")?;
        let gave = or_refused(tell(&mut desk, rules.text(), *record, *lent, *call));
        tally.case(rt, name.as_str(), &gave, should)?;
    }
    Ok(())
}

/// Goes through the calls, and prints each.
pub(crate) fn calls(rt: &HostRuntime, tally: &mut Tally) -> io::Result<()> {
    go_through(rt, tally, "at the start", &AT_THE_START)?;
    go_through(rt, tally, "little memory", &LITTLE_MEMORY)?;
    go_through(rt, tally, "unknown names", &UNKNOWN_NAMES)?;
    go_through(rt, tally, "short outputs", &SHORT_OUTPUTS)?;
    go_through(rt, tally, "other records", &OTHER_RECORDS)?;
    go_through(rt, tally, "other books", &OTHER_BOOKS)
}
