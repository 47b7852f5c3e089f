//! Books of rules: how many rules are taken, and why the next one is not.
use crate::tally::Tally;
use crate::verdicts::Text;
use Refusal::{
    BookFull, Malformed, NameLength, NoRule, NotAList, OtherSign, RuleLimit, TextLength,
    UnboundName, UnknownSign, WholeSegment,
};
use Text::{Repeated, Written};
use books::books::Book;
use books::drafts::Draft;
use sexp::refusals::Refusal;
use std::{fmt, io};

/// How many rules of a text were taken, one after another, and what refused the next.
#[derive(Clone, Copy, PartialEq, Eq)]
pub struct Taken {
    rules: usize,
    refusal: Refusal,
}

impl fmt::Display for Taken {
    fn fmt<W: fmt::Write>(&self, f: &mut fmt::Formatter<W>) -> fmt::Result {
        let Taken { rules, refusal } = *self;
        write!(f, "{rules} taken, then {refusal}")
    }
}

// The text of a book, how many of its rules are taken, and why the next one, or the text, is refused.
static CASES: [(Text, usize, Refusal); 52] = [
    (Written("()"), 0, NoRule),
    (Written("((2::x2::x))"), 1, NoRule),
    (Written(""), 0, TextLength),
    (Written("(1:a"), 0, Malformed { offset: 4 }),
    (Written("1:a"), 0, NotAList { offset: 0 }),
    (Written("(1:a)"), 0, NotAList { offset: 1 }),
    (Written("(())"), 0, NotAList { offset: 1 }),
    (Written("((2::x))"), 0, NotAList { offset: 1 }),
    (Written("((2::x2::x2::x))"), 0, NotAList { offset: 1 }),
    (Written("((2::x2::x)1:a)"), 1, NotAList { offset: 11 }),
    (Written("((1:a2::x))"), 0, UnknownSign { offset: 2 }),
    (Written("((0:2::x))"), 0, UnknownSign { offset: 2 }),
    (Written("((2::x1:a))"), 0, UnknownSign { offset: 6 }),
    (Written("((1:'2:':))"), 1, NoRule),
    (Written("((1::2::x))"), 0, NameLength { offset: 2 }),
    (Written("((2::x1::))"), 0, NameLength { offset: 6 }),
    (
        Repeated {
            name: "a name of 32 octets",
            front: "((33::",
            part: "n",
            times: 32,
            back: "2:'a))",
        },
        1,
        NoRule,
    ),
    (
        Repeated {
            name: "a name of 33 octets",
            front: "((34::",
            part: "n",
            times: 33,
            back: "2:'a))",
        },
        0,
        NameLength { offset: 2 },
    ),
    (Written("((2:!x2:'a))"), 0, WholeSegment { offset: 2 }),
    (Written("((2:'a2:!x))"), 0, WholeSegment { offset: 6 }),
    (Written("(((2:!x)(2:!x)))"), 1, NoRule),
    (Written("(((2::x)(2:!x)))"), 0, OtherSign { offset: 9 }),
    (Written("(((2::x2:!x)2::x))"), 0, OtherSign { offset: 7 }),
    (Written("(((2:!x)2::x))"), 0, OtherSign { offset: 8 }),
    (Written("((2::x2::y))"), 0, UnboundName { offset: 6 }),
    (Written("((2::x(2::x2::y)))"), 0, UnboundName { offset: 11 }),
    (
        Repeated {
            name: "a pattern of 256 elements",
            front: "(((",
            part: "2:'a",
            times: 255,
            back: ")2:'b))",
        },
        1,
        NoRule,
    ),
    (
        Repeated {
            name: "a pattern of 257 elements",
            front: "(((",
            part: "2:'a",
            times: 256,
            back: ")2:'b))",
        },
        0,
        RuleLimit { offset: 1023 },
    ),
    (
        Repeated {
            name: "a template of 256 elements",
            front: "((2:'b(",
            part: "2:'a",
            times: 255,
            back: ")))",
        },
        1,
        NoRule,
    ),
    (
        Repeated {
            name: "a template of 257 elements",
            front: "((2:'b(",
            part: "2:'a",
            times: 256,
            back: ")))",
        },
        0,
        RuleLimit { offset: 1027 },
    ),
    (
        Repeated {
            name: "a pattern of 257 elements, the last a list",
            front: "(((",
            part: "2:'a",
            times: 255,
            back: "())2:'b))",
        },
        0,
        RuleLimit { offset: 1023 },
    ),
    (
        Written("(((2::a2::b2::c2::d2::e2::f2::g2::h2::i2::j2::k2::l2::m2::n2::o2::p)2:'a))"),
        1,
        NoRule,
    ),
    (
        Written("(((2::a2::b2::c2::d2::e2::f2::g2::h2::i2::j2::k2::l2::m2::n2::o2::p2::a)2:'a))"),
        1,
        NoRule,
    ),
    (
        Written("(((2::a2::b2::c2::d2::e2::f2::g2::h2::i2::j2::k2::l2::m2::n2::o2::p2::q)2:'a))"),
        0,
        RuleLimit { offset: 67 },
    ),
    (Written("(((2:!a2:!b2:!c2:!d)2:'a))"), 1, NoRule),
    (Written("(((2:!a2:!b2:!c2:!d2:!d2::e)2:'a))"), 1, NoRule),
    (
        Written("(((2:!a2:!b2:!c2:!d2:!e)2:'a))"),
        0,
        RuleLimit { offset: 19 },
    ),
    (
        Repeated {
            name: "64 rules",
            front: "(",
            part: "(2::x2::x)",
            times: 64,
            back: ")",
        },
        64,
        NoRule,
    ),
    (
        Repeated {
            name: "64 rules and one more",
            front: "(",
            part: "(2::x2::x)",
            times: 65,
            back: ")",
        },
        64,
        BookFull,
    ),
    (
        Repeated {
            name: "64 rules and an atom",
            front: "(",
            part: "(2::x2::x)",
            times: 64,
            back: "1:a)",
        },
        64,
        BookFull,
    ),
    (Written("((1:!2:'a))"), 0, NameLength { offset: 2 }),
    (Written("((2::x2:!x))"), 0, WholeSegment { offset: 6 }),
    (
        Repeated {
            name: "a 257th element without a sign",
            front: "(((",
            part: "2:'a",
            times: 255,
            back: "1:a)2:'b))",
        },
        0,
        UnknownSign { offset: 1023 },
    ),
    (
        Repeated {
            name: "a 257th element without a name",
            front: "(((",
            part: "2:'a",
            times: 255,
            back: "1::)2:'b))",
        },
        0,
        NameLength { offset: 1023 },
    ),
    (
        Repeated {
            name: "a 257th element with the other sign",
            front: "(((2::x",
            part: "2:'a",
            times: 254,
            back: "2:!x)2:'b))",
        },
        0,
        OtherSign { offset: 1023 },
    ),
    (
        Repeated {
            name: "a 257th element that the pattern lacks",
            front: "((2:'b(",
            part: "2:'a",
            times: 255,
            back: "2::x)))",
        },
        0,
        RuleLimit { offset: 1027 },
    ),
    (
        Written("(((2:!a2:!b2:!c2:!d2::e)((2:!e))))"),
        0,
        OtherSign { offset: 26 },
    ),
    (Written("((1:a1::))"), 0, UnknownSign { offset: 2 }),
    (Written("(((2::x2:!x)1:a))"), 0, OtherSign { offset: 7 }),
    (Written("((2::x(2::y1:a)))"), 0, UnboundName { offset: 7 }),
    (
        Written("(((2:!a2:!b2:!c2:!d2:!e)1:a))"),
        0,
        RuleLimit { offset: 19 },
    ),
    (
        Written("((2::x2::x)(2::x2::y)(2::x2::x))"),
        1,
        UnboundName { offset: 16 },
    ),
];

// Takes the rules of a draft until one is refused.
fn take_all(draft: &mut Draft<'_>) -> Taken {
    let mut rules = 0;
    loop {
        match draft.take() {
            Ok(number) => rules = number,
            Err(refusal) => return Taken { rules, refusal },
        }
    }
}

// Takes the rules of a text.
fn take_rules(text: &[u8]) -> Taken {
    let mut draft = Draft::new();
    match draft.begin(text) {
        Ok(()) => take_all(&mut draft),
        Err(refusal) => Taken { rules: 0, refusal },
    }
}

/// The book of a text, if all its rules are taken.
pub(crate) fn book_of(text: &[u8]) -> Result<Book<'_>, Refusal> {
    let mut draft = Draft::new();
    draft.begin(text)?;
    match take_all(&mut draft).refusal {
        NoRule => Ok(draft.close()),
        refusal => Err(refusal),
    }
}

/// Goes through the cases, and prints each.
pub(crate) fn drafts(rt: &HostRuntime, tally: &mut Tally) -> io::Result<()> {
    for (text, rules, refusal) in &CASES {
        let octets = text.spelled_out(rt.alloc())?;
        let gave = take_rules(octets.as_bytes());
        let should = Taken {
            rules: *rules,
            refusal: *refusal,
        };
        let name = text.name();
        let name = format!(in rt.alloc(); "the book {name}")?;
        tally.case(rt, name.as_str(), &gave, &should)?;
    }
    Ok(())
}
