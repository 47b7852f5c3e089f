//! Rules, records and results as large as they may be, and larger.
use crate::calls::tell;
use crate::fits::{Bench, Fit, Given};
use crate::jobs::{Call, Desk, Lent, Told, or_refused};
use crate::tally::Tally;
use crate::verdicts::Text;
use Refusal::{ResultTooLarge, ShortOutput};
use Text::{Repeated, Written};
use readings::record::MOST_READINGS;
use sexp::refusals::Refusal;
use std::io;

// Twelve variables, and atoms for them.
const VARIABLES: &str = "2::e2::f2::g2::h2::i2::j2::k2::l2::m2::n2::o2::p";

const ATOMS: &str = "1:E1:F1:G1:H1:I1:J1:K1:L1:M1:N1:O1:P";

static FITS_OF_THE_LARGEST_RULE: [Fit; 2] = [
    (
        1,
        &[
            ("a", 0, None),
            ("b", 1, Some((2, 2))),
            ("c", 0, None),
            ("d", 2, Some((9, 5))),
            ("e", 1, Some((488, 243))),
            ("p", 1, Some((521, 254))),
        ],
        "(1:E1:F1:G1:H1:I1:J1:K1:L1:M1:N1:O1:P(1:A)()(1:C1:D))",
    ),
    (
        1,
        &[
            ("a", 1, Some((2, 2))),
            ("b", 0, None),
            ("c", 0, None),
            ("d", 2, Some((9, 5))),
            ("e", 1, Some((488, 243))),
            ("p", 1, Some((521, 254))),
        ],
        "(1:E1:F1:G1:H1:I1:J1:K1:L1:M1:N1:O1:P()(1:A)(1:C1:D))",
    ),
];

// A pattern of 240 lists, the root counted, and 16 names, 4 of them segments: 256 elements, and a mark for each. Its
// template is as large, but a segment of no element stands 236 times in it.
fn largest_rule(rt: &HostRuntime, tally: &mut Tally, bench: &mut Bench) -> io::Result<()> {
    let heap = rt.alloc();
    let lists = "()".repeat(heap, 236)?;
    let nothing = "2:!c".repeat(heap, 236)?;
    let book = format!(in heap;
        "((((2:!a2:!b)(2:!c)(2:!d){lists}{VARIABLES})({VARIABLES}(2:!b)(2:!a)(2:!d2:!c){nothing})))"
    )?;
    let record = format!(in heap; "((1:A)()(1:C1:D){lists}{ATOMS})")?;
    let name = "a rule of 256 elements on either side, and 256 marks";
    let record = Given::Text(record.as_str());
    bench.go_over(
        rt,
        tally,
        name,
        book.as_str(),
        record,
        &FITS_OF_THE_LARGEST_RULE,
    )
}

// As many rules as there may be.
fn largest_book(rt: &HostRuntime, tally: &mut Tally, bench: &mut Bench) -> io::Result<()> {
    let rules = "(2:'z2:'z)".repeat(rt.alloc(), 63)?;
    let book = format!(in rt.alloc(); "({rules}(2::x2::x))")?;
    let name = "64 rules, of which the last one fits";
    let record = Given::Readings(&[]);
    bench.go_over(
        rt,
        tally,
        name,
        book.as_str(),
        record,
        &[(64, &[("x", 1, Some((0, 0)))], "()")],
    )
}

// As many readings as there may be, and a segment that takes them one by one.
fn most_readings(rt: &HostRuntime, tally: &mut Tally, bench: &mut Bench) -> io::Result<()> {
    let readings = vec![in rt.alloc(); 7; MOST_READINGS]?;
    let name = "(!x :y) on 4,095 readings";
    let book = "(((2:!x2::y)2::y))";
    let record = Given::Readings(readings.as_slice());
    bench.go_over(
        rt,
        tally,
        name,
        book,
        record,
        &[(
            1,
            &[("x", 4094, Some((1, 1))), ("y", 1, Some((12283, 4095)))],
            "1:7",
        )],
    )
}

// A book and a record, and what comes of writing the first fit to an output of so many octets.
#[derive(Clone, Copy)]
struct Writing {
    name: &'static str,
    book: Text,
    record: Text,
    octets: usize,
    should: Result<Text, Refusal>,
}

const LISTS: Text = Repeated {
    name: "4,095 lists in a list",
    front: "(",
    part: "()",
    times: 4095,
    back: ")",
};

const NESTED: Text = Repeated {
    name: "32 lists, one in another",
    front: "",
    part: "(",
    times: 32,
    back: "))))))))))))))))))))))))))))))))",
};

// As many elements, as deep and as many octets as a record may have; and more.
static WRITINGS: [Writing; 8] = [
    Writing {
        name: "a result of 4,096 elements",
        book: Written("(((2:!x)(2:!x)))"),
        record: LISTS,
        octets: 8192,
        should: Ok(LISTS),
    },
    Writing {
        name: "a result of 4,097 elements",
        book: Written("(((2:!x)(2:!x2:'k)))"),
        record: LISTS,
        octets: 32768,
        should: Err(ResultTooLarge),
    },
    Writing {
        name: "a result of depth 32",
        book: Written("((2::x2::x))"),
        record: NESTED,
        octets: 64,
        should: Ok(NESTED),
    },
    Writing {
        name: "a result of depth 33",
        book: Written("((2::x(2::x)))"),
        record: NESTED,
        octets: 66,
        should: Err(ResultTooLarge),
    },
    Writing {
        name: "a result of depth 33, and no output",
        book: Written("((2::x(2::x)))"),
        record: NESTED,
        octets: 0,
        should: Err(ResultTooLarge),
    },
    // 254 times 3 atoms of 43 octets
    Writing {
        name: "a result of 32,768 octets",
        book: Repeated {
            name: "a segment 254 times",
            front: "(((2:!x)(",
            part: "2:!x",
            times: 254,
            back: ")))",
        },
        record: Written(
            "(40:abcdefghijabcdefghijabcdefghijabcdefghij\
            40:klmnopqrstklmnopqrstklmnopqrstklmnopqrst\
            40:uvwxyz0123uvwxyz0123uvwxyz0123uvwxyz0123)",
        ),
        octets: 32768,
        should: Ok(Repeated {
            name: "254 times three atoms",
            front: "(",
            part: "40:abcdefghijabcdefghijabcdefghijabcdefghij\
                40:klmnopqrstklmnopqrstklmnopqrstklmnopqrst\
                40:uvwxyz0123uvwxyz0123uvwxyz0123uvwxyz0123",
            times: 254,
            back: ")",
        }),
    },
    Writing {
        name: "a result of 32,768 octets, and an output that is shorter",
        book: Repeated {
            name: "a segment 254 times",
            front: "(((2:!x)(",
            part: "2:!x",
            times: 254,
            back: ")))",
        },
        record: Written(
            "(40:abcdefghijabcdefghijabcdefghijabcdefghij\
            40:klmnopqrstklmnopqrstklmnopqrstklmnopqrst\
            40:uvwxyz0123uvwxyz0123uvwxyz0123uvwxyz0123)",
        ),
        octets: 32767,
        should: Err(ShortOutput),
    },
    // 151 times 7 atoms of 31 octets
    Writing {
        name: "a result of 32,769 octets",
        book: Repeated {
            name: "a segment 151 times",
            front: "(((2:!x)(",
            part: "2:!x",
            times: 151,
            back: ")))",
        },
        record: Repeated {
            name: "seven atoms",
            front: "(",
            part: "28:abcdefghijklmnopqrstuvwxyz01",
            times: 7,
            back: ")",
        },
        octets: 32768,
        should: Err(ResultTooLarge),
    },
];

fn writings() -> &'static [Writing] {
    &WRITINGS
}

// Writes a first fit, and prints what is told.
fn write_first(
    rt: &HostRuntime,
    tally: &mut Tally,
    desk: &mut Desk,
    writing: Writing,
) -> io::Result<()> {
    let Writing {
        name,
        book,
        record,
        octets,
        should,
    } = writing;
    let book = book.spelled_out(rt.alloc())?;
    let record = record.spelled_out(rt.alloc())?;
    let text = should.unwrap_or(Written("")).spelled_out(rt.alloc())?;
    let should = match should {
        Ok(_) => Told::Written(text.as_bytes()),
        Err(refusal) => Told::Refused(refusal),
    };
    let (book, record) = (book.as_str(), record.as_str());
    let _ = tell(desk, book, record, Lent::Enough, Call::Rewind);
    let _ = tell(desk, book, record, Lent::Enough, Call::Next);
    let gave = or_refused(tell(desk, book, record, Lent::Enough, Call::Write(octets)));
    tally.case(rt, name, &gave, &should)
}

/// Goes through the largest rules, books, records and results, and prints each.
pub(crate) fn large(rt: &HostRuntime, tally: &mut Tally, bench: &mut Bench) -> io::Result<()> {
    largest_rule(rt, tally, bench)?;
    largest_book(rt, tally, bench)?;
    most_readings(rt, tally, bench)?;
    let mut desk = Desk::new(rt.alloc())?;
    for writing in writings() {
        write_first(rt, tally, &mut desk, *writing)?;
    }
    Ok(())
}
