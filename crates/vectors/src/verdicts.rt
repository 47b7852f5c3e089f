//! Texts: the examples that RFC 9804 gives, and a case for each rule of the text form and its corners.
use crate::tally::Tally;
use Refusal::{Malformed, OverLimit, TextLength};
use Text::{LongList, Repeated, Written};
use sexp::outcomes::Outcome;
use sexp::reader::{Extent, check};
use sexp::refusals::Refusal;
use std::alloc::{AllocError, Global};
use std::io;

/// The text of a case.
#[derive(Clone, Copy)]
pub(crate) enum Text {
    /// Written out, which names it too.
    Written(&'static str),
    /// Too long for that: a front, a part that is repeated, and a back.
    Repeated {
        name: &'static str,
        front: &'static str,
        part: &'static str,
        times: usize,
        back: &'static str,
    },
    /// A list of 31 atoms of 1,024 octets, and of one more atom with `last` octets.
    LongList {
        name: &'static str,
        last: usize,
    },
}

impl Text {
    pub(crate) fn name(self) -> &'static str {
        match self {
            Written(name) | Repeated { name, .. } | LongList { name, .. } => name,
        }
    }

    pub(crate) fn spelled_out(self, heap: Global) -> Result<String, AllocError> {
        match self {
            Written(text) => String::from_str(heap, text),
            Repeated {
                front,
                part,
                times,
                back,
                ..
            } => {
                let middle = part.repeat(heap, times)?;
                format!(in heap; "{front}{middle}{back}")
            }
            LongList { last, .. } => {
                let wide = "x".repeat(heap, 1024)?;
                let atoms = format!(in heap; "1024:{wide}")?.repeat(heap, 31)?;
                let octets = "x".repeat(heap, last)?;
                format!(in heap; "({atoms}{last}:{octets})")
            }
        }
    }
}

// Each text, with the elements and the depth of its record, or with its refusal. A pair, and no `Extent`: the lines are
// short then.
// A `static` that is borrowed: a proof that goes over a `const` of so many parts does not fit into memory.
static CASES: [(Text, Result<(usize, usize), Refusal>); 66] = [
    // Accepted. The first nine are examples that RFC 9804 gives of verbatim strings and of the canonical form.
    // They were not compared with the RFC itself, of which no copy was at hand.
    (Written("3:abc"), Ok((1, 1))),
    (Written("7:subject"), Ok((1, 1))),
    (Written("4:::::"), Ok((1, 1))),
    (Written("12:hello world!"), Ok((1, 1))),
    (Written("10:abcdefghij"), Ok((1, 1))),
    (Written("0:"), Ok((1, 1))),
    (Written("(6:issuer3:bob)"), Ok((3, 2))),
    (Written("(7:subject(3:ref5:alice6:mother))"), Ok((6, 3))),
    (Written("10:foo)]}>bar"), Ok((1, 1))),
    (Written("()"), Ok((1, 1))),
    (Written("(())"), Ok((2, 2))),
    // The RFC's example of a display hint, refused at its bracket.
    (
        Written("(4:icon[12:image/bitmap]9:xxxxxxxxx)"),
        Err(Malformed { offset: 7 }),
    ),
    // no text
    (Written(""), Err(TextLength)),
    // no element begins
    (Written(")"), Err(Malformed { offset: 0 })),
    (Written("abc"), Err(Malformed { offset: 0 })),
    (Written("-1:a"), Err(Malformed { offset: 0 })),
    (Written(" ()"), Err(Malformed { offset: 0 })),
    (Written("( )"), Err(Malformed { offset: 1 })),
    (Written("(1:a 1:b)"), Err(Malformed { offset: 4 })),
    (Written("[1:a]1:b"), Err(Malformed { offset: 0 })),
    (Written("#616263#"), Err(Malformed { offset: 0 })),
    (Written("|YWJj|"), Err(Malformed { offset: 0 })),
    (Written("{MzphYmM=}"), Err(Malformed { offset: 0 })),
    // lengths, and the colon behind them
    (Written("01:a"), Err(Malformed { offset: 0 })),
    (Written("00:"), Err(Malformed { offset: 0 })),
    (Written("01"), Err(Malformed { offset: 0 })),
    (Written("01025:"), Err(Malformed { offset: 0 })),
    (Written("1025:"), Err(OverLimit { offset: 0 })),
    (Written("1025"), Err(OverLimit { offset: 0 })),
    (Written("1025x"), Err(OverLimit { offset: 0 })),
    (
        Written("18446744073709551617:a"),
        Err(OverLimit { offset: 0 }),
    ),
    (
        Written("(1:a99999999999999999999999999999999"),
        Err(OverLimit { offset: 4 }),
    ),
    (Written("1x"), Err(Malformed { offset: 1 })),
    (Written("(1:a10"), Err(Malformed { offset: 6 })),
    (Written("12;hello world!"), Err(Malformed { offset: 2 })),
    // the text ends too early
    (Written("1"), Err(Malformed { offset: 1 })),
    (Written("10"), Err(Malformed { offset: 2 })),
    (Written("1:"), Err(Malformed { offset: 2 })),
    (Written("3:ab"), Err(Malformed { offset: 4 })),
    (Written("(3:a)"), Err(Malformed { offset: 5 })),
    (Written("1024:a"), Err(Malformed { offset: 6 })),
    (Written("(1:a"), Err(Malformed { offset: 4 })),
    (Written("((1:a)"), Err(Malformed { offset: 6 })),
    // an octet after the root
    (Written("()()"), Err(Malformed { offset: 2 })),
    (Written("(1:a))"), Err(Malformed { offset: 5 })),
    (Written("1:a1:b"), Err(Malformed { offset: 3 })),
    (Written("1:a "), Err(Malformed { offset: 3 })),
    // Accepted, at a limit.
    (
        Repeated {
            name: "32 lists, one in another",
            front: "",
            part: "(",
            times: 32,
            back: "))))))))))))))))))))))))))))))))",
        },
        Ok((32, 32)),
    ),
    (
        Repeated {
            name: "4,095 atoms in a list",
            front: "(",
            part: "0:",
            times: 4095,
            back: ")",
        },
        Ok((4096, 2)),
    ),
    (
        Repeated {
            name: "4,095 lists in a list",
            front: "(",
            part: "()",
            times: 4095,
            back: ")",
        },
        Ok((4096, 2)),
    ),
    (
        Repeated {
            name: "an atom of 1,024 octets",
            front: "1024:",
            part: "x",
            times: 1024,
            back: "",
        },
        Ok((1, 1)),
    ),
    // Refused, at a limit or past one.
    (
        Repeated {
            name: "31 opening parentheses",
            front: "",
            part: "(",
            times: 31,
            back: "",
        },
        Err(Malformed { offset: 31 }),
    ),
    (
        Repeated {
            name: "33 opening parentheses",
            front: "",
            part: "(",
            times: 33,
            back: "",
        },
        Err(OverLimit { offset: 32 }),
    ),
    (
        Repeated {
            name: "32 opening parentheses and an atom",
            front: "",
            part: "(",
            times: 32,
            back: "0:",
        },
        Err(OverLimit { offset: 32 }),
    ),
    (
        Repeated {
            name: "32 opening parentheses and a padded length",
            front: "",
            part: "(",
            times: 32,
            back: "01:",
        },
        Err(OverLimit { offset: 32 }),
    ),
    (
        Repeated {
            name: "32 opening parentheses and a length too long",
            front: "",
            part: "(",
            times: 32,
            back: "1025:",
        },
        Err(OverLimit { offset: 32 }),
    ),
    (
        Repeated {
            name: "32 opening parentheses and a space",
            front: "",
            part: "(",
            times: 32,
            back: " ",
        },
        Err(Malformed { offset: 32 }),
    ),
    (
        Repeated {
            name: "4,096 atoms in a list",
            front: "(",
            part: "0:",
            times: 4096,
            back: ")",
        },
        Err(OverLimit { offset: 8191 }),
    ),
    (
        Repeated {
            name: "4,096 lists in a list",
            front: "(",
            part: "()",
            times: 4096,
            back: ")",
        },
        Err(OverLimit { offset: 8191 }),
    ),
    (
        Repeated {
            name: "4,095 atoms in a list and a space",
            front: "(",
            part: "0:",
            times: 4095,
            back: " )",
        },
        Err(Malformed { offset: 8191 }),
    ),
    (
        Repeated {
            name: "4,095 atoms in a list that is not closed",
            front: "(",
            part: "0:",
            times: 4095,
            back: "",
        },
        Err(Malformed { offset: 8191 }),
    ),
    (
        Repeated {
            name: "an atom of 1,024 octets that lacks one",
            front: "1024:",
            part: "x",
            times: 1023,
            back: "",
        },
        Err(Malformed { offset: 1028 }),
    ),
    (
        Repeated {
            name: "an atom of 1,025 octets",
            front: "1025:",
            part: "x",
            times: 1025,
            back: "",
        },
        Err(OverLimit { offset: 0 }),
    ),
    (
        Repeated {
            name: "20,000 digits",
            front: "",
            part: "1",
            times: 20000,
            back: "",
        },
        Err(OverLimit { offset: 0 }),
    ),
    // The longest text, and one that is longer.
    (
        LongList {
            name: "a text of 32,768 octets",
            last: 863,
        },
        Ok((33, 2)),
    ),
    (
        LongList {
            name: "a text of 32,769 octets",
            last: 864,
        },
        Err(TextLength),
    ),
];

/// Goes through the cases, and prints each.
pub(crate) fn verdicts(rt: &HostRuntime, tally: &mut Tally) -> io::Result<()> {
    for (text, should) in &CASES {
        let octets = text.spelled_out(rt.alloc())?;
        let gave = Outcome(check(octets.as_bytes()));
        let should = should.map(|(elements, depth)| Extent { elements, depth });
        tally.case(rt, text.name(), &gave, &Outcome(should))?;
    }
    Ok(())
}
