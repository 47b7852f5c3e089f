//! Records behind holders: readings and tables.
use crate::tally::Tally;
use Refusal::{NotATable, OverLimit};
use holder::copying::copy_out;
use holder::holding::Holder;
use readings::record::ReadingsRecord;
use sexp::outcomes::Outcome;
use sexp::reader::{Extent, MOST_TEXT, check};
use sexp::refusals::Refusal;
use std::io;
use tables::nodes::Node;
use tables::record::TableRecord;

// The extent of a holder's record, by the check of the text that is copied out of it.
fn copied<H: Holder>(rt: &HostRuntime, holder: &H) -> io::Result<Outcome> {
    let mut output = vec![in rt.alloc(); 0u8; MOST_TEXT]?;
    let answer = match copy_out(holder, output.as_mut_slice()) {
        Ok(length) => check(output.as_slice().get(..length).unwrap_or(&[])),
        Err(refusal) => Err(refusal),
    };
    Ok(Outcome(answer))
}

fn extent(elements: usize, depth: usize) -> Outcome {
    Outcome(Ok(Extent { elements, depth }))
}

/// Readings, as many as may be taken and one more.
pub(crate) fn readings(rt: &HostRuntime, tally: &mut Tally) -> io::Result<()> {
    let numbers = vec![in rt.alloc(); -125; 4096]?;
    let numbers = numbers.as_slice();
    for (name, count, should) in [
        ("no readings", 0, extent(1, 1)),
        ("one reading", 1, extent(2, 2)),
        ("4,095 readings", 4095, extent(4096, 2)),
        (
            "4,096 readings",
            4096,
            Outcome(Err(OverLimit { offset: 0 })),
        ),
    ] {
        let mut record = ReadingsRecord::new();
        let gave = match record.fill(numbers.get(..count).unwrap_or(&[])) {
            Ok(()) => copied(rt, &record)?,
            Err(refusal) => Outcome(Err(refusal)),
        };
        tally.case(rt, name, &gave, &should)?;
    }
    Ok(())
}

// A node: its kind, span, offset and length.
type Written = (u8, u32, u32, u32);

// The octets beside the nodes of each table.
const BESIDE: &[u8] = b"abcz";

static GOOD: [(&str, &[Written], usize, usize); 4] = [
    ("a table of the empty list", &[(0, 1, 0, 0)], 1, 1),
    ("a table of an atom", &[(1, 1, 1, 2)], 1, 1),
    (
        "a table of an atom of no octet at the octets' end",
        &[(1, 1, 4, 0)],
        1,
        1,
    ),
    (
        "a table of lists in a list",
        &[
            (0, 6, 0, 0),
            (1, 1, 0, 3),
            (0, 3, 0, 0),
            (1, 1, 3, 0),
            (0, 1, 0, 0),
            (1, 1, 3, 1),
        ],
        6,
        3,
    ),
];

static BAD: [(&str, &[Written]); 12] = [
    ("no nodes", &[]),
    ("a node of a third kind", &[(2, 1, 0, 0)]),
    ("a list with an offset", &[(0, 1, 1, 0)]),
    ("a list with a length", &[(0, 1, 0, 1)]),
    ("a list that spans no node", &[(0, 0, 0, 0)]),
    ("a list that spans past the nodes", &[(0, 2, 0, 0)]),
    ("two roots", &[(0, 1, 0, 0), (0, 1, 0, 0)]),
    (
        "an atom that spans two nodes",
        &[(1, 2, 0, 1), (1, 1, 0, 1)],
    ),
    ("an atom past the octets", &[(1, 1, 2, 3)]),
    ("an atom of no octet past the octets' end", &[(1, 1, 5, 0)]),
    ("an atom whose end wraps", &[(1, 1, 4294967295, 1)]),
    (
        "a list whose inner list spans past it",
        &[(0, 2, 0, 0), (0, 2, 0, 0), (0, 1, 0, 0)],
    ),
];

fn node((kind, span, offset, length): Written) -> Node {
    Node {
        kind,
        span,
        offset,
        length,
    }
}

// What a table's nodes mean, or that they are refused.
fn table(rt: &HostRuntime, nodes: &[Node], beside: &[u8]) -> io::Result<Outcome> {
    let mut record = TableRecord::new();
    match record.fill(nodes, beside) {
        Ok(()) => copied(rt, &record),
        Err(refusal) => Ok(Outcome(Err(refusal))),
    }
}

fn written_table(rt: &HostRuntime, written: &[Written]) -> io::Result<Outcome> {
    let mut nodes = Vec::new(rt.alloc());
    for written in written {
        nodes.push(node(*written))?;
    }
    table(rt, nodes.as_slice(), BESIDE)
}

// So many lists, one in another.
fn nested(rt: &HostRuntime, levels: u32) -> io::Result<Outcome> {
    let mut nodes = Vec::new(rt.alloc());
    for span in (1..=levels).rev() {
        nodes.push(node((0, span, 0, 0)))?;
    }
    table(rt, nodes.as_slice(), &[])
}

// A list of so many atoms of no octet.
fn flat(rt: &HostRuntime, atoms: u32) -> io::Result<Outcome> {
    let mut nodes = Vec::new(rt.alloc());
    nodes.push(node((0, atoms.saturating_add(1), 0, 0)))?;
    for _ in 0..atoms {
        nodes.push(node((1, 1, 0, 0)))?;
    }
    table(rt, nodes.as_slice(), &[])
}

// An atom of so many octets.
fn long(rt: &HostRuntime, octets: u32) -> io::Result<Outcome> {
    let beside = vec![in rt.alloc(); b'x'; 2048]?;
    table(rt, &[node((1, 1, 0, octets))], beside.as_slice())
}

/// Nodes that are tables, and nodes that are none.
pub(crate) fn tables(rt: &HostRuntime, tally: &mut Tally) -> io::Result<()> {
    for (name, nodes, elements, depth) in &GOOD {
        let gave = written_table(rt, *nodes)?;
        tally.case(rt, *name, &gave, &extent(*elements, *depth))?;
    }
    for (name, nodes) in &BAD {
        let gave = written_table(rt, *nodes)?;
        tally.case(rt, *name, &gave, &Outcome(Err(NotATable)))?;
    }
    let refused = Outcome(Err(NotATable));
    tally.case(
        rt,
        "a table of 32 lists, one in another",
        &nested(rt, 32)?,
        &extent(32, 32),
    )?;
    tally.case(
        rt,
        "a table of 33 lists, one in another",
        &nested(rt, 33)?,
        &refused,
    )?;
    tally.case(
        rt,
        "a table of 4,095 atoms in a list",
        &flat(rt, 4095)?,
        &extent(4096, 2),
    )?;
    tally.case(
        rt,
        "a table of 4,096 atoms in a list",
        &flat(rt, 4096)?,
        &refused,
    )?;
    tally.case(
        rt,
        "a table of an atom of 1,024 octets",
        &long(rt, 1024)?,
        &extent(1, 1),
    )?;
    tally.case(
        rt,
        "a table of an atom of 1,025 octets",
        &long(rt, 1025)?,
        &refused,
    )
}
