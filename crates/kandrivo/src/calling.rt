//! `kandrivo run`: calls on a job, read from standard input, one a line.
ghost use Rattle.std.specs.Prelude.{◌≡◌, IfOk};
ghost use Rattle.kandrivo.specs.Lines.{answer_line};

use crate::drafting::with_book;
use crate::records::{Act, with_record};
use crate::words::{number, unescaped};
use books::books::Book;
use fitting::jobs::MEMORY;
use fitting::runs::{Answer, Call, Memory, run};
use holder::holding::Holder;
use outlines::escapes::escaped;
use sexp::reader::MOST_TEXT;
use std::alloc::{AllocError, Global};
use std::io;
use std::io::{Read, Write};

// A call as a line gives it.
#[derive(Drop)]
enum Line {
    Next { memory: Memory },
    Show { name: Vec<u8>, memory: Memory },
    Write { octets: usize, memory: Memory },
    Rewind,
}

impl Line {
    fn call(&self) -> Call<'_> {
        match self {
            Line::Next { memory } => Call::Next { memory: *memory },
            Line::Show { name, memory } => Call::Show {
                name: name.as_slice(),
                memory: *memory,
            },
            Line::Write { octets, memory } => Call::Write {
                octets: *octets,
                memory: *memory,
            },
            Line::Rewind => Call::Rewind,
        }
    }
}

// The words that may follow a call.
#[derive(Clone, Copy)]
struct Options {
    memory: Memory,
    octets: Option<usize>,
}

impl Options {
    // What words say, each of which is an option; the last one of a kind holds.
    fn read(words: &[&str]) -> Option<Options> {
        let mut memory = Memory {
            marks: MEMORY,
            places: MEMORY,
        };
        let mut octets = None;
        for word in words {
            if let Some(marks) = word.strip_prefix("marks=") {
                memory.marks = number(marks)?;
            } else if let Some(places) = word.strip_prefix("places=") {
                memory.places = number(places)?;
            } else {
                octets = Some(number(word.strip_prefix("octets=")?)?);
            }
        }
        Some(Options { memory, octets })
    }

    // The memory, where no output is spoken of.
    fn memory_alone(self) -> Option<Memory> {
        match self.octets {
            Some(_) => None,
            None => Some(self.memory),
        }
    }
}

// The call of a line, or none where it is not one.
fn read_line(heap: Global, line: &str) -> Result<Option<Line>, AllocError> {
    let words: Vec<&str> = line.split(' ').collect(heap)?;
    Ok(match words.as_slice() {
        ["next", options @ ..] => Options::read(options)
            .and_then(|options| options.memory_alone())
            .map(|memory| Line::Next { memory }),
        ["show", name, options @ ..] => {
            let name = unescaped(heap, name)?;
            let memory = Options::read(options).and_then(|options| options.memory_alone());
            name.zip(memory)
                .map(|(name, memory)| Line::Show { name, memory })
        }
        ["write", options @ ..] => Options::read(options).map(|options| Line::Write {
            octets: options.octets.unwrap_or(MOST_TEXT),
            memory: options.memory,
        }),
        ["rewind"] => Some(Line::Rewind),
        _ => None,
    })
}

// The line of what a call told.
fn answer_line(heap: Global, answer: &Answer) -> Result<Vec<u8>, AllocError>
    ensures { IfOk result (λ line. line.items ≡ answer_line answer.now) }
{
    let mut line = match answer {
        Answer::Fit { rule, count } => format!(in heap; "fit {rule} {count}")?.into_bytes(),
        Answer::End { count } => format!(in heap; "end {count}")?.into_bytes(),
        Answer::Shown { place, elements } => match place {
            Some(place) => format!(in heap; "shown {place} {elements}")?.into_bytes(),
            None => format!(in heap; "shown - {elements}")?.into_bytes(),
        },
        Answer::Written { text } => {
            let length = text.len();
            let mut line = format!(in heap; "wrote {length}: ")?.into_bytes();
            let shown = escaped(heap, text.as_slice())?;
            line.extend_from_slice(shown.as_slice())?;
            line
        }
        Answer::Rewound => format!(in heap; "rewound")?.into_bytes(),
        Answer::Refused { refusal } => {
            let number = refusal.number();
            format!(in heap; "refused {number}")?.into_bytes()
        }
    };
    line.extend_from_slice(b"\n")?;
    Ok(line)
}

// Makes the calls on a book and a record, and prints what each told.
#[derive(Clone, Copy)]
struct Calling<'l, 'b, 'c> {
    book: &'l Book<'b>,
    calls: &'l [Call<'c>],
}

impl Act for Calling<'_, '_, '_> {
    fn on<H: Holder>(&self, rt: &HostRuntime, holder: &H) -> io::Result<bool> {
        let answers = run(rt.alloc(), self.book, holder, self.calls)?;
        for answer in answers.as_slice() {
            let line = answer_line(rt.alloc(), answer)?;
            rt.stdout().write_all(line.as_slice())?;
        }
        Ok(true)
    }
}

// The calls of a text, one a line; or which line is none, from 1.
fn read_calls(heap: Global, text: &str) -> Result<Result<Vec<Line>, usize>, AllocError> {
    let mut lines = Vec::new(heap);
    for (index, line) in text.lines().enumerate() {
        match read_line(heap, line)? {
            Some(line) => lines.push(line)?,
            None => return Ok(Err(index.saturating_add(1))),
        }
    }
    Ok(Ok(lines))
}

/// Makes the calls of standard input on a book and a record, and says whether all lines are calls.
pub(crate) fn run_calls(rt: &HostRuntime, book: &str, record: &str) -> io::Result<bool> {
    let mut input = Vec::new(rt.alloc());
    rt.stdin().read_to_end(&mut input)?;
    let text = String::from_utf8_lossy(rt.alloc(), input.as_slice())?;
    let lines = match read_calls(rt.alloc(), text.as_str())? {
        Ok(lines) => lines,
        Err(number) => {
            eprintln!(rt; "line {number} is no call")?;
            return Ok(false);
        }
    };
    let calls: Vec<Call<'_>> = lines.iter().map(|line| line.call()).collect(rt.alloc())?;
    let calls = calls.as_slice();
    with_book(
        rt,
        book,
        |book| with_record(rt, record, &Calling { book, calls }),
    )
}

#[cfg(test)]
mod tests {
    use super::{Line, MEMORY, MOST_TEXT, read_line};
    use std::test::Fail;

    #[test]
    fn a_line_is_a_call_with_its_options(rt: HostRuntime) -> Result<(), Fail> {
        let next = read_line(rt.alloc(), "next")?;
        assert_eq!(rt;
            matches!(&next, Some(Line::Next { memory }) if memory.marks == MEMORY),
            true
        );
        let show = read_line(rt.alloc(), "show a\\x20b places=3")?;
        assert_eq!(rt;
            matches!(&show, Some(Line::Show { name, .. }) if name.as_slice() == b"a b".as_slice()),
            true
        );
        let write = read_line(rt.alloc(), "write marks=7")?;
        assert_eq!(rt;
            matches!(&write, Some(Line::Write { octets, .. }) if *octets == MOST_TEXT),
            true
        );
        for line in [
            "",
            "next octets=3",
            "show",
            "show a b",
            "rewind marks=3",
            "next  marks=3",
        ] {
            assert_eq!(rt; read_line(rt.alloc(), line)?.is_none(), true);
        }
        Ok(())
    }
}
