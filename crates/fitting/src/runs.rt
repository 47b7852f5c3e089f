//! A list of calls, made one after another on one job.
ghost use Rattle.std.specs.Prelude.{◌≤◌, length, IfOk};
ghost use Rattle.fitting.specs.Calls.{CallTells};
ghost use Rattle.fitting.specs.Law.{FollowsTheList, EqualRecordsTellTheSame};

use crate::jobs::{Job, MEMORY};
use crate::marks::Mark;
use books::books::{Book, MOST_RULES};
use holder::holding::Holder;
use sexp::reader::MOST_TEXT;
use sexp::refusals::Refusal;
use std::alloc::{AllocError, Global};

/// How much working memory a call is handed.
#[derive(Clone, Copy, PartialEq, Eq, Debug)]
pub struct Memory {
    pub marks: usize,
    pub places: usize,
}

/// A call on a job.
#[derive(Clone, Copy, Debug)]
pub enum Call<'c> {
    Next { memory: Memory },
    Show { name: &'c [u8], memory: Memory },
    /// With an output of so many octets.
    Write { octets: usize, memory: Memory },
    Rewind,
}

/// What a call told.
#[derive(Drop)]
pub enum Answer {
    /// A fit: the number of its rule, and how many have been told.
    Fit { rule: usize, count: u64 },
    /// No fit is left, and how many there were.
    End { count: u64 },
    /// Where what a name stands for begins, if it is anything, and how many elements it has.
    Shown { place: Option<u32>, elements: usize },
    /// The text of the filled template.
    Written { text: Vec<u8> },
    Rewound,
    Refused { refusal: Refusal },
}

// What a call tells, and the text that it wrote.
fn make_call<H: Holder>(
    heap: Global,
    job: &mut Job,
    book: &Book<'_>,
    holder: &H,
    marks: &mut [Mark],
    places: &mut [u32],
    call: Call<'_>,
) -> Result<Answer, AllocError>
    requires marks { 256 ≤ length marks.old }
    requires places { 256 ≤ length places.old }
    ensures { IfOk result (λ answer. CallTells book.now (H.meaning holder.now).tree job.old call.entry answer job.new) }
{
    match call {
        Call::Rewind => {
            job.rewind();
            Ok(Answer::Rewound)
        }
        Call::Next { memory } => {
            let marks = &mut marks[..memory.marks.min(MEMORY)];
            let places = &mut places[..memory.places.min(MEMORY)];
            Ok(match job.next(book, holder, marks, places) {
                Ok((Some(rule), count)) => Answer::Fit { rule, count },
                Ok((None, count)) => Answer::End { count },
                Err(refusal) => Answer::Refused { refusal },
            })
        }
        Call::Show { name, memory } => {
            let marks = &mut marks[..memory.marks.min(MEMORY)];
            let places = &mut places[..memory.places.min(MEMORY)];
            Ok(match job.show(book, holder, marks, places, name) {
                Ok((place, elements)) => Answer::Shown { place, elements },
                Err(refusal) => Answer::Refused { refusal },
            })
        }
        Call::Write { octets, memory } => {
            let marks = &mut marks[..memory.marks.min(MEMORY)];
            let places = &mut places[..memory.places.min(MEMORY)];
            let mut text = vec![in heap; 0u8; octets.min(MOST_TEXT)]?;
            let written = job.write(book, holder, marks, places, text.as_mut_slice());
            Ok(match written {
                Ok(length) => {
                    text.truncate(length);
                    Answer::Written { text }
                }
                Err(refusal) => Answer::Refused { refusal },
            })
        }
    }
}

/// Opens a job on a book and a record, makes the calls one after another, and tells what each told.
pub fn run<H: Holder>(
    heap: Global,
    book: &Book<'_>,
    holder: &H,
    calls: &[Call<'_>],
) -> Result<Vec<Answer>, AllocError>
    ensures list { let tree = (H.meaning holder.now).tree in
        IfOk result (λ answers. FollowsTheList book.now tree calls.now answers.items) }
    ensures same { let tree = (H.meaning holder.now).tree in
        IfOk result (λ answers. EqualRecordsTellTheSame book.now tree calls.now answers.items) }
{
    let mut marks = [Mark::unused(); MEMORY];
    let mut places = [0; MEMORY];
    prove!(book.len() <= MOST_RULES);
    let mut job = Job::open(book);
    let mut answers = Vec::new(heap);
    for call in calls {
        let told = make_call(heap, &mut job, book, holder, &mut marks, &mut places, *call)?;
        answers.push(told)?;
    }
    Ok(answers)
}
