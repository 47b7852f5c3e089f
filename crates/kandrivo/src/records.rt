//! Records as they are named at the command line, each behind its holder.
use crate::files::{read_readings, read_text};
use crate::sources::Source;
use holder::holding::Holder;
use loading::loading::load;
use loading::marks::Mark;
use readings::record::ReadingsRecord;
use sexp::refusals::Refusal;
use sexp::tokens::MOST_ELEMENTS;
use std::io;
use tables::nodes::{LIST, Node};
use tables::record::TableRecord;
use texts::record::TextRecord;

const UNUSED: Node = Node {
    kind: LIST,
    span: 0,
    offset: 0,
    length: 0,
};

/// What is done with a record, whatever holds it.
pub(crate) trait Act {
    /// Does it, and says whether all went well.
    fn on<H: Holder>(&self, rt: &HostRuntime, holder: &H) -> io::Result<bool>;
}

// Tells why a record was not taken.
fn tell(rt: &HostRuntime, path: &str, refusal: Refusal) -> io::Result<bool> {
    eprintln!(rt; "{path}: {refusal}")?;
    Ok(false)
}

fn with_text<A: Act>(rt: &HostRuntime, path: &str, act: &A) -> io::Result<bool> {
    let text = read_text(rt, path)?;
    let mut record = TextRecord::new();
    match record.fill(text.as_slice()) {
        Ok(()) => act.on(rt, &record),
        Err(refusal) => tell(rt, path, refusal),
    }
}

fn with_table<A: Act>(rt: &HostRuntime, path: &str, act: &A) -> io::Result<bool> {
    let text = read_text(rt, path)?;
    let mut nodes = vec![in rt.alloc(); UNUSED; MOST_ELEMENTS]?;
    let mut mark = Mark { used: 0 };
    match load(text.as_slice(), nodes.as_mut_slice(), &mut mark) {
        Ok(first) => {
            let table = nodes.as_slice().get(first..mark.used).unwrap_or(&[]);
            let mut record = TableRecord::new();
            match record.fill(table, text.as_slice()) {
                Ok(()) => act.on(rt, &record),
                Err(refusal) => tell(rt, path, refusal),
            }
        }
        Err(refusal) => tell(rt, path, refusal),
    }
}

fn with_readings<A: Act>(rt: &HostRuntime, path: &str, act: &A) -> io::Result<bool> {
    let Some(numbers) = read_readings(rt, path)? else {
        return Ok(false);
    };
    let mut record = ReadingsRecord::new();
    match record.fill(numbers.as_slice()) {
        Ok(()) => act.on(rt, &record),
        Err(refusal) => tell(rt, path, refusal),
    }
}

/// Does something with the record of a name, and says whether all went well.
pub(crate) fn with_record<A: Act>(rt: &HostRuntime, name: &str, act: &A) -> io::Result<bool> {
    let done = match Source::named(name) {
        Source::Text(path) => with_text(rt, path, act),
        Source::Table(path) => with_table(rt, path, act),
        Source::Readings(path) => with_readings(rt, path, act),
    };
    match done {
        Ok(went_well) => Ok(went_well),
        Err(e) => {
            eprintln!(rt; "{name}: {e}")?;
            Ok(false)
        }
    }
}
