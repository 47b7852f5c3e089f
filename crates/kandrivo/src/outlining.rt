//! `kandrivo tree`: records as outlines.
use crate::records::{Act, with_record};
use holder::holding::Holder;
use outlines::outline::outline;
use std::io;
use std::io::Write;

struct Outline;

impl Act for Outline {
    fn on<H: Holder>(&self, rt: &HostRuntime, holder: &H) -> io::Result<bool> {
        let lines = outline(rt.alloc(), holder)?;
        rt.stdout().write_all(lines.as_slice())?;
        Ok(true)
    }
}

/// Prints the outline of a record, and says whether there was one.
pub(crate) fn print_record(rt: &HostRuntime, name: &str) -> io::Result<bool> {
    with_record(rt, name, &Outline)
}
