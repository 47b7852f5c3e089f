//! `kandrivo check`: whether files hold records in canonical form.
ghost use Rattle.std.specs.Prelude.{◌≡◌, IfOk, string_bytes};
ghost use Rattle.kandrivo.specs.Lines.{check_line};

use crate::files::read_text;
use sexp::outcomes::Outcome;
use sexp::reader::{Extent, check};
use sexp::refusals::Refusal;
use std::alloc::{AllocError, Global};
use std::io;

// The line that tells what the check of a file answered.
fn check_line(
    heap: Global,
    path: &str,
    answer: Result<Extent, Refusal>,
) -> Result<String, AllocError>
    ensures { IfOk result (λ s. string_bytes s ≡ check_line path.now answer) }
{
    let outcome = Outcome(answer);
    format!(in heap; "{path}: {outcome}")
}

/// Prints what the check of a file's text answers, and says whether the text was accepted.
pub(crate) fn check_file(rt: &HostRuntime, path: &str) -> io::Result<bool> {
    let text = match read_text(rt, path) {
        Ok(text) => text,
        Err(e) => {
            eprintln!(rt; "{path}: {e}")?;
            return Ok(false);
        }
    };
    let answer = check(text.as_slice());
    let line = check_line(rt.alloc(), path, answer)?;
    println!(rt; "{line}")?;
    Ok(answer.is_ok())
}

#[cfg(test)]
mod tests {
    use super::{check_file, check_line};
    use sexp::reader::check;
    use std::test::Fail;

    #[test]
    fn a_refused_file_is_told_by_number_and_offset(rt: HostRuntime) -> Result<(), Fail> {
        let line = check_line(rt.alloc(), "tank", check(b"(1:a"))?;
        assert_eq!(rt; line.as_str(), "tank: refused 2 at 4");
        Ok(())
    }

    #[test]
    fn a_file_that_cannot_be_read_is_not_accepted(rt: HostRuntime) -> Result<(), Fail> {
        assert_eq!(rt; check_file(&rt, "no such file")?, false);
        Ok(())
    }
}
