//! Texts and readings in files.
use readings::record::MOST_READINGS;
use sexp::reader::MOST_TEXT;
use std::alloc::{AllocError, Global};
use std::fs::File;
use std::io;
use std::io::Read;

/// The octets of a file, up to one more than a text may have: that many are refused, however long the file is.
pub(crate) fn read_text(rt: &HostRuntime, path: &str) -> io::Result<Vec<u8>> {
    let mut octets = Vec::new(rt.alloc());
    let file = File::open(rt, path)?;
    // A cast that is proved to lose nothing: `TryFrom` would add an error that never comes.
    file.take(MOST_TEXT as u64 + 1).read_to_end(&mut octets)?;
    Ok(octets)
}

// More octets than the lines of as many readings as a record may have.
const MOST_READINGS_FILE: usize = 65536;

// The numbers in a text, one a line, up to one more than a readings record may have; or which line is none, from 1.
fn parse_numbers(heap: Global, text: &str) -> Result<Result<Vec<i32>, usize>, AllocError> {
    let mut numbers = Vec::new(heap);
    for (index, line) in text.lines().enumerate() {
        if numbers.len() > MOST_READINGS {
            break;
        }
        match line.parse::<i32>() {
            Ok(number) => numbers.push(number)?,
            Err(_) => return Ok(Err(index.saturating_add(1))),
        }
    }
    Ok(Ok(numbers))
}

/// The numbers in a file, one a line, up to one more than a readings record may have. None where a line is no number,
/// which is told.
pub(crate) fn read_readings(rt: &HostRuntime, path: &str) -> io::Result<Option<Vec<i32>>> {
    let mut octets = Vec::new(rt.alloc());
    let file = File::open(rt, path)?;
    file.take(MOST_READINGS_FILE as u64 + 1)
        .read_to_end(&mut octets)?;
    let is_cut = octets.len() > MOST_READINGS_FILE;
    let text = String::from_utf8_lossy(rt.alloc(), octets.as_slice())?;
    match parse_numbers(rt.alloc(), text.as_str())? {
        Err(line) => {
            eprintln!(rt; "{path}: line {line} is no number of 32 bits")?;
            Ok(None)
        }
        Ok(numbers) if is_cut && numbers.len() <= MOST_READINGS => {
            eprintln!(rt; "{path}: longer than {MOST_READINGS_FILE} octets")?;
            Ok(None)
        }
        Ok(numbers) => Ok(Some(numbers)),
    }
}

#[cfg(test)]
mod tests {
    use super::parse_numbers;
    use std::test::Fail;

    #[test]
    fn a_line_that_is_no_number_of_32_bits_is_told(rt: HostRuntime) -> Result<(), Fail> {
        let numbers = parse_numbers(rt.alloc(), "1840\n-25\n")?;
        assert_eq!(rt; numbers.is_ok_and(|numbers| numbers.len() == 2), true);
        assert_eq!(rt;
            parse_numbers(rt.alloc(), "1840\nwarm\n-25\n")?.err(),
            Some(2)
        );
        assert_eq!(rt; parse_numbers(rt.alloc(), "2147483648")?.err(), Some(1));
        Ok(())
    }
}
