//! Words of a call: numbers, and octets as an outline shows them.
ghost use Rattle.std.specs.Prelude.{◌<◌, length, IfOk, IfSome};
ghost use Rattle.kandrivo.specs.Words.{ReadsDigit, ReadsFirst, ReadsShown};

use std::alloc::{AllocError, Global};
use std::num::IntErrorKind;

/// The number that a word is. One that is too large is told as the largest, which no count reaches.
pub(crate) fn number(word: &str) -> Option<usize> {
    match word.parse::<usize>() {
        Ok(number) => Some(number),
        Err(e) if *e.kind() == IntErrorKind::PosOverflow => Some(usize::MAX),
        Err(_) => None,
    }
}

// The value of a hexadecimal digit, as an outline shows it.
fn digit(octet: u8) -> Option<u8>
    ensures digit { IfSome result (λ digit. digit < 16) }
    ensures reads { ReadsDigit octet result }
{
    match octet {
        b'0'..=b'9' => Some(octet - b'0'),
        b'a'..=b'f' => Some(octet - b'a' + 10),
        _ => None,
    }
}

// The first octet that is shown, and what stands behind it. A printable one may be shown as `\x` and two digits too.
fn first_shown(text: &[u8]) -> Option<(u8, &[u8])>
    ensures fewer { IfSome result (λ first. length first.1.now < length text.now) }
    ensures reads { ReadsFirst text.now result }
{
    match text {
        [b'\\', b'\\', behind @ ..] => Some((b'\\', behind)),
        [b'\\', b'x', high, low, behind @ ..] => Some((digit(*high)? * 16 + digit(*low)?, behind)),
        [octet @ (b' '..=b'[' | b']'..=b'~'), behind @ ..] => Some((*octet, behind)),
        _ => None,
    }
}

/// The octets that a text shows, escaped as in an outline, or none where it is not so written.
pub(crate) fn unescaped(heap: Global, text: &str) -> Result<Option<Vec<u8>>, AllocError>
    ensures { IfOk result (ReadsShown text.now) }
{
    let mut octets = Vec::new(heap);
    let mut rest = text.as_bytes();
    while !rest.is_empty() {
        let Some((octet, behind)) = first_shown(rest) else {
            return Ok(None);
        };
        octets.push(octet)?;
        rest = behind;
    }
    Ok(Some(octets))
}

#[cfg(test)]
mod tests {
    use super::{number, unescaped};
    use std::test::Fail;

    #[test]
    fn octets_are_read_as_an_outline_shows_them(rt: HostRuntime) -> Result<(), Fail> {
        let octets = unescaped(rt.alloc(), "a~ \\\\\\x00\\xff\\x20")?;
        assert_eq!(rt;
            octets.is_some_and(|octets| octets.as_slice() == b"a~ \\\x00\xff ".as_slice()),
            true
        );
        for text in ["\\", "\\q", "\\x4", "\\x4g", "\\xFF", "\t", "é"] {
            assert_eq!(rt; unescaped(rt.alloc(), text)?.is_none(), true);
        }
        Ok(())
    }

    #[test]
    fn a_number_has_digits_alone(rt: HostRuntime) -> Result<(), Fail> {
        assert_eq!(rt; number("256"), Some(256));
        assert_eq!(rt; number("18446744073709551616"), Some(usize::MAX));
        for word in ["", "-1", "x", "2.5", "1 "] {
            assert_eq!(rt; number(word), None);
        }
        Ok(())
    }
}
