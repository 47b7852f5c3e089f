//! Octets as a person can read them.
ghost use Rattle.std.specs.Prelude.{◌≡◌, ◌<◌, ◌++◌, IfOk, OnOk};
ghost use Rattle.std.specs.List.{flat_map};
ghost use Rattle.outlines.specs.Escapes.{hex_digit, shown};

use std::alloc::{AllocError, Global};

// A hexadecimal digit.
fn hex_digit(digit: u8) -> u8
    requires { digit < 16 }
    ensures { result ≡ hex_digit digit }
{
    if digit < 10 {
        b'0' + digit
    } else {
        b'a' + (digit - 10)
    }
}

// Adds an octet as it is shown.
pub(crate) fn add_octet(lines: &mut Vec<u8>, octet: u8) -> Result<(), AllocError>
    ensures { OnOk result (lines.new.items ≡ lines.old.items ++ shown octet) }
{
    match octet {
        b'\\' => lines.extend_from_slice(b"\\\\"),
        b' '..=b'~' => lines.extend_from_slice(&[octet]),
        _ => lines.extend_from_slice(&[b'\\', b'x', hex_digit(octet / 16), hex_digit(octet % 16)]),
    }
}

/// Octets as they are shown: a backslash as two, what is not printable in ASCII as `\\x` and two digits.
pub fn escaped(heap: Global, octets: &[u8]) -> Result<Vec<u8>, AllocError>
    ensures { IfOk result (λ line. line.items ≡ flat_map shown octets.now) }
{
    let mut line = Vec::new(heap);
    for octet in octets {
        add_octet(&mut line, *octet)?;
    }
    Ok(line)
}
