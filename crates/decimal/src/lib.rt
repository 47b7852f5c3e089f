//! Numbers written in decimal, octet by octet: no leading zero, and a '-' in front of what is below zero.
#![tactic(auto)]

ghost use Rattle.std.specs.Prelude.{◌≡◌, ◌≤◌, length, slice_index};

use itoa::{Buffer, Integer};

/// How many octets a number has.
pub fn length<I: Integer>(value: I) -> usize
    ensures octets { result ≡ length (I.text value) }
    ensures short { result ≤ 40 }
{
    let mut buffer = Buffer::new();
    let text = buffer.format(value);
    text.len()
}

/// The octet of a number at an index, from the left; 0 behind the last one.
pub fn octet<I: Integer>(value: I, index: usize) -> u8
    ensures { result ≡ slice_index (I.text value) index }
{
    let mut buffer = Buffer::new();
    let text = buffer.format(value);
    text.as_bytes().get(index).copied().unwrap_or(0)
}
