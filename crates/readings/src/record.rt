//! A run of readings, held as a list of decimal atoms.
ghost use Rattle.std.specs.Prelude.{◌≤◌, length};

/// The most readings: with their list they are as many elements as a record may have.
pub const MOST_READINGS: usize = 4095;

/// Borrowed readings; the atoms are worked out when they are asked for.
#[derive(Clone, Copy)]
pub struct ReadingsRecord<'a> {
    readings: &'a [i32],
    ghost ok: { length readings.now ≤ 4095 },
}

mod answers;
mod filling;
