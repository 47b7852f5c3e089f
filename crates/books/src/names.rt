//! The names of a pattern, each once, in the order of first occurrence.
ghost use Rattle.std.specs.Prelude.{◌≡◌, ◌<◌, ◌++◌, [], ◌∷◌, length, map};
ghost use Rattle.rules.specs.Patterns.{segments};
ghost use Rattle.books.specs.Scanning.{sign_of, crowded};
ghost use Rattle.books.specs.Listed.{slot_of};

use rules::signs::Sign;
use std::marker::Model;

/// The most names of a pattern.
pub const MOST_NAMES: usize = 16;

/// The most segments among them.
pub const MOST_SEGMENTS: usize = 4;

/// A name with its sign.
#[derive(Clone, Copy, Debug)]
pub struct Name<'a> {
    pub sign: Sign,
    pub octets: &'a [u8],
}

/// Names, in order. Contracts see the list of them.
#[derive(Drop)]
pub struct Names<'a> {
    names: [Name<'a>; MOST_NAMES],
    count: usize,
}

impl<'a> Model for Names<'a> {
    ghost use Rattle.std.specs.Prelude.{◌≡◌, ◌≤◌, List, length, map, take};
    ghost use Rattle.rules.specs.Patterns.{Slot};
    ghost use Rattle.rules.specs.Codes.{slot_code};
    ghost use Rattle.std.specs.Coded.{coded_list};
    ghost use Rattle.books.specs.Listed.{slot_of};

    ghost Value = { List Slot };

    ghost coded = { coded_list slot_code };

    ghost view = { λ ns. map slot_of (take ns.count ns.names) };

    // A proof knows the array's length only from here.
    ghost invariant = { λ ns. (ns.count ≤ 16) × (length ns.names ≡ 16) };
}

impl<'a> Names<'a> {
    // No names.
    pub(crate) fn new() -> Names<'a>
        ensures { result ≡ [] }
    {
        Names {
            names: [Name {
                sign: Sign::Variable,
                octets: b"",
            }; MOST_NAMES],
            count: 0,
        }
    }

    /// The names.
    pub fn as_slice(&self) -> &[Name<'a>]
        ensures { map slot_of result.now ≡ self.now }
    {
        &self.names[..self.count]
    }

    // The sign of a name.
    pub(crate) fn sign_of(&self, octets: &[u8]) -> Option<Sign>
        ensures { result ≡ sign_of octets.now self.now }
    {
        let found = self.as_slice().iter().find(|name| octets == name.octets)?;
        Some(found.sign)
    }

    // How many of them are segments.
    fn segments(&self) -> usize
        ensures { result ≡ segments self.now }
    {
        self.as_slice()
            .iter()
            .filter(|name| name.sign == Sign::Segment)
            .count()
    }

    // Whether one more name of a sign would pass a limit.
    pub(crate) fn is_crowded(&self, sign: Sign) -> bool
        ensures { result ≡ crowded sign self.now }
    {
        self.count >= MOST_NAMES || (sign == Sign::Segment && self.segments() >= MOST_SEGMENTS)
    }

    // Adds a name.
    pub(crate) fn push(&mut self, name: Name<'a>)
        requires { length self.old < 16 }
        ensures { self.new ≡ self.old ++ (slot_of name.entry ∷ []) }
    {
        self.names[self.count] = name;
        self.count += 1;
    }
}
