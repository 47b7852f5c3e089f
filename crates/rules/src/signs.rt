//! What the atoms of patterns and templates stand for, told by their first octet.
ghost use Rattle.std.specs.Prelude.{◌≡◌};
ghost use Rattle.rules.specs.Signs.{ReadsAtom};

/// What a name stands for.
#[derive(Clone, Copy, PartialEq, Eq, Debug)]
pub enum Sign {
    /// One element.
    Variable,
    /// A run of elements, perhaps empty.
    Segment,
}

/// An atom of a pattern or a template.
#[derive(Clone, Copy, Debug)]
pub enum PatternAtom<'a> {
    /// The atom of these octets.
    Constant(&'a [u8]),
    /// What the name stands for.
    Name(Sign, &'a [u8]),
}

/// What an atom's octets are in a pattern, or none where the first is no sign.
pub fn read_atom(octets: &[u8]) -> Option<PatternAtom<'_>>
    ensures { ReadsAtom octets.now result }
{
    let (first, rest) = octets.split_first()?;
    match char::from(*first) {
        '\'' => Some(PatternAtom::Constant(rest)),
        ':' => Some(PatternAtom::Name(Sign::Variable, rest)),
        '!' => Some(PatternAtom::Name(Sign::Segment, rest)),
        _ => None,
    }
}
