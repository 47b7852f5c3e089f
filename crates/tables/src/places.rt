//! The places of a table's elements.
ghost use Rattle.std.specs.Prelude.{◌≡◌};
ghost use Rattle.tables.specs.Places.{number, place_of};

/// An element's place: the index of its node, and the index behind the end of the list around it. A root's end is the
/// number of nodes, so that no element stands behind it.
#[derive(Clone, Copy)]
pub(crate) struct Place {
    pub(crate) index: u16,
    pub(crate) end: u16,
}

impl From<Place> for u32 {
    ghost from_gives = { λ p n. n ≡ number p.index p.end };

    fn from(place: Place) -> u32 {
        u32::from(place.end) * 0x1_0000 + u32::from(place.index)
    }
}

impl From<u32> for Place {
    ghost from_gives = { λ n p. p ≡ place_of n };

    fn from(number: u32) -> Place {
        Place {
            index: (number % 0x1_0000) as u16,
            end: (number / 0x1_0000) as u16,
        }
    }
}
