//! How many positions the dials have.

ghost use Rattle.std.specs.Prelude.{◌≡◌, Decides, slice_index_or};
ghost use Rattle.dial_graph.specs.Dials.{SizesFit, settings, sizes_of};

/// The greatest number of dials.
pub const DIAL_LIMIT: usize = 3;
/// The greatest number of positions of a dial.
pub const POSITION_LIMIT: u8 = 8;

// How many positions each of three dials has; a dial that is missing counts as one of 1 position.
#[derive(Clone, Copy)]
pub(crate) struct Sizes {
    pub(crate) first: u8,
    pub(crate) second: u8,
    pub(crate) third: u8,
}

// How many positions dial i has, and 1 where it is missing.
fn size(dials: &[u8], i: usize) -> u8
    ensures answer { result ≡ slice_index_or dials.now i 1 }
{
    dials.get(i).copied().unwrap_or(1)
}

impl Sizes {
    // The sizes of the dials that are given, first dial first.
    pub(crate) fn new(dials: &[u8]) -> Sizes
        ensures answer { result ≡ sizes_of dials.now }
    {
        Sizes {
            first: size(dials, 0),
            second: size(dials, 1),
            third: size(dials, 2),
        }
    }

    // Whether every dial has 1 to 8 positions. Three fields, not an array: `sizes.second` says more than `sizes[1]`.
    pub(crate) fn fit(self) -> bool
        ensures exactly { Decides result (SizesFit self) }
    {
        let positions = 1..=POSITION_LIMIT;
        positions.contains(&self.first)
            && positions.contains(&self.second)
            && positions.contains(&self.third)
    }

    // How many settings the dials have.
    pub(crate) fn settings(self) -> u32
        ensures answer { result ≡ settings self }
    {
        self.first as u32 * self.second as u32 * self.third as u32
    }
}
