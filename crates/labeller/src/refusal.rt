//! Why a sheet is not labelled, and the number of each ground.

ghost use Rattle.labeller.specs.Refusals.{refusal_number};
ghost use Rattle.std.specs.Prelude.{◌≡◌};

/// The ground on which labelling is refused.
#[derive(Clone, Copy, PartialEq, Eq, Debug)]
pub enum Refusal {
    /// The memory that was handed is shorter than a label table.
    MemoryShort = 9,
    /// The sheet does not fit the graph.
    Unfit = 14,
}

impl Refusal {
    /// The number by which the refusal is known outside of the program.
    // A method, not a `From` for `u8`, which would not say which number is meant.
    pub fn number(self) -> u8
        ensures answer { result ≡ refusal_number self }
    {
        self as u8
    }
}
