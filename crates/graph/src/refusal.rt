//! Why a graph cannot be made, and the number of each ground.

ghost use Rattle.std.specs.Prelude.{◌≡◌, Some};
ghost use Rattle.graph.specs.Refusals.{refusal_number, refusal_text};

use std::error::Error;
use std::fmt;

/// The ground on which a graph is refused.
#[derive(Clone, Copy, PartialEq, Eq, Debug)]
pub enum Refusal {
    /// The memory that was handed is shorter than what is read from it needs.
    MemoryShort = 9,
    /// A limit is broken, or a dial or a command that is named is not there.
    LimitBroken = 16,
}

impl Refusal {
    /// The number by which the refusal is known outside of the program.
    // A method, not a `From` for `u8`, which would not say which number is meant.
    pub fn number(self) -> u8
        ensures answer { result ≡ refusal_number self }
    {
        self as u8
    }
}

impl fmt::Display for Refusal {
    ghost output = { λ refusal. Some (refusal_text refusal) };

    fn fmt<W: fmt::Write>(&self, f: &mut fmt::Formatter<W>) -> fmt::Result {
        match self {
            Refusal::MemoryShort => write!(f, "the memory is too short"),
            Refusal::LimitBroken => {
                write!(f, "a limit is broken, or a dial or a command is not there")
            }
        }
    }
}

impl Error for Refusal {}
