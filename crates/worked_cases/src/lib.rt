//! The worked cases: facts about small models, proved of the definitions that the contracts cite.
#![tactic(auto)]

ghost use Rattle.worked_cases.specs.Cases.{WorkedCases};
ghost use Rattle.std.specs.Prelude.{◌≡◌};

mod tables;

/// Two of the models, written into a table's bytes.
pub use tables::{write_model_s, write_model_t};

/// How many models the worked cases speak of. That this function is there says that every case is proved.
pub fn models() -> u8
    ensures cases { WorkedCases }
    ensures answer { result ≡ 3 }
{
    // Model S, with a latch and without; model T; and the two dials.
    3
}
