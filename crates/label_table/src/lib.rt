//! The label table: which bit is which fact, and what its bits say.
#![tactic(auto)]

mod layout;

/// The bytes of a label table, and where its sets begin.
pub use layout::{TABLE_BYTES, formula_set};
/// Reading one fact.
pub use layout::{is_joined, is_true, program_set};
