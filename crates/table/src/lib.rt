//! The text of a mode table: read into the bytes of a list graph.
#![tactic(auto)]

mod contents;
mod entries;
mod heads;
mod read;
mod table;

/// How many modes, commands and flags a table has, and how counts are compared and printed.
pub use contents::Counts;
/// Reads a table's text into memory.
pub use read::read_table;
