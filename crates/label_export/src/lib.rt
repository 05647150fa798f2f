//! The labeller for callers in C and Rust: rows in bytes, labelled over a table of bytes.
#![tactic(auto)]

mod export;
mod packed;
mod refused;

/// Labels rows over a table.
pub use export::label_rows_over_table;
