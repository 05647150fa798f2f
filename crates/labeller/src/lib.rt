//! The labeller: it fills a label table with the truth of every row of a sheet, over any graph.
#![tactic(auto)]

mod closing;
mod formulas;
mod labelling;
mod placed;
mod programs;
mod refusal;
mod row_set;
mod rows;

/// Labels a sheet over a graph.
pub use labelling::label;
/// Why a sheet is not labelled, and how such grounds are compared and printed.
pub use refusal::Refusal;
