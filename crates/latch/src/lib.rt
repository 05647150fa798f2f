//! A graph with a command that fires once.
#![tactic(auto)]

mod latch;

/// A graph over another, with a latch that one command sets, and its answers to the questions of every graph.
pub use latch::Latch;
