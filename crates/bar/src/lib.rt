//! A graph without the arcs of some commands.
#![tactic(auto)]

mod bar;

/// A graph over another, whose barred commands lead nowhere, with its answers to the questions of every graph.
pub use bar::Bar;
