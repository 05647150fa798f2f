//! Whether a sheet fits a graph, so that each of its claims has a meaning there.
#![tactic(auto)]

mod checks;

/// Whether a sheet fits a graph.
pub use checks::fits;
