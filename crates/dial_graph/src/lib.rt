//! The dial graph: a graph of modes that are the settings of dials, with rules that move a dial where a dial is in a range.
#![tactic(auto)]

mod checks;
mod dials;
mod rules;
mod sizes;

/// The graph that dials, rules and flags mean, with its answers to the questions of every graph.
pub use dials::DialGraph;
/// What a dial graph is made from: rules and flags that speak of dials by their numbers, within these limits.
pub use rules::{Dial, DialFlag, RULE_LIMIT, Rule, STEP_LIMIT};
pub use sizes::{DIAL_LIMIT, POSITION_LIMIT};

#[cfg(test)]
mod tests;
