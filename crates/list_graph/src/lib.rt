//! The list graph: a graph of modes that is read from a table of bytes.
#![tactic(auto)]

mod layout;
mod list;

/// The bytes of a table, and its flags and arcs by bits.
pub use layout::{TABLE_BYTES, arc_stands, flag_stands, set_arc, set_flag};
/// The graph that a table means, with its answers to the questions of every graph.
pub use list::ListGraph;

#[cfg(test)]
mod tests;
