//! Sets of modes in bytes. A set has eight bytes, with a bit for each of 64 modes; it is named by its first byte, by a rule of the
//! project: the tables that have sets lie in memory of a stated layout.
#![tactic(auto)]

mod block;
mod member;

/// Blocks of sets, one for each mode.
pub use block::{BLOCK_BYTES, block_set};
/// Whether a mode is in a set, and putting one in.
pub use member::{contains, insert};

/// Where a set begins: the number of its first byte.
pub type SetStart = u32;

/// The bytes of a set: a bit for each of 64 modes.
pub const SET_BYTES: usize = 8;
