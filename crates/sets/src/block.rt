//! Blocks of sets: a set for each mode.

ghost use Rattle.std.specs.Prelude.{◌≡◌, ◌+◌, ◌*◌};

use crate::{SET_BYTES, SetStart};
use graph::{MODE_LIMIT, Mode};

/// The bytes of a block: a set of modes for each of 64 modes.
pub const BLOCK_BYTES: usize = MODE_LIMIT as usize * SET_BYTES;

/// Where the set of mode u begins in block b, counted from the first block.
pub fn block_set(b: u8, u: Mode) -> SetStart
    ensures answer { result ≡ 512 * b + 8 * u }
{
    BLOCK_BYTES as u32 * b as u32 + SET_BYTES as u32 * u as u32
}
