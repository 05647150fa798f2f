//! The layout of a table: which set of modes is which flag's, and which is a mode's targets. Nothing else knows it.

ghost use Rattle.std.specs.Prelude.{◌≡◌, ◌+◌, ◌*◌};
ghost use Rattle.list_graph.specs.Layout.{flag_bit, arc_bit, marked, joined};

use graph::{COMMAND_LIMIT, Command, FLAG_LIMIT, Flag, Mode};
use sets::{BLOCK_BYTES, SET_BYTES, SetStart, block_set, contains, insert};

// Where the arcs begin, after a set of modes for each of 16 flags.
const ARCS_START: usize = FLAG_LIMIT as usize * SET_BYTES;

/// The bytes of a table, 8,320: 16 flags of 8 bytes, and then 16 commands of 64 modes of 8 bytes.
pub const TABLE_BYTES: usize = ARCS_START + COMMAND_LIMIT as usize * BLOCK_BYTES;

/// Whether the bit of flag p at mode u is set; past the end of the bytes no bit is.
pub fn flag_stands(bytes: &[u8], p: Flag, u: Mode) -> bool
    ensures answer { result ≡ flag_bit bytes.now p u }
{
    contains(bytes, flag_set(p), u)
}

/// Whether the bit of the arc of command a from mode u to mode v is set; past the end of the bytes no bit is.
pub fn arc_stands(bytes: &[u8], a: Command, u: Mode, v: Mode) -> bool
    ensures answer { result ≡ arc_bit bytes.now a u v }
{
    contains(bytes, target_set(a, u), v)
}

/// Sets the bit of flag p at mode u, and no other; past the end of the bytes nothing changes.
pub fn set_flag(bytes: &mut [u8], p: Flag, u: Mode)
    ensures memory { bytes.new ≡ marked bytes.old p u }
{
    insert(bytes, flag_set(p), u);
}

/// Sets the bit of the arc of command a from mode u to mode v, and no other; past the end of the bytes nothing changes.
pub fn set_arc(bytes: &mut [u8], a: Command, u: Mode, v: Mode)
    ensures memory { bytes.new ≡ joined bytes.old a u v }
{
    insert(bytes, target_set(a, u), v);
}

// Where the set of the modes at which flag p stands begins.
fn flag_set(p: Flag) -> SetStart
    ensures answer { result ≡ 8 * p }
{
    SET_BYTES as u32 * p as u32
}

// Where the set of the modes to which command a joins mode u begins.
fn target_set(a: Command, u: Mode) -> SetStart
    ensures answer { result ≡ 128 + 512 * a + 8 * u }
{
    ARCS_START as u32 + block_set(a, u)
}
