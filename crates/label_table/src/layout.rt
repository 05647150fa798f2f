//! The layout of a label table: which set of modes is which. Nothing else knows it.

ghost use Rattle.std.specs.Prelude.{◌≡◌, ◌+◌, ◌*◌};
ghost use Rattle.label_table.specs.Layout.{mode_bit, pair_bit};

use graph::Mode;
use logic::{ROW_LIMIT, RowNumber};
use sets::{BLOCK_BYTES, SetStart, block_set, contains};

/// The bytes of a label table, 24,576: 48 rows of a block each.
pub const TABLE_BYTES: usize = ROW_LIMIT * BLOCK_BYTES;

/// Where the set begins of the modes at which formula row r is true.
pub fn formula_set(r: RowNumber) -> SetStart
    ensures answer { result ≡ 512 * r }
{
    program_set(r, 0)
}

/// Where the set begins of the modes to which program row r leads from mode u.
pub fn program_set(r: RowNumber, u: Mode) -> SetStart
    ensures answer { result ≡ 512 * r + 8 * u }
{
    block_set(r, u)
}

/// Whether the bit of mode u of formula row r is set; past the end of the bytes no bit is.
pub fn is_true(bytes: &[u8], r: RowNumber, u: Mode) -> bool
    ensures answer { result ≡ mode_bit bytes.now r u }
{
    contains(bytes, formula_set(r), u)
}

/// Whether the bit of the pair of u and v of program row r is set; past the end of the bytes no bit is.
pub fn is_joined(bytes: &[u8], r: RowNumber, u: Mode, v: Mode) -> bool
    ensures answer { result ≡ pair_bit bytes.now r u v }
{
    contains(bytes, program_set(r, u), v)
}
