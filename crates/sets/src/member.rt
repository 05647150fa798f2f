//! One mode of a set: which bit of which byte it is.

ghost use Rattle.std.specs.Prelude.{◌≡◌, ◌+◌, ◌/◌, ◌<◌};
ghost use Rattle.sets.specs.Sets.{bit, member, with_bit, with_member};

use crate::SetStart;
use graph::Mode;

// The modes of one byte: a bit for each, the lowest bit for the lowest mode.
const BYTE_MODES: u8 = 8;

/// Whether mode v is in the set that begins at byte `at`; past the end of the bytes no mode is in a set.
pub fn contains(bytes: &[u8], at: SetStart, v: Mode) -> bool
    ensures answer { result ≡ member bytes.now at v }
{
    bit_is_set(bytes, byte_of(at, v), v % BYTE_MODES)
}

/// Puts mode v into the set that begins at byte `at`, and changes no other bit; past the end of the bytes nothing changes.
pub fn insert(bytes: &mut [u8], at: SetStart, v: Mode)
    ensures memory { bytes.new ≡ with_member bytes.old at v }
{
    set_bit(bytes, byte_of(at, v), v % BYTE_MODES);
}

// The byte that has the bit of mode v.
fn byte_of(at: SetStart, v: Mode) -> usize
    ensures answer { result ≡ at + v / 8 }
{
    at as usize + (v / BYTE_MODES) as usize
}

// Whether bit k of byte i is set; past the end no bit is.
fn bit_is_set(bytes: &[u8], i: usize, k: u8) -> bool
    requires { k < 8 }
    ensures answer { result ≡ bit bytes.now i k }
{
    // An index after a test: with `get` the goal was left open.
    i < bytes.len() && (bytes[i] >> k) % 2 == 1
}

// Sets bit k of byte i; past the end nothing changes.
fn set_bit(bytes: &mut [u8], i: usize, k: u8)
    requires { k < 8 }
    ensures memory { bytes.new ≡ with_bit bytes.old i k }
{
    // As above: with `get_mut` the goals were left open.
    if i < bytes.len() {
        bytes[i] |= 1 << k;
    }
}
