//! What a memory holds after a call.

ghost use Rattle.lines.specs.Memory.{bits_set, front_text};
ghost use Rattle.std.specs.List.{list_all};
ghost use Rattle.std.specs.Prelude.{◌≡◌, ◌==◌, Some};

use std::fmt;

/// The front of a memory after a call: `untouched`, where each byte is what all were before, and else `12 bits set`.
#[derive(Clone, Copy)]
pub struct Front<'a> {
    /// The bytes of the front.
    pub bytes: &'a [u8],
    /// What each byte of the memory was before the call.
    pub before: u8,
}

impl<'a> Front<'a> {
    /// Whether each byte is what all were before.
    pub fn is_untouched(&self) -> bool
        ensures answer { result ≡ list_all (λ b. b == self.now.before) self.now.bytes.now }
    {
        self.bytes.iter().all(|b| *b == self.before)
    }
}

impl<'a> fmt::Display for Front<'a> {
    ghost output = { λ front. Some (front_text front.bytes.now front.before) };

    fn fmt<W: fmt::Write>(&self, f: &mut fmt::Formatter<W>) -> fmt::Result {
        if self.is_untouched() {
            write!(f, "untouched")
        } else {
            let bits = set_bits(self.bytes);
            write!(f, "{bits} bits set")
        }
    }
}

// How many bits of the bytes are set.
fn set_bits(bytes: &[u8]) -> u32
    ensures answer { result ≡ bits_set bytes.now }
{
    bytes
        .iter()
        .fold(0u32, |n, b| n.saturating_add(b.count_ones()))
}
