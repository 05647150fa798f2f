//! How far a text has been read.

ghost use Rattle.std.specs.Prelude.{◌≡◌, ◌+◌, ◌≤◌, length};

use crate::fault::{Place, Text};

/// No text is longer than this many bytes.
pub const TEXT_LIMIT: usize = 32768;

/// A view over a text: the bytes that are still to be read, and the place of the first of them.
#[derive(Drop)]
pub struct Words<'a> {
    pub(crate) rest: &'a [u8],
    pub(crate) place: Place,
    pub(crate) text: Text,
    ghost lines: { place.line + length rest.now ≤ 32769 },
    ghost columns: { place.column + length rest.now ≤ 32769 },
}

impl<'a> Words<'a> {
    /// Which text it is.
    pub fn text(&self) -> Text
        ensures answer { result ≡ self.now.text }
    {
        self.text
    }
}
