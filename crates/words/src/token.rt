//! Tokens: each is a part of the text itself, with its place.

use crate::fault::Place;

/// A token of a text.
#[derive(Clone, Copy)]
pub enum Token<'a> {
    /// One to eight letters, borrowed from the text.
    Word(&'a [u8]),
    /// One to three digits with no needless leading zero.
    Number(u16),
    /// An opening bracket.
    Open,
    /// A closing bracket.
    Close,
    /// Byte 10.
    LineEnd,
    /// Nothing is left of the text.
    TextEnd,
}

/// A part of a text and the place of its first byte.
#[derive(Clone, Copy)]
pub struct Placed<T> {
    /// What stands there.
    pub value: T,
    /// Where it begins.
    pub place: Place,
}
