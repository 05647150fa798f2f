//! What the forms of a text are made of.

ghost use Rattle.std.specs.Str.{bytes_eq};
ghost use Rattle.std.specs.Prelude.{◌≡◌};

use words::{Place, Placed, Words};

/// A view over a text, form by form.
#[derive(Drop)]
pub struct Forms<'a> {
    pub(crate) words: Words<'a>,
}

/// What comes after the blank lines.
// Not an `Option<Place>`: there the text's end would be the `Some`, and a form, which is what callers want, the `None`.
#[derive(Clone, Copy)]
pub enum Next {
    /// A line that begins with an opening bracket.
    Form,
    /// The text's end, at this place.
    End(Place),
}

/// A number of the text, below 1,000, and its place.
pub type Numeral = Placed<u16>;

/// A word of the text, borrowed from it, and its place.
pub type Name<'a> = Placed<&'a [u8]>;

/// A word or a number of the text.
#[derive(Clone, Copy)]
pub enum Item<'a> {
    /// A word.
    Name(Name<'a>),
    /// A number.
    Number(Numeral),
}

/// Whether two words have the same letters.
// Not `==` at the callers: there a word such as b"all" would need `.as_slice()`.
pub fn same_word(a: &[u8], b: &[u8]) -> bool
    ensures answer { result ≡ bytes_eq a.now b.now }
{
    a == b
}
