//! What a mode table says.

ghost use Rattle.std.specs.Prelude.{◌≡◌};
ghost use Rattle.table.specs.Table.{key_of};

use graph::{Command, Flag, Mode};

/// How many modes, commands and flags there are.
#[derive(Clone, Copy, PartialEq, Eq, Debug)]
pub struct Counts {
    /// How many modes.
    pub modes: u8,
    /// How many commands.
    pub commands: u8,
    /// How many flags.
    pub flags: u8,
}

// A line after the heads.
#[derive(Clone, Copy)]
pub(crate) enum Entry {
    // the flag stands at the mode
    Mark(Flag, Mode),
    // the command joins the first mode to the second
    Arc(Command, Mode, Mode),
}

// The word after the bracket, which says what a line is.
#[derive(Clone, Copy, PartialEq, Eq)]
pub(crate) enum Keyword {
    Modes,
    Commands,
    Flags,
    Mark,
    Arc,
}

impl Keyword {
    // Which of the table's words it is.
    // Not a `TryFrom`: its error would say no more than `None` does.
    pub(crate) fn from_word(word: &[u8]) -> Option<Keyword>
        ensures answer { result ≡ key_of word.now }
    {
        match word {
            b"modes" => Some(Keyword::Modes),
            b"commands" => Some(Keyword::Commands),
            b"flags" => Some(Keyword::Flags),
            b"mark" => Some(Keyword::Mark),
            b"arc" => Some(Keyword::Arc),
            _ => None,
        }
    }
}
