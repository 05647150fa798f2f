//! Why a text is refused, and where: one type for all three layers and all three texts.

ghost use Rattle.std.specs.Prelude.{◌≡◌};
ghost use Rattle.words.specs.Numbers.{before_text, layer_number, reason_number, refused, text_number};

/// Which text it is.
#[derive(Clone, Copy, PartialEq, Eq, Debug)]
pub enum Text {
    /// A mode table.
    Table = 1,
    /// A claim sheet.
    Sheet = 2,
    /// A line of evidence.
    Evidence = 3,
}

/// Which layer found the fault.
#[derive(Clone, Copy, PartialEq, Eq, Debug)]
pub enum Layer {
    /// None: it was refused before the text was looked at.
    Before = 0,
    /// The bytes make no token.
    Words = 1,
    /// The token may not stand at its place.
    Forms = 2,
    /// The token is past a limit of the text.
    Limits = 3,
}

/// What is wrong with the token, or with what was handed in.
#[derive(Clone, Copy, PartialEq, Eq, Debug)]
pub enum Reason {
    /// A byte other than a letter, a digit, a bracket, a space or byte 10.
    BadByte = 1,
    /// Digits that are no number.
    BadNumber = 2,
    /// Letters that are no word, or letters mixed with digits.
    BadWord = 3,
    /// A token that may not stand at its place.
    Misplaced = 4,
    /// One row bracket too many open at once.
    TooDeep = 5,
    /// A line out of order, or a head that is missing.
    OutOfOrder = 6,
    /// A number out of its range.
    OutOfRange = 7,
    /// One row or one claim too many.
    TooMany = 8,
    /// The memory that was handed is too short.
    MemoryShort = 9,
    /// The text is too long.
    TextTooLong = 10,
}

/// A place in a text, line and column counted from 1; both are 0 before the text.
#[derive(Clone, Copy, PartialEq, Eq, Debug)]
pub struct Place {
    /// How many lines have begun.
    pub line: u16,
    /// How many bytes of the line have begun.
    pub column: u16,
}

/// A fault: what is wrong, in which text, found by which layer, and the place of the token.
#[derive(Clone, Copy, PartialEq, Eq, Debug)]
pub struct Fault {
    /// What is wrong.
    pub reason: Reason,
    /// In which text.
    pub text: Text,
    /// Found by which layer.
    pub layer: Layer,
    /// The place of the token.
    pub place: Place,
}

// Each number by a method, not a `From` for `u8`, which would not say which number is meant.
impl Text {
    /// The number by which the text is known outside of the program.
    pub fn number(self) -> u8
        ensures answer { result ≡ text_number self }
    {
        self as u8
    }
}

impl Layer {
    /// The number by which the layer is known outside of the program.
    pub fn number(self) -> u8
        ensures answer { result ≡ layer_number self }
    {
        self as u8
    }
}

impl Reason {
    /// The number by which the refusal is known outside of the program.
    pub fn number(self) -> u8
        ensures answer { result ≡ reason_number self }
    {
        self as u8
    }
}

impl Fault {
    /// The fault of a text that is refused before it is looked at.
    pub fn before(text: Text, reason: Reason) -> Fault
        ensures answer { refused result ≡ before_text (text_number text) (reason_number reason) }
    {
        Fault {
            reason,
            text,
            layer: Layer::Before,
            place: Place { line: 0, column: 0 },
        }
    }
}
