//! Lines of a word and numbers.

ghost use Rattle.lines.specs.Lines.{number_line, refusal_line, refused_line};
ghost use Rattle.words.specs.Numbers.{refused};
ghost use Rattle.std.specs.Prelude.{Some};

use std::fmt;
use words::Fault;

/// A word and a number, as `(stuck 7)`.
#[derive(Clone, Copy)]
pub struct NumberLine<'a> {
    /// The word.
    pub word: &'a str,
    /// The number.
    pub number: u8,
}

/// Where a text is refused, and by which number, as `(modes 1 8 refused 7)`.
#[derive(Clone, Copy)]
pub struct RefusalLine<'a> {
    /// The word for the text.
    pub word: &'a str,
    /// Why it is refused, and where.
    pub fault: Fault,
}

/// A call that is refused, and by which number, as `(label refused 14)`.
// Not a `NumberLine` of another word: then each caller would write the word `refused`.
#[derive(Clone, Copy)]
pub struct RefusedLine<'a> {
    /// The word for the call.
    pub word: &'a str,
    /// The number of the refusal, of whichever call.
    pub number: u8,
}

impl<'a> fmt::Display for NumberLine<'a> {
    ghost output = { λ line. Some (number_line line.word.now line.number) };

    fn fmt<W: fmt::Write>(&self, f: &mut fmt::Formatter<W>) -> fmt::Result {
        let NumberLine { word, number } = *self;
        write!(f, "({word} {number})")
    }
}

impl<'a> fmt::Display for RefusalLine<'a> {
    ghost output = { λ line. Some (refusal_line line.word.now (refused line.fault)) };

    fn fmt<W: fmt::Write>(&self, f: &mut fmt::Formatter<W>) -> fmt::Result {
        let word = self.word;
        let line = self.fault.place.line;
        let column = self.fault.place.column;
        let number = self.fault.reason.number();
        write!(f, "({word} {line} {column} refused {number})")
    }
}

impl<'a> fmt::Display for RefusedLine<'a> {
    ghost output = { λ line. Some (refused_line line.word.now line.number) };

    fn fmt<W: fmt::Write>(&self, f: &mut fmt::Formatter<W>) -> fmt::Result {
        let RefusedLine { word, number } = *self;
        write!(f, "({word} refused {number})")
    }
}
