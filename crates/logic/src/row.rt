//! Rows and claims. A row is a formula or a program, whose parts are rows before it.

use graph::{Command, Flag, Mode};

/// The number of a row in its sheet, from 0.
pub type RowNumber = u8;

/// One row of a sheet.
// Parts are numbers and no boxes, by a rule of the project: rows are numbered, and a label table has a block for each number.
#[derive(Clone, Copy, PartialEq, Eq, Debug)]
pub enum Row {
    /// A formula that is never true.
    Never,
    /// The flag stands.
    Flag(Flag),
    /// The formula is not true.
    Not(RowNumber),
    /// Both formulas are true.
    Both(RowNumber, RowNumber),
    /// One of the formulas is true.
    Either(RowNumber, RowNumber),
    /// The second formula is true if the first is.
    Implies(RowNumber, RowNumber),
    /// After every run of the program the formula is true.
    Box(RowNumber, RowNumber),
    /// After some run of the program the formula is true.
    Diamond(RowNumber, RowNumber),
    /// A program that gives one command.
    Command(Command),
    /// The first program, and then the second.
    Sequence(RowNumber, RowNumber),
    /// One of the programs.
    Choice(RowNumber, RowNumber),
    /// The program, any finite number of times, none among them.
    Repetition(RowNumber),
    /// The program, backwards.
    Converse(RowNumber),
    /// A program that stays where it is, and goes on only where the formula is true.
    Test(RowNumber),
}

/// The modes that a claim names.
// Not an `Option<Mode>`, whose `None` would have to mean every mode.
#[derive(Clone, Copy, PartialEq, Eq, Debug)]
pub enum Scope {
    /// Every mode of the graph.
    All,
    /// One mode.
    Mode(Mode),
}

/// A claim: the formula is true at the modes that it names.
#[derive(Clone, Copy, PartialEq, Eq, Debug)]
pub struct Claim {
    /// The modes that it names.
    pub scope: Scope,
    /// The formula's row.
    pub row: RowNumber,
}
