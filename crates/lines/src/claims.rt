//! The lines of a claim sheet: its claims, and its rows as they are numbered.

ghost use Rattle.lines.specs.ClaimLines.{claim_line, row_line};
ghost use Rattle.std.specs.Prelude.{Some};

use logic::{Claim, Row, RowNumber, Scope};
use std::fmt;

/// A claim by its number, as `(claim 0 all 5)`: the modes that it names, and its row.
#[derive(Clone, Copy)]
pub struct ClaimLine {
    /// The claim's number in its sheet, from 0.
    pub number: u8,
    /// The claim.
    pub claim: Claim,
}

/// A row by its number, as `(row 5 M 3 4)`: its letter, and then its flag, its command or the rows of its parts.
#[derive(Clone, Copy)]
pub struct RowLine {
    /// The row's number in its sheet, from 0.
    pub number: RowNumber,
    /// The row.
    pub row: Row,
}

impl fmt::Display for ClaimLine {
    ghost output = { λ line. Some (claim_line line.number line.claim.scope line.claim.row) };

    fn fmt<W: fmt::Write>(&self, f: &mut fmt::Formatter<W>) -> fmt::Result {
        let k = self.number;
        let row = self.claim.row;
        match self.claim.scope {
            Scope::All => write!(f, "(claim {k} all {row})"),
            Scope::Mode(u) => write!(f, "(claim {k} {u} {row})"),
        }
    }
}

impl fmt::Display for RowLine {
    ghost output = { λ line. Some (row_line line.number line.row) };

    fn fmt<W: fmt::Write>(&self, f: &mut fmt::Formatter<W>) -> fmt::Result {
        let i = self.number;
        match self.row {
            Row::Never => write!(f, "(row {i} O)"),
            Row::Flag(p) => write!(f, "(row {i} P {p})"),
            Row::Not(x) => write!(f, "(row {i} N {x})"),
            Row::Both(x, y) => write!(f, "(row {i} K {x} {y})"),
            Row::Either(x, y) => write!(f, "(row {i} A {x} {y})"),
            Row::Implies(x, y) => write!(f, "(row {i} C {x} {y})"),
            Row::Box(r, x) => write!(f, "(row {i} L {r} {x})"),
            Row::Diamond(r, x) => write!(f, "(row {i} M {r} {x})"),
            Row::Command(a) => write!(f, "(row {i} d {a})"),
            Row::Sequence(r, s) => write!(f, "(row {i} s {r} {s})"),
            Row::Choice(r, s) => write!(f, "(row {i} u {r} {s})"),
            Row::Repetition(r) => write!(f, "(row {i} r {r})"),
            Row::Converse(r) => write!(f, "(row {i} b {r})"),
            Row::Test(x) => write!(f, "(row {i} t {x})"),
        }
    }
}
