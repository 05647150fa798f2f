//! The lines of a label table: what each row is true of.

ghost use Rattle.label_table.specs.Layout.{mode_bit, pair_bit};
ghost use Rattle.lines.specs.LabelLines.{label_line, modes_below, pair_part, pairs_below, pairs_of};
ghost use Rattle.std.specs.Prelude.{Some};

use graph::Mode;
use label_table::{is_joined, is_true};
use logic::{Row, RowNumber};
use std::fmt;

/// What a row of a label table is true of, among some modes: of a formula the modes, as `(true 5 0 2)`, and of a program the
/// pairs that it joins, as `(joins 3 (0 2) (1 1))`, both rising.
#[derive(Clone, Copy)]
pub struct LabelLine<'a> {
    /// The bytes of the label table.
    pub table: &'a [u8],
    /// The row's number.
    pub number: RowNumber,
    /// The row, which says of which sort it is.
    pub row: Row,
    /// How many modes there are.
    pub modes: u8,
}

// The modes at which the line's formula is true, each after a space.
#[derive(Clone, Copy)]
struct TrueModes<'a>(LabelLine<'a>);

// The pairs that the line's program joins, each after a space.
#[derive(Clone, Copy)]
struct JoinedPairs<'a>(LabelLine<'a>);

// Those of the pairs that begin with one mode.
#[derive(Clone, Copy)]
struct PairsFrom<'a>(LabelLine<'a>, Mode);

// A pair in brackets, after a space.
#[derive(Clone, Copy)]
struct Pair(Mode, Mode);

impl<'a> fmt::Display for LabelLine<'a> {
    ghost output = { λ line. Some (label_line line.table.now line.number line.row line.modes) };

    fn fmt<W: fmt::Write>(&self, f: &mut fmt::Formatter<W>) -> fmt::Result {
        let number = self.number;
        if self.row.is_formula() {
            let modes = TrueModes(*self);
            write!(f, "(true {number}{modes})")
        } else {
            let pairs = JoinedPairs(*self);
            write!(f, "(joins {number}{pairs})")
        }
    }
}

impl<'a> fmt::Display for TrueModes<'a> {
    ghost output = { λ s. Some (modes_below (mode_bit s.0.table.now s.0.number) s.0.modes) };

    fn fmt<W: fmt::Write>(&self, f: &mut fmt::Formatter<W>) -> fmt::Result {
        let line = self.0;
        for u in 0..line.modes {
            if is_true(line.table, line.number, u) {
                write!(f, " {u}")?;
            }
        }
        Ok(())
    }
}

impl<'a> fmt::Display for JoinedPairs<'a> {
    ghost output = { λ s. Some (pairs_below (pair_bit s.0.table.now s.0.number) s.0.modes s.0.modes) };

    fn fmt<W: fmt::Write>(&self, f: &mut fmt::Formatter<W>) -> fmt::Result {
        let line = self.0;
        for u in 0..line.modes {
            let pairs = PairsFrom(line, u);
            write!(f, "{pairs}")?;
        }
        Ok(())
    }
}

impl<'a> fmt::Display for PairsFrom<'a> {
    ghost output = { λ s. Some (pairs_of (pair_bit s.0.table.now s.0.number) s.1 s.0.modes) };

    fn fmt<W: fmt::Write>(&self, f: &mut fmt::Formatter<W>) -> fmt::Result {
        let PairsFrom(line, u) = *self;
        for v in 0..line.modes {
            if is_joined(line.table, line.number, u, v) {
                let pair = Pair(u, v);
                write!(f, "{pair}")?;
            }
        }
        Ok(())
    }
}

impl fmt::Display for Pair {
    ghost output = { λ s. Some (pair_part s.0 s.1) };

    fn fmt<W: fmt::Write>(&self, f: &mut fmt::Formatter<W>) -> fmt::Result {
        let Pair(u, v) = *self;
        write!(f, " ({u} {v})")
    }
}
