//! Of which sort a row is.

ghost use Rattle.logic.specs.Rows.{is_formula};
ghost use Rattle.std.specs.Prelude.{◌≡◌};

use crate::row::Row;

impl Row {
    /// Whether the row is a formula; a row that is none is a program.
    pub fn is_formula(self) -> bool
        ensures answer { result ≡ is_formula self }
    {
        match self {
            Row::Never
            | Row::Flag(_)
            | Row::Not(_)
            | Row::Both(_, _)
            | Row::Either(_, _)
            | Row::Implies(_, _)
            | Row::Box(_, _)
            | Row::Diamond(_, _) => true,
            Row::Command(_)
            | Row::Sequence(_, _)
            | Row::Choice(_, _)
            | Row::Repetition(_)
            | Row::Converse(_)
            | Row::Test(_) => false,
        }
    }
}
