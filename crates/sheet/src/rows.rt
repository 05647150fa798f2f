//! Formulas and programs, by readers that call each other.

ghost use Rattle.std.specs.Prelude.{◌≡◌, ◌<◌, IfOk};
ghost use Rattle.sheet.specs.Reading.{Moves, close_at, formula_at, formula_row_at, letter_at, open_at, program_at, program_row_at, state, stepped};

use crate::reader::Reader;
use graph::{COMMAND_LIMIT, FLAG_LIMIT};
use logic::{Row, RowNumber};
use words::{Fault, Layer, Placed, Reason};

impl<'a, 's> Reader<'a, 's> {
    // A word of one letter, with its place.
    fn letter(&mut self) -> Result<Placed<char>, Fault>
        ensures reads { stepped result (state self.new) ≡ letter_at (state self.old) }
        ensures moves { Moves self.old self.new }
    {
        let name = self.forms.name()?;
        match name.value {
            [letter] => Ok(Placed {
                value: char::from(*letter),
                place: name.place,
            }),
            _ => Err(self.misplaced(name.place)),
        }
    }

    // An opening bracket of a row, where one more may be opened: how many may then be opened inside it.
    fn open(&mut self, depth: u8) -> Result<u8, Fault>
        ensures reads { stepped result (state self.new) ≡ open_at depth (state self.old) }
        ensures fewer { IfOk result (λ inside. inside < depth) }
        ensures moves { Moves self.old self.new }
    {
        let place = self.forms.open()?;
        let too_deep = self.fault(Reason::TooDeep, Layer::Forms, place);
        depth.checked_sub(1).ok_or(too_deep)
    }

    // Numbers the row whose bracket closes here.
    fn close(&mut self, row: Row) -> Result<RowNumber, Fault>
        ensures reads { stepped result (state self.new) ≡ close_at row (state self.old) }
        ensures moves { Moves self.old self.new }
    {
        let place = self.forms.close()?;
        let number = self.sheet.push_row(row);
        number.ok_or(self.beyond(Reason::TooMany, place))
    }

    // A formula, with the rows of its parts before its own; so many brackets may still be opened.
    #[cycle(trees)]
    #[tactic(auto, using(crate::proofs::Opens::formula_opens))]
    pub(crate) fn formula(&mut self, depth: u8) -> Result<RowNumber, Fault>
        ensures reads { stepped result (state self.new) ≡ formula_at depth (state self.old) }
        ensures moves { Moves self.old self.new }
    {
        let inside = self.open(depth)?;
        let row = self.formula_row(inside)?;
        self.close(row)
    }

    // The row of a formula by its letter, after its bracket.
    #[cycle(trees)]
    fn formula_row(&mut self, depth: u8) -> Result<Row, Fault>
        ensures reads { stepped result (state self.new) ≡ formula_row_at depth (state self.old) }
        ensures moves { Moves self.old self.new }
    {
        let head = self.letter()?;
        match head.value {
            'O' => Ok(Row::Never),
            'P' => Ok(Row::Flag(self.forms.number_in(0..FLAG_LIMIT)?)),
            'N' => Ok(Row::Not(self.formula(depth)?)),
            'K' => Ok(Row::Both(self.formula(depth)?, self.formula(depth)?)),
            'A' => Ok(Row::Either(self.formula(depth)?, self.formula(depth)?)),
            'C' => Ok(Row::Implies(self.formula(depth)?, self.formula(depth)?)),
            'L' => Ok(Row::Box(self.program(depth)?, self.formula(depth)?)),
            'M' => Ok(Row::Diamond(self.program(depth)?, self.formula(depth)?)),
            _ => Err(self.misplaced(head.place)),
        }
    }

    // A program, with the rows of its parts before its own; so many brackets may still be opened.
    // A function beside `formula`, by a rule of the project: readers of formulas and of programs call each other.
    #[cycle(trees)]
    #[tactic(auto, using(crate::proofs::Opens::program_opens))]
    fn program(&mut self, depth: u8) -> Result<RowNumber, Fault>
        ensures reads { stepped result (state self.new) ≡ program_at depth (state self.old) }
        ensures moves { Moves self.old self.new }
    {
        let inside = self.open(depth)?;
        let row = self.program_row(inside)?;
        self.close(row)
    }

    // The row of a program by its letter, after its bracket.
    #[cycle(trees)]
    fn program_row(&mut self, depth: u8) -> Result<Row, Fault>
        ensures reads { stepped result (state self.new) ≡ program_row_at depth (state self.old) }
        ensures moves { Moves self.old self.new }
    {
        let head = self.letter()?;
        match head.value {
            'd' => Ok(Row::Command(self.forms.number_in(0..COMMAND_LIMIT)?)),
            's' => Ok(Row::Sequence(self.program(depth)?, self.program(depth)?)),
            'u' => Ok(Row::Choice(self.program(depth)?, self.program(depth)?)),
            'r' => Ok(Row::Repetition(self.program(depth)?)),
            'b' => Ok(Row::Converse(self.program(depth)?)),
            't' => Ok(Row::Test(self.formula(depth)?)),
            _ => Err(self.misplaced(head.place)),
        }
    }
}
