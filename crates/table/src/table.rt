//! A view over a table's text, line by line.

ghost use Rattle.std.specs.Prelude.{◌≡◌, ◌≤◌};
ghost use Rattle.table.specs.Table.{key_at, table_reading};
ghost use Rattle.words.specs.Words.{left, outcome};

use crate::contents::Keyword;
use forms::Forms;
use words::{Fault, Placed};

// The forms of the text, to be held to the table's limits.
#[derive(Drop)]
pub(crate) struct Table<'a> {
    pub(crate) forms: Forms<'a>,
}

impl<'a> Table<'a> {
    // The word of a line, with its place.
    pub(crate) fn head(&mut self) -> Result<Placed<Keyword>, Fault>
        ensures reads { outcome result (table_reading self.new) ≡ key_at (table_reading self.old) }
        ensures shorter { left self.new.forms.words ≤ left self.old.forms.words }
    {
        let name = self.forms.name()?;
        let place = name.place;
        let value = Keyword::from_word(name.value).ok_or(self.forms.misplaced(place))?;
        Ok(Placed { value, place })
    }
}
