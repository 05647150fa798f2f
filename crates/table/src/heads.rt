//! The three heads of a table, in order.

ghost use Rattle.std.specs.Prelude.{◌≡◌};
ghost use Rattle.table.specs.Table.{head_at, head_form, heads_at, table_reading};
ghost use Rattle.words.specs.Words.{outcome};

use crate::contents::{Counts, Keyword};
use crate::table::Table;
use forms::Next;
use graph::{COMMAND_LIMIT, FLAG_LIMIT, MODE_LIMIT};
use std::ops::Range;
use words::{Fault, Reason};

impl<'a> Table<'a> {
    // All three heads.
    pub(crate) fn counts(&mut self) -> Result<Counts, Fault>
        ensures reads { outcome result (table_reading self.new) ≡ heads_at (table_reading self.old) }
    {
        let modes = self.count(Keyword::Modes, 1..MODE_LIMIT + 1)?;
        let commands = self.count(Keyword::Commands, 1..COMMAND_LIMIT + 1)?;
        let flags = self.count(Keyword::Flags, 0..FLAG_LIMIT + 1)?;
        Ok(Counts {
            modes,
            commands,
            flags,
        })
    }

    // The line of the head that has to come next: its count, in the range.
    fn count(&mut self, want: Keyword, range: Range<u8>) -> Result<u8, Fault>
        ensures reads { outcome result (table_reading self.new) ≡ head_at want range.start range.end (table_reading self.old) }
    {
        match self.forms.next_form()? {
            Next::Form => self.count_form(want, range),
            Next::End(place) => Err(self.forms.beyond(Reason::OutOfOrder, place)),
        }
    }

    // The rest of that line, after its bracket.
    fn count_form(&mut self, want: Keyword, range: Range<u8>) -> Result<u8, Fault>
        ensures reads { outcome result (table_reading self.new) ≡ head_form want range.start range.end (table_reading self.old) }
    {
        let head = self.head()?;
        if head.value != want {
            return Err(self.forms.beyond(Reason::OutOfOrder, head.place));
        }
        let n = self.forms.number_in(range)?;
        self.forms.form_end()?;
        Ok(n)
    }
}
