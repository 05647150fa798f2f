//! The marks and arcs of a table, each set in its bytes.

ghost use Rattle.std.specs.Prelude.{◌≡◌, ◌≤◌, IfOk};
ghost use Rattle.table.specs.Table.{entries_from, entry_at, entry_eats, entry_form, laid, laid_read, table_reading, with_entry};
ghost use Rattle.words.specs.Words.{left, outcome};

use crate::contents::{Counts, Entry, Keyword};
use crate::table::Table;
use forms::Next;
use list_graph::{set_arc, set_flag};
use words::{Fault, Reason};

impl Entry {
    // Sets the entry's bit.
    fn set_in(self, bytes: &mut [u8])
        ensures memory { bytes.new ≡ with_entry self bytes.old }
    {
        match self {
            Entry::Mark(p, u) => set_flag(bytes, p, u),
            Entry::Arc(a, u, v) => set_arc(bytes, a, u, v),
        }
    }
}

impl<'a> Table<'a> {
    // All lines to the text's end, each set in the bytes.
    #[tactic(auto, unfolding(crate::specs::Table::entries_from))]
    pub(crate) fn entries(&mut self, counts: Counts, bytes: &mut [u8]) -> Result<(), Fault>
        ensures memory { laid_read result (table_reading self.new) bytes.new ≡ laid (entries_from counts (table_reading self.old)) bytes.old }
    {
        while let Some(entry) = self.entry(counts)? {
            entry.set_in(bytes);
        }
        Ok(())
    }

    // The next line, or none where the text has ended.
    fn entry(&mut self, counts: Counts) -> Result<Option<Entry>, Fault>
        ensures reads { outcome result (table_reading self.new) ≡ entry_at counts (table_reading self.old) }
        ensures eats { IfOk result (λ e. entry_eats e (left self.new.forms.words) (left self.old.forms.words)) }
    {
        match self.forms.next_form()? {
            Next::Form => {
                let entry = self.entry_form(counts)?;
                self.forms.form_end()?;
                Ok(Some(entry))
            }
            Next::End(_) => Ok(None),
        }
    }

    // A mark or an arc, after its bracket.
    fn entry_form(&mut self, counts: Counts) -> Result<Entry, Fault>
        ensures reads { outcome result (table_reading self.new) ≡ entry_form counts (table_reading self.old) }
        ensures shorter { left self.new.forms.words ≤ left self.old.forms.words }
    {
        let head = self.head()?;
        match head.value {
            Keyword::Mark => {
                let p = self.forms.number_in(0..counts.flags)?;
                let u = self.forms.number_in(0..counts.modes)?;
                Ok(Entry::Mark(p, u))
            }
            Keyword::Arc => {
                let a = self.forms.number_in(0..counts.commands)?;
                let u = self.forms.number_in(0..counts.modes)?;
                let v = self.forms.number_in(0..counts.modes)?;
                Ok(Entry::Arc(a, u, v))
            }
            _ => Err(self.forms.beyond(Reason::OutOfOrder, head.place)),
        }
    }
}
