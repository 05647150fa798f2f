//! Reading a whole table into memory.

ghost use Rattle.std.specs.Prelude.{◌≡◌, ◌≤◌, length, take};
ghost use Rattle.list_graph.specs.Layout.{table_bytes};
ghost use Rattle.table.specs.Grammar.{ReadsExactly};
ghost use Rattle.table.specs.Table.{answered, contents_at, lines_over, lines_read, table_answer, table_over};
ghost use Rattle.words.specs.Words.{start, text_limit};

use crate::contents::Counts;
use crate::table::Table;
use forms::Forms;
use list_graph::TABLE_BYTES;
use words::{Fault, Reason, TEXT_LIMIT, Text};

/// Reads a mode table into the first 8,320 bytes of the memory.
///
/// Memory that is too short and a text that is too long are refused before anything is touched. A fault inside the text leaves
/// 8,320 zero bytes. What lies behind them stays as it was.
pub fn read_table(text: &[u8], memory: &mut [u8]) -> Result<Counts, Fault>
    ensures answer { answered result memory.new ≡ table_answer text.now memory.old }
    ensures grammar { ReadsExactly text.now memory.old result memory.new }
{
    if memory.len() < TABLE_BYTES {
        return Err(Fault::before(Text::Table, Reason::MemoryShort));
    }
    if text.len() > TEXT_LIMIT {
        return Err(Fault::before(Text::Table, Reason::TextTooLong));
    }
    read_into(text, &mut memory[..TABLE_BYTES])
}

// Reads a table into its own bytes. The text is not too long: a type for that would be made here and undone at the next call.
// No generic function with the sheet's: only the order of the calls is the same, and a trait for them would be longer.
fn read_into(text: &[u8], bytes: &mut [u8]) -> Result<Counts, Fault>
    requires { (length text.now ≤ text_limit) × (length bytes.old ≡ table_bytes) }
    ensures answer { answered result bytes.new ≡ table_over (contents_at (start text.now 1)) }
{
    bytes.fill(0);
    let read = read_lines(text, bytes);
    if read.is_err() {
        bytes.fill(0);
    }
    read
}

// Reads the heads, and sets each entry in the bytes.
fn read_lines(text: &[u8], bytes: &mut [u8]) -> Result<Counts, Fault>
    ensures answer { lines_read result bytes.new ≡ lines_over (contents_at (start (take text_limit text.now) 1)) bytes.old }
{
    let mut table = Table {
        forms: Forms::new(text, Text::Table),
    };
    let counts = table.counts()?;
    table.entries(counts, bytes)?;
    Ok(counts)
}
