//! Reading a whole sheet.

ghost use Rattle.std.specs.Prelude.{◌≡◌, ◌≤◌, [], length, take};
ghost use Rattle.logic.specs.Sheets.{Empty, sheet_claims, sheet_rows};
ghost use Rattle.sheet.specs.Grammar.{ReadsExactly};
ghost use Rattle.sheet.specs.Reading.{answered, begun, claims_from, lines_read, sheet_answer, sheet_over};
ghost use Rattle.words.specs.Words.{text_limit};

use crate::reader::Reader;
use forms::Forms;
use logic::Sheet;
use words::{Fault, Reason, TEXT_LIMIT, Text};

/// Reads a claim sheet's text into a sheet, in place of what the sheet had.
///
/// A text that is too long is refused before anything is touched. A fault inside the text leaves a sheet without rows and
/// claims. Nothing here asks for memory.
pub fn read_sheet(text: &[u8], sheet: &mut Sheet) -> Result<(), Fault>
    ensures answer { answered result sheet.new ≡ sheet_answer text.now (sheet_rows sheet.old) (sheet_claims sheet.old) }
    ensures grammar { ReadsExactly text.now result (sheet_rows sheet.new) (sheet_claims sheet.new) }
{
    if text.len() > TEXT_LIMIT {
        return Err(Fault::before(Text::Sheet, Reason::TextTooLong));
    }
    read_into(text, sheet)
}

// Reads a text that is not too long; a type for that would be made here and undone at the next call. Beside the table's, no generic function: only the order of the calls is the same.
fn read_into(text: &[u8], sheet: &mut Sheet) -> Result<(), Fault>
    requires { length text.now ≤ text_limit }
    ensures answer { answered result sheet.new ≡ sheet_over (claims_from [] (begun text.now)) }
{
    sheet.clear();
    let read = read_lines(text, sheet);
    if read.is_err() {
        sheet.clear();
    }
    read
}

// Reads the claims into an empty sheet.
fn read_lines(text: &[u8], sheet: &mut Sheet) -> Result<(), Fault>
    requires { Empty sheet.old }
    ensures answer { lines_read result sheet.new ≡ sheet_over (claims_from [] (begun (take text_limit text.now))) }
{
    let mut reader = Reader {
        forms: Forms::new(text, Text::Sheet),
        sheet,
    };
    reader.claims()
}
