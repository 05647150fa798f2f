//! Rows in bytes, three for each row, and how they are put into a sheet.

ghost use Rattle.label_export.specs.Answers.{Put};
ghost use Rattle.label_export.specs.Packed.{row_of};
ghost use Rattle.logic.specs.Sheets.{sheet_claims, sheet_rows};
ghost use Rattle.std.specs.Prelude.{◌≡◌, []};

use crate::refused::Refused;
use logic::{Row, Sheet};

// Rows are bytes and the rest is a slice: the C interface, and with `as_chunks` more goals were left open.
// Puts the rows that the bytes mean into a sheet that has none. They are refused where the bytes are no rows, or not all find room.
pub(crate) fn put_rows(sheet: &mut Sheet, bytes: &[u8]) -> Result<(), Refused>
    requires { sheet_rows sheet.old ≡ [] }
    ensures rows { Put bytes.now result (sheet_rows sheet.new) }
    ensures claims { sheet_claims sheet.new ≡ sheet_claims sheet.old }
{
    let mut rest = bytes;
    while let [letter, x, y, others @ ..] = rest {
        let row = row_of(*letter, *x, *y).ok_or(Refused::NotRows)?;
        sheet.push_row(row).ok_or(Refused::NotRows)?;
        rest = others;
    }
    if rest.is_empty() {
        Ok(())
    } else {
        Err(Refused::NotRows)
    }
}

// The row of a letter and two numbers, by the letters of a claim sheet.
// Not a `TryFrom`: neither the trait nor `Row` is of this crate.
fn row_of(letter: u8, x: u8, y: u8) -> Option<Row>
    ensures answer { result ≡ row_of letter x y }
{
    match letter {
        b'O' => Some(Row::Never),
        b'P' => Some(Row::Flag(x)),
        b'N' => Some(Row::Not(x)),
        b'K' => Some(Row::Both(x, y)),
        b'A' => Some(Row::Either(x, y)),
        b'C' => Some(Row::Implies(x, y)),
        b'L' => Some(Row::Box(x, y)),
        b'M' => Some(Row::Diamond(x, y)),
        b'd' => Some(Row::Command(x)),
        b's' => Some(Row::Sequence(x, y)),
        b'u' => Some(Row::Choice(x, y)),
        b'r' => Some(Row::Repetition(x)),
        b'b' => Some(Row::Converse(x)),
        b't' => Some(Row::Test(x)),
        _ => None,
    }
}
