//! A row at its place among the rows.

ghost use Rattle.label_table.specs.Entries.{PartsBelow, PartsBelow-prop};
ghost use Rattle.std.specs.Prelude.{◌<◌};

use logic::{Row, RowNumber};

// A row and its number. The parts of the row are rows before it.
#[derive(Clone, Copy)]
pub(crate) struct PlacedRow {
    pub(crate) number: RowNumber,
    pub(crate) row: Row,
    ghost number_there: { number < 48 },
    ghost parts_before: { PartsBelow number row } by { PartsBelow-prop number row },
}
