//! Row after row: each is labelled after the rows of its parts.

ghost use Rattle.std.specs.Prelude.{◌≤◌, length};
ghost use Rattle.label_table.specs.Changes.{Clear, Filled, TidyBefore};
ghost use Rattle.label_table.specs.Entries.{Entry};
ghost use Rattle.label_table.specs.Progress.{SoFar};
ghost use Rattle.logic.specs.Rows.{Orderly};

use crate::formulas::label_formula;
use crate::placed::PlacedRow;
use crate::programs::label_program;
use crate::row_set::Table;
use graph::Graph;
use logic::Row;

// Fills a table with the labels of the rows: makes it zero, and labels row after row, until all are done.
pub(crate) fn label_rows<G: Graph>(graph: &G, rows: &[Row], table: &mut Table)
    requires few { length rows.now ≤ 48 }
    requires orderly { Orderly rows.now }
    ensures done { SoFar (G.meaning graph.now) rows.now (length rows.now) table.new }
{
    table.fill(0);
    for (q, row) in rows.iter().enumerate() {
        let placed = PlacedRow {
            number: q as u8,
            row: *row,
        };
        label_row(graph, table, placed);
    }
}

// Fills the block of a row, which is clear, after the blocks of its parts.
// That the block is clear stays a clause: it holds between two writes, so a type for it would be undone at each call.
fn label_row<G: Graph>(graph: &G, table: &mut Table, placed: PlacedRow)
    requires tidy { TidyBefore (G.meaning graph.now).modes placed.number table.old }
    requires clear { Clear placed.number table.old }
    ensures filled { Filled placed.number (Entry (G.meaning graph.now) table.old placed.row) table.old table.new }
{
    if placed.row.is_formula() {
        label_formula(graph, table, placed);
    } else {
        label_program(graph, table, placed);
    }
}
