//! Formula rows: the modes where each formula is true, by the rows of its parts.

ghost use Rattle.std.specs.Prelude.{◌≡◌, ◌<◌, true, Decides};
ghost use Rattle.label_table.specs.Changes.{Clear, Filled};
ghost use Rattle.label_table.specs.Entries.{Entry, FormulaSays};
ghost use Rattle.label_table.specs.Layout.{pair_bit};
ghost use Rattle.logic.specs.Rows.{is_formula};

use crate::placed::PlacedRow;
use crate::row_set::{RowSet, Table};
use graph::{Graph, Mode};
use logic::{Row, RowNumber};

// Fills the block of a formula row, which is clear.
pub(crate) fn label_formula<G: Graph>(graph: &G, table: &mut Table, placed: PlacedRow)
    requires sort { is_formula placed.row ≡ true }
    requires clear { Clear placed.number table.old }
    ensures filled { Filled placed.number (Entry (G.meaning graph.now) table.old placed.row) table.old table.new }
{
    let set = RowSet {
        row: placed.number,
        mode: 0,
    };
    for u in 0..graph.modes() {
        if says_true(graph, table, placed, u) {
            set.add_mode(table, u);
        }
    }
}

// Whether the formula is true at u, by the rows of its parts. A box and a diamond compare two sets.
fn says_true<G: Graph>(graph: &G, table: &Table, placed: PlacedRow, u: Mode) -> bool
    requires { u < 64 }
    ensures exactly { Decides result (FormulaSays (G.meaning graph.now) table.now placed.row u) }
{
    match placed.row {
        Row::Never => false,
        Row::Flag(p) => graph.has_flag(p, u),
        Row::Not(x) => !holds(table, x, u),
        Row::Both(x, y) => holds(table, x, u) && holds(table, y, u),
        Row::Either(x, y) => holds(table, x, u) || holds(table, y, u),
        Row::Implies(x, y) => !holds(table, x, u) || holds(table, y, u),
        Row::Box(r, x) => RowSet { row: r, mode: u }.is_subset(RowSet { row: x, mode: 0 }, table),
        Row::Diamond(r, x) => RowSet { row: r, mode: u }.meets(RowSet { row: x, mode: 0 }, table),
        _ => false,
    }
}

// Whether formula row x is true at u. A formula row has its modes where a program row has those of mode 0.
pub(crate) fn holds(table: &Table, x: RowNumber, u: Mode) -> bool
    requires { (x < 48) × (u < 64) }
    ensures answer { result ≡ pair_bit table.now x 0 u }
{
    RowSet { row: x, mode: 0 }.has_mode(table, u)
}
