//! Program rows: the pairs that each program joins, by the rows of its parts.

ghost use Rattle.std.specs.Prelude.{◌≡◌, ℕ, ◌<◌, true, false, ◌⊎◌};
ghost use Rattle.label_table.specs.Changes.{Clear, Filled, Gained, TidyBefore};
ghost use Rattle.label_table.specs.Entries.{Entry, In, OneStep, PartsBelow, Through, Turned};
ghost use Rattle.logic.specs.Rows.{is_formula};

use crate::closing::Pairs;
use crate::formulas::holds;
use crate::placed::PlacedRow;
use crate::row_set::{RowSet, Table};
use graph::{Command, Graph, Mode, targets_of};
use label_table::is_joined;
use logic::{Row, RowNumber};

// Graph and table stay two parameters: a struct would hold a `&mut`, and each contract would have to say that it is the same one.

// Adds the modes to which command a leads from the mode of the set.
fn add_targets<G: Graph>(graph: &G, table: &mut Table, set: RowSet, a: Command)
    ensures gained { Gained set.row set.mode (λ v. (G.meaning graph.now).joins a set.mode v ≡ true) table.old table.new }
{
    for v in targets_of(graph, a, set.mode) {
        set.add_mode(table, v);
    }
}

// Adds the modes to which row s leads from where row r leads: a join of sets for each mode in between.
// That r and s stand before the row stays a clause, here and below: a type for it would be made at the call and undone at once.
fn add_through<G: Graph>(graph: &G, table: &mut Table, set: RowSet, r: RowNumber, s: RowNumber)
    requires parts { (r < set.row) × (s < set.row) }
    ensures gained { Gained set.row set.mode (Through (G.meaning graph.now).modes table.old r s set.mode) table.old table.new }
{
    let first = RowSet {
        row: r,
        mode: set.mode,
    };
    for w in 0..graph.modes() {
        if first.has_mode(table, w) {
            set.add_set(table, RowSet { row: s, mode: w });
        }
    }
}

// Adds the modes from which row r leads to the mode of the set.
fn add_turned<G: Graph>(graph: &G, table: &mut Table, set: RowSet, r: RowNumber)
    requires parts { r < set.row }
    ensures gained { Gained set.row set.mode (Turned (G.meaning graph.now).modes table.old r set.mode) table.old table.new }
{
    for v in 0..graph.modes() {
        // Not by `has_mode`, with which it took a fifth longer.
        if is_joined(table, r, v, set.mode) {
            set.add_mode(table, v);
        }
    }
}

// Adds the modes to which the program leads from u to the set that it has for u; of a repetition, by at most one step.
fn add_steps<G: Graph>(graph: &G, table: &mut Table, placed: PlacedRow, u: Mode)
    requires { u < 64 }
    ensures gained { Gained placed.number u (OneStep (G.meaning graph.now) table.old placed.row u) table.old table.new }
{
    let set = RowSet {
        row: placed.number,
        mode: u,
    };
    match placed.row {
        Row::Command(a) => add_targets(graph, table, set, a),
        Row::Sequence(r, s) => add_through(graph, table, set, r, s),
        Row::Choice(r, s) => add_either(table, set, r, s),
        Row::Repetition(r) => add_step_or_none(table, set, r),
        Row::Converse(r) => add_turned(graph, table, set, r),
        Row::Test(x) => add_if_true(table, set, x),
        _ => {}
    }
}

// Adds the modes to which one of two rows leads.
fn add_either(table: &mut Table, set: RowSet, r: RowNumber, s: RowNumber)
    requires parts { (r < set.row) × (s < set.row) }
    ensures gained { Gained set.row set.mode (λ v. In table.old r set.mode v ⊎ In table.old s set.mode v) table.old table.new }
{
    let u = set.mode;
    set.add_set(table, RowSet { row: r, mode: u });
    set.add_set(table, RowSet { row: s, mode: u });
}

// Adds the modes to which row r leads, and the mode of the set itself, to which no step leads.
fn add_step_or_none(table: &mut Table, set: RowSet, r: RowNumber)
    requires parts { r < set.row }
    ensures gained { Gained set.row set.mode (λ v. In table.old r set.mode v ⊎ (v ≡ set.mode)) table.old table.new }
{
    let u = set.mode;
    set.add_set(table, RowSet { row: r, mode: u });
    set.add_mode(table, u);
}

// Adds the mode of the set itself, where formula row x is true there.
fn add_if_true(table: &mut Table, set: RowSet, x: RowNumber)
    requires parts { x < set.row }
    ensures gained { Gained set.row set.mode (λ v. In table.old x 0 set.mode × (v ≡ set.mode)) table.old table.new }
{
    if holds(table, x, set.mode) {
        set.add_mode(table, set.mode);
    }
}

// Fills the block of a program row, which is clear: set by set, and of a repetition then by walks of any number of steps.
pub(crate) fn label_program<G: Graph>(graph: &G, table: &mut Table, placed: PlacedRow)
    requires sort { is_formula placed.row ≡ false }
    requires tidy { TidyBefore (G.meaning graph.now).modes placed.number table.old }
    requires clear { Clear placed.number table.old }
    ensures filled { Filled placed.number (Entry (G.meaning graph.now) table.old placed.row) table.old table.new }
{
    add_all_steps(graph, table, placed);
    if let Row::Repetition(_) = placed.row {
        let pairs = Pairs {
            row: placed.number,
            modes: graph.modes(),
        };
        pairs.close(table);
    }
}

// Adds the modes to which the program leads to the set of each mode; of a repetition, by at most one step.
fn add_all_steps<G: Graph>(graph: &G, table: &mut Table, placed: PlacedRow)
    requires clear { Clear placed.number table.old }
    ensures filled { Filled placed.number (λ u v. (u < (G.meaning graph.now).modes) × OneStep (G.meaning graph.now) table.old placed.row u v) table.old table.new }
{
    for u in 0..graph.modes() {
        add_steps(graph, table, placed, u);
    }
}
