//! The check that a sheet fits a graph: row by row, and then claim by claim.

ghost use Rattle.std.specs.Prelude.{ℕ, ◌<◌, length, Decides, slice_index_or};
ghost use Rattle.fit.specs.Fit.{ClaimThere, Fits, NamedThere, ScopeThere};
ghost use Rattle.logic.specs.Rows.{FormulaBefore, Orderly, PartsBefore, ProgramBefore};
ghost use Rattle.logic.specs.Sheets.{sheet_claims, sheet_rows};
ghost use Rattle.logic.specs.declared.row.Row.TheVariants.{Never};
ghost use Rattle.std.specs.List.{AllByRecursion};

use graph::Graph;
use logic::{Claim, Row, RowNumber, Scope, Sheet};

/// Whether the sheet fits the graph: the parts of each row are rows before it, each of the right sort, each claim is of a row
/// that is a formula, and the graph has every flag, command and mode that is named.
pub fn fits<G: Graph>(graph: &G, sheet: &Sheet) -> bool
    ensures exactly { Decides result (Fits (G.meaning graph.now) (sheet_rows sheet.now) (sheet_claims sheet.now)) }
{
    let rows = sheet.rows();
    is_orderly(rows)
        && all_named_there(graph, rows)
        && all_claims_there(graph, rows, sheet.claims())
}

// Whether the parts of each row are rows before it, each of the right sort. A sheet takes any row, so that this is not known.
fn is_orderly(rows: &[Row]) -> bool
    ensures exactly { Decides result (Orderly rows.now) }
{
    // A `for`: with `all` the goal was left open.
    for (i, row) in rows.iter().enumerate() {
        if !parts_before(&rows[..i], *row) {
            return false;
        }
    }
    true
}

// Whether the parts of a row that is put after these rows are among them, each of the right sort.
fn parts_before(before: &[Row], row: Row) -> bool
    ensures exactly { Decides result (PartsBefore before.now (length before.now) row) }
{
    match row {
        Row::Never | Row::Flag(_) | Row::Command(_) => true,
        Row::Not(j) | Row::Test(j) => formula_before(before, j),
        Row::Both(j, k) | Row::Either(j, k) | Row::Implies(j, k) => {
            formula_before(before, j) && formula_before(before, k)
        }
        Row::Box(j, k) | Row::Diamond(j, k) => {
            program_before(before, j) && formula_before(before, k)
        }
        Row::Sequence(j, k) | Row::Choice(j, k) => {
            program_before(before, j) && program_before(before, k)
        }
        Row::Repetition(j) | Row::Converse(j) => program_before(before, j),
    }
}

// Whether row j is among these rows, and is a formula.
// It and the next are two functions: with a flag for the sort `parts_before` would no longer say by name which sort a part has.
fn formula_before(before: &[Row], j: RowNumber) -> bool
    ensures exactly { Decides result (FormulaBefore before.now (length before.now) j) }
{
    before.get(j as usize).is_some_and(|row| row.is_formula())
}

// Whether row j is among these rows, and is a program.
fn program_before(before: &[Row], j: RowNumber) -> bool
    ensures exactly { Decides result (ProgramBefore before.now (length before.now) j) }
{
    before.get(j as usize).is_some_and(|row| !row.is_formula())
}

// Whether the graph has what each row names.
fn all_named_there<G: Graph>(graph: &G, rows: &[Row]) -> bool
    ensures exactly { Decides result ((i : ℕ) → i < length rows.now → NamedThere (G.meaning graph.now) (slice_index_or rows.now i Never)) }
{
    rows.iter().all(|row| named_there(graph, *row))
}

// Whether the graph has the flag or the command that the row names. Other rows name nothing of the graph.
fn named_there<G: Graph>(graph: &G, row: Row) -> bool
    ensures exactly { Decides result (NamedThere (G.meaning graph.now) row) }
{
    match row {
        Row::Flag(p) => p < graph.flags(),
        Row::Command(a) => a < graph.commands(),
        _ => true,
    }
}

// Whether each claim is of a formula among the rows, at modes that the graph has.
fn all_claims_there<G: Graph>(graph: &G, rows: &[Row], claims: &[Claim]) -> bool
    ensures exactly { Decides result (AllByRecursion (ClaimThere (G.meaning graph.now) rows.now) claims.now) }
{
    claims.iter().all(|claim| claim_there(graph, rows, *claim))
}

// Whether the claim is of a formula among the rows, at modes that the graph has.
fn claim_there<G: Graph>(graph: &G, rows: &[Row], claim: Claim) -> bool
    ensures exactly { Decides result (ClaimThere (G.meaning graph.now) rows.now claim) }
{
    rows.get(claim.row as usize)
        .is_some_and(|row| row.is_formula())
        && scope_there(graph, claim.scope)
}

// Whether the graph has the mode that is named, if one is.
fn scope_there<G: Graph>(graph: &G, scope: Scope) -> bool
    ensures exactly { Decides result (ScopeThere (G.meaning graph.now) scope) }
{
    match scope {
        Scope::All => true,
        Scope::Mode(u) => u < graph.modes(),
    }
}
