//! Labelling for callers that have bytes and take a number for an answer.

ghost use Rattle.label_export.specs.Answers.{RowsGround, RowsLabelled, TableFits, TableGround};
ghost use Rattle.label_export.specs.Refusals.{refused_number};
ghost use Rattle.list_graph.specs.Lists.{list_meaning};
ghost use Rattle.list_graph.specs.Made.{meaning_of};
ghost use Rattle.std.specs.Prelude.{◌≡◌, ◌≢◌, IfErr, OnErr, OnOk};

use crate::packed::put_rows;
use crate::refused::Refused;
use labeller::label;
use list_graph::ListGraph;
use logic::Sheet;
use std::alloc::Global;

// The answer where the rows are labelled.
const LABELLED: u8 = 0;

/// Labels rows over the graph of `modes` modes, `commands` commands and `flags` flags that the table's bytes mean, into the
/// memory, and answers 0.
///
/// Each row has three bytes: the letter of its kind, as in a claim sheet, and its two numbers. Any other answer is a refusal,
/// which leaves the memory as it was: 1 where the bytes are no rows or more than 48; 2 where there is no memory for a sheet, of
/// which no clause can say when; else the number under which the graph or the labelling refuses, 9, 14 or 16.
#[unsafe(no_mangle)]
pub extern "C" fn label_rows_over_table(
    heap: Global,
    table: &[u8],
    modes: u8,
    commands: u8,
    flags: u8,
    rows: &[u8],
    memory: &mut [u8],
) -> u8
    ensures graph { result ≡ 0 → TableFits table.now modes commands flags }
    ensures labelled { result ≡ 0 → RowsLabelled (list_meaning table.now modes commands flags) rows.now memory.old memory.new }
    ensures untouched { (result ≢ 0) → memory.new ≡ memory.old }
    ensures ground { (result ≢ 0) → TableGround table.now modes commands flags rows.now memory.old result }
{
    // The C interface: a function for C answers by a number.
    match label_over_table(heap, table, modes, commands, flags, rows, memory) {
        Ok(()) => LABELLED,
        Err(refused) => refused.number(),
    }
}

// Labels the rows that the bytes mean over the graph that the table and the counts mean. It takes what the function for C is handed.
fn label_over_table(
    heap: Global,
    table: &[u8],
    modes: u8,
    commands: u8,
    flags: u8,
    rows: &[u8],
    memory: &mut [u8],
) -> Result<(), Refused>
    ensures graph { OnOk result (TableFits table.now modes commands flags) }
    ensures labelled { OnOk result (RowsLabelled (list_meaning table.now modes commands flags) rows.now memory.old memory.new) }
    ensures untouched { OnErr result (memory.new ≡ memory.old) }
    ensures ground { IfErr result (λ e. TableGround table.now modes commands flags rows.now memory.old (refused_number e)) }
{
    let graph = ListGraph::new(table, modes, commands, flags)?;
    label_over_graph(heap, &graph, rows, memory)
}

// Labels the rows that the bytes mean over the graph.
fn label_over_graph(
    heap: Global,
    graph: &ListGraph,
    rows: &[u8],
    memory: &mut [u8],
) -> Result<(), Refused>
    ensures labelled { OnOk result (RowsLabelled (meaning_of graph.now) rows.now memory.old memory.new) }
    ensures untouched { OnErr result (memory.new ≡ memory.old) }
    ensures ground { IfErr result (λ e. RowsGround (meaning_of graph.now) rows.now memory.old (refused_number e)) }
{
    let mut sheet = Sheet::new(heap)?;
    put_rows(&mut sheet, rows)?;
    label(graph, &sheet, memory)?;
    Ok(())
}
