//! Prints, for each formula of a kit's claims, the modes where it is true, and for each program the pairs of modes that it joins.
#![tactic(auto)]

use anyhow::anyhow;
use graph::Graph;
use label_table::TABLE_BYTES;
use labeller::label;
use lines::{LabelLine, RefusalLine, RefusedLine};
use list_graph::ListGraph;
use logic::Sheet;
use sheet::read_sheet;
use std::fs;
use std::process::ExitCode;
use table::{Counts, read_table};

// The mode table, in the folder that the program is run in.
const MODES_FILE: &str = "modes.txt";

// The claim sheet, in the same folder.
const CLAIMS_FILE: &str = "claims.txt";

fn main(rt: HostRuntime) -> anyhow::Result<ExitCode> {
    let Some(text) = read(rt, MODES_FILE)? else {
        return Ok(ExitCode::FAILURE);
    };
    let mut memory = vec![in rt.alloc(); 0u8; list_graph::TABLE_BYTES]?;
    match read_table(&text, &mut memory) {
        Ok(counts) => label_kit(rt, &memory, counts),
        Err(fault) => {
            rt.println(RefusalLine {
                word: "modes",
                fault,
            })?;
            Ok(ExitCode::SUCCESS)
        }
    }
}

// The bytes of a file. Where it cannot be read, standard error says which file, and why.
// Not one function with that of `survey`: there a missing sheet is no fault, and each names its own program.
fn read(rt: HostRuntime, file: &str) -> anyhow::Result<Option<Vec<u8>>> {
    match fs::read(&rt, file) {
        Ok(text) => Ok(Some(text)),
        Err(e) => {
            eprintln!(rt; "label: {file} cannot be read: {e}")?;
            Ok(None)
        }
    }
}

// Reads the claims of a kit whose table is read, and labels their rows.
fn label_kit(rt: HostRuntime, memory: &[u8], counts: Counts) -> anyhow::Result<ExitCode> {
    let made = ListGraph::new(memory, counts.modes, counts.commands, counts.flags);
    let graph = made.map_err(|_| anyhow!("label: the table's counts make no graph"))?;
    let Some(text) = read(rt, CLAIMS_FILE)? else {
        return Ok(ExitCode::FAILURE);
    };
    let mut sheet = Sheet::new(rt.alloc())?;
    match read_sheet(&text, &mut sheet) {
        Ok(()) => label_sheet(rt, &graph, &sheet)?,
        Err(fault) => rt.println(RefusalLine {
            word: "claims",
            fault,
        })?,
    }
    Ok(ExitCode::SUCCESS)
}

// Labels the rows of a sheet over any graph, and prints a line for each.
fn label_sheet<G: Graph>(rt: HostRuntime, graph: &G, sheet: &Sheet) -> anyhow::Result<()> {
    let mut table = vec![in rt.alloc(); 0u8; TABLE_BYTES]?;
    match label(graph, sheet, &mut table) {
        Ok(()) => {
            let modes = graph.modes();
            for (number, row) in (0..).zip(sheet.rows()) {
                rt.println(LabelLine {
                    table: &table,
                    number,
                    row: *row,
                    modes,
                })?;
            }
        }
        Err(refusal) => rt.println(RefusedLine {
            word: "label",
            number: refusal.number(),
        })?,
    }
    Ok(())
}
