//! Prints what a mode table counts, each mode that no command leads out of to another, and the claims of a kit by their rows.
#![tactic(auto)]

use anyhow::anyhow;
use graph::{Graph, is_stuck};
use lines::{ClaimLine, NumberLine, RefusalLine, RowLine};
use list_graph::{ListGraph, TABLE_BYTES};
use logic::Sheet;
use sheet::read_sheet;
use std::io::ErrorKind;
use std::process::ExitCode;
use std::{fs, io};
use table::read_table;

// The table, in the folder that the program is run in.
const TABLE_FILE: &str = "modes.txt";

// The claim sheet, which may be missing.
const SHEET_FILE: &str = "claims.txt";

fn main(rt: HostRuntime) -> anyhow::Result<ExitCode> {
    let text = match fs::read(&rt, TABLE_FILE) {
        Ok(text) => text,
        Err(e) => return cannot_read(rt, TABLE_FILE, e),
    };
    let mut memory = vec![in rt.alloc(); 0u8; TABLE_BYTES]?;
    match read_table(&text, &mut memory) {
        Ok(counts) => {
            let made = ListGraph::new(&memory, counts.modes, counts.commands, counts.flags);
            let graph = made.map_err(|_| anyhow!("survey: the table's counts make no graph"))?;
            print_survey(&rt, &graph)?;
            survey_claims(rt)
        }
        Err(fault) => {
            rt.println(RefusalLine {
                word: "modes",
                fault,
            })?;
            Ok(ExitCode::SUCCESS)
        }
    }
}

// Not one function with `read` of `label`: here a missing sheet is no fault, and each names its own program.
// Says on standard error which file cannot be read, and why, and ends with the status of a failure.
fn cannot_read(rt: HostRuntime, file: &str, e: io::Error) -> anyhow::Result<ExitCode> {
    eprintln!(rt; "survey: {file} cannot be read: {e}")?;
    Ok(ExitCode::FAILURE)
}

// The counts of any graph, and its stuck modes, rising.
fn print_survey<G: Graph>(rt: &impl Print, graph: &G) -> io::Result<()> {
    print_number(rt, "modes", graph.modes())?;
    print_number(rt, "commands", graph.commands())?;
    print_number(rt, "flags", graph.flags())?;
    for u in 0..graph.modes() {
        if is_stuck(graph, u) {
            print_number(rt, "stuck", u)?;
        }
    }
    Ok(())
}

fn print_number(rt: &impl Print, word: &str, number: u8) -> io::Result<()> {
    rt.println(NumberLine { word, number })
}

// The claims of the sheet, where there is one.
fn survey_claims(rt: HostRuntime) -> anyhow::Result<ExitCode> {
    let text = match fs::read(&rt, SHEET_FILE) {
        Ok(text) => text,
        Err(e) => {
            if e.kind() == ErrorKind::NotFound {
                return Ok(ExitCode::SUCCESS);
            }
            return cannot_read(rt, SHEET_FILE, e);
        }
    };
    let mut sheet = Sheet::new(rt.alloc())?;
    match read_sheet(&text, &mut sheet) {
        Ok(()) => print_sheet(&rt, &sheet)?,
        Err(fault) => rt.println(RefusalLine {
            word: "claims",
            fault,
        })?,
    }
    Ok(ExitCode::SUCCESS)
}

// Each claim, and then the rows that were numbered for it. The rows are gone through once, over all claims.
fn print_sheet(rt: &impl Print, sheet: &Sheet) -> io::Result<()> {
    let mut rows = (0..).zip(sheet.rows());
    // Where the rows of the next claim begin: a claim says only where its own end.
    let mut first = 0;
    for (number, claim) in (0..).zip(sheet.claims()) {
        rt.println(ClaimLine {
            number,
            claim: *claim,
        })?;
        let end = usize::from(claim.row) + 1;
        for (number, row) in rows.by_ref().take(end.saturating_sub(first)) {
            rt.println(RowLine { number, row: *row })?;
        }
        first = end;
    }
    Ok(())
}
