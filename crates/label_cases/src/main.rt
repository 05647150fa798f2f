//! Labels the worked cases, graphs that lie over each other and sheets that do not fit, and prints what each call answers and
//! leaves.
#![tactic(auto)]

use bar::Bar;
use dial_graph::{DialFlag, DialGraph, Rule};
use graph::Graph;
use label_table::TABLE_BYTES;
use labeller::{Refusal, label};
use latch::Latch;
use lines::{Front, LabelLine, RefusedLine};
use list_graph::{ListGraph, set_arc, set_flag};
use logic::{Claim, Row, Scope, Sheet};
use sheet::read_sheet;
use std::alloc::{AllocError, Global};
use worked_cases::{write_model_s, write_model_t};

// What every byte of the memory holds before a call.
const UNTOUCHED: u8 = 0xA5;

// How much of the memory lies behind the label table.
const BEHIND: usize = 3;

fn main(rt: HostRuntime) -> anyhow::Result<()> {
    over_s(rt)?;
    over_t(rt)?;
    over_others(rt)?;
    whole_memory(rt)?;
    unfit(rt)?;
    disorderly(rt)
}

fn over_s(rt: HostRuntime) -> anyhow::Result<()> {
    let mut bytes = vec![in rt.alloc(); 0u8; list_graph::TABLE_BYTES]?;
    write_model_s(&mut bytes);
    let s = ListGraph::new(&bytes, 3, 2, 2)?;
    show(rt, "S", &s, "(claim all (M (s (b (d 0)) (d 1)) (P 1)))")?;
    show(rt, "S", &s, "(claim all (L (d 0) (P 0)))")?;
    show(rt, "S", &s, "(claim all (M (r (d 1)) (P 0)))")?;
    show(rt, "S", &s, "(claim all (L (r (t (O))) (O)))")?;
    show(
        rt,
        "S",
        &s,
        "(claim all (C (K (P 0) (P 1)) (A (N (P 0)) (O))))",
    )
}

fn over_t(rt: HostRuntime) -> anyhow::Result<()> {
    let mut bytes = vec![in rt.alloc(); 0u8; list_graph::TABLE_BYTES]?;
    write_model_t(&mut bytes);
    let t = ListGraph::new(&bytes, 4, 2, 1)?;
    show(rt, "T", &t, "(claim all (L (s (d 0) (d 1)) (O)))")?;
    show(rt, "T", &t, "(claim all (L (r (d 1)) (O)))")?;
    show(rt, "T", &t, "(claim all (L (b (d 1)) (O)))")?;
    show(rt, "T", &t, "(claim all (M (r (u (d 1) (b (d 1)))) (P 0)))")
}

// A dial of four positions: command 0 moves it up by one, and flag 0 stands at its last position.
const UP: [Rule; 1] = [Rule {
    command: 0,
    guard: 0,
    low: 0,
    high: 3,
    moved: 0,
    step: 1,
}];

const LAST: [DialFlag; 1] = [DialFlag {
    dial: 0,
    low: 3,
    high: 3,
}];

// The same call over dials, over a latch and over a bar; and over two graphs of one meaning, which leave the same bytes.
fn over_others(rt: HostRuntime) -> anyhow::Result<()> {
    let text = "(claim all (M (r (d 0)) (P 0)))";
    let dials = DialGraph::new(&[4], 1, &UP, &LAST)?;
    show(rt, "dial", &dials, text)?;
    let mut bytes = vec![in rt.alloc(); 0u8; list_graph::TABLE_BYTES]?;
    set_flag(&mut bytes, 0, 3);
    set_arc(&mut bytes, 0, 0, 1);
    set_arc(&mut bytes, 0, 1, 2);
    set_arc(&mut bytes, 0, 2, 3);
    let list = ListGraph::new(&bytes, 4, 1, 1)?;
    compare(rt, &dials, &list, text)?;
    let latched = Latch::new(dials, 0)?;
    show(rt, "latch over dial", &latched, text)?;
    let barred = Bar::new(latched, &[0])?;
    show(rt, "bar over latch over dial", &barred, text)
}

// Whether the label tables over two graphs have the same bytes.
fn compare<A: Graph, B: Graph>(rt: HostRuntime, a: &A, b: &B, text: &str) -> anyhow::Result<()> {
    let sheet = sheet_of(rt.alloc(), text)?;
    let mut first = vec![in rt.alloc(); 0u8; TABLE_BYTES]?;
    let mut second = vec![in rt.alloc(); UNTOUCHED; TABLE_BYTES]?;
    let both = label(a, &sheet, &mut first).is_ok() && label(b, &sheet, &mut second).is_ok();
    let same = both && first == second;
    println!(rt; "a dial and a list of one meaning: the same bytes: {same}")?;
    Ok(())
}

// A longer memory keeps what lies behind the table, and one byte less is refused.
fn whole_memory(rt: HostRuntime) -> anyhow::Result<()> {
    let text = "(claim all (N (O)))";
    show_in(rt, "24,576 bytes", text, TABLE_BYTES)?;
    show_in(rt, "24,579 bytes", text, TABLE_BYTES + BEHIND)?;
    show_in(rt, "24,575 bytes", text, TABLE_BYTES - 1)?;
    show_in(rt, "no claims", "", TABLE_BYTES + BEHIND)?;
    show_in(
        rt,
        "24,575 bytes and an unfit sheet",
        "(claim all (P 9))",
        TABLE_BYTES - 1,
    )
}

// Sheets that name what the graph lacks: it has 64 modes, two commands and one flag.
fn unfit(rt: HostRuntime) -> anyhow::Result<()> {
    let len = TABLE_BYTES + BEHIND;
    show_in(rt, "the last flag", "(claim all (P 0))", len)?;
    show_in(rt, "a flag too many", "(claim all (P 1))", len)?;
    show_in(rt, "the last command", "(claim all (L (d 1) (O)))", len)?;
    show_in(rt, "a command too many", "(claim all (L (d 2) (O)))", len)?;
    show_in(rt, "the last mode", "(claim 63 (O))", len)
}

// Sheets that were not read from a text: their rows or claims are out of order.
fn disorderly(rt: HostRuntime) -> anyhow::Result<()> {
    let mut own = Sheet::new(rt.alloc())?;
    let _ = own.push_row(Row::Not(0));
    answer(rt, "a row that is its own part", &own, TABLE_BYTES + BEHIND)?;
    let mut sort = Sheet::new(rt.alloc())?;
    let _ = sort.push_row(Row::Never);
    let _ = sort.push_row(Row::Repetition(0));
    answer(rt, "a repetition of a formula", &sort, TABLE_BYTES + BEHIND)?;
    let mut claim = Sheet::new(rt.alloc())?;
    let _ = claim.push_row(Row::Command(0));
    let _ = claim.push_claim(Claim {
        scope: Scope::All,
        row: 0,
    });
    answer(rt, "a claim of a program", &claim, TABLE_BYTES + BEHIND)?;
    let mut late = Sheet::new(rt.alloc())?;
    let _ = late.push_row(Row::Never);
    let _ = late.push_claim(Claim {
        scope: Scope::Mode(64),
        row: 0,
    });
    answer(rt, "a claim of mode 64", &late, TABLE_BYTES + BEHIND)
}

// A sheet as its text spells it.
fn sheet_of(heap: Global, text: &str) -> Result<Sheet, AllocError> {
    let mut sheet = Sheet::new(heap)?;
    let _ = read_sheet(text.as_bytes(), &mut sheet);
    Ok(sheet)
}

// Every row of a sheet over a graph, by its line.
// The loop of `label`: one call for each row, so that a function for both would be no shorter.
fn show<G: Graph>(rt: HostRuntime, name: &str, graph: &G, text: &str) -> anyhow::Result<()> {
    let sheet = sheet_of(rt.alloc(), text)?;
    let mut table = vec![in rt.alloc(); UNTOUCHED; TABLE_BYTES]?;
    println!(rt; "{name}: {text}")?;
    match label(graph, &sheet, &mut table) {
        Ok(()) => {
            let modes = graph.modes();
            for (number, row) in (0..).zip(sheet.rows()) {
                rt.println(LabelLine {
                    table: &table,
                    number,
                    row: *row,
                    modes,
                })?;
            }
        }
        Err(refusal) => rt.println(refused(refusal))?,
    }
    Ok(())
}

// The line of a refusal.
fn refused(refusal: Refusal) -> RefusedLine<'static> {
    RefusedLine {
        word: "label",
        number: refusal.number(),
    }
}

// The answer for a text and a memory of a length.
fn show_in(rt: HostRuntime, name: &str, text: &str, len: usize) -> anyhow::Result<()> {
    let sheet = sheet_of(rt.alloc(), text)?;
    answer(rt, name, &sheet, len)
}

// The answer for a sheet over 64 modes without arcs, and what the memory then holds.
fn answer(rt: HostRuntime, name: &str, sheet: &Sheet, len: usize) -> anyhow::Result<()> {
    let bytes = vec![in rt.alloc(); 0u8; list_graph::TABLE_BYTES]?;
    let graph = ListGraph::new(&bytes, 64, 2, 1)?;
    let mut memory = vec![in rt.alloc(); UNTOUCHED; len]?;
    match label(&graph, sheet, &mut memory) {
        Ok(()) => print!(rt; "{name}: labelled; ")?,
        Err(refusal) => {
            let line = refused(refusal);
            print!(rt; "{name}: {line}; ")?;
        }
    }
    print_memory(rt, &memory)
}

// How many bits of the table are set, unless it is untouched, and how much of what lies behind it is kept.
fn print_memory(rt: HostRuntime, memory: &[u8]) -> anyhow::Result<()> {
    let (table, behind) = memory.split_at(memory.len().min(TABLE_BYTES));
    let front = Front {
        bytes: table,
        before: UNTOUCHED,
    };
    let kept = behind.iter().filter(|b| **b == UNTOUCHED).count();
    println!(rt; "{front}, {kept} bytes behind the table kept")?;
    Ok(())
}
