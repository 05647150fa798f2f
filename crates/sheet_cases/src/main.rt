//! Reads good claim sheets and sheets with each fault, and prints what each call answers and what it leaves in the sheet.
#![tactic(auto)]

use lines::RefusalLine;
use logic::{Claim, Row, Scope, Sheet};
use sheet::read_sheet;
use std::alloc::{AllocError, Global};
use words::TEXT_LIMIT;

fn main(rt: HostRuntime) -> anyhow::Result<()> {
    good_sheets(rt)?;
    largest(rt)?;
    words_faults(rt)?;
    forms_faults(rt)?;
    limits_faults(rt)?;
    before_the_text(rt)
}

fn good_sheets(rt: HostRuntime) -> anyhow::Result<()> {
    show(rt, "no claims", b"")?;
    show(rt, "blank lines", b"\n   \n")?;
    show(
        rt,
        "never, flag, not",
        b"(claim all (O))\n(claim 63 (N (P 15)))",
    )?;
    show(
        rt,
        "both, either, implies",
        b"(claim 0 (C (K (O) (P 0)) (A (O) (P 1))))",
    )?;
    show(
        rt,
        "box and diamond",
        b"(claim all (L (d 0) (M (d 15) (O))))",
    )?;
    show(
        rt,
        "sequence, choice, repetition",
        b"(claim all (L (r (u (s (d 0) (d 1)) (d 2))) (O)))",
    )?;
    show(
        rt,
        "converse and test",
        b"(claim all (M (s (b (d 0)) (t (P 1))) (O)))",
    )?;
    show(rt, "spaces", b"  ( claim   all(P 1) )  \n\n")
}

// As many of each as there may be, and one more.
fn largest(rt: HostRuntime) -> anyhow::Result<()> {
    let heap = rt.alloc();
    counted(rt, "16 brackets open", &nested(heap, 15)?)?;
    counted(rt, "17 brackets open", &nested(heap, 16)?)?;
    counted(rt, "16 claims", &repeated(heap, b"(claim all (O))\n", 16)?)?;
    counted(rt, "17 claims", &repeated(heap, b"(claim all (O))\n", 17)?)?;
    counted(
        rt,
        "48 rows",
        &repeated(heap, b"(claim 1 (K (O) (P 3)))\n", 16)?,
    )?;
    let mut text = repeated(heap, b"(claim 1 (N (K (O) (P 3))))\n", 12)?;
    counted(rt, "48 rows of 12 claims", &text)?;
    text.extend_from_slice(b"(claim all (O))")?;
    counted(rt, "49 rows", &text)
}

fn words_faults(rt: HostRuntime) -> anyhow::Result<()> {
    show(rt, "a bad byte", b"(claim all (O)) ;")?;
    show(rt, "a bad number", b"(claim all (P 01))")?;
    show(rt, "a bad word", b"(claim all (P1 2))")
}

fn forms_faults(rt: HostRuntime) -> anyhow::Result<()> {
    show(rt, "another word", b"(mark all (O))")?;
    show(rt, "another word for the modes", b"(claim every (O))")?;
    show(rt, "no modes", b"(claim (O))")?;
    show(rt, "an unknown letter", b"(claim all (Q))")?;
    show(rt, "two letters", b"(claim all (OO))")?;
    show(rt, "a program for a formula", b"(claim all (d 0))")?;
    show(rt, "a formula for a program", b"(claim all (L (O) (O)))")?;
    show(rt, "a part too few", b"(claim all (K (O)))")?;
    show(rt, "a part too many", b"(claim all (N (O) (O)))")?;
    show(rt, "a line that stops short", b"(claim all (O)  \n")?;
    show(
        rt,
        "a fault after good lines",
        b"(claim all (O))\n(claim 3 (N))",
    )
}

fn limits_faults(rt: HostRuntime) -> anyhow::Result<()> {
    show(rt, "mode 64", b"(claim 64 (O))")?;
    show(rt, "flag 16", b"(claim all (P 16))")?;
    show(rt, "command 16", b"(claim all (L (d 16) (O)))")
}

fn before_the_text(rt: HostRuntime) -> anyhow::Result<()> {
    let mut text = repeated(rt.alloc(), b"(claim all (O))\n", 1)?;
    text.resize(TEXT_LIMIT, b' ')?;
    counted(rt, "a text of 32,768 bytes", &text)?;
    text.resize(TEXT_LIMIT + 1, b' ')?;
    counted(rt, "a text of 32,769 bytes", &text)
}

// A claim of so many negations.
fn nested(heap: Global, depth: usize) -> Result<Vec<u8>, AllocError> {
    let mut text = repeated(heap, b"(claim all ", 1)?;
    for _ in 0..depth {
        text.extend_from_slice(b"(N ")?;
    }
    text.extend_from_slice(b"(O)")?;
    for _ in 0..depth {
        text.extend_from_slice(b")")?;
    }
    text.extend_from_slice(b")")?;
    Ok(text)
}

// A line, so many times.
fn repeated(heap: Global, line: &[u8], times: usize) -> Result<Vec<u8>, AllocError> {
    let mut text = Vec::new(heap);
    for _ in 0..times {
        text.extend_from_slice(line)?;
    }
    Ok(text)
}

// The answer for a text, and every row and claim that the sheet then has.
fn show(rt: HostRuntime, name: &str, text: &[u8]) -> anyhow::Result<()> {
    let mut sheet = used_sheet(rt.alloc())?;
    print_answer(rt, name, text, &mut sheet)?;
    let rows = sheet.rows();
    let claims = sheet.claims();
    println!(rt; "rows {rows:?}, claims {claims:?}")?;
    Ok(())
}

// The answer for a text, and how many rows and claims the sheet then has.
fn counted(rt: HostRuntime, name: &str, text: &[u8]) -> anyhow::Result<()> {
    let mut sheet = used_sheet(rt.alloc())?;
    print_answer(rt, name, text, &mut sheet)?;
    let rows = sheet.rows().len();
    let claims = sheet.claims().len();
    println!(rt; "{rows} rows, {claims} claims")?;
    Ok(())
}

// A sheet that was used before: it has two rows and one claim.
fn used_sheet(heap: Global) -> Result<Sheet, AllocError> {
    let mut sheet = Sheet::new(heap)?;
    let _ = sheet.push_row(Row::Flag(9));
    let _ = sheet.push_row(Row::Not(0));
    let _ = sheet.push_claim(Claim {
        scope: Scope::Mode(9),
        row: 1,
    });
    Ok(sheet)
}

// What the call answers. Not one function with that of `table_cases`, whose good answer has counts to print.
fn print_answer(rt: HostRuntime, name: &str, text: &[u8], sheet: &mut Sheet) -> anyhow::Result<()> {
    match read_sheet(text, sheet) {
        Ok(()) => print!(rt; "{name}: read; ")?,
        Err(fault) => {
            let line = RefusalLine {
                word: "claims",
                fault,
            };
            let of = fault.text.number();
            let layer = fault.layer.number();
            print!(rt; "{name}: {line} in text {of}, layer {layer}; ")?;
        }
    }
    Ok(())
}
