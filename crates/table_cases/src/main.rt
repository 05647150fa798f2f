//! Reads good tables and tables with each fault, and prints what each call answers and what it leaves in memory.
#![tactic(auto)]

use lines::{Front, RefusalLine};
use list_graph::TABLE_BYTES;
use std::alloc::{AllocError, Global};
use table::read_table;
use words::TEXT_LIMIT;

// What every byte of the memory holds before a call.
const UNTOUCHED: u8 = 0xA5;

// How much of the memory lies behind the table.
const BEHIND: usize = 3;

// The three heads that most cases begin with.
const HEADS: &[u8] = b"(modes 3)\n(commands 2)\n(flags 2)\n";

fn main(rt: HostRuntime) -> anyhow::Result<()> {
    good_tables(rt)?;
    words_faults(rt)?;
    forms_faults(rt)?;
    limits_faults(rt)?;
    places(rt)?;
    before_the_text(rt)
}

fn good_tables(rt: HostRuntime) -> anyhow::Result<()> {
    show(rt, "heads only", HEADS)?;
    show(
        rt,
        "no byte 10 at the end",
        b"(modes 1)\n(commands 1)\n(flags 0)",
    )?;
    show(
        rt,
        "the largest counts",
        b"(modes 64)\n(commands 16)\n(flags 16)\n(mark 15 63)\n(arc 15 63 63)",
    )?;
    after_heads(rt, "a mark and an arc", b"(mark 1 2)\n(arc 1 0 2)\n")?;
    after_heads(
        rt,
        "repeats",
        b"(mark 1 2)\n(arc 1 0 2)\n(mark 1 2)\n(arc 1 0 2)\n",
    )?;
    show(
        rt,
        "blank lines and spaces",
        b"\n  \n ( modes   3 ) \n\n(commands 2)\n(flags 2)\n   ",
    )
}

fn words_faults(rt: HostRuntime) -> anyhow::Result<()> {
    show(rt, "a semicolon", b"(modes 3) ; three")?;
    show(rt, "a tab", b"\t(modes 3)")?;
    show(rt, "a byte above 127", b"(modes \xC3\xA4)")?;
    show(rt, "007", b"(modes 007)")?;
    show(rt, "00", b"(modes 00)")?;
    show(rt, "1000", b"(modes 1000)")?;
    show(rt, "d0", b"(modes d0)")?;
    show(rt, "nine letters", b"(abcdefghi 3)")?;
    show(
        rt,
        "a bad word where no word is allowed",
        b"modes3 (modes 3)",
    )
}

fn forms_faults(rt: HostRuntime) -> anyhow::Result<()> {
    show(rt, "no bracket", b"modes 3")?;
    show(rt, "an unknown word", b"(mode 3)")?;
    show(rt, "upper case", b"(Modes 3)")?;
    show(rt, "a word of another text", b"(claim 3)")?;
    show(rt, "a number for a word", b"(3 modes)")?;
    show(rt, "a word for a number", b"(modes three)")?;
    show(rt, "a number too many", b"(modes 3 3)")?;
    show(rt, "two forms on a line", b"(modes 3) (commands 2)")?;
    show(rt, "a line that stops short", b"(modes 3  \n(commands 2)")?;
    show(rt, "a last line that stops short", b"(modes 3")
}

fn limits_faults(rt: HostRuntime) -> anyhow::Result<()> {
    show(rt, "65 modes", b"(modes 65)")?;
    show(rt, "no modes", b"(modes 0)")?;
    show(rt, "17 commands", b"(modes 3)\n(commands 17)")?;
    show(rt, "no commands", b"(modes 3)\n(commands 0)")?;
    show(rt, "17 flags", b"(modes 3)\n(commands 2)\n(flags 17)")?;
    after_heads(rt, "a mark of a flag that is not there", b"(mark 2 0)")?;
    after_heads(rt, "a mark at a mode that is not there", b"(mark 0 3)")?;
    after_heads(rt, "an arc of a command that is not there", b"(arc 2 0 0)")?;
    after_heads(rt, "an arc from a mode that is not there", b"(arc 1 3 0)")?;
    after_heads(rt, "an arc to a mode that is not there", b"(arc 1 0 3)")?;
    show(rt, "heads in another order", b"(commands 2)\n(modes 3)")?;
    show(rt, "a mark before the heads", b"(modes 3)\n(mark 0 0)")?;
    after_heads(rt, "a second head", b"(mark 0 0)\n(flags 2)")?;
    show(rt, "an empty table", b"")?;
    show(rt, "three spaces", b"   ")?;
    show(rt, "a missing head", b"(modes 3)\n(commands 2)\n")
}

fn places(rt: HostRuntime) -> anyhow::Result<()> {
    show(rt, "a limit before a bad byte", b"(modes 65) #")?;
    after_heads(rt, "a limit before a form", b"(arc 9 9 x)")?;
    after_heads(
        rt,
        "a fault after good lines",
        b"(mark 1 2)\n(arc 1 0 2)\n(arc 1 x)",
    )
}

fn before_the_text(rt: HostRuntime) -> anyhow::Result<()> {
    let heap = rt.alloc();
    show(rt, "a text of 32,768 bytes", &padded(heap, TEXT_LIMIT)?)?;
    show(rt, "a text of 32,769 bytes", &padded(heap, TEXT_LIMIT + 1)?)?;
    show_in(rt, "a memory of 8,319 bytes", HEADS, TABLE_BYTES - 1)?;
    show_in(rt, "both", &padded(heap, TEXT_LIMIT + 1)?, TABLE_BYTES - 1)?;
    show_in(rt, "a memory of 8,320 bytes", HEADS, TABLE_BYTES)
}

// The heads, and spaces up to a length.
fn padded(heap: Global, len: usize) -> Result<Vec<u8>, AllocError> {
    let mut text = Vec::from_slice(heap, HEADS)?;
    text.resize(len, b' ')?;
    Ok(text)
}

// A text that begins with the three heads.
fn after_heads(rt: HostRuntime, name: &str, lines: &[u8]) -> anyhow::Result<()> {
    let mut text = Vec::from_slice(rt.alloc(), HEADS)?;
    text.extend_from_slice(lines)?;
    show(rt, name, &text)
}

fn show(rt: HostRuntime, name: &str, text: &[u8]) -> anyhow::Result<()> {
    show_in(rt, name, text, TABLE_BYTES + BEHIND)
}

// The answer for a text and a memory of a length, and what the memory then holds.
fn show_in(rt: HostRuntime, name: &str, text: &[u8], len: usize) -> anyhow::Result<()> {
    let mut memory = vec![in rt.alloc(); UNTOUCHED; len]?;
    match read_table(text, &mut memory) {
        Ok(c) => {
            let modes = c.modes;
            let commands = c.commands;
            let flags = c.flags;
            print!(rt; "{name}: {modes} modes, {commands} commands, {flags} flags; ")?;
        }
        Err(fault) => {
            let line = RefusalLine {
                word: "modes",
                fault,
            };
            let of = fault.text.number();
            let layer = fault.layer.number();
            print!(rt; "{name}: {line} in text {of}, layer {layer}; ")?;
        }
    }
    print_memory(rt, &memory)
}

// How many bits of the table are set, unless it is untouched, and then how much of what lies behind it is kept.
// Not one function with that of `label_cases`, which tells of what lies behind in any case.
fn print_memory(rt: HostRuntime, memory: &[u8]) -> anyhow::Result<()> {
    let (table, behind) = memory.split_at(memory.len().min(TABLE_BYTES));
    let front = Front {
        bytes: table,
        before: UNTOUCHED,
    };
    if front.is_untouched() {
        println!(rt; "{front}")?;
        return Ok(());
    }
    let kept = behind.iter().filter(|b| **b == UNTOUCHED).count();
    println!(rt; "{front}, {kept} bytes behind the table kept")?;
    Ok(())
}
