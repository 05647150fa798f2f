//! Prints the worked cases of the graphs, and surveys graphs that lie over each other.
#![tactic(auto)]

use bar::Bar;
use dial_graph::{DialFlag, DialGraph, Rule};
use graph::{Command, Graph, Mode, Refusal, is_stuck, targets_of};
use latch::Latch;
use list_graph::{ListGraph, TABLE_BYTES};
use worked_cases::{models, write_model_s};

fn main(rt: HostRuntime) -> anyhow::Result<()> {
    let proved = models();
    println!(rt; "models with worked cases: {proved}")?;
    latch_on_s(rt)?;
    two_dials(rt)?;
    nested(rt)?;
    refused(rt)
}

fn latch_on_s(rt: HostRuntime) -> anyhow::Result<()> {
    let mut bytes = vec![in rt.alloc(); 0u8; TABLE_BYTES]?;
    write_model_s(&mut bytes);
    let s = ListGraph::new(&bytes, 3, 2, 2)?;
    let latched = Latch::new(s, 1)?;
    print_targets(rt, "latch on model S", &latched, 1, 0)?;
    print_targets(rt, "latch on model S", &latched, 1, 3)?;
    print_survey(rt, "latch on model S", &latched)
}

fn two_dials(rt: HostRuntime) -> anyhow::Result<()> {
    let rules = [Rule {
        command: 0,
        guard: 1,
        low: 1,
        high: 1,
        moved: 0,
        step: -1,
    }];
    let dials = DialGraph::new(&[4, 2], 1, &rules, &[])?;
    print_targets(rt, "dials of 4 and 2", &dials, 0, 6)?;
    print_targets(rt, "dials of 4 and 2", &dials, 0, 4)?;
    print_targets(rt, "dials of 4 and 2", &dials, 0, 2)
}

// A power dial of three positions and a payload switch of two: command 0 powers down, 1 powers up, 2 switches the payload on
// at full power, 3 switches it off.
const POWER: [Rule; 4] = [
    Rule {
        command: 0,
        guard: 1,
        low: 0,
        high: 0,
        moved: 0,
        step: -1,
    },
    Rule {
        command: 1,
        guard: 0,
        low: 0,
        high: 1,
        moved: 0,
        step: 1,
    },
    Rule {
        command: 2,
        guard: 0,
        low: 2,
        high: 2,
        moved: 1,
        step: 1,
    },
    Rule {
        command: 3,
        guard: 1,
        low: 1,
        high: 1,
        moved: 1,
        step: -1,
    },
];

// The payload is on.
const PAYLOAD: [DialFlag; 1] = [DialFlag {
    dial: 1,
    low: 1,
    high: 1,
}];

fn power() -> Result<DialGraph<'static>, Refusal> {
    DialGraph::new(&[3, 2], 4, &POWER, &PAYLOAD)
}

// The survey call over graphs that lie over each other, in both orders.
fn nested(rt: HostRuntime) -> anyhow::Result<()> {
    let dials = power()?;
    print_survey(rt, "dials", &dials)?;
    let barred = Bar::new(dials, &[0, 3])?;
    print_survey(rt, "bar over dials", &barred)?;
    let latched = Latch::new(barred, 1)?;
    print_survey(rt, "latch over bar over dials", &latched)?;
    let again = Bar::new(latched, &[2])?;
    print_survey(rt, "bar over latch over bar over dials", &again)
}

// Each making that is refused, by its number.
fn refused(rt: HostRuntime) -> anyhow::Result<()> {
    print_refusal(
        rt,
        "a bar of a command that is not there",
        Bar::new(power()?, &[4]).err(),
    )?;
    print_refusal(
        rt,
        "a latch on a command that is not there",
        Latch::new(power()?, 4).err(),
    )?;
    let large = DialGraph::new(&[8, 8], 1, &[], &[])?;
    print_refusal(rt, "a latch over 64 modes", Latch::new(large, 0).err())?;
    print_refusal(
        rt,
        "dials with 72 settings",
        DialGraph::new(&[8, 3, 3], 1, &[], &[]).err(),
    )
}

// The modes to which a command leads.
fn print_targets<G: Graph>(
    rt: HostRuntime,
    name: &str,
    g: &G,
    a: Command,
    u: Mode,
) -> anyhow::Result<()> {
    print!(rt; "{name}: command {a} leads from {u} to (")?;
    for v in targets_of(g, a, u) {
        print!(rt; " {v}")?;
    }
    println!(rt; " )")?;
    Ok(())
}

// The counts, and the stuck modes.
fn print_survey<G: Graph>(rt: HostRuntime, name: &str, g: &G) -> anyhow::Result<()> {
    let modes = g.modes();
    let commands = g.commands();
    let flags = g.flags();
    print!(rt; "{name}: {modes} modes, {commands} commands, {flags} flags, stuck (")?;
    for u in 0..modes {
        if is_stuck(g, u) {
            print!(rt; " {u}")?;
        }
    }
    println!(rt; " )")?;
    Ok(())
}

fn print_refusal(rt: HostRuntime, name: &str, refusal: Option<Refusal>) -> anyhow::Result<()> {
    match refusal {
        Some(refusal) => {
            let number = refusal.number();
            println!(rt; "{name}: refused {number}")?;
        }
        None => println!(rt; "{name}: made")?,
    }
    Ok(())
}
