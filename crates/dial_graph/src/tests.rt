//! Two small dials, what is asked of their graph, and what is refused.

ghost use Rattle.std.specs.Prelude.{[], ◌∷◌, Decides};
ghost use Rattle.dial_graph.specs.Dials.{Fits};

use crate::dials::DialGraph;
use crate::rules::{DialFlag, Rule};
use graph::{Graph, Refusal, is_stuck};
use std::test::Fail;

// Where dial 1 is at 1, command 0 moves dial 0 down by 1.
const DOWN: Rule = Rule {
    command: 0,
    guard: 1,
    low: 1,
    high: 1,
    moved: 0,
    step: -1,
};

// It stands where dial 0 is at 2 or 3.
const UPPER: DialFlag = DialFlag {
    dial: 0,
    low: 2,
    high: 3,
};

// Whether no graph is made of the dials and the commands with one rule and one flag.
fn is_refused(dials: &[u8], commands: u8, rule: Rule, flag: DialFlag) -> bool
    ensures exactly { Decides result (Fits dials.now commands (rule ∷ []) (flag ∷ []) → ⊥) }
{
    DialGraph::new(dials, commands, &[rule], &[flag]).is_err()
}

#[test]
fn rule_moves_a_dial(rt: HostRuntime) -> Result<(), Fail> {
    let g = DialGraph::new(&[4, 2], 1, &[DOWN], &[])?;
    assert!(rt; g.modes() == 8 && g.commands() == 1 && g.flags() == 0);
    assert_eq!(rt; g.next_target(0, 6, 0), Some(5));
    assert_eq!(rt; g.next_target(0, 6, 6), None);
    assert_eq!(rt; g.next_target(0, 4, 0), None);
    assert_eq!(rt; g.next_target(0, 2, 0), None);
    assert!(rt; g.joins(0, 6, 5) && !g.joins(0, 5, 6) && !g.joins(0, 6, 1));
    assert!(rt; !g.joins(1, 6, 5) && !g.joins(0, 8, 7));
    assert!(rt; is_stuck(&g, 4) && !is_stuck(&g, 6));
    Ok(())
}

#[test]
fn step_of_zero_leads_back(rt: HostRuntime) -> Result<(), Fail> {
    let rules = [Rule { step: 0, ..DOWN }];
    let g = DialGraph::new(&[4, 2], 1, &rules, &[])?;
    assert!(rt; g.joins(0, 6, 6) && !g.joins(0, 2, 2));
    assert_eq!(rt; g.next_target(0, 6, 7), None);
    Ok(())
}

#[test]
fn flags_stand_over_their_ranges(rt: HostRuntime) -> Result<(), Fail> {
    let none = DialFlag {
        low: 3,
        high: 2,
        ..UPPER
    };
    let wide = DialFlag {
        dial: 1,
        low: 1,
        high: 200,
    };
    let flags = [UPPER, none, wide];
    let g = DialGraph::new(&[4, 2], 1, &[], &flags)?;
    assert!(rt; g.has_flag(0, 2) && g.has_flag(0, 7) && !g.has_flag(0, 5));
    assert!(rt; !g.has_flag(1, 2) && !g.has_flag(1, 3));
    assert!(rt; g.has_flag(2, 4) && !g.has_flag(2, 3));
    assert!(rt; !g.has_flag(3, 2) && !g.has_flag(0, 10) && !g.has_flag(255, 255));
    Ok(())
}

#[test]
fn broken_limits_are_refused(rt: HostRuntime) {
    assert!(rt; !is_refused(&[4, 2], 1, DOWN, UPPER));
    assert!(rt; !is_refused(&[8, 8, 1], 16, DOWN, UPPER));
    assert!(rt; is_refused(&[], 1, DOWN, UPPER));
    assert!(rt; is_refused(&[2, 2, 2, 2], 1, DOWN, UPPER));
    assert!(rt; is_refused(&[4, 0], 1, DOWN, UPPER));
    assert!(rt; is_refused(&[9, 2], 1, DOWN, UPPER));
    assert!(rt; is_refused(&[8, 8, 2], 1, DOWN, UPPER));
    assert!(rt; is_refused(&[4, 2], 0, DOWN, UPPER));
    assert!(rt; is_refused(&[4, 2], 17, DOWN, UPPER));
}

#[test]
fn what_is_not_there_is_refused(rt: HostRuntime) {
    assert!(rt; is_refused(&[4, 2], 2, Rule { command: 2, ..DOWN }, UPPER));
    assert!(rt; is_refused(&[4], 1, DOWN, UPPER));
    assert!(rt; is_refused(&[4, 2], 1, Rule { moved: 2, ..DOWN }, UPPER));
    assert!(rt; is_refused(&[4, 2], 1, DOWN, DialFlag { dial: 2, ..UPPER }));
    assert!(rt; is_refused(&[4, 2], 1, Rule { step: 8, ..DOWN }, UPPER));
    assert!(rt; is_refused(&[4, 2], 1, Rule { step: -8, ..DOWN }, UPPER));
    assert!(rt; !is_refused(&[4, 2], 1, Rule { step: -7, ..DOWN }, UPPER));
}

#[test]
fn too_many_rules_or_flags_are_refused(rt: HostRuntime) {
    assert_eq!(rt;
        DialGraph::new(&[4, 2], 1, &[DOWN; 32], &[UPPER; 16]).err(),
        None
    );
    assert_eq!(rt;
        DialGraph::new(&[4, 2], 1, &[DOWN; 33], &[]).err(),
        Some(Refusal::LimitBroken)
    );
    assert_eq!(rt;
        DialGraph::new(&[4, 2], 1, &[], &[UPPER; 17]).err(),
        Some(Refusal::LimitBroken)
    );
}
