//! What is checked when a dial graph is made.

ghost use Rattle.std.specs.Prelude.{Decides};
ghost use Rattle.std.specs.List.{AllByRecursion};
ghost use Rattle.dial_graph.specs.Dials.{FlagFits, Fits, RuleFits};

use crate::rules::{DialFlag, RULE_LIMIT, Rule, STEP_LIMIT};
use crate::sizes::{DIAL_LIMIT, Sizes};
use graph::{COMMAND_LIMIT, FLAG_LIMIT, MODE_LIMIT};

// Whether the rule names a command and dials that are there, and its step is within its limits.
fn rule_fits(count: usize, commands: u8, rule: &Rule) -> bool
    ensures exactly { Decides result (RuleFits count commands rule.now) }
{
    rule.command < commands
        && (rule.guard as usize) < count
        && (rule.moved as usize) < count
        && -STEP_LIMIT <= rule.step
        && rule.step <= STEP_LIMIT
}

// Whether every rule fits.
fn rules_fit(count: usize, commands: u8, rules: &[Rule]) -> bool
    ensures exactly { Decides result (AllByRecursion (RuleFits count commands) rules.now) }
{
    rules.iter().all(|rule| rule_fits(count, commands, rule))
}

// Whether every flag names a dial that is there.
fn flags_fit(count: usize, flags: &[DialFlag]) -> bool
    ensures exactly { Decides result (AllByRecursion (FlagFits count) flags.now) }
{
    flags.iter().all(|flag| (flag.dial as usize) < count)
}

// Whether every limit is kept.
pub(crate) fn all_fit(dials: &[u8], commands: u8, rules: &[Rule], flags: &[DialFlag]) -> bool
    ensures exactly { Decides result (Fits dials.now commands rules.now flags.now) }
{
    let sizes = Sizes::new(dials);
    1 <= dials.len()
        && dials.len() <= DIAL_LIMIT
        && sizes.fit()
        && sizes.settings() <= MODE_LIMIT as u32
        && 1 <= commands
        && commands <= COMMAND_LIMIT
        && rules.len() <= RULE_LIMIT
        && flags.len() <= FLAG_LIMIT as usize
        && rules_fit(dials.len(), commands, rules)
        && flags_fit(dials.len(), flags)
}
