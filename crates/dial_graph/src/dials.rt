//! The dial graph, its constructor, and its answers to the questions of every graph.

ghost use Rattle.std.specs.Prelude.{◌≡◌};
ghost use Rattle.std.specs.List.{list_any};
ghost use Rattle.dial_graph.specs.Dials.{CountsFit};
ghost use Rattle.dial_graph.specs.Lists.{test_at};

use crate::checks::all_fit;
use crate::rules::{Dial, DialFlag, Rule};
use crate::sizes::Sizes;
use graph::{Command, Flag, Graph, Mode, Refusal};

/// A graph whose modes are the settings of dials, with lent rules and lent flags, all within their limits.
#[derive(Drop)]
pub struct DialGraph<'a> {
    sizes: Sizes,
    commands: u8,
    rules: &'a [Rule],
    flags: &'a [DialFlag],
    ghost counts: { CountsFit sizes commands flags.now },
}

impl<'a> DialGraph<'a> {
    ghost use Rattle.dial_graph.specs.Dials.{position, rule_joins, flag_shows};
    ghost use Rattle.dial_graph.specs.Made.{Made};

    /// The graph of the dials, whose numbers of positions are given first dial first, with `commands` commands, the rules and
    /// the flags. Refused are: dials that are not 1 to 3; a dial that has not 1 to 8 positions; more than 64 settings; commands
    /// that are not 1 to 16; more than 32 rules or 16 flags; a rule whose command, guard dial or moved dial is not there, or
    /// whose step is not −7 to 7; and a flag whose dial is not there.
    pub fn new(
        dials: &[u8],
        commands: u8,
        rules: &'a [Rule],
        flags: &'a [DialFlag],
    ) -> Result<DialGraph<'a>, Refusal>
        ensures made { Made dials.now commands rules.now flags.now result }
    {
        if !all_fit(dials, commands, rules, flags) {
            return Err(Refusal::LimitBroken);
        }
        Ok(DialGraph {
            sizes: Sizes::new(dials),
            commands,
            rules,
            flags,
        })
    }

    // The position of a dial at mode u.
    pub(crate) fn position(&self, dial: Dial, u: Mode) -> u8
        ensures answer { result ≡ position self.now.sizes dial u }
    {
        let sizes = self.sizes;
        match dial {
            0 => u % sizes.first,
            1 => u / sizes.first % sizes.second,
            _ => u / (sizes.first * sizes.second),
        }
    }

    // Whether flag p is there, and stands at mode u.
    fn stands_at(&self, p: Flag, u: Mode) -> bool
        ensures answer { result ≡ test_at (flag_shows self.now.sizes u) self.now.flags.now p }
    {
        // An index after a test: with `get` the goal was left open.
        (p as usize) < self.flags.len() && self.flags[p as usize].shows(self, u)
    }

    // Whether some rule lets command a join mode u to mode v.
    fn some_joins(&self, a: Command, u: Mode, v: Mode) -> bool
        ensures answer { result ≡ list_any (rule_joins self.now.sizes a u v) self.now.rules.now }
    {
        // A `for` over the lent rules, by a rule of the project.
        for rule in self.rules {
            if rule.joins(self, a, u, v) {
                return true;
            }
        }
        false
    }
}

impl<'a> Graph for DialGraph<'a> {
    ghost use Rattle.dial_graph.specs.Made.{limits_of, meaning_of};

    ghost meaning = { λ g. meaning_of g };

    ghost limits = { λ g. limits_of g };

    fn modes(&self) -> u8 {
        self.sizes.settings() as u8
    }

    fn commands(&self) -> u8 {
        self.commands
    }

    fn flags(&self) -> u8 {
        self.flags.len() as u8
    }

    fn has_flag(&self, p: Flag, u: Mode) -> bool {
        p < self.flags() && u < self.modes() && self.stands_at(p, u)
    }

    fn joins(&self, a: Command, u: Mode, v: Mode) -> bool {
        a < self.commands && u < self.modes() && v < self.modes() && self.some_joins(a, u, v)
    }
}
