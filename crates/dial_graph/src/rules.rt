//! Rules that move a dial and flags that stand over a range of a dial: what they are, and what they say of modes.

ghost use Rattle.std.specs.Prelude.{◌≡◌, pos, ◌+ℤ◌, Decides};
ghost use Rattle.dial_graph.specs.Dials.{dial_follows, flag_shows, moved_by, rule_joins};

use crate::dials::DialGraph;
use graph::{Command, Mode};

/// The greatest number of rules of a dial graph.
pub const RULE_LIMIT: usize = 32;
/// The greatest step of a rule, up or down.
pub const STEP_LIMIT: i8 = 7;

/// The number of a dial, from 0.
pub type Dial = u8;

/// A rule: where the guard dial is at `low` to `high`, both included, the command moves the moved dial by the step.
///
/// A step off the dial joins nothing, and a step of 0 joins a mode to itself. A range that has no
/// position of the dial is no fault.
#[derive(Clone, Copy)]
pub struct Rule {
    /// The command that the rule belongs to.
    pub command: Command,
    /// The guard dial, which has to be in the range.
    pub guard: Dial,
    /// The lowest position of the range.
    pub low: u8,
    /// The highest position of the range.
    pub high: u8,
    /// The moved dial.
    pub moved: Dial,
    /// By how many positions it is moved: up, or down where the step is below 0.
    pub step: i8,
}

/// A flag: it stands where the dial is at `low` to `high`, both included.
#[derive(Clone, Copy)]
pub struct DialFlag {
    /// The dial that has to be in the range.
    pub dial: Dial,
    /// The lowest position of the range.
    pub low: u8,
    /// The highest position of the range.
    pub high: u8,
}

// Whether position y is position x moved by the step.
fn is_moved(step: i8, x: u8, y: u8) -> bool
    ensures answer { result ≡ moved_by step x y }
    ensures exactly { Decides result (pos y ≡ pos x +ℤ step) }
{
    i16::from(y) == i16::from(x) + i16::from(step)
}

impl Rule {
    // Whether a dial goes from u to v as the rule says: moved by the step if it is the moved dial, and left where it is if not.
    fn dial_follows(&self, graph: &DialGraph, dial: Dial, u: Mode, v: Mode) -> bool
        ensures answer { result ≡ dial_follows graph.now.sizes self.now dial u v }
    {
        let x = graph.position(dial, u);
        let y = graph.position(dial, v);
        if dial == self.moved {
            is_moved(self.step, x, y)
        } else {
            x == y
        }
    }

    // Whether the rule lets command a join mode u to mode v.
    pub(crate) fn joins(&self, graph: &DialGraph, a: Command, u: Mode, v: Mode) -> bool
        ensures answer { result ≡ rule_joins graph.now.sizes a u v self.now }
    {
        // A match with a range in its guard, by a rule of the project; so it is with flags.
        match graph.position(self.guard, u) {
            x if self.command == a && self.low <= x && x <= self.high => {
                self.dial_follows(graph, 0, u, v)
                    && self.dial_follows(graph, 1, u, v)
                    && self.dial_follows(graph, 2, u, v)
            }
            _ => false,
        }
    }
}

impl DialFlag {
    // Whether the flag's dial is in its range at mode u.
    pub(crate) fn shows(&self, graph: &DialGraph, u: Mode) -> bool
        ensures answer { result ≡ flag_shows graph.now.sizes u self.now }
    {
        match graph.position(self.dial, u) {
            x if self.low <= x && x <= self.high => true,
            _ => false,
        }
    }
}
