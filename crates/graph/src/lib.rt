//! A graph of modes: what can be asked of every one of them, whatever it is made from.
#![tactic(auto)]

ghost use Rattle.std.specs.Prelude.{◌≡◌};
ghost use Rattle.graph.specs.Meaning.{Meaning, Limits, Lowest};

mod refusal;
mod stuck;
mod targets;

/// Why a graph cannot be made, and how such grounds are compared and printed.
pub use refusal::Refusal;
/// Whether a mode can be left.
pub use stuck::is_stuck;
/// The targets of a command, one after the other.
pub use targets::{Targets, targets_of};

/// The greatest number of modes of a graph.
pub const MODE_LIMIT: u8 = 64;
/// The greatest number of commands of a graph.
pub const COMMAND_LIMIT: u8 = 16;
/// The greatest number of flags of a graph.
pub const FLAG_LIMIT: u8 = 16;

/// The number of a mode, from 0.
pub type Mode = u8;
/// The number of a command, from 0.
pub type Command = u8;
/// The number of a flag, from 0.
pub type Flag = u8;

/// What every graph promises: its answers are those of one meaning, and that meaning keeps the limits.
///
/// Each question takes `&self`, so that asking never alters the meaning. A number outside of its range is no fault: the flag
/// then does not stand, the command joins nothing and there is no next target, which follows from the limits.
pub trait Graph {
    /// What the graph means.
    ghost meaning: { Self → Meaning };

    /// The proof that the meaning keeps the limits.
    ghost limits: { (g : Self) → Limits (meaning g) };

    /// How many modes the graph has.
    fn modes(&self) -> u8
        ensures answer { result ≡ (meaning self.now).modes };

    /// How many commands the graph has.
    fn commands(&self) -> u8
        ensures answer { result ≡ (meaning self.now).commands };

    /// How many flags the graph has.
    fn flags(&self) -> u8
        ensures answer { result ≡ (meaning self.now).flags };

    /// Whether flag p stands at mode u.
    fn has_flag(&self, p: Flag, u: Mode) -> bool
        ensures answer { result ≡ (meaning self.now).stands p u };

    /// Whether command a joins mode u to mode v.
    fn joins(&self, a: Command, u: Mode, v: Mode) -> bool
        ensures answer { result ≡ (meaning self.now).joins a u v };

    /// The lowest mode at or after `start` to which command a joins mode u.
    fn next_target(&self, a: Command, u: Mode, start: Mode) -> Option<Mode>
        ensures answer { Lowest ((meaning self.now).joins a u) start result }
    {
        // A `for`: with `find` the goal was left open.
        let n = self.modes();
        for v in start..n {
            if self.joins(a, u, v) {
                return Some(v);
            }
        }
        None
    }
}
