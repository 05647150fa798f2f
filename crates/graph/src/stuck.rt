//! Whether a mode can be left by any command.

ghost use Rattle.std.specs.Prelude.{ℕ, Decides};
ghost use Rattle.graph.specs.Stuck.{Stays, Stuck};

use crate::{Command, Graph, Mode};

/// Whether mode u is stuck: every command that leads somewhere from u leads back to u. A number that is no mode is not stuck.
pub fn is_stuck<G: Graph>(g: &G, u: Mode) -> bool
    ensures exactly { Decides result (Stuck (G.meaning g.now) u) }
{
    u < g.modes() && all_stay(g, u)
}

// Whether no command leads from u to another mode.
fn all_stay<G: Graph>(g: &G, u: Mode) -> bool
    ensures exactly { Decides result ((a : ℕ) → Stays (G.meaning g.now) a u) }
{
    (0..g.commands()).all(|a| stays(g, a, u))
}

// Whether command a leads from u nowhere but back to u. Where u is its lowest target, the question is whether it has a second.
fn stays<G: Graph>(g: &G, a: Command, u: Mode) -> bool
    ensures exactly { Decides result (Stays (G.meaning g.now) a u) }
{
    match g.next_target(a, u, 0) {
        None => true,
        Some(v) => v == u && g.next_target(a, u, v + 1).is_none(),
    }
}
