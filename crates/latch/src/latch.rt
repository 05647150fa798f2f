//! The latch, its constructor, and its answers to the questions of every graph.

ghost use Rattle.graph.specs.Refusals.{refusal_number};
ghost use Rattle.graph.specs.Meaning.{flag_limit, mode_limit};
ghost use Rattle.latch.specs.Latched.{CanLatch, Ground, below, has_room, latch_moves, latched};
ghost use Rattle.latch.specs.Limits.{latched_limits};
ghost use Rattle.std.specs.Prelude.{◌≡◌, ◌+◌, ◌*◌, ◌≤◌, MatchResult};

use graph::{Command, FLAG_LIMIT, Flag, Graph, MODE_LIMIT, Mode, Refusal};

/// A graph in which one command fires once: it leads only from modes with the latch open to modes with the latch set.
#[derive(Drop)]
pub struct Latch<G: Graph> {
    graph: G,
    command: Command,
    ghost few_modes: { 2 * (G.meaning graph).modes ≤ mode_limit },
    ghost few_flags: { (G.meaning graph).flags + 1 ≤ flag_limit },
}

impl<G: Graph + Drop> Latch<G> {
    /// The graph with a latch on the command, which the graph has to have; it needs room for twice the modes and one more flag.
    pub fn new(graph: G, command: Command) -> Result<Latch<G>, Refusal>
        ensures made { MatchResult result (λ l. CanLatch command (G.meaning graph) × (latched l.command (G.meaning l.graph) ≡ latched command (G.meaning graph))) (λ e. Ground command (G.meaning graph) (refusal_number e)) }
    {
        if has_room(&graph) && command < graph.commands() {
            Ok(Latch { graph, command })
        } else {
            Err(Refusal::LimitBroken)
        }
    }
}

// Whether there is room for twice the modes and for one more flag.
fn has_room<G: Graph>(graph: &G) -> bool
    ensures answer { result ≡ has_room (G.meaning graph.now) }
{
    graph.modes() <= MODE_LIMIT / 2 && graph.flags() < FLAG_LIMIT
}

// The mode of the graph below, which has n modes.
fn mode_below(n: u8, w: Mode) -> Mode
    ensures answer { result ≡ below n w }
{
    if w < n { w } else { w - n }
}

// Whether a command moves the latch so.
fn moves(one_shot: bool, before: bool, after: bool) -> bool
    ensures answer { result ≡ latch_moves one_shot before after }
{
    if one_shot {
        !before && after
    } else {
        before == after
    }
}

impl<G: Graph> Graph for Latch<G> {
    ghost meaning = { λ l. latched l.command (G.Graph.meaning l.graph) };

    ghost limits = { λ l. latched_limits l.command (G.Graph.meaning l.graph) (G.Graph.limits l.graph) l.few_modes l.few_flags };

    fn modes(&self) -> u8 {
        2 * self.graph.modes()
    }

    fn commands(&self) -> u8 {
        self.graph.commands()
    }

    fn flags(&self) -> u8 {
        self.graph.flags() + 1
    }

    fn has_flag(&self, p: Flag, u: Mode) -> bool {
        let n = self.graph.modes();
        if p == self.graph.flags() {
            n <= u && u < 2 * n
        } else {
            self.graph.has_flag(p, mode_below(n, u))
        }
    }

    fn joins(&self, a: Command, u: Mode, v: Mode) -> bool {
        let n = self.graph.modes();
        self.graph.joins(a, mode_below(n, u), mode_below(n, v))
            && moves(a == self.command, n <= u, n <= v)
    }
}
