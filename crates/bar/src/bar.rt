//! The bar, its constructor, and its answers to the questions of every graph.

ghost use Rattle.bar.specs.Barred.{CanBar, Ground, barred, barred_limits, listed};
ghost use Rattle.graph.specs.Refusals.{refusal_number};
ghost use Rattle.std.specs.Prelude.{◌≡◌, Decides, MatchResult};

use graph::{Command, Flag, Graph, Mode, Refusal};

/// A graph in which some commands join nothing; all else is as in the graph below.
#[derive(Drop)]
pub struct Bar<'a, G: Graph> {
    graph: G,
    commands: &'a [Command],
}

impl<'a, G: Graph + Drop> Bar<'a, G> {
    /// The graph without the arcs of the commands, each of which the graph has to have; a command may be named twice.
    pub fn new(graph: G, commands: &'a [Command]) -> Result<Bar<'a, G>, Refusal>
        ensures made { MatchResult result (λ b. CanBar commands.now (G.meaning graph) × (barred b.commands.now (G.meaning b.graph) ≡ barred commands.now (G.meaning graph))) (λ e. Ground commands.now (G.meaning graph) (refusal_number e)) }
    {
        if can_bar(&graph, commands) {
            Ok(Bar { graph, commands })
        } else {
            Err(Refusal::LimitBroken)
        }
    }
}

// Whether the graph has each of the commands.
fn can_bar<G: Graph>(graph: &G, commands: &[Command]) -> bool
    ensures exactly { Decides result (CanBar commands.now (G.meaning graph.now)) }
{
    let count = graph.commands();
    commands.iter().all(|a| *a < count)
}

// Whether the command is in the list.
fn is_listed(commands: &[Command], a: Command) -> bool
    ensures answer { result ≡ listed commands.now a }
{
    commands.contains(&a)
}

impl<'a, G: Graph> Graph for Bar<'a, G> {
    ghost meaning = { λ b. barred b.commands.now (G.Graph.meaning b.graph) };

    ghost limits = { λ b. barred_limits b.commands.now (G.Graph.meaning b.graph) (G.Graph.limits b.graph) };

    fn modes(&self) -> u8 {
        self.graph.modes()
    }

    fn commands(&self) -> u8 {
        self.graph.commands()
    }

    fn flags(&self) -> u8 {
        self.graph.flags()
    }

    fn has_flag(&self, p: Flag, u: Mode) -> bool {
        self.graph.has_flag(p, u)
    }

    fn joins(&self, a: Command, u: Mode, v: Mode) -> bool {
        !is_listed(self.commands, a) && self.graph.joins(a, u, v)
    }

    fn next_target(&self, a: Command, u: Mode, start: Mode) -> Option<Mode> {
        if is_listed(self.commands, a) {
            None
        } else {
            self.graph.next_target(a, u, start)
        }
    }
}
