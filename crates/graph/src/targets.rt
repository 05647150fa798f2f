//! The targets of a command, one after the other.

ghost use Rattle.graph.specs.Targets.{StepsBy};
ghost use Rattle.std.specs.Prelude.{◌≡◌, ◌-◌};
ghost use Rattle.std.specs.Iterator.{at_most};

use crate::{Command, Graph, Mode};

/// The modes to which a command leads from a mode, rising. Each step asks the graph for the next target once.
#[derive(Drop)]
pub struct Targets<'a, G: Graph> {
    graph: &'a G,
    command: Command,
    mode: Mode,
    start: Mode,
}

/// The modes to which command a leads from mode u, rising.
pub fn targets_of<'a, G: Graph>(graph: &'a G, a: Command, u: Mode) -> Targets<'a, G>
    ensures graph { result.graph.now ≡ graph.now }
    ensures command { result.command ≡ a }
    ensures mode { result.mode ≡ u }
    ensures start { result.start ≡ 0 }
{
    Targets {
        graph,
        command: a,
        mode: u,
        start: 0,
    }
}

impl<'a, G: Graph> Iterator for Targets<'a, G> {
    type Item = Mode;

    ghost next_gives = { λ s r t. StepsBy ((G.Graph.meaning s.graph.now).joins s.command s.mode) s.start r t.start × (t.graph ≡ s.graph) × (t.command ≡ s.command) × (t.mode ≡ s.mode) };

    ghost remaining = { λ s. at_most (64 - s.start) };

    fn next(&mut self) -> Option<Mode> {
        let v = self.graph.next_target(self.command, self.mode, self.start)?;
        self.start = v + 1;
        Some(v)
    }
}
