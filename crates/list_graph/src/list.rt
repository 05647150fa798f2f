//! The list graph, its constructor, and its answers to the questions of every graph.

ghost use Rattle.list_graph.specs.Lists.{CountsFit};

use crate::layout::{TABLE_BYTES, arc_stands, flag_stands};
use graph::{COMMAND_LIMIT, Command, FLAG_LIMIT, Flag, Graph, MODE_LIMIT, Mode, Refusal};

/// A graph of modes over the bytes of a table, with counts that are within their limits.
#[derive(Drop)]
pub struct ListGraph<'a> {
    bytes: &'a [u8],
    modes: u8,
    commands: u8,
    flags: u8,
    ghost counts: { CountsFit modes commands flags },
}

impl<'a> ListGraph<'a> {
    ghost use Rattle.list_graph.specs.Made.{Made};

    /// The graph of `modes` modes, `commands` commands and `flags` flags that the bytes mean. Bytes that are no whole table are
    /// refused first, and then counts outside of their limits.
    // Three counts, not a struct of them: `new(&bytes, 3, 2, 2)` reads as well, and a caller from C has them apart.
    pub fn new(
        bytes: &'a [u8],
        modes: u8,
        commands: u8,
        flags: u8,
    ) -> Result<ListGraph<'a>, Refusal>
        ensures made { Made bytes.now modes commands flags result }
    {
        if bytes.len() < TABLE_BYTES {
            return Err(Refusal::MemoryShort);
        }
        if modes < 1
            || modes > MODE_LIMIT
            || commands < 1
            || commands > COMMAND_LIMIT
            || flags > FLAG_LIMIT
        {
            return Err(Refusal::LimitBroken);
        }
        Ok(ListGraph {
            bytes,
            modes,
            commands,
            flags,
        })
    }
}

impl<'a> Graph for ListGraph<'a> {
    ghost use Rattle.list_graph.specs.Made.{limits_of, meaning_of};

    ghost meaning = { λ g. meaning_of g };

    ghost limits = { λ g. limits_of g };

    fn modes(&self) -> u8 {
        self.modes
    }

    fn commands(&self) -> u8 {
        self.commands
    }

    fn flags(&self) -> u8 {
        self.flags
    }

    fn has_flag(&self, p: Flag, u: Mode) -> bool {
        p < self.flags && u < self.modes && flag_stands(self.bytes, p, u)
    }

    fn joins(&self, a: Command, u: Mode, v: Mode) -> bool {
        a < self.commands && u < self.modes && v < self.modes && arc_stands(self.bytes, a, u, v)
    }
}
