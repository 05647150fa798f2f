//! Repetition: a row's pairs are closed under walks, by letting in one mode after the other between two others.

ghost use Rattle.std.specs.Prelude.{◌≡◌, ℕ, ◌<◌, ◌≤◌, Decides, ◌≢◌};
ghost use Rattle.label_table.specs.Changes.{Closed, Covered, Passed};
ghost use Rattle.label_table.specs.Entries.{In};

use crate::row_set::{RowSet, Table};
use graph::Mode;
use logic::RowNumber;

// The pairs that a row has among the first modes.
#[derive(Clone, Copy)]
pub(crate) struct Pairs {
    pub(crate) row: RowNumber,
    pub(crate) modes: u8,
    ghost row_there: { row < 48 },
    ghost few_modes: { modes ≤ 64 },
}

impl Pairs {
    // Closes the pairs under walks of any number of steps. Each mode is paired with itself already, which is the walk of no steps.
    // Among n modes it takes at most n × (n - 1) joins of sets.
    pub(crate) fn close(self, table: &mut Table)
        requires home { (u : ℕ) → u < self.modes → In table.old self.row u u }
        requires tidy { (u v : ℕ) → u < self.modes → v < 64 → In table.old self.row u v → v < self.modes }
        ensures closed { Closed self.modes self.row table.old table.new }
    {
        self.let_in_below(table, self.modes);
    }

    // Lets the modes below `end` in, one after the other: the walks that have only these in between become pairs. With all modes
    // let in, these are all walks.
    fn let_in_below(self, table: &mut Table, end: u8)
        requires few { end ≤ self.modes }
        requires home { (u : ℕ) → u < self.modes → In table.old self.row u u }
        requires tidy { (u v : ℕ) → u < self.modes → v < 64 → In table.old self.row u v → v < self.modes }
        ensures covered { Covered self.modes self.row end table.old table.new }
        ensures closed { end ≡ self.modes → Closed self.modes self.row table.old table.new }
    {
        for k in 0..end {
            self.let_in(table, k);
        }
    }

    // Lets mode k in: whatever else leads to k leads on to where k leads.
    fn let_in(self, table: &mut Table, k: Mode)
        requires { k < 64 }
        ensures passed { Passed self.row k self.modes table.old table.new }
    {
        let row = self.row;
        let through = RowSet { row, mode: k };
        for u in 0..self.modes {
            if self.leads_to_other(table, u, k) {
                let set = RowSet { row, mode: u };
                set.add_set(table, through);
            }
        }
    }

    // Whether the row leads from u to k, which is another mode.
    fn leads_to_other(self, table: &Table, u: Mode, k: Mode) -> bool
        requires { (u < 64) × (k < 64) }
        ensures exactly { Decides result ((u ≢ k) × In table.now self.row u k) }
    {
        let from = RowSet {
            row: self.row,
            mode: u,
        };
        u != k && from.has_mode(table, k)
    }
}
