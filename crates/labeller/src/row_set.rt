//! The sets of a label table: how they grow, and how two of them compare. All other code of this crate writes through these.

ghost use Rattle.std.specs.Prelude.{◌≡◌, ℕ, ◌+◌, ◌*◌, ◌<◌, length, Decides, slice_index};
ghost use Rattle.label_table.specs.Changes.{Gained};
ghost use Rattle.label_table.specs.Entries.{In};
ghost use Rattle.label_table.specs.Layout.{pair_bit};
ghost use Rattle.sets.specs.Sets.{BytesJoined, Joined, Meet, Within};

use graph::Mode;
use label_table::{TABLE_BYTES, program_set};
use logic::RowNumber;
use sets::{SET_BYTES, SetStart, insert};

// The bytes of a label table.
pub(crate) type Table = [u8; TABLE_BYTES];

// One set of a table: the modes to which a row leads from a mode. A formula row has its modes where a program row has those of
// mode 0.
#[derive(Clone, Copy)]
pub(crate) struct RowSet {
    pub(crate) row: RowNumber,
    pub(crate) mode: Mode,
    ghost row_there: { row < 48 },
    ghost mode_there: { mode < 64 },
}

impl RowSet {
    // Where the set begins.
    fn start(self) -> SetStart
        ensures answer { result ≡ 512 * self.row + 8 * self.mode }
    {
        program_set(self.row, self.mode)
    }

    // The bytes of the set.
    fn bytes(self, table: &Table) -> &[u8; SET_BYTES]
        ensures size { length result.now ≡ 8 }
        ensures answer { (i : ℕ) → i < 8 → slice_index result.now i ≡ slice_index table.now (512 * self.row + 8 * self.mode + i) }
    {
        let start = self.start() as usize;
        table[start..].first_chunk().unwrap()
    }

    // Whether some mode is in both sets: a byte of the one has a bit in common with its other.
    pub(crate) fn meets(self, other: RowSet, table: &Table) -> bool
        ensures exactly { Decides result (Meet table.now (512 * self.row + 8 * self.mode) (512 * other.row + 8 * other.mode)) }
    {
        self.bytes(table)
            .iter()
            .zip(other.bytes(table))
            .any(|(x, y)| *x & *y != 0)
    }

    // Whether every mode of this set is in the other: no byte of it has a bit that its other lacks.
    pub(crate) fn is_subset(self, other: RowSet, table: &Table) -> bool
        ensures exactly { Decides result (Within table.now (512 * self.row + 8 * self.mode) (512 * other.row + 8 * other.mode)) }
    {
        self.bytes(table)
            .iter()
            .zip(other.bytes(table))
            .all(|(x, y)| *x | *y == *y)
    }

    // Whether mode v is in the set. Not by `contains`, which asks for each mode whether the bytes end before it: closing pairs then
    // took twice the time.
    #[tactic(auto, unfolding(sets::specs::Sets::bit))]
    pub(crate) fn has_mode(self, table: &Table, v: Mode) -> bool
        requires { v < 64 }
        ensures answer { result ≡ pair_bit table.now self.row self.mode v }
    {
        let byte = table[self.start() as usize + (v / 8) as usize];
        (byte >> (v % 8)) % 2 == 1
    }

    // Puts mode v into the set.
    // That v is below 64 stays a clause: modes come from ranges of bytes, and a type of their own would be undone at each use.
    pub(crate) fn add_mode(self, table: &mut Table, v: Mode)
        requires { v < 64 }
        ensures gained { Gained self.row self.mode (λ x. x ≡ v) table.old table.new }
    {
        insert(table, self.start(), v);
    }

    // Joins another set to the set. All of the other is read before this one is written to.
    pub(crate) fn add_set(self, table: &mut Table, other: RowSet)
        ensures joined { Joined (512 * self.row + 8 * self.mode) (512 * other.row + 8 * other.mode) table.old table.new }
        ensures gained { Gained self.row self.mode (In table.old other.row other.mode) table.old table.new }
    {
        let added = *other.bytes(table);
        self.add_bytes(table, &added);
    }

    // Joins the eight bytes of a set to those of the set.
    fn add_bytes(self, table: &mut Table, added: &[u8; SET_BYTES])
        ensures memory { BytesJoined 8 (512 * self.row + 8 * self.mode) added.now table.old table.new }
    {
        let start = self.start() as usize;
        // By place: it was tried with `iter_mut`, of which a proof knows afterwards how many bytes there are, and not which.
        for (i, byte) in added.iter().enumerate() {
            table[start + i] |= *byte;
        }
    }
}
