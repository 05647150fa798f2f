//! That rows stand for trees, as a promise of a function.

ghost use Rattle.logic.specs.Rows.{RowsStand};
ghost use Rattle.std.specs.Prelude.{◌≡◌, true};

/// Yes: each row of an orderly list stands for exactly one tree of its sort, and rows that are put after it change nothing.
pub fn rows_stand_for_trees() -> bool
    ensures stand { RowsStand }
    ensures answer { result ≡ true }
{
    true
}
