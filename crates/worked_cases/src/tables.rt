//! The models S and T, as tables of bytes.

ghost use Rattle.std.specs.Prelude.{◌≡◌};
ghost use Rattle.worked_cases.specs.Models.{arcs_s, arcs_t, marks_s, marks_t, with_arcs, with_marks};

use list_graph::{set_arc, set_flag};

/// Sets the flags and the arcs of model S in a table's bytes, and changes no other bit. It has three modes, two commands and two
/// flags.
pub fn write_model_s(bytes: &mut [u8])
    ensures memory { bytes.new ≡ with_arcs arcs_s (with_marks marks_s bytes.old) }
{
    set_flag(bytes, 0, 0);
    set_flag(bytes, 0, 2);
    set_flag(bytes, 1, 1);
    set_flag(bytes, 1, 2);
    set_arc(bytes, 0, 0, 0);
    set_arc(bytes, 0, 0, 1);
    set_arc(bytes, 1, 0, 2);
    set_arc(bytes, 1, 1, 1);
    set_arc(bytes, 1, 2, 1);
}

/// Sets the flag and the arcs of model T in a table's bytes, and changes no other bit. It has four modes, two commands and one
/// flag.
pub fn write_model_t(bytes: &mut [u8])
    ensures memory { bytes.new ≡ with_arcs arcs_t (with_marks marks_t bytes.old) }
{
    set_flag(bytes, 0, 2);
    set_arc(bytes, 0, 0, 0);
    set_arc(bytes, 0, 0, 1);
    set_arc(bytes, 0, 1, 1);
    set_arc(bytes, 1, 0, 3);
    set_arc(bytes, 1, 1, 2);
    set_arc(bytes, 1, 3, 2);
}
