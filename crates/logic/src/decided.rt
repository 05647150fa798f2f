//! That truth is decided, as a promise of a function.

ghost use Rattle.logic.specs.Decided.{TruthDecided};
ghost use Rattle.std.specs.Prelude.{◌≡◌, true};

/// Yes: of every graph, a formula is true at a mode or not, and a program leads from one mode to another or not.
pub fn truth_is_decided() -> bool
    ensures decided { TruthDecided }
    ensures answer { result ≡ true }
{
    true
}
