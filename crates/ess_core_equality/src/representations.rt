ghost use Rattle.std.specs.Prelude.{◌≡◌, ◌↔◌, IsTrue};

use ess_core::Repr;

/// Whether two representations are equal.
pub fn same_repr(repr: &Repr, other: &Repr) -> bool
    ensures { IsTrue result ↔ (repr.now ≡ other.now) }
{
    *repr == *other
}
