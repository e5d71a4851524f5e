ghost use Rattle.std.specs.Prelude.{◌≡◌, ◌↔◌, IsTrue};

use ess_core::{Spec, Stm};

/// Whether two statements are equal.
pub fn same_stm(stm: &Stm, other: &Stm) -> bool
    ensures { IsTrue result ↔ (stm.now ≡ other.now) }
{
    *stm == *other
}

/// Whether two specifications are equal.
pub fn same_spec(spec: &Spec, other: &Spec) -> bool
    ensures { IsTrue result ↔ (spec.now ≡ other.now) }
{
    *spec == *other
}
