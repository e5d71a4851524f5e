ghost use Rattle.std.specs.Prelude.{◌≡◌, ◌↔◌, IsTrue};

use ess_core::{FieldTy, Ty};

/// Whether two types are equal.
pub fn same_ty(ty: &Ty, other: &Ty) -> bool
    ensures { IsTrue result ↔ (ty.now ≡ other.now) }
{
    *ty == *other
}

/// Whether two fields of record types are equal.
pub fn same_field_ty(field: &FieldTy, other: &FieldTy) -> bool
    ensures { IsTrue result ↔ (field.now ≡ other.now) }
{
    *field == *other
}

/// Whether two lists of types are equal.
pub fn same_tys(tys: &[Ty], others: &[Ty]) -> bool
    ensures { IsTrue result ↔ (tys.now ≡ others.now) }
{
    *tys == *others
}
