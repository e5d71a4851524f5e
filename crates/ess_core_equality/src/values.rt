ghost use Rattle.std.specs.Prelude.{◌≡◌, ◌↔◌, IsTrue};

use ess_core::{FieldVal, Pair, Val};

/// Whether two values are equal.
pub fn same_val(val: &Val, other: &Val) -> bool
    ensures { IsTrue result ↔ (val.now ≡ other.now) }
{
    *val == *other
}

/// Whether two fields of record values are equal.
pub fn same_field_val(field: &FieldVal, other: &FieldVal) -> bool
    ensures { IsTrue result ↔ (field.now ≡ other.now) }
{
    *field == *other
}

/// Whether two pairs of function values are equal.
pub fn same_pair(pair: &Pair, other: &Pair) -> bool
    ensures { IsTrue result ↔ (pair.now ≡ other.now) }
{
    *pair == *other
}

/// Whether two lists of values are equal.
pub fn same_vals(vals: &[Val], others: &[Val]) -> bool
    ensures { IsTrue result ↔ (vals.now ≡ others.now) }
{
    *vals == *others
}
