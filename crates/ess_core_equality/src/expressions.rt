ghost use Rattle.std.specs.Prelude.{◌≡◌, ◌↔◌, IsTrue};

use ess_core::{Ex, FieldEx, Gen, PairEx, Pat, Step, View};

/// Whether two expressions are equal.
pub fn same_ex(ex: &Ex, other: &Ex) -> bool
    ensures { IsTrue result ↔ (ex.now ≡ other.now) }
{
    *ex == *other
}

/// Whether two steps of an index are equal.
pub fn same_step(step: &Step, other: &Step) -> bool
    ensures { IsTrue result ↔ (step.now ≡ other.now) }
{
    *step == *other
}

/// Whether two fields of record literals are equal.
pub fn same_field_ex(field: &FieldEx, other: &FieldEx) -> bool
    ensures { IsTrue result ↔ (field.now ≡ other.now) }
{
    *field == *other
}

/// Whether two pairs of function literals are equal.
pub fn same_pair_ex(pair: &PairEx, other: &PairEx) -> bool
    ensures { IsTrue result ↔ (pair.now ≡ other.now) }
{
    *pair == *other
}

/// Whether two generators or conditions are equal.
pub fn same_gen(item: &Gen, other: &Gen) -> bool
    ensures { IsTrue result ↔ (item.now ≡ other.now) }
{
    *item == *other
}

/// Whether two patterns of generators are equal.
pub fn same_pat(pat: &Pat, other: &Pat) -> bool
    ensures { IsTrue result ↔ (pat.now ≡ other.now) }
{
    *pat == *other
}

/// Whether two views are equal.
pub fn same_view(view: &View, other: &View) -> bool
    ensures { IsTrue result ↔ (view.now ≡ other.now) }
{
    *view == *other
}

/// Whether two lists of expressions are equal.
pub fn same_exs(exs: &[Ex], others: &[Ex]) -> bool
    ensures { IsTrue result ↔ (exs.now ≡ others.now) }
{
    *exs == *others
}
