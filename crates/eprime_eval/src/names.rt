ghost use Rattle.std.specs.Prelude.{◌≡◌, option_map, reverse};
ghost use Rattle.std.specs.List.{find};
ghost use Rattle.std.specs.Option.{option_copied};
ghost use Rattle.ess_semantics.specs.Order.{same_text};
ghost use Rattle.ess_semantics.specs.Names.{look};
ghost use Rattle.eprime_eval_scalars.specs.ScalarViews.{pure_scalar};
ghost use Rattle.eprime_eval.specs.Environments.{bound_values};

use crate::Scalar;
use eprime_tree::Text;
use std::cmp::Ordering;

/// A name that a generator has bound, with its value.
#[derive(Drop)]
pub struct Bound {
    pub(crate) name: Text,
    pub(crate) value: Scalar,
}

/// The value of a name: the newest that a generator has bound.
#[tactic(auto, using(crate::proofs::Lookups::look_newest))]
pub(crate) fn value_of_name(name: &Text, bound: &[Bound]) -> Option<Scalar>
    ensures { option_map pure_scalar result ≡ look (bound_values bound.now) name.now }
{
    match newest(bound, name) {
        Some(found) => Some(found.value),
        None => None,
    }
}

/// The last of the bound names that is this one.
fn newest<'a>(bound: &'a [Bound], name: &Text) -> Option<&'a Bound>
    ensures { option_copied result ≡ find (λ b. same_text b.name name.now) (reverse bound.now) }
{
    bound
        .iter()
        .rev()
        .find(|found| same_name(&found.name, name))
}

/// Whether two names are equal. Those of two bytes, as most names that generators bind, are compared here.
#[tactic(auto, using(crate::proofs::Lookups::short_names))]
pub(crate) fn same_name(a: &Text, b: &Text) -> bool
    ensures { result ≡ same_text a.now b.now }
{
    match (a.as_bytes(), b.as_bytes()) {
        ([x, y], [z, w]) => { if *y == *w { *x == *z } else { false } }
        (_, _) => a.cmp(b) == Ordering::Equal,
    }
}

/// The name, as it is.
pub(crate) fn as_it_is(name: &Text) -> &Text
    ensures { result.now ≡ name.now }
{
    name
}
