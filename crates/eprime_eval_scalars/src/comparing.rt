ghost use Rattle.std.specs.Prelude.{◌≡◌, map};
ghost use Rattle.ess_semantics.specs.Values.{of_list};
ghost use Rattle.ess_semantics.specs.Order.{order as the_order, orders, same as are_same, below as is_below};
ghost use Rattle.ess_semantics.specs.Operators.{as_list, list_value};
ghost use Rattle.eprime_eval_scalars.specs.ScalarViews.{pure_scalar};

use crate::Scalar;
use std::cmp::Ordering;

/// The order of two scalars: numbers by size, false below true, and a number below a truth value.
fn order(a: Scalar, b: Scalar) -> Ordering
    ensures { result ≡ the_order (pure_scalar a) (pure_scalar b) }
{
    match (a, b) {
        (Scalar::Num(x), Scalar::Num(y)) => x.cmp(&y),
        (Scalar::Num(_), Scalar::Truth(_)) => Ordering::Less,
        (Scalar::Truth(_), Scalar::Num(_)) => Ordering::Greater,
        (Scalar::Truth(x), Scalar::Truth(y)) => x.cmp(&y),
    }
}

/// Whether two scalars are equal.
pub fn same(a: Scalar, b: Scalar) -> bool
    ensures { result ≡ are_same (pure_scalar a) (pure_scalar b) }
{
    order(a, b) == Ordering::Equal
}

/// Whether a scalar is below another one.
pub fn below(a: Scalar, b: Scalar) -> bool
    ensures { result ≡ is_below (pure_scalar a) (pure_scalar b) }
{
    order(a, b) == Ordering::Less
}

/// Whether a list is below another one.
#[tactic(auto, using(crate::proofs::ComparedLists::as_lists))]
pub fn lists_below(a: &[Scalar], b: &[Scalar]) -> bool
    ensures { result ≡ is_below (as_list (list_value (map pure_scalar a.now))) (as_list (list_value (map pure_scalar b.now))) }
{
    order_lists(a, b) == Ordering::Less
}

/// The order of two lists: the first item that differs decides, and a prefix is lower.
#[tactic(auto, using(crate::proofs::ComparedLists::list_ends))]
fn order_lists(a: &[Scalar], b: &[Scalar]) -> Ordering
    ensures { result ≡ orders (of_list (map pure_scalar a.now)) (of_list (map pure_scalar b.now)) }
{
    for (i, x) in a.iter().enumerate() {
        if i >= b.len() {
            return Ordering::Greater;
        }
        let found = order(*x, b[i]);
        if found != Ordering::Equal {
            return found;
        }
    }
    if a.len() < b.len() {
        Ordering::Less
    } else {
        Ordering::Equal
    }
}
