ghost use Rattle.std.specs.Prelude.{◌≡◌, ◌+◌, ◌<◌, IfOk, false, option_map, map, length, drop};
ghost use Rattle.ess_semantics.specs.Large.{in_64_bits};
ghost use Rattle.ess_semantics.specs.Collections.{holds as is_held};
ghost use Rattle.ess_semantics.specs.Operators.{number_in as the_number, sum_of, product_of, least as the_least, greatest as the_greatest, all_true as are_true, any_true as is_any_true, all_different as are_different};
ghost use Rattle.eprime_eval_scalars.specs.ScalarViews.{pure_scalar};
ghost use Rattle.eprime_eval_scalars.specs.Folds.{has_zero, lower_of, higher_of};
ghost use Rattle.eprime_eval_scalars.specs.declared.Stop.TheVariants.{Big};

use crate::comparing::{below, same};
use crate::numbers::{kept, times};
use crate::scalars::{number_in, truth_in};
use crate::{Scalar, Stop};

/// The sum of numbers. What stands in the middle of the sum may be outside 64 bits.
pub fn sum(items: &[Scalar]) -> Result<i64, Stop>
    ensures ok { IfOk result (λ n. n ≡ sum_of (map pure_scalar items.now)) }
    ensures big { result ≡ Err Big → in_64_bits (sum_of (map pure_scalar items.now)) ≡ false }
{
    kept(total(items))
}

/// The sum of numbers.
#[tactic(auto, using(crate::proofs::Sums::sum_step))]
fn total(items: &[Scalar]) -> i128
    ensures { result ≡ sum_of (map pure_scalar items.now) }
{
    let mut total: i128 = 0;
    for item in items {
        total += number_at(item) as i128;
    }
    total
}

/// The product of numbers. A factor 0 decides first; of other factors none makes the product smaller, so that it is
/// outside 64 bits as soon as a part of it is.
#[tactic(auto, using(crate::proofs::Products::zero_product))]
pub fn product(items: &[Scalar]) -> Result<i64, Stop>
    ensures ok { IfOk result (λ n. n ≡ product_of (map pure_scalar items.now)) }
    ensures big { result ≡ Err Big → in_64_bits (product_of (map pure_scalar items.now)) ≡ false }
{
    if any_zero(items) {
        return Ok(0);
    }
    let mut product: i64 = 1;
    for k in 0..items.len() {
        product = one_factor_more(items, items.len() - 1 - k, product)?;
    }
    Ok(product)
}

/// The product of the factors from this place on, from that of those behind it, where no factor is 0.
#[tactic(auto, using(crate::proofs::Products::products))]
fn one_factor_more(items: &[Scalar], at: usize, product: i64) -> Result<i64, Stop>
    requires within { at < length items.now }
    requires behind { product ≡ product_of (map pure_scalar (drop (at + 1) items.now)) }
    requires none { has_zero (map pure_scalar items.now) ≡ false }
    ensures ok { IfOk result (λ n. n ≡ product_of (map pure_scalar (drop at items.now))) }
    ensures big { result ≡ Err Big → in_64_bits (product_of (map pure_scalar items.now)) ≡ false }
{
    times(number_at(&items[at]), product)
}

/// The whole number that an operator reads.
fn number_at(item: &Scalar) -> i64
    ensures { result ≡ the_number (pure_scalar item.now) }
{
    number_in(*item)
}

/// Whether some number is 0.
fn any_zero(items: &[Scalar]) -> bool
    ensures { result ≡ has_zero (map pure_scalar items.now) }
{
    for item in items {
        if number_at(item) == 0 {
            return true;
        }
    }
    false
}

/// Whether all items are true.
pub fn all_true(items: &[Scalar]) -> bool
    ensures { result ≡ are_true (map pure_scalar items.now) }
{
    for item in items {
        if !truth_in(*item) {
            return false;
        }
    }
    true
}

/// Whether some item is true.
pub fn any_true(items: &[Scalar]) -> bool
    ensures { result ≡ is_any_true (map pure_scalar items.now) }
{
    for item in items {
        if truth_in(*item) {
            return true;
        }
    }
    false
}

/// Whether no two items are equal.
pub fn all_different(items: &[Scalar]) -> bool
    ensures { result ≡ are_different (map pure_scalar items.now) }
{
    for (i, item) in items.iter().enumerate() {
        if holds(&items[i + 1..], *item) {
            return false;
        }
    }
    true
}

/// Whether a value is in the list.
fn holds(items: &[Scalar], scalar: Scalar) -> bool
    ensures { result ≡ is_held (map pure_scalar items.now) (pure_scalar scalar) }
{
    for item in items {
        if same(*item, scalar) {
            return true;
        }
    }
    false
}

/// The least value, where there is one.
#[tactic(auto, using(crate::proofs::Extremes::extremes))]
pub fn least(items: &[Scalar]) -> Option<Scalar>
    ensures { option_map pure_scalar result ≡ the_least (map pure_scalar items.now) }
{
    let mut found: Option<Scalar> = None;
    for k in 0..items.len() {
        found = Some(lower(found, items[items.len() - 1 - k]));
    }
    found
}

/// The greatest value, where there is one.
#[tactic(auto, using(crate::proofs::Extremes::extremes))]
pub fn greatest(items: &[Scalar]) -> Option<Scalar>
    ensures { option_map pure_scalar result ≡ the_greatest (map pure_scalar items.now) }
{
    let mut found: Option<Scalar> = None;
    for k in 0..items.len() {
        found = Some(higher(found, items[items.len() - 1 - k]));
    }
    found
}

/// What was found, where it is below the item, else the item.
fn lower(found: Option<Scalar>, item: Scalar) -> Scalar
    ensures { pure_scalar result ≡ lower_of (option_map pure_scalar found) (pure_scalar item) }
{
    match found {
        Some(scalar) => { if below(scalar, item) { scalar } else { item } }
        None => item,
    }
}

/// What was found, where the item is below it, else the item.
fn higher(found: Option<Scalar>, item: Scalar) -> Scalar
    ensures { pure_scalar result ≡ higher_of (option_map pure_scalar found) (pure_scalar item) }
{
    match found {
        Some(scalar) => { if below(item, scalar) { scalar } else { item } }
        None => item,
    }
}
