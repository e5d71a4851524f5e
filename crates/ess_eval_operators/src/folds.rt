ghost use Rattle.std.specs.Prelude.{◌≡◌, ◌+◌, ◌<◌, IfOk, false, option_map, map, length, drop};
ghost use Rattle.ess_semantics.specs.Large.{in_64_bits};
ghost use Rattle.ess_semantics.specs.Operators.{sum_of, product_of, least as the_least, greatest as the_greatest, all_true as are_true, any_true as is_any_true, all_different as are_different, truth_in as the_truth};
ghost use Rattle.ess_core.specs.ValueViews.{pure_val};
ghost use Rattle.ess_eval_operators.specs.declared.OperateNo.TheVariants.{Big};
ghost use Rattle.std.specs.Option.{option_copied};
ghost use Rattle.ess_eval_operators.specs.Products.{has_zero};
ghost use Rattle.ess_eval_operators.specs.Extremes.{lower_of, higher_of};

use crate::OperateNo;
use crate::comparisons::below;
use crate::members::holds;
use crate::numbers::{kept, number_in, times};
use ess_core::Val;

/// The truth value that an operator reads: false for any other value.
pub(crate) fn truth_in(val: &Val) -> bool
    ensures { result ≡ the_truth (pure_val val.now) }
{
    match val {
        Val::Truth(truth) => *truth,
        _ => false,
    }
}

/// The sum of numbers. What stands in the middle of the sum may be outside 64 bits.
pub(crate) fn sum(items: &[Val]) -> Result<i64, OperateNo>
    ensures ok { IfOk result (λ n. n ≡ sum_of (map pure_val items.now)) }
    ensures big { result ≡ Err Big → in_64_bits (sum_of (map pure_val items.now)) ≡ false }
{
    kept(total(items))
}

/// The sum of numbers.
#[tactic(auto, using(crate::proofs::Sums::sum_step))]
fn total(items: &[Val]) -> i128
    ensures { result ≡ sum_of (map pure_val items.now) }
{
    let mut total: i128 = 0;
    for item in items {
        total += number_in(item) as i128;
    }
    total
}

/// The product of numbers. A factor 0 decides first; of other factors none makes the product smaller, so that it is
/// outside 64 bits as soon as a part of it is.
#[tactic(auto, using(crate::proofs::Products::zero_product))]
pub(crate) fn product(items: &[Val]) -> Result<i64, OperateNo>
    ensures ok { IfOk result (λ n. n ≡ product_of (map pure_val items.now)) }
    ensures big { result ≡ Err Big → in_64_bits (product_of (map pure_val items.now)) ≡ false }
{
    if any_zero(items) {
        return Ok(0);
    }
    let mut product: i64 = 1;
    for k in 0..items.len() {
        product = one_factor_more(items, items.len() - 1 - k, product)?;
    }
    Ok(product)
}

/// The product of the factors from this place on, from that of those behind it, where no factor is 0.
#[tactic(auto, using(crate::proofs::Products::products))]
fn one_factor_more(items: &[Val], at: usize, product: i64) -> Result<i64, OperateNo>
    requires within { at < length items.now }
    requires behind { product ≡ product_of (map pure_val (drop (at + 1) items.now)) }
    requires none { has_zero (map pure_val items.now) ≡ false }
    ensures ok { IfOk result (λ n. n ≡ product_of (map pure_val (drop at items.now))) }
    ensures big { result ≡ Err Big → in_64_bits (product_of (map pure_val items.now)) ≡ false }
{
    times(number_in(&items[at]), product)
}

/// Whether some number is 0.
fn any_zero(items: &[Val]) -> bool
    ensures { result ≡ has_zero (map pure_val items.now) }
{
    for item in items {
        if number_in(item) == 0 {
            return true;
        }
    }
    false
}

/// Whether all items are true.
pub(crate) fn all_true(items: &[Val]) -> bool
    ensures { result ≡ are_true (map pure_val items.now) }
{
    for item in items {
        if !truth_in(item) {
            return false;
        }
    }
    true
}

/// Whether some item is true.
pub(crate) fn any_true(items: &[Val]) -> bool
    ensures { result ≡ is_any_true (map pure_val items.now) }
{
    for item in items {
        if truth_in(item) {
            return true;
        }
    }
    false
}

/// Whether no two items are equal.
pub(crate) fn all_different(items: &[Val]) -> bool
    ensures { result ≡ are_different (map pure_val items.now) }
{
    for (i, item) in items.iter().enumerate() {
        if holds(&items[i + 1..], item) {
            return false;
        }
    }
    true
}

/// The least value, where there is one.
#[tactic(auto, using(crate::proofs::Extremes::extremes))]
pub(crate) fn least(items: &[Val]) -> Option<&Val>
    ensures { option_map pure_val (option_copied result) ≡ the_least (map pure_val items.now) }
{
    let mut found: Option<&Val> = None;
    for k in 0..items.len() {
        found = Some(lower(found, &items[items.len() - 1 - k]));
    }
    found
}

/// The greatest value, where there is one.
#[tactic(auto, using(crate::proofs::Extremes::extremes))]
pub(crate) fn greatest(items: &[Val]) -> Option<&Val>
    ensures { option_map pure_val (option_copied result) ≡ the_greatest (map pure_val items.now) }
{
    let mut found: Option<&Val> = None;
    for k in 0..items.len() {
        found = Some(higher(found, &items[items.len() - 1 - k]));
    }
    found
}

/// What was found, where it is below the item, else the item.
fn lower<'a>(found: Option<&'a Val>, item: &'a Val) -> &'a Val
    ensures { pure_val result.now ≡ lower_of (option_map pure_val (option_copied found.entry)) (pure_val item.now) }
{
    match found {
        Some(val) => { if below(val, item) { val } else { item } }
        None => item,
    }
}

/// What was found, where the item is below it, else the item.
fn higher<'a>(found: Option<&'a Val>, item: &'a Val) -> &'a Val
    ensures { pure_val result.now ≡ higher_of (option_map pure_val (option_copied found.entry)) (pure_val item.now) }
{
    match found {
        Some(val) => { if below(item, val) { val } else { item } }
        None => item,
    }
}
