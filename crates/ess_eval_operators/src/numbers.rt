ghost use Rattle.std.specs.Prelude.{◌≡◌, ◌≢◌, IfOk, true, false, Some, option_map, pos, negsuc, nat_abs, neg_ℤ, ◌+ℤ◌, ◌-ℤ◌, ◌*ℤ◌, ◌<◌};
ghost use Rattle.ess_semantics.specs.Large.{in_64_bits};
ghost use Rattle.ess_semantics.specs.Numbers.{div_down, mod_down, power_of};
ghost use Rattle.ess_semantics.specs.Operators.{number_in as the_number};
ghost use Rattle.ess_core.specs.ValueViews.{pure_val};
ghost use Rattle.ess_eval_operators.specs.Numbers.{is_big_number};
ghost use Rattle.ess_eval_operators.specs.declared.OperateNo.TheVariants.{Big};

use crate::OperateNo;
use ess_core::Val;

/// The whole number that an operator reads: 0 for any other value.
pub(crate) fn number_in(val: &Val) -> i64
    ensures { result ≡ the_number (pure_val val.now) }
{
    match val {
        Val::Num(number) => *number,
        _ => 0,
    }
}

/// The number, where it is in 64 bits.
pub(crate) fn kept(number: i128) -> Result<i64, OperateNo>
    ensures ok { IfOk result (λ n. n ≡ number) }
    ensures big { result ≡ Err Big → in_64_bits number ≡ false }
{
    if number < -9223372036854775807 {
        return Err(OperateNo::Big);
    }
    if number > 9223372036854775807 {
        return Err(OperateNo::Big);
    }
    Ok(number as i64)
}

/// The negative.
pub(crate) fn negative(x: i64) -> Result<i64, OperateNo>
    ensures ok { IfOk result (λ n. n ≡ neg_ℤ x) }
    ensures big { result ≡ Err Big → in_64_bits (neg_ℤ x) ≡ false }
{
    kept(-(x as i128))
}

/// The sum.
pub(crate) fn plus(x: i64, y: i64) -> Result<i64, OperateNo>
    ensures ok { IfOk result (λ n. n ≡ x +ℤ y) }
    ensures big { result ≡ Err Big → in_64_bits (x +ℤ y) ≡ false }
{
    kept(x as i128 + y as i128)
}

/// The difference.
pub(crate) fn minus(x: i64, y: i64) -> Result<i64, OperateNo>
    ensures ok { IfOk result (λ n. n ≡ x -ℤ y) }
    ensures big { result ≡ Err Big → in_64_bits (x -ℤ y) ≡ false }
{
    kept(x as i128 - y as i128)
}

/// The product.
#[tactic(auto, using(crate::proofs::Outside::outside))]
pub(crate) fn times(x: i64, y: i64) -> Result<i64, OperateNo>
    ensures ok { IfOk result (λ n. n ≡ x *ℤ y) }
    ensures big { result ≡ Err Big → in_64_bits (x *ℤ y) ≡ false }
{
    match x.checked_mul(y) {
        Some(product) => kept(product as i128),
        None => Err(OperateNo::Big),
    }
}

/// The quotient, rounded down. There is none by 0.
#[tactic(auto, using(crate::proofs::Quotients::quotients))]
pub(crate) fn quotient(x: i64, y: i64) -> Result<Option<i64>, OperateNo>
    ensures ok { IfOk result (λ o. o ≡ div_down x y) }
    ensures big { result ≡ Err Big → is_big_number (div_down x y) ≡ true }
{
    if y == 0 {
        return Ok(None);
    }
    if y == -1 {
        return Ok(Some(negative(x)?));
    }
    Ok(Some(kept(floor(x, y))?))
}

/// The quotient, rounded down, by a number that is neither 0 nor -1.
#[tactic(auto, using(crate::proofs::Quotients::quotients))]
fn floor(x: i64, y: i64) -> i128
    requires not_0 { y ≢ pos 0 }
    requires not_minus_1 { y ≢ negsuc 0 }
    ensures { div_down x y ≡ Some result }
{
    let near = x.div_euclid(y);
    if y > 0 {
        return near as i128;
    }
    if x.rem_euclid(y) == 0 {
        return near as i128;
    }
    near as i128 - 1
}

/// The remainder of the quotient that is rounded down. There is none by 0.
#[tactic(auto, using(crate::proofs::Quotients::quotients))]
pub(crate) fn remainder(x: i64, y: i64) -> Option<i64>
    ensures { result ≡ mod_down x y }
{
    if y == 0 {
        return None;
    }
    if y == -1 {
        return Some(0);
    }
    let near = x.rem_euclid(y);
    if y > 0 {
        return Some(near);
    }
    if near == 0 {
        return Some(0);
    }
    Some(near + y)
}

/// The power. 0 has none at 0, and no number has one at an exponent below 0.
#[tactic(auto, using(crate::proofs::Powers::powers))]
pub(crate) fn power(x: i64, exponent: i64) -> Result<Option<i64>, OperateNo>
    ensures ok { IfOk result (λ o. o ≡ power_of x exponent) }
    ensures big { result ≡ Err Big → is_big_number (power_of x exponent) ≡ true }
{
    if exponent < 0 {
        return Ok(None);
    }
    if x.unsigned_abs() < 2 {
        return Ok(small_power(x, exponent as u64));
    }
    if exponent > 62 {
        return Err(OperateNo::Big);
    }
    match x.checked_pow(exponent as u32) {
        Some(power) => Ok(Some(kept(power as i128)?)),
        None => Err(OperateNo::Big),
    }
}

/// The power of -1, 0 or 1.
#[tactic(auto, using(crate::proofs::Powers::powers))]
fn small_power(x: i64, exponent: u64) -> Option<i64>
    requires { nat_abs x < 2 }
    ensures { result ≡ power_of x (pos exponent) }
{
    if x > 0 {
        return Some(1);
    }
    if x < 0 {
        return Some(sign_of_power(exponent));
    }
    if exponent == 0 {
        return None;
    }
    Some(0)
}

/// The power of -1.
#[tactic(auto, using(crate::proofs::Powers::powers))]
fn sign_of_power(exponent: u64) -> i64
    ensures { Some result ≡ power_of (negsuc 0) (pos exponent) }
{
    if exponent % 2 == 0 { 1 } else { -1 }
}

/// The absolute value.
pub(crate) fn absolute(x: i64) -> Result<i64, OperateNo>
    ensures ok { IfOk result (λ n. n ≡ pos (nat_abs x)) }
    ensures big { result ≡ Err Big → in_64_bits (pos (nat_abs x)) ≡ false }
{
    kept(x.unsigned_abs() as i128)
}
