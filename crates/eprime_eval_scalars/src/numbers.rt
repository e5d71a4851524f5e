ghost use Rattle.std.specs.Prelude.{◌≡◌, IfOk, true, false, pos, nat_abs, neg_ℤ, ◌+ℤ◌, ◌-ℤ◌, ◌*ℤ◌};
ghost use Rattle.ess_semantics.specs.Large.{in_64_bits};
ghost use Rattle.eprime_eval_scalars.specs.declared.Stop.TheVariants.{Big};

use crate::Stop;

/// The number, where it is in 64 bits.
pub(crate) fn kept(number: i128) -> Result<i64, Stop>
    ensures ok { IfOk result (λ n. n ≡ number) }
    ensures big { result ≡ Err Big → in_64_bits number ≡ false }
{
    if number < -9223372036854775807 {
        return Err(Stop::Big);
    }
    if number > 9223372036854775807 {
        return Err(Stop::Big);
    }
    Ok(number as i64)
}

/// The negative.
pub fn negative(x: i64) -> Result<i64, Stop>
    ensures ok { IfOk result (λ n. n ≡ neg_ℤ x) }
    ensures big { result ≡ Err Big → in_64_bits (neg_ℤ x) ≡ false }
{
    kept(-(x as i128))
}

/// The absolute value.
pub fn size(x: i64) -> Result<i64, Stop>
    ensures ok { IfOk result (λ n. n ≡ pos (nat_abs x)) }
    ensures big { result ≡ Err Big → in_64_bits (pos (nat_abs x)) ≡ false }
{
    let x = x as i128;
    if x < 0 { kept(-x) } else { kept(x) }
}

/// The sum.
pub fn plus(x: i64, y: i64) -> Result<i64, Stop>
    ensures ok { IfOk result (λ n. n ≡ x +ℤ y) }
    ensures big { result ≡ Err Big → in_64_bits (x +ℤ y) ≡ false }
{
    kept(x as i128 + y as i128)
}

/// The difference.
pub fn minus(x: i64, y: i64) -> Result<i64, Stop>
    ensures ok { IfOk result (λ n. n ≡ x -ℤ y) }
    ensures big { result ≡ Err Big → in_64_bits (x -ℤ y) ≡ false }
{
    kept(x as i128 - y as i128)
}

/// The product.
#[tactic(auto, using(crate::proofs::Outside::outside))]
pub fn times(x: i64, y: i64) -> Result<i64, Stop>
    ensures ok { IfOk result (λ n. n ≡ x *ℤ y) }
    ensures big { result ≡ Err Big → in_64_bits (x *ℤ y) ≡ false }
{
    match x.checked_mul(y) {
        Some(product) => kept(product as i128),
        None => Err(Stop::Big),
    }
}
