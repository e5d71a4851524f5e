ghost use Rattle.std.specs.Prelude.{◌≡◌, ◌+◌, ◌*◌, ◌^◌};
ghost use Rattle.ess_domains_cells.specs.Kept.{kept as kept_of, greater};

/// The greatest number of cells that is told apart: 2^100.
pub const LIMIT: u128 = 1267650600228229401496703205376;

/// The number, or the limit where it is above it.
pub fn kept(number: u128) -> u128
    ensures { result ≡ kept_of number }
{
    if number <= LIMIT { number } else { LIMIT }
}

/// The sum of two numbers, kept at the limit.
pub fn sum(a: u128, b: u128) -> u128
    ensures { result ≡ kept_of (a + b) }
{
    match a.checked_add(b) {
        Some(sum) => kept(sum),
        None => LIMIT,
    }
}

/// The product of two numbers, kept at the limit.
pub fn product(a: u128, b: u128) -> u128
    ensures { result ≡ kept_of (a * b) }
{
    match a.checked_mul(b) {
        Some(product) => kept(product),
        None => LIMIT,
    }
}

/// A power, kept at the limit. `0` to the power `0` is 1.
#[tactic(auto, using(crate::proofs::KeptNumbers::power_none, crate::proofs::KeptNumbers::power_more, crate::proofs::KeptNumbers::power_reached, crate::proofs::KeptNumbers::power_of_0, crate::proofs::KeptNumbers::power_of_1, crate::proofs::KeptNumbers::power_to_0, crate::proofs::KeptNumbers::power_small))]
pub fn power(base: u128, exponent: u128) -> u128
    ensures { result ≡ kept_of (base ^ exponent) }
{
    if exponent == 0 {
        return 1;
    }
    if base <= 1 {
        return base;
    }
    let mut power = 1;
    for k in 0..exponent {
        if power >= LIMIT {
            return LIMIT;
        }
        power = product(power, base);
    }
    power
}

/// The greater one of two numbers.
pub fn greatest(a: u128, b: u128) -> u128
    ensures { result ≡ greater a b }
{
    if b <= a { a } else { b }
}
