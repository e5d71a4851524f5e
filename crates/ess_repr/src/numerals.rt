//! Numerals, and how many numbers there are between two bounds.
ghost use Rattle.std.specs.Prelude.{◌≡◌, IfOk};
ghost use Rattle.ess_core.specs.TreeViews.{pure_ex};
ghost use Rattle.ess_repr_declare_laws.specs.SizeTerms.{numeral as numeral_of, is_numeral as is_numeral_of, numerals_order as order_of, span_ex, between_ex};

use crate::terms::{at_least_0, copied, next, number, two};
use ess_core::{Boxed, Ex, NoMemory, Op2};
use std::alloc::Global;
use std::cmp::Ordering;

/// The number of a numeral.
fn numeral(ex: &Ex) -> Option<i64>
    ensures { result ≡ numeral_of (pure_ex ex.now) }
{
    match ex {
        Ex::Num(number) => Some(*number),
        _ => None,
    }
}

/// Whether the term is this numeral.
fn is_numeral(ex: &Ex, number: i64) -> bool
    ensures { result ≡ is_numeral_of number (pure_ex ex.now) }
{
    match numeral(ex) {
        Some(found) => found == number,
        None => false,
    }
}

/// The order of two numerals.
fn numerals_order(low: &Ex, high: &Ex) -> Option<Ordering>
    ensures { result ≡ order_of (pure_ex low.now) (pure_ex high.now) }
{
    match (numeral(low), numeral(high)) {
        (Some(low), Some(high)) => Some(low.cmp(&high)),
        _ => None,
    }
}

/// How many numbers there are from a bound to another one that isn't below it.
fn span(alloc: Global, low: &Ex, high: &Ex) -> Result<Boxed<Ex>, NoMemory>
    ensures { IfOk result (λ e. pure_ex e ≡ span_ex (pure_ex low.now) (pure_ex high.now)) }
{
    let end = copied(alloc, high)?;
    if is_numeral(low, 0) {
        return next(alloc, end);
    }
    if is_numeral(low, 1) {
        return Ok(end);
    }
    let start = copied(alloc, low)?;
    let one = number(alloc, 1)?;
    let behind = two(alloc, Op2::Minus, one, start)?;
    two(alloc, Op2::Plus, behind, end)
}

/// How many numbers there are from a bound to another one.
pub(crate) fn between(alloc: Global, low: &Ex, high: &Ex) -> Result<Boxed<Ex>, NoMemory>
    ensures { IfOk result (λ e. pure_ex e ≡ between_ex (pure_ex low.now) (pure_ex high.now)) }
{
    match numerals_order(low, high) {
        Some(Ordering::Less) => span(alloc, low, high),
        Some(Ordering::Equal) => number(alloc, 1),
        Some(Ordering::Greater) => number(alloc, 0),
        None => {
            let numbers = span(alloc, low, high)?;
            at_least_0(alloc, numbers)
        }
    }
}
