//! What is found of the numbers that stand in a domain: bounds of ranges, and those of attributes.
ghost use Rattle.std.specs.Prelude.{◌≡◌, map, option_map, IfOk, OnOk};
ghost use Rattle.ess_core.specs.TreeViews.{pure_ex, pure_attr, pure_range, within, exs_of};
ghost use Rattle.ess_types_judging_laws.specs.Judged.{judged_all};
ghost use Rattle.ess_types_judging_laws.specs.Accumulated.{numbers, numbers_on};
ghost use Rattle.ess_types_judging.specs.Forms.{bound_on};
ghost use Rattle.ess_types_judging.specs.Judging.{pure_numbers};
ghost use Rattle.ess_types_judging.specs.ScopeViews.{pure_scope};

use crate::expressions::judge;
use crate::gathered::{Numbers, no_number, with_number};
use crate::scope::Scope;
use ess_core::{Attr, Ex, NoMemory, Range};
use std::alloc::Global;

/// With the number of a bound or of an attribute more, where there is one.
#[cycle(judge)]
fn judge_bound(
    alloc: Global,
    bound: &Option<Ex>,
    numbers: Numbers,
    scope: &mut Scope,
) -> Result<Numbers, NoMemory>
    ensures ok { IfOk result (λ n. pure_numbers n ≡ bound_on (option_map pure_ex bound.now) (pure_scope scope.old) (pure_numbers numbers)) }
    ensures kept { OnOk result (scope.new ≡ scope.old) }
{
    match bound {
        Some(ex) => {
            let judged = judge(alloc, ex, scope)?;
            Ok(with_number(numbers, &judged))
        }
        None => Ok(numbers),
    }
}

/// With the numbers of a range more.
#[cycle(judge)]
#[tactic(auto, using(crate::proofs::NumberLemmas::span_on, ess_core::proofs::PartEquations::pure_range_one, ess_core::proofs::PartEquations::pure_range_span))]
fn judge_range(
    alloc: Global,
    range: &Range,
    numbers: Numbers,
    scope: &mut Scope,
) -> Result<Numbers, NoMemory>
    ensures ok { IfOk result (λ n. pure_numbers n ≡ numbers_on (judged_all (exs_of (pure_range range.now).1) (pure_scope scope.old)) (pure_numbers numbers)) }
    ensures kept { OnOk result (scope.new ≡ scope.old) }
{
    match range {
        Range::One(ex) => {
            let judged = judge(alloc, ex, scope)?;
            Ok(with_number(numbers, &judged))
        }
        Range::Span(low, high) => {
            let numbers = judge_bound(alloc, low, numbers, scope)?;
            judge_bound(alloc, high, numbers, scope)
        }
    }
}

/// The numbers of ranges.
#[cycle(judge)]
#[tactic(auto, using(crate::proofs::NumberLemmas::ranges_more, crate::proofs::NumberLemmas::ranges_all))]
pub(crate) fn judge_ranges(
    alloc: Global,
    ranges: &[Range],
    scope: &mut Scope,
) -> Result<Numbers, NoMemory>
    ensures ok { IfOk result (λ n. pure_numbers n ≡ numbers (judged_all (exs_of (within (map pure_range ranges.now))) (pure_scope scope.old))) }
    ensures kept { OnOk result (scope.new ≡ scope.old) }
{
    let mut numbers = no_number();
    for (i, range) in ranges.iter().enumerate() {
        numbers = judge_range(alloc, range, numbers, scope)?;
    }
    Ok(numbers)
}

/// The numbers of attributes.
#[cycle(judge)]
#[tactic(auto, using(crate::proofs::NumberLemmas::attrs_more, crate::proofs::NumberLemmas::attrs_all))]
pub(crate) fn judge_attrs(
    alloc: Global,
    attrs: &[Attr],
    scope: &mut Scope,
) -> Result<Numbers, NoMemory>
    ensures ok { IfOk result (λ n. pure_numbers n ≡ numbers (judged_all (exs_of (within (map pure_attr attrs.now))) (pure_scope scope.old))) }
    ensures kept { OnOk result (scope.new ≡ scope.old) }
{
    let mut numbers = no_number();
    for (i, attr) in attrs.iter().enumerate() {
        numbers = judge_bound(alloc, &attr.value, numbers, scope)?;
    }
    Ok(numbers)
}
