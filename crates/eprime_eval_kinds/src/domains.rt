ghost use Rattle.std.specs.Prelude.{◌≡◌, List, None, option_map, IfOk};
ghost use Rattle.ess_semantics.specs.Values as values;
ghost use Rattle.ess_semantics.specs.Types.{type_of_dom};
ghost use Rattle.ess_grammar.specs.Models as models;
ghost use Rattle.eprime_tree.specs.Views.{pure_dom};
ghost use Rattle.eprime_eval_kinds.specs.KindedViews.{pure_kind, pure_kex, pure_krange};
ghost use Rattle.eprime_eval_kinds.specs.BoundNames.{scope_kinds};
ghost use Rattle.eprime_eval_kinds.specs.Kinding.{ends_of, IsKindedBound, IsKindedEnd, IsKindedDom, IsKindedRange, AreKindedRanges};

use crate::declared::Declared;
use crate::expressions::kinded_ex;
use crate::nodes::as_bound;
use crate::scope::BoundName;
use crate::tree::{KDom, KEx, KRange, Kind};
use eprime_tree::{PDom, PEx, PRange};
use ess_rows::{Boxed, NoMemory, Row};
use std::alloc::Global;

/// The kind of the members of a domain.
pub(crate) fn kind_of_dom(dom: &PDom) -> Kind
    ensures { (s : models.Scope) → type_of_dom (pure_dom s dom.now) ≡ pure_kind result }
{
    match dom {
        PDom::Bool => Kind::Bool,
        PDom::Int(_) => Kind::Int,
    }
}

/// A domain, inside generators that bind the names of the scope.
#[cycle(kinded)]
#[tactic(auto, using(crate::proofs::Rows::bool_kinded, crate::proofs::Rows::int_kinded))]
pub(crate) fn kinded_domain(
    alloc: Global,
    dom: &PDom,
    declared: &Declared,
    scope: &[BoundName],
) -> Result<Boxed<KDom>, NoMemory>
    ensures { IfOk result (λ k. IsKindedDom declared.now (scope_kinds scope.now) dom.now k) }
{
    match dom {
        PDom::Bool => Ok(Boxed::new(alloc, KDom::Bool)?),
        PDom::Int(ranges) => {
            let ranges = kinded_ranges(alloc, ranges.as_slice(), declared, scope)?;
            Ok(Boxed::new(alloc, KDom::Int(ranges))?)
        }
    }
}

/// The ranges of an int domain.
#[cycle(kinded)]
#[tactic(auto, using(crate::proofs::Rows::ranges_none, crate::proofs::Rows::ranges_more, crate::proofs::Rows::ranges_all))]
fn kinded_ranges(
    alloc: Global,
    ranges: &[PRange],
    declared: &Declared,
    scope: &[BoundName],
) -> Result<Row<KRange>, NoMemory>
    ensures { IfOk result (λ ks. AreKindedRanges declared.now (scope_kinds scope.now) ranges.now ks) }
{
    let mut items = Row::with_capacity(alloc, ranges.len())?;
    for range in ranges {
        items.push(kinded_range(alloc, range, declared, scope)?)?;
    }
    Ok(items)
}

/// A range. One without bounds, which no text has, has bounds that have nothing.
#[cycle(kinded)]
#[tactic(auto, using(crate::proofs::Rows::one_range, crate::proofs::Rows::span_kinded))]
fn kinded_range(
    alloc: Global,
    range: &PRange,
    declared: &Declared,
    scope: &[BoundName],
) -> Result<KRange, NoMemory>
    ensures { IfOk result (λ k. IsKindedRange declared.now (scope_kinds scope.now) range.now k) }
{
    match range {
        PRange::One(ex) => Ok(KRange::One(kinded_bound(alloc, ex, declared, scope)?)),
        PRange::Span(low, high) => {
            let from = kinded_end(alloc, low, declared, scope)?;
            let to = kinded_end(alloc, high, declared, scope)?;
            span(alloc, from, to)
        }
    }
}

/// A bound that may be missing.
#[cycle(kinded)]
#[tactic(auto, using(crate::proofs::Rows::end_missing, crate::proofs::Rows::end_there))]
fn kinded_end(
    alloc: Global,
    bound: &Option<PEx>,
    declared: &Declared,
    scope: &[BoundName],
) -> Result<Option<Boxed<KEx>>, NoMemory>
    ensures { IfOk result (λ k. IsKindedEnd declared.now (scope_kinds scope.now) bound.now k) }
{
    match bound {
        Some(bound) => Ok(Some(kinded_bound(alloc, bound, declared, scope)?)),
        None => Ok(None),
    }
}

/// A bound of a range.
#[cycle(kinded)]
#[tactic(auto, using(crate::proofs::Rows::bound_kinded))]
fn kinded_bound(
    alloc: Global,
    bound: &PEx,
    declared: &Declared,
    scope: &[BoundName],
) -> Result<Boxed<KEx>, NoMemory>
    ensures { IfOk result (λ k. IsKindedBound declared.now (scope_kinds scope.now) bound.now k) }
{
    as_bound(alloc, kinded_ex(alloc, bound, declared, scope)?)
}

/// A range of these bounds. Where both are missing, they have nothing.
fn span(alloc: Global, from: Option<Boxed<KEx>>, to: Option<Boxed<KEx>>) -> Result<KRange, NoMemory>
    ensures { IfOk result (λ k. (names : List values.Text) → pure_krange names k ≡ ends_of (option_map (pure_kex names) from) (option_map (pure_kex names) to)) }
{
    match from {
        Some(from) => match to {
            Some(to) => Ok(KRange::Between(from, to)),
            None => Ok(KRange::From(from)),
        },
        None => match to {
            Some(to) => Ok(KRange::UpTo(to)),
            None => unbounded(alloc),
        },
    }
}

/// A range whose bounds have nothing.
fn unbounded(alloc: Global) -> Result<KRange, NoMemory>
    ensures { IfOk result (λ k. (names : List values.Text) → pure_krange names k ≡ ends_of None None) }
{
    let from = Boxed::new(alloc, KEx::Nothing)?;
    let to = Boxed::new(alloc, KEx::Nothing)?;
    Ok(KRange::Between(from, to))
}
