//! The domains of axes and of cells.
ghost use Rattle.std.specs.Prelude.{◌≡◌, IfOk, IfSome, map, option_map, [], ◌∷◌, ◌++◌, None, pos};
ghost use Rattle.ess_semantics.specs.Trees.{both_ends, one_value, no_exs, more_exs, int_dom};
ghost use Rattle.ess_semantics.specs.Kinds.{dom_list};
ghost use Rattle.ess_core.specs.declared.domains.Range.TheVariants.{One};
ghost use Rattle.ess_core.specs.declared.expressions.Ex.TheVariants.{Num};
ghost use Rattle.ess_core.specs.TreeViews.{words_of, within, exs_of, span, pure_ex, pure_range, pure_dom, pure_doms};
ghost use Rattle.ess_repr_laws.specs.StructureParts.{upto as up_to};
ghost use Rattle.ess_repr_declare_laws.specs.SizeTerms.{zero_ex, next_ex, listed_ex};
ghost use Rattle.ess_repr_declare_laws.specs.DeclaredTrees.{from_to as from_to_dom, axis_dom, cell_dom, widened_dom, widened_if as widened_where, with_dummy as with_dummy_dom, argument_axes};
ghost use Rattle.ess_repr.specs.CellUses.{can_be_out};

use crate::doms::boxed;
use crate::terms::{copied, listed, next, number};
use ess_core::{Boxed, Dom, Ex, NoMemory, Range, Row};
use std::alloc::Global;

/// Whether the cells of a table can be out of use.
#[derive(Clone, Copy, PartialEq, Eq, Debug)]
pub(crate) enum CellUse {
    /// Each cell says something of the value.
    AlwaysInUse,
    /// Where a slot is out of use its cells are 0 or false.
    CanBeOut,
}

/// From a number to a number: `int(LOW..HIGH)`.
pub(crate) fn from_to(
    alloc: Global,
    low: Boxed<Ex>,
    high: Boxed<Ex>,
) -> Result<Boxed<Dom>, NoMemory>
    ensures { IfOk result (λ d. pure_dom d ≡ from_to_dom (pure_ex low) (pure_ex high)) }
{
    let range = Range::Span(Some(low.into_inner()), Some(high.into_inner()));
    let ranges = Row::from_array(alloc, [range])?;
    Boxed::new(alloc, Dom::Int(ranges))
}

/// `int(0..HIGH)`
pub(crate) fn from_0_to(alloc: Global, high: Boxed<Ex>) -> Result<Boxed<Dom>, NoMemory>
    ensures { IfOk result (λ d. pure_dom d ≡ from_to_dom zero_ex (pure_ex high)) }
{
    let low = number(alloc, 0)?;
    from_to(alloc, low, high)
}

/// `int(1..HIGH)`
pub(crate) fn from_1_to(alloc: Global, high: Boxed<Ex>) -> Result<Boxed<Dom>, NoMemory>
    ensures { IfOk result (λ d. pure_dom d ≡ up_to (pure_ex high)) }
{
    let low = number(alloc, 1)?;
    from_to(alloc, low, high)
}

/// An axis over an atom: `bool` is `int(0..1)`, a type of n values is `int(1..n)`.
pub(crate) fn axis(alloc: Global, dom: &Dom) -> Result<Boxed<Dom>, NoMemory>
    ensures { IfOk result (λ d. pure_dom d ≡ axis_dom (pure_dom dom.now)) }
{
    match dom {
        Dom::Bool => {
            let high = number(alloc, 1)?;
            from_0_to(alloc, high)
        }
        Dom::Name(_) => numbers_of_type(alloc, dom),
        _ => boxed(alloc, dom),
    }
}

/// From 1 to the number of members of a type.
fn numbers_of_type(alloc: Global, dom: &Dom) -> Result<Boxed<Dom>, NoMemory>
    ensures { IfOk result (λ d. pure_dom d ≡ up_to (listed_ex (pure_dom dom.now))) }
{
    let members = listed(alloc, dom)?;
    from_1_to(alloc, members)
}

/// The cell of an atom: `bool` stays one.
pub(crate) fn cell(alloc: Global, dom: &Dom) -> Result<Boxed<Dom>, NoMemory>
    ensures { IfOk result (λ d. pure_dom d ≡ cell_dom (pure_dom dom.now)) }
{
    match dom {
        Dom::Name(_) => numbers_of_type(alloc, dom),
        _ => boxed(alloc, dom),
    }
}

/// With 0 as one more member where the cell can be out of use: `int(RANGES)` becomes `int(0, RANGES)`. All else stays.
pub(crate) fn widened_if(
    alloc: Global,
    out: CellUse,
    dom: Boxed<Dom>,
) -> Result<Boxed<Dom>, NoMemory>
    ensures { IfOk result (λ d. pure_dom d ≡ widened_where (can_be_out out) (pure_dom dom)) }
{
    match out {
        CellUse::AlwaysInUse => Ok(dom),
        CellUse::CanBeOut => widened(alloc, dom),
    }
}

/// With 0 as one more member.
fn widened(alloc: Global, dom: Boxed<Dom>) -> Result<Boxed<Dom>, NoMemory>
    ensures { IfOk result (λ d. pure_dom d ≡ widened_dom (pure_dom dom)) }
{
    match ranges_with_0(alloc, dom.get()) {
        Ok(Some(ranges)) => {
            drop(dom);
            Boxed::new(alloc, Dom::Int(ranges))
        }
        Ok(None) => Ok(dom),
        Err(no) => {
            drop(dom);
            Err(no)
        }
    }
}

/// The ranges of an int domain that has some, with 0 before them.
fn ranges_with_0(alloc: Global, dom: &Dom) -> Result<Option<Row<Range>>, NoMemory>
    ensures some { IfOk result (λ o. IfSome o (λ rs. widened_dom (pure_dom dom.now)
        ≡ int_dom (words_of (map pure_range rs)) (exs_of (within (map pure_range rs))))) }
    ensures none { IfOk result (λ o. o ≡ None → widened_dom (pure_dom dom.now) ≡ pure_dom dom.now) }
{
    match dom {
        Dom::Int(ranges) => {
            if ranges.is_empty() {
                return Ok(None);
            }
            Ok(Some(with_0(alloc, ranges.as_slice())?))
        }
        _ => Ok(None),
    }
}

/// 0 and copies of the ranges.
fn with_0(alloc: Global, ranges: &[Range]) -> Result<Row<Range>, NoMemory>
    ensures { IfOk result (λ rs. rs ≡ One (Num (pos 0)) ∷ ranges.now) }
{
    let mut all = Row::from_array(alloc, [Range::One(Ex::Num(0))])?;
    for range in ranges {
        match range.copy(alloc) {
            Ok(copy) => all.push(copy)?,
            Err(no) => return Err(no),
        }
    }
    Ok(all)
}

// ---- the dummy

/// An atom with its dummy as one more member: one above its last.
pub(crate) fn with_dummy(alloc: Global, dom: &Dom) -> Result<Boxed<Dom>, NoMemory>
    ensures { IfOk result (λ d. pure_dom d ≡ with_dummy_dom (pure_dom dom.now)) }
{
    match dom {
        Dom::Int(ranges) => {
            if ranges.len() == 1 {
                return dummy_of_range(alloc, dom, &ranges.as_slice()[0]);
            }
            boxed(alloc, dom)
        }
        Dom::Name(_) => {
            let low = number(alloc, 1)?;
            let high = listed(alloc, dom)?;
            let last = listed(alloc, dom)?;
            with_next(alloc, low, high, last)
        }
        _ => boxed(alloc, dom),
    }
}

/// The int domain of this one range with its dummy.
fn dummy_of_range(alloc: Global, dom: &Dom, range: &Range) -> Result<Boxed<Dom>, NoMemory>
    requires { pure_dom dom.now ≡ int_dom ((pure_range range.now).0 ∷ []) (exs_of (pure_range range.now).1) }
    ensures { IfOk result (λ d. pure_dom d ≡ with_dummy_dom (pure_dom dom.now)) }
{
    match range {
        Range::Span(low, high) => dummy_of_bounds(alloc, dom, low, high),
        Range::One(_) => boxed(alloc, dom),
    }
}

/// The int domain of a range with these bounds with its dummy.
#[tactic(auto, using(crate::proofs::CellDomains::dummy_here, crate::proofs::CellDomains::no_dummy_above, crate::proofs::CellDomains::no_dummy_below, crate::proofs::CellDomains::dummy_without_bounds))]
fn dummy_of_bounds(
    alloc: Global,
    dom: &Dom,
    low: &Option<Ex>,
    high: &Option<Ex>,
) -> Result<Boxed<Dom>, NoMemory>
    requires { pure_dom dom.now ≡ int_dom ((span (option_map pure_ex low.now) (option_map pure_ex high.now)).0 ∷ [])
        (exs_of (span (option_map pure_ex low.now) (option_map pure_ex high.now)).1) }
    ensures { IfOk result (λ d. pure_dom d ≡ with_dummy_dom (pure_dom dom.now)) }
{
    match low {
        Some(low) => match high {
            Some(high) => with_end(alloc, low, high),
            None => boxed(alloc, dom),
        },
        None => match high {
            Some(_) => boxed(alloc, dom),
            None => without_bounds(alloc),
        },
    }
}

/// `int(..)` without bounds, which no text has, with 1 as its dummy.
fn without_bounds(alloc: Global) -> Result<Boxed<Dom>, NoMemory>
    ensures { IfOk result (λ d. pure_dom d ≡ int_dom (both_ends ∷ one_value ∷ []) (exs_of ((span None None).1 ++ next_ex zero_ex ∷ []))) }
{
    let dummy = next(alloc, number(alloc, 0)?)?;
    let ranges = Row::from_array(
        alloc,
        [Range::Span(None, None), Range::One(dummy.into_inner())],
    )?;
    Boxed::new(alloc, Dom::Int(ranges))
}

/// `int(LOW..HIGH, HIGH + 1)`
fn with_end(alloc: Global, low: &Ex, high: &Ex) -> Result<Boxed<Dom>, NoMemory>
    ensures { IfOk result (λ d. pure_dom d ≡ int_dom (both_ends ∷ one_value ∷ [])
        (more_exs (pure_ex low.now) (more_exs (pure_ex high.now) (more_exs (next_ex (pure_ex high.now)) no_exs)))) }
{
    let low = copied(alloc, low)?;
    let last = copied(alloc, high)?;
    let high = copied(alloc, high)?;
    with_next(alloc, low, high, last)
}

/// `int(LOW..HIGH, LAST + 1)`
fn with_next(
    alloc: Global,
    low: Boxed<Ex>,
    high: Boxed<Ex>,
    last: Boxed<Ex>,
) -> Result<Boxed<Dom>, NoMemory>
    ensures { IfOk result (λ d. pure_dom d ≡ int_dom (both_ends ∷ one_value ∷ [])
        (more_exs (pure_ex low) (more_exs (pure_ex high) (more_exs (next_ex (pure_ex last)) no_exs)))) }
{
    let dummy = next(alloc, last)?;
    let range = Range::Span(Some(low.into_inner()), Some(high.into_inner()));
    let ranges = Row::from_array(alloc, [range, Range::One(dummy.into_inner())])?;
    Boxed::new(alloc, Dom::Int(ranges))
}

// ---- several axes

/// The axes over atoms.
#[tactic(auto, using(crate::proofs::CellDomains::axes_more, crate::proofs::CellDomains::axes_all))]
pub(crate) fn axes_over(alloc: Global, doms: &[Dom]) -> Result<Row<Dom>, NoMemory>
    ensures { IfOk result (λ ds. map pure_dom ds ≡ map axis_dom (dom_list (pure_doms doms.now))) }
{
    let mut axes = Row::with_capacity(alloc, doms.len())?;
    for dom in doms {
        axes.push(axis(alloc, dom)?.into_inner())?;
    }
    Ok(axes)
}

/// An axis over an atom, alone.
pub(crate) fn axis_alone(alloc: Global, dom: &Dom) -> Result<Row<Dom>, NoMemory>
    ensures { IfOk result (λ ds. map pure_dom ds ≡ axis_dom (pure_dom dom.now) ∷ []) }
{
    let axis = axis(alloc, dom)?;
    Row::from_array(alloc, [axis.into_inner()])
}

/// The axes over the first domain of a function: one for each component of a tuple.
pub(crate) fn axes_of_argument(alloc: Global, dom: &Dom) -> Result<Row<Dom>, NoMemory>
    ensures { IfOk result (λ ds. map pure_dom ds ≡ argument_axes (pure_dom dom.now)) }
{
    match dom {
        Dom::Tuple(parts) => axes_over(alloc, parts.as_slice()),
        _ => axis_alone(alloc, dom),
    }
}
