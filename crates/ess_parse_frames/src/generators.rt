//! Generators and conditions, from the patterns that stand before their sign.
ghost use Rattle.std.specs.Prelude.{◌≡◌, ◌++◌, IfOk};
ghost use Rattle.ess_semantics.specs.Trees.{cond, no_exs, no_gens};
ghost use Rattle.ess_grammar.specs.Patterns.{bound_by, all_bound_by};
ghost use Rattle.ess_parse_laws.specs.Reversed.{push_all_from, push_all_over, push_conditions, reverse_gens};
ghost use Rattle.ess_core.specs.TreeViews.{pure_ex, pure_dom, pure_pat, pure_gens};
ghost use Rattle.ess_core.specs.declared.expressions.Gen.TheVariants as G;
ghost use Rattle.ess_parse_frames.specs.Rows.{back_gens};
ghost use Rattle.ess_parse_frames.specs.Patterns.{pattern_ex, pats_in_order, back_pats};

use crate::operands::expression_of;
use crate::rows::with_item;
use ess_bound_names::BoundNames;
use ess_core::{Dom, Ex, Gen, Pat};
use ess_rows::{Boxed, NoMemory, Row};
use std::alloc::Global;

/// The names, and behind them those that a pattern binds. `NoMemory` where there is no room for them.
#[cycle(names)]
#[tactic(auto, using(crate::proofs::Bound::name_bound, crate::proofs::Bound::tuple_bound))]
fn with_names(alloc: Global, names: BoundNames, pattern: &Pat) -> Result<BoundNames, NoMemory>
    ensures { IfOk result (λ ns. ns ≡ names ++ bound_by (pattern_ex (pure_pat pattern.now))) }
{
    match pattern {
        Pat::Name(name) => names.with(alloc, name),
        Pat::Tuple(parts) => with_all_names(alloc, names, parts),
    }
}

/// The names, and behind them those that patterns bind. `NoMemory` where there is no room for them.
#[cycle(names)]
#[tactic(auto, using(crate::proofs::Bound::bound_none, crate::proofs::Bound::bound_more))]
pub fn with_all_names(
    alloc: Global,
    names: BoundNames,
    patterns: &Row<Pat>,
) -> Result<BoundNames, NoMemory>
    ensures { IfOk result (λ ns. ns ≡ names ++ all_bound_by (pats_in_order patterns.now)) }
{
    let mut names = names;
    for pattern in patterns.as_slice() {
        names = with_names(alloc, names, pattern)?;
    }
    Ok(names)
}

/// The items, and behind them patterns as conditions. `NoMemory` where there is no room for them.
#[tactic(auto, using(crate::proofs::RowLaws::gens_push_if, crate::proofs::SharedItems::conditions_none, crate::proofs::SharedItems::conditions_more))]
fn with_pattern_conditions(
    alloc: Global,
    items: Row<Gen>,
    patterns: &[Pat],
) -> Result<Row<Gen>, NoMemory>
    ensures { IfOk result (λ gs. back_gens gs ≡ push_conditions (back_pats patterns.now no_exs) (back_gens items)) }
{
    let mut items = items;
    for pattern in patterns {
        items.push(Gen::If(expression_of(alloc, pattern)?))?;
    }
    Ok(items)
}

/// The items, and behind them patterns and an expression as conditions. `NoMemory` where there is no room for them.
#[tactic(auto, using(crate::proofs::RowLaws::gens_push_if))]
pub fn with_conditions(
    alloc: Global,
    items: Row<Gen>,
    patterns: &Row<Pat>,
    last: Boxed<Ex>,
) -> Result<Row<Gen>, NoMemory>
    ensures { IfOk result (λ gs. back_gens gs ≡ cond (pure_ex last) (push_conditions (back_pats patterns.now no_exs) (back_gens items))) }
{
    let items = with_pattern_conditions(alloc, items, patterns.as_slice())?;
    with_item(items, Gen::If(last.into_inner()))
}

/// A generator over a copy of the value. `NoMemory` where there is no room for it.
fn from_copy(alloc: Global, pattern: &Pat, value: &Ex) -> Result<Gen, NoMemory>
    ensures { IfOk result (λ g. g ≡ G.From pattern.now value.now) }
{
    let pattern = pattern.copy(alloc)?;
    match value.copy(alloc) {
        Ok(value) => Ok(Gen::From(pattern, value)),
        Err(no) => {
            drop(pattern);
            Err(no)
        }
    }
}

/// The items, and behind them a generator over a copy of the value for each pattern. `NoMemory` where there is no room.
#[tactic(auto, using(crate::proofs::RowLaws::gens_push_from, crate::proofs::SharedItems::from_none, crate::proofs::SharedItems::from_more))]
fn from_copies(
    alloc: Global,
    items: Row<Gen>,
    patterns: &[Pat],
    value: &Ex,
) -> Result<Row<Gen>, NoMemory>
    ensures { IfOk result (λ gs. back_gens gs ≡ push_all_from (pats_in_order patterns.now) (pure_ex value.now) (back_gens items)) }
{
    let mut items = items;
    for pattern in patterns {
        items.push(from_copy(alloc, pattern, value)?)?;
    }
    Ok(items)
}

/// The items, and behind them a generator over the value for each pattern. `NoMemory` where there is no room for them.
#[tactic(auto, using(crate::proofs::RowLaws::gens_push_from, crate::proofs::SharedItems::from_none, crate::proofs::SharedItems::from_push))]
pub fn from_each(
    alloc: Global,
    items: Row<Gen>,
    patterns: Row<Pat>,
    value: Boxed<Ex>,
) -> Result<Row<Gen>, NoMemory>
    ensures { IfOk result (λ gs. back_gens gs ≡ push_all_from (pats_in_order patterns) (pure_ex value) (back_gens items)) }
{
    let mut patterns = patterns;
    let Some(last) = patterns.pop() else {
        return Ok(items);
    };
    match from_copies(alloc, items, patterns.as_slice(), value.get()) {
        Ok(items) => with_item(items, Gen::From(last, value.into_inner())),
        Err(no) => {
            drop(last);
            Err(no)
        }
    }
}

/// A generator over a copy of the domain. `NoMemory` where there is no room for it.
fn over_copy(alloc: Global, pattern: &Pat, domain: &Dom) -> Result<Gen, NoMemory>
    ensures { IfOk result (λ g. g ≡ G.Over pattern.now domain.now) }
{
    let pattern = pattern.copy(alloc)?;
    match domain.copy(alloc) {
        Ok(domain) => Ok(Gen::Over(pattern, domain)),
        Err(no) => {
            drop(pattern);
            Err(no)
        }
    }
}

/// The items, and behind them a generator over a copy of the domain for each pattern. `NoMemory` where there is no room.
#[tactic(auto, using(crate::proofs::RowLaws::gens_push_over, crate::proofs::SharedItems::over_none, crate::proofs::SharedItems::over_more))]
fn over_copies(
    alloc: Global,
    items: Row<Gen>,
    patterns: &[Pat],
    domain: &Dom,
) -> Result<Row<Gen>, NoMemory>
    ensures { IfOk result (λ gs. back_gens gs ≡ push_all_over (pats_in_order patterns.now) (pure_dom domain.now) (back_gens items)) }
{
    let mut items = items;
    for pattern in patterns {
        items.push(over_copy(alloc, pattern, domain)?)?;
    }
    Ok(items)
}

/// The items, and behind them a generator over the domain for each pattern. `NoMemory` where there is no room for them.
#[tactic(auto, using(crate::proofs::RowLaws::gens_push_over, crate::proofs::SharedItems::over_none, crate::proofs::SharedItems::over_push))]
pub fn over_each(
    alloc: Global,
    items: Row<Gen>,
    patterns: Row<Pat>,
    domain: Boxed<Dom>,
) -> Result<Row<Gen>, NoMemory>
    ensures { IfOk result (λ gs. back_gens gs ≡ push_all_over (pats_in_order patterns) (pure_dom domain) (back_gens items)) }
{
    let mut patterns = patterns;
    let Some(last) = patterns.pop() else {
        return Ok(items);
    };
    match over_copies(alloc, items, patterns.as_slice(), domain.get()) {
        Ok(items) => with_item(items, Gen::Over(last, domain.into_inner())),
        Err(no) => {
            drop(last);
            Err(no)
        }
    }
}

/// All items, in order, the last of which are generators over the domain, one for each pattern. `NoMemory` where there is no
/// room for them.
#[tactic(auto, using(crate::proofs::SharedItems::items_in_order))]
pub fn all_over(
    alloc: Global,
    items: Row<Gen>,
    patterns: Row<Pat>,
    domain: Boxed<Dom>,
) -> Result<Row<Gen>, NoMemory>
    ensures { IfOk result (λ gs. pure_gens gs ≡ reverse_gens (push_all_over (pats_in_order patterns) (pure_dom domain) (back_gens items)) no_gens) }
{
    let items = over_each(alloc, items, patterns, domain)?;
    Ok(items)
}
