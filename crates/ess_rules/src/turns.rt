//! The rules at the root of a tree, in the order in which they are tried.
ghost use Rattle.std.specs.Prelude.{◌≡◌, ◌+◌, ◌≤◌, IfOk, OnOk, option_map};
ghost use Rattle.ess_core_nodes.specs.NodeViews.{pure_node};
ghost use Rattle.ess_node_types.specs.TypedNames.{pure_names};
ghost use Rattle.ess_rules.specs.Ruled.{IsTurn, first_asked, later_asked};
ghost use Rattle.ess_kind_rules.specs.Supplies.{taken_supply};
ghost use Rattle.ess_rules.specs.Supplies.{IsRewritten, IsSourcedBehind, IsRewrittenBehind};

use crate::comparing::comparing;
use crate::conditions::conditions;
use crate::equality::equality;
use crate::folds::folds;
use crate::generators::generators;
use crate::lists::lists;
use crate::membership::membership;
use crate::numbered::numbered;
use crate::ordered::ordered;
use crate::reserving::{component_count, counted, reserved_name, reserved_names};
use crate::settled::may_leave;
use crate::sizes::sizes;
use crate::source_rules::source_rules;
use crate::sourced::with_new_source;
use ess_core_nodes::Node;
use ess_kind_rules as kinds;
use ess_kind_rules::Taken;
use ess_model_names::told_apart_from;
use ess_node_types::NameTypes;
use ess_rows::{Boxed, NoMemory};
use ess_rules_conditions::{at_last_condition, extreme_condition, opposite_of};
use ess_rules_folds::forms::comp_in;
use ess_rules_forms::plain_word;
use std::alloc::Global;

/// What the first rule that fires makes of the root of a tree, where names have these types. Where that is nothing, none of the rules that
/// are asked of every root fires. Rules take reserved names from `next` on, and where one fires the number of the name behind them is left
/// there; else `next` stays. `NoMemory` where there is no room for it, or the reserved names can't be counted.
pub fn rule_at(
    alloc: Global,
    node: &Node,
    names: &NameTypes,
    next: &mut u64,
) -> Result<Option<Boxed<Node>>, NoMemory>
    ensures { IfOk result (λ o. IsTurn next.old (pure_names names.now) (pure_node node.now) (option_map pure_node o) next.new) }
{
    let first = *next;
    let count = component_count(node);
    let from = counted(first, 3)?;
    let behind = counted(from, count)?;
    let one = reserved_name(alloc, first)?;
    let other = reserved_name(alloc, counted(first, 1)?)?;
    let third = reserved_name(alloc, counted(first, 2)?)?;
    let parts = reserved_names(alloc, from, count)?;
    let taken = Taken {
        one: &one,
        other: &other,
        third: &third,
        parts: parts.as_slice(),
        next: behind,
    };
    if let Some(new) = first_rules(alloc, names, &taken, node)? {
        *next = behind;
        return Ok(Some(new));
    }
    let mut end = behind;
    if let Some(new) = of_a_source(alloc, names, &taken, &mut end, node)? {
        *next = end;
        return Ok(Some(new));
    }
    if let Some(new) = later_rules(alloc, names, &taken, node)? {
        *next = behind;
        return Ok(Some(new));
    }
    let mut end = behind;
    if let Some(new) = least_under_a_condition(alloc, &taken, &mut end, node)? {
        *next = end;
        return Ok(Some(new));
    }
    Ok(None)
}

/// The rules of the forms of kinds, of what is picked, the shortest of folds, those of comprehensions whose items have an order, and those
/// of comprehensions whose items are counted.
fn first_rules(
    alloc: Global,
    names: &NameTypes,
    taken: &Taken<'_>,
    node: &Node,
) -> Result<Option<Boxed<Node>>, NoMemory>
    ensures { IfOk result (λ o. IsRewritten first_asked (taken_supply taken.now) (pure_names names.now) (pure_node node.now)
        (option_map pure_node o)) }
{
    if let Some(new) = kinds::views(alloc, names, taken, node)? {
        return Ok(Some(new));
    }
    if let Some(new) = kinds::tests(alloc, names, taken, node)? {
        return Ok(Some(new));
    }
    if let Some(new) = kinds::sizes(alloc, names, taken, node)? {
        return Ok(Some(new));
    }
    if let Some(new) = kinds::picks(alloc, names, taken, node)? {
        return Ok(Some(new));
    }
    if let Some(new) = folds(alloc, names, taken, node)? {
        return Ok(Some(new));
    }
    if let Some(new) = ordered(alloc, names, taken, node)? {
        return Ok(Some(new));
    }
    if let Some(new) = numbered(alloc, names, taken, node)? {
        return Ok(Some(new));
    }
    Ok(None)
}

/// The rules that put the term of a source in, which is told apart before.
fn of_a_source(
    alloc: Global,
    names: &NameTypes,
    taken: &Taken<'_>,
    end: &mut u64,
    node: &Node,
) -> Result<Option<Boxed<Node>>, NoMemory>
    ensures { IfOk result (λ o. IsSourcedBehind (taken_supply taken.now) (pure_names names.now) (pure_node node.now)
        (option_map pure_node o) end.old end.new) }
{
    let told = with_new_source(alloc, node, end)?;
    match told {
        Some(told) => source_rules(alloc, names, taken, told.get()),
        None => source_rules(alloc, names, taken, node),
    }
}

/// The rules that take no copy, behind those.
fn later_rules(
    alloc: Global,
    names: &NameTypes,
    taken: &Taken<'_>,
    node: &Node,
) -> Result<Option<Boxed<Node>>, NoMemory>
    ensures { IfOk result (λ o. IsRewritten later_asked (taken_supply taken.now) (pure_names names.now) (pure_node node.now)
        (option_map pure_node o)) }
{
    if let Some(new) = kinds::lists(alloc, names, taken, node)? {
        return Ok(Some(new));
    }
    if let Some(new) = generators(alloc, names, taken, node)? {
        return Ok(Some(new));
    }
    if let Some(new) = comparing(alloc, names, taken, node)? {
        return Ok(Some(new));
    }
    if let Some(new) = equality(alloc, names, taken, node)? {
        return Ok(Some(new));
    }
    if let Some(new) = membership(alloc, names, taken, node)? {
        return Ok(Some(new));
    }
    if let Some(new) = sizes(alloc, names, taken, node)? {
        return Ok(Some(new));
    }
    if let Some(new) = lists(alloc, names, taken, node)? {
        return Ok(Some(new));
    }
    if let Some(new) = conditions(alloc, names, taken, node)? {
        return Ok(Some(new));
    }
    Ok(None)
}

/// The least or the greatest under a condition that reads cells. The copy of its opposite takes reserved names from `end` on, and the
/// number of the name behind them is left there.
#[tactic(auto, using(crate::proofs::LeastUnderACondition::no_word, crate::proofs::LeastUnderACondition::no_list, crate::proofs::LeastUnderACondition::no_condition, crate::proofs::LeastUnderACondition::not_yet, crate::proofs::LeastUnderACondition::least_ruled))]
fn least_under_a_condition(
    alloc: Global,
    taken: &Taken<'_>,
    end: &mut u64,
    node: &Node,
) -> Result<Option<Boxed<Node>>, NoMemory>
    requires { end.now ≡ taken.now.next }
    ensures { IfOk result (λ o. IsRewrittenBehind (taken_supply taken.now) (pure_node node.now) (option_map pure_node o) end.old end.new) }
{
    let Some((word, operand)) = plain_word(node) else {
        return Ok(None);
    };
    let Some((body, gens)) = comp_in(operand) else {
        return Ok(None);
    };
    let Some(parts) = at_last_condition(gens) else {
        return Ok(None);
    };
    if !may_leave(node) {
        return Ok(None);
    }
    let opposite = opposite_of(alloc, word, body, &parts)?;
    let copy = told_apart_from(alloc, opposite.get(), end)?;
    extreme_condition(alloc, copy.get(), node)
}
