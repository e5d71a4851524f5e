//! Words over several alternatives of their first source that isn't plain: `min` and `max`, `toSet`, `allDiff`.
ghost use Rattle.std.specs.Prelude.{◌≡◌, ◌&&◌, false, IfOk, option_map, is_some, map};
ghost use Rattle.ess_semantics.specs.Refined.{is_refined as refined, are_refined_gens as refined_gens};
ghost use Rattle.ess_core_nodes.specs.NodeViews.{pure_node, pure_gens};
ghost use Rattle.ess_node_types.specs.TypedNames.{pure_names};
ghost use Rattle.ess_rules_forms.specs.PureAlternatives.{pure_alternative};
ghost use Rattle.ess_refine_laws.specs.LeavingConditions.{at_last_condition as last_condition};
ghost use Rattle.ess_open_rules_laws.specs.OpenSources.{comp_offered as offered_comp, several as are_several, least_of_several as least, sets_united as united, set_of_several as set_of_more, set_of_term as set_of, is_counted_apart as counted, counted_apart as apart};
ghost use Rattle.ess_semantics.specs.Trees.{fun1};
ghost use Rattle.ess_rules_laws.specs.ListedSources.{laid_out as comp_of};
ghost use Rattle.ess_rules_laws.specs.ListRules.{members_list};
ghost use Rattle.ess_refine_laws.specs.ExtremeRules.{is_extreme as picks_extreme};
ghost use Rattle.ess_kind_rules.specs.Supplies.{taken_supply};
ghost use Rattle.ess_rules_opening.specs.OpenedViews.{pure_comp_word};
ghost use Rattle.ess_kind_rules.specs.WordParts.{least_by, set_by, makes_set, tells_apart};

use crate::offering::comp_offered;
use crate::supplies::Taken;
use crate::words::{laid_out, only_one};
use ess_core::{Fun, Op2};
use ess_core_nodes::{Gen, Node, Op};
use ess_node_building::{binary, comprehension, from, literal, name, word};
use ess_node_forms::{are_refined_gens, is_refined};
use ess_node_types::NameTypes;
use ess_rows::{Boxed, NoMemory, Row, Text};
use ess_rules_conditions::at_last_condition;
use ess_rules_folds::forms::{only_in, word_in};
use ess_rules_folds::is_laid_open;
use ess_rules_forms::Alternative;
use ess_rules_lists::different_term;
use ess_rules_opening::{CompWord, comp_word};
use ess_rules_sources::extreme_alternatives;
use std::alloc::Global;

/// What a comprehension offers, where that isn't one alternative.
#[tactic(auto, using(crate::proofs::WordForms::several_of_one, crate::proofs::WordForms::several_of_more))]
fn several(
    alloc: Global,
    types: &NameTypes,
    taken: &Taken<'_>,
    body: &Node,
    gens: &[Gen],
) -> Result<Option<Row<Alternative>>, NoMemory>
    ensures { IfOk result (λ o. option_map (map pure_alternative) o
        ≡ are_several (offered_comp (taken_supply taken.now) (pure_names types.now) (pure_node body.now) (pure_gens gens.now))) }
{
    let found = comp_offered(alloc, types, taken, body, gens)?;
    let Some(found) = found else {
        return Ok(None);
    };
    if only_one(found.as_slice()).is_some() {
        Ok(None)
    } else {
        Ok(Some(found))
    }
}

/// The least or the greatest over several alternatives. `NoMemory` where there is no room for it.
#[tactic(auto, using(crate::proofs::WordForms::least_by_parts))]
pub fn least_of_several(
    alloc: Global,
    types: &NameTypes,
    taken: &Taken<'_>,
    node: &Node,
) -> Result<Option<Boxed<Node>>, NoMemory>
    ensures { IfOk result (λ o. option_map pure_node o ≡ least (taken_supply taken.now) (pure_names types.now) (pure_node node.now)) }
{
    match comp_word(node) {
        Some(parts) => least_by(alloc, types, taken, &parts),
        None => Ok(None),
    }
}

/// The same by its parts.
#[tactic(auto, using(crate::proofs::WordForms::least_put))]
fn least_by(
    alloc: Global,
    types: &NameTypes,
    taken: &Taken<'_>,
    parts: &CompWord<'_>,
) -> Result<Option<Boxed<Node>>, NoMemory>
    ensures { IfOk result (λ o. option_map pure_node o
        ≡ least_by (taken_supply taken.now) (pure_names types.now) (pure_comp_word parts.now)) }
{
    if parts.mark || !is_extreme(parts.fun) {
        return Ok(None);
    }
    let found = several(alloc, types, taken, parts.body, parts.gens)?;
    let Some(found) = found else {
        return Ok(None);
    };
    let made = extreme_alternatives(alloc, parts.fun, found.as_slice())?;
    Ok(made)
}

/// Whether the word picks the least or the greatest.
fn is_extreme(fun: Fun) -> bool
    ensures { result ≡ picks_extreme fun }
{
    match fun {
        Fun::Min | Fun::Max => true,
        _ => false,
    }
}

/// The set of the items of a comprehension over several alternatives. `NoMemory` where there is no room for it.
#[tactic(auto, using(crate::proofs::WordForms::set_by_parts))]
pub fn set_of_several(
    alloc: Global,
    types: &NameTypes,
    taken: &Taken<'_>,
    node: &Node,
) -> Result<Option<Boxed<Node>>, NoMemory>
    ensures { IfOk result (λ o. option_map pure_node o
        ≡ set_of_more (taken_supply taken.now) (pure_names types.now) (pure_node node.now)) }
{
    match comp_word(node) {
        Some(parts) => set_by(alloc, types, taken, &parts),
        None => Ok(None),
    }
}

/// The same by its parts.
fn set_by(
    alloc: Global,
    types: &NameTypes,
    taken: &Taken<'_>,
    parts: &CompWord<'_>,
) -> Result<Option<Boxed<Node>>, NoMemory>
    ensures { IfOk result (λ o. option_map pure_node o
        ≡ set_by (taken_supply taken.now) (pure_names types.now) (pure_comp_word parts.now)) }
{
    if parts.mark || !is_to_set(parts.fun) {
        return Ok(None);
    }
    let found = several(alloc, types, taken, parts.body, parts.gens)?;
    match found {
        Some(found) => Ok(Some(sets_united(alloc, found.as_slice())?)),
        None => Ok(None),
    }
}

/// Whether the word makes a set.
fn is_to_set(fun: Fun) -> bool
    ensures { result ≡ makes_set fun }
{
    match fun {
        Fun::ToSet => true,
        _ => false,
    }
}

/// The union of the sets of the items of each alternative.
#[tactic(auto, using(crate::proofs::SetRows::united_none, crate::proofs::SetRows::united_last, crate::proofs::SetRows::united_more))]
fn sets_united(alloc: Global, found: &[Alternative]) -> Result<Boxed<Node>, NoMemory>
    ensures { IfOk result (λ n. pure_node n ≡ united (map pure_alternative found.now)) }
{
    let mut left = found.len();
    if left == 0 {
        return literal(alloc, Op::Set, Row::new(alloc));
    }
    left -= 1;
    let mut all = set_of_one(alloc, &found[left])?;
    while left > 0 {
        left -= 1;
        let set = set_of_one(alloc, &found[left])?;
        all = binary(alloc, false, Op2::Union, set, all)?;
    }
    Ok(all)
}

/// The set of the items of one alternative.
fn set_of_one(alloc: Global, offered: &Alternative) -> Result<Boxed<Node>, NoMemory>
    ensures { IfOk result (λ n. pure_node n ≡ fun1 false Fun.ToSet (comp_of (pure_alternative offered.now))) }
{
    let items = laid_out(alloc, offered)?;
    word(alloc, false, Fun::ToSet, items)
}

/// `toSet(t)` as `toSet([x | x <- t])`, where t isn't laid open. `NoMemory` where there is no room for it.
#[tactic(auto, using(crate::proofs::WordForms::set_term_by_parts))]
pub fn set_of_term(
    alloc: Global,
    taken: &Taken<'_>,
    node: &Node,
) -> Result<Option<Boxed<Node>>, NoMemory>
    ensures { IfOk result (λ o. option_map pure_node o ≡ set_of (taken_supply taken.now) (pure_node node.now)) }
{
    let Some((mark, fun, operands)) = word_in(node) else {
        return Ok(None);
    };
    if mark || !is_to_set(fun) {
        return Ok(None);
    }
    let Some(term) = only_in(operands) else {
        return Ok(None);
    };
    if is_laid_open(term) {
        return Ok(None);
    }
    Ok(Some(set_of_members(alloc, taken.one, term)?))
}

/// `toSet([x | x <- t])`.
fn set_of_members(alloc: Global, bound: &Text, term: &Node) -> Result<Boxed<Node>, NoMemory>
    ensures { IfOk result (λ n. pure_node n ≡ fun1 false Fun.ToSet (members_list bound.now (pure_node term.now))) }
{
    let source = term.copy(alloc)?;
    let mut gens = Row::new(alloc);
    gens.push(from(alloc, bound, source)?)?;
    let item = name(alloc, bound)?;
    let items = comprehension(alloc, item, gens)?;
    word(alloc, false, Fun::ToSet, items)
}

/// `allDiff` of a list that models can't have as it is, by how often each item is there. `NoMemory` where there is no room for it.
#[tactic(auto, using(crate::proofs::WordForms::apart_by_parts))]
pub fn counted_apart(
    alloc: Global,
    types: &NameTypes,
    taken: &Taken<'_>,
    node: &Node,
) -> Result<Option<Boxed<Node>>, NoMemory>
    ensures { IfOk result (λ o. option_map pure_node o ≡ apart (taken_supply taken.now) (pure_names types.now) (pure_node node.now)) }
{
    let Some(parts) = comp_word(node) else {
        return Ok(None);
    };
    if !parts.mark || !is_all_diff(parts.fun) {
        return Ok(None);
    }
    if is_counted_apart(alloc, types, taken, parts.body, parts.gens)? {
        different_term(alloc, taken.one, node)
    } else {
        Ok(None)
    }
}

/// Whether the word says that items differ.
fn is_all_diff(fun: Fun) -> bool
    ensures { result ≡ tells_apart fun }
{
    match fun {
        Fun::AllDiff => true,
        _ => false,
    }
}

/// Whether a condition reads cells once all is refined, or there are several alternatives.
fn is_counted_apart(
    alloc: Global,
    types: &NameTypes,
    taken: &Taken<'_>,
    body: &Node,
    gens: &[Gen],
) -> Result<bool, NoMemory>
    ensures { IfOk result (λ b. b ≡ counted (taken_supply taken.now) (pure_names types.now) (pure_node body.now) (pure_gens gens.now)) }
{
    if reads_cells(body, gens) {
        return Ok(true);
    }
    let found = several(alloc, types, taken, body, gens)?;
    Ok(found.is_some())
}

/// Whether all is refined, and a condition reads cells.
fn reads_cells(body: &Node, gens: &[Gen]) -> bool
    ensures { result ≡ refined (pure_node body.now) && (refined_gens (pure_gens gens.now) && is_some (last_condition (pure_gens gens.now))) }
{
    is_refined(body) && (are_refined_gens(gens) && at_last_condition(gens).is_some())
}
