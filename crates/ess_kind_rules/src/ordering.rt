//! Comprehensions in any place, at the first generator that isn't plain: the order of items stays.
ghost use Rattle.std.specs.Prelude.{◌≡◌, IfOk, option_map};
ghost use Rattle.ess_core_nodes.specs.NodeViews.{pure_node, pure_gens};
ghost use Rattle.ess_node_types.specs.TypedNames.{pure_names};
ghost use Rattle.ess_rules_forms.specs.PureAlternatives.{pure_alternative};
ghost use Rattle.ess_rules_laws.specs.ListedSources.{put_listed as listed_put};
ghost use Rattle.ess_open_rules_laws.specs.OpenGenerators.{put_before as put_first};
ghost use Rattle.ess_open_rules_laws.specs.OpenSources.{opened_in_order as in_order, kept_in_order as in_order_kept, kept_behind as order_kept};
ghost use Rattle.ess_kind_rules.specs.Supplies.{taken_supply};

use crate::decided::decided_one;
use crate::offering::picked_members;
use crate::supplies::Taken;
use ess_core_nodes::{Gen, Node, copy_gens};
use ess_node_building::comprehension;
use ess_node_types::{NameTypes, names_behind};
use ess_rows::{Boxed, NoMemory, Text};
use ess_rules_folds::forms::{comp_in, source_in};
use ess_rules_forms::Alternative;
use ess_rules_generators::{before, name_over_record, name_over_tuple, put_in, splice, split};
use ess_rules_offers::matrix_listing;
use ess_rules_opening::{at_first_open, pattern_opened};
use std::alloc::Global;

/// What a rule that keeps the order of items makes of a comprehension at its first generator that isn't plain. `NoMemory` where there is
/// no room for it.
#[tactic(auto, using(crate::proofs::CompForms::kept_by_parts))]
pub fn kept_behind(
    alloc: Global,
    types: &NameTypes,
    taken: &Taken<'_>,
    node: &Node,
) -> Result<Option<Boxed<Node>>, NoMemory>
    ensures { IfOk result (λ o. option_map pure_node o
        ≡ order_kept (taken_supply taken.now) (pure_names types.now) (pure_node node.now)) }
{
    let Some((body, gens)) = comp_in(node) else {
        return Ok(None);
    };
    let Some(opened) = at_first_open(gens) else {
        return Ok(None);
    };
    let under = names_behind(alloc, opened.before, types)?;
    let body = body.copy(alloc)?;
    let tail = comprehension(alloc, body, copy_gens(alloc, opened.after)?)?;
    let made = kept_in_order(alloc, &under, taken, tail.get())?;
    match made {
        Some(made) => put_before(alloc, opened.before, made.get()),
        None => Ok(None),
    }
}

/// The comprehension with generators before its own.
#[tactic(auto, using(crate::proofs::CompForms::before_by_parts))]
fn put_before(alloc: Global, first: &[Gen], node: &Node) -> Result<Option<Boxed<Node>>, NoMemory>
    ensures { IfOk result (λ o. option_map pure_node o ≡ put_first (pure_gens first.now) (pure_node node.now)) }
{
    let Some((body, gens)) = comp_in(node) else {
        return Ok(None);
    };
    let gens = before(alloc, first, copy_gens(alloc, gens)?)?;
    let body = body.copy(alloc)?;
    Ok(Some(comprehension(alloc, body, gens)?))
}

/// What the first of these rules that fires makes of a comprehension at its first generator.
fn kept_in_order(
    alloc: Global,
    types: &NameTypes,
    taken: &Taken<'_>,
    node: &Node,
) -> Result<Option<Boxed<Node>>, NoMemory>
    ensures { IfOk result (λ o. option_map pure_node o
        ≡ in_order_kept (taken_supply taken.now) (pure_names types.now) (pure_node node.now)) }
{
    if let Some(made) = splice(alloc, node)? {
        return Ok(Some(made));
    }
    if let Some(made) = split(alloc, node)? {
        return Ok(Some(made));
    }
    if let Some(made) = name_over_tuple(alloc, taken.parts, node)? {
        return Ok(Some(made));
    }
    if let Some(made) = name_over_record(alloc, taken.parts, node)? {
        return Ok(Some(made));
    }
    if let Some(made) = pattern_opened(alloc, types, taken.one, node)? {
        return Ok(Some(made));
    }
    opened_in_order(alloc, types, taken, node)
}

/// A comprehension over a view of a matrix, or over what is picked where no table says which items there are.
#[tactic(auto, using(crate::proofs::CompForms::in_order_by_parts))]
fn opened_in_order(
    alloc: Global,
    types: &NameTypes,
    taken: &Taken<'_>,
    node: &Node,
) -> Result<Option<Boxed<Node>>, NoMemory>
    ensures { IfOk result (λ o. option_map pure_node o ≡ in_order (taken_supply taken.now) (pure_names types.now) (pure_node node.now)) }
{
    let Some((body, gens)) = comp_in(node) else {
        return Ok(None);
    };
    let Some((name, source, rest)) = source_in(gens) else {
        return Ok(None);
    };
    let seen = matrix_listing(alloc, taken.one, source)?;
    if let Some(seen) = seen {
        return Ok(Some(put_listed(alloc, name, body, rest, &seen)?));
    }
    let found = picked_members(alloc, types, taken, source)?;
    let Some(found) = found else {
        return Ok(None);
    };
    match decided_one(found.as_slice()) {
        Some(one) => Ok(Some(put_listed(alloc, name, body, rest, one)?)),
        None => Ok(None),
    }
}

/// The comprehension with the item in the place of the name, under the generators of the item.
fn put_listed(
    alloc: Global,
    name: &Text,
    body: &Node,
    rest: &[Gen],
    offered: &Alternative,
) -> Result<Boxed<Node>, NoMemory>
    ensures { IfOk result (λ n. pure_node n
        ≡ listed_put name.now (pure_node body.now) (pure_gens rest.now) (pure_alternative offered.now)) }
{
    put_in(
        alloc,
        name,
        offered.item.get(),
        offered.gens.as_slice(),
        body,
        rest,
    )
}
