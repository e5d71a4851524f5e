//! Comprehensions over what is picked, where the order of items counts and nothing tells how many there are.
ghost use Rattle.std.specs.Prelude.{◌≡◌, map, option_map, is_some, IfOk};
ghost use Rattle.ess_semantics.specs.Trees.{name_pat, name_ex, comp_ex, from as from_source};
ghost use Rattle.ess_core_nodes.specs.NodeViews.{pure_node, pure_gens};
ghost use Rattle.ess_node_types.specs.TypedNames.{pure_names};
ghost use Rattle.ess_guard_laws.specs.IndexDomains.{index_dom as index_domain};
ghost use Rattle.ess_rules_laws.specs.ListedSources.{laid_out as comprehended};
ghost use Rattle.ess_rules_alternatives.specs.Cases.{put_through as through_one};
ghost use Rattle.ess_rules_forms.specs.PureAlternatives.{pure_alternative};
ghost use Rattle.ess_kind_rules_laws.specs.TermLookups.{looked_up as looked_up_in};
ghost use Rattle.ess_ordered_laws.specs.PickedSources.{picked_source as source_picked, is_untold as untold_term};
ghost use Rattle.ess_rules_ordered.specs.PickedForms.{untold_lookup as untold, is_told as told_alone, is_not_told, item_or_other as picked_either};
ghost use Rattle.ess_rules_ordered.specs.Supplies.{item_supply};

use crate::decided::are_decided;
use crate::lookups::ordered_lookup;
use crate::names::ItemNames;
use ess_core_nodes::{Gen, Node, copy_gens};
use ess_guard_forms::index_dom;
use ess_node_building::{comprehension, from, name};
use ess_node_types::NameTypes;
use ess_rows::{Boxed, NoMemory, Row, Text};
use ess_rules_folds::forms::{comp_in, source_in};
use ess_rules_forms::Alternative;
use ess_rules_offers::looked_up;
use ess_rules_picked::picks;
use std::alloc::Global;

/// A comprehension over each alternative of its first source, where that is picked and can't be taken in order as it is. `NoMemory`
/// where there is no room for it.
#[tactic(auto, using(crate::proofs::PickedForms::source_by_parts, crate::proofs::PickedForms::sources_one_by_one))]
pub(crate) fn picked_source(
    alloc: Global,
    types: &NameTypes,
    names: &ItemNames<'_>,
    node: &Node,
) -> Result<Option<Row<Alternative>>, NoMemory>
    ensures { IfOk result (λ o. option_map (map pure_alternative) o
        ≡ source_picked (item_supply names.now) (pure_names types.now) (pure_node node.now)) }
{
    let Some((body, gens)) = comp_in(node) else {
        return Ok(None);
    };
    let Some((bound, source, rest)) = source_in(gens) else {
        return Ok(None);
    };
    let found = untold_lookup(alloc, types, names, source)?;
    let Some(found) = found else {
        return Ok(None);
    };
    let item = over_name(alloc, names.other, bound, body, rest)?;
    Ok(Some(each_over(alloc, names.other, found.as_slice(), item.get())?))
}

/// What a term picks, where its form tells no index domain and it can't be taken in order as it is.
#[tactic(auto, using(crate::proofs::PickedForms::untold_by_lookup))]
fn untold_lookup(
    alloc: Global,
    types: &NameTypes,
    names: &ItemNames<'_>,
    term: &Node,
) -> Result<Option<Row<Alternative>>, NoMemory>
    ensures { IfOk result (λ o. option_map (map pure_alternative) o
        ≡ untold (item_supply names.now) (pure_names types.now) (pure_node term.now)) }
{
    if !picks(term) {
        return Ok(None);
    }
    if has_axis(alloc, term)? {
        return Ok(None);
    }
    item_or_other(alloc, types, names, term)
}

/// Whether the term is picked, with no index domain that its form tells, and can't be taken in order as it is. `NoMemory` where there is
/// no room to tell.
#[tactic(auto, using(crate::proofs::PickedForms::untold_by_axis))]
pub fn is_untold(
    alloc: Global,
    types: &NameTypes,
    names: &ItemNames<'_>,
    term: &Node,
) -> Result<bool, NoMemory>
    ensures { IfOk result (λ b. b ≡ untold_term (item_supply names.now) (pure_names types.now) (pure_node term.now)) }
{
    if !picks(term) {
        return Ok(false);
    }
    if has_axis(alloc, term)? {
        return Ok(false);
    }
    is_picked_untold(alloc, types, names, term)
}

/// Whether what a term picks isn't told in order.
fn is_picked_untold(
    alloc: Global,
    types: &NameTypes,
    names: &ItemNames<'_>,
    term: &Node,
) -> Result<bool, NoMemory>
    ensures { IfOk result (λ b. b
        ≡ is_not_told (looked_up_in (pure_names types.now) names.now.counted.now names.now.parts.now (pure_node term.now))) }
{
    let found = looked_up(alloc, types, names.counted, names.parts, term)?;
    match found {
        Some(found) => Ok(!is_told(found.as_slice())),
        None => Ok(true),
    }
}

/// Whether the form of a term tells an index domain.
fn has_axis(alloc: Global, term: &Node) -> Result<bool, NoMemory>
    ensures { IfOk result (λ b. b ≡ is_some (index_domain (pure_node term.now))) }
{
    let axis = index_dom(alloc, term)?;
    Ok(axis.is_some())
}

/// What a term picks as an item of a comprehension by its number; else as any other term, where that isn't told in order.
fn item_or_other(
    alloc: Global,
    types: &NameTypes,
    names: &ItemNames<'_>,
    term: &Node,
) -> Result<Option<Row<Alternative>>, NoMemory>
    ensures { IfOk result (λ o. option_map (map pure_alternative) o
        ≡ picked_either (item_supply names.now) (pure_names types.now) (pure_node term.now)) }
{
    if let Some(items) = ordered_lookup(alloc, names.counted, names.parts, term)? {
        return Ok(Some(items));
    }
    let found = looked_up(alloc, types, names.counted, names.parts, term)?;
    match found {
        Some(found) => {
            if is_told(found.as_slice()) {
                Ok(None)
            } else {
                Ok(Some(found))
            }
        }
        None => Ok(None),
    }
}

/// Whether the alternatives are one alone, and no table says which items it has.
fn is_told(found: &[Alternative]) -> bool
    ensures { result ≡ told_alone (map pure_alternative found.now) }
{
    match found.split_first() {
        None => false,
        Some((one, more)) => match more.split_first() {
            None => are_decided(one.gens.as_slice()),
            Some(_) => false,
        },
    }
}

/// A comprehension over a name, with what stands behind its first generator.
fn over_name(
    alloc: Global,
    one: &Text,
    bound: &Text,
    body: &Node,
    rest: &[Gen],
) -> Result<Boxed<Node>, NoMemory>
    ensures { IfOk result (λ n. pure_node n
        ≡ comp_ex (pure_node body.now) (from_source (name_pat bound.now) (name_ex one.now) (pure_gens rest.now))) }
{
    let source = name(alloc, one)?;
    let mut gens = Row::new(alloc);
    gens.push(from(alloc, bound, source)?)?;
    let mut behind = copy_gens(alloc, rest)?;
    gens.append(&mut behind)?;
    let body = body.copy(alloc)?;
    comprehension(alloc, body, gens)
}

/// An item over each of the alternatives, which get a name.
fn each_over(
    alloc: Global,
    one: &Text,
    offered: &[Alternative],
    item: &Node,
) -> Result<Row<Alternative>, NoMemory>
    ensures { IfOk result (λ l. map pure_alternative l
        ≡ map (through_one one.now (pure_node item.now)) (map pure_alternative offered.now)) }
{
    let mut all = Row::with_capacity(alloc, offered.len())?;
    for offer in offered {
        let over = over_one(alloc, one, offer, item)?;
        all.push(over)?;
    }
    Ok(all)
}

/// An item over one of them.
fn over_one(
    alloc: Global,
    one: &Text,
    offer: &Alternative,
    item: &Node,
) -> Result<Alternative, NoMemory>
    ensures { IfOk result (λ a. pure_alternative a ≡ through_one one.now (pure_node item.now) (pure_alternative offer.now)) }
{
    let list = laid_out(alloc, offer)?;
    let mut gens = Row::new(alloc);
    gens.push(from(alloc, one, list)?)?;
    let item = item.copy(alloc)?;
    Ok(Alternative { gens, item })
}

/// The comprehension of an alternative.
pub(crate) fn laid_out(alloc: Global, offer: &Alternative) -> Result<Boxed<Node>, NoMemory>
    ensures { IfOk result (λ n. pure_node n ≡ comprehended (pure_alternative offer.now)) }
{
    let item = offer.item.get().copy(alloc)?;
    let gens = copy_gens(alloc, offer.gens.as_slice())?;
    comprehension(alloc, item, gens)
}
