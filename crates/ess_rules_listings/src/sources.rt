//! Folds over what their first source offers.
ghost use Rattle.std.specs.Prelude.{◌≡◌, List, Some, IfOk, option_map, map};
ghost use Rattle.ess_semantics.specs.Values.{Text};
ghost use Rattle.ess_semantics.specs.Trees as pure;
ghost use Rattle.ess_core_nodes.specs.NodeViews.{pure_node, pure_gens};
ghost use Rattle.ess_node_types.specs.TypedNames.{pure_names};
ghost use Rattle.ess_refine_laws.specs.ExtremeAlternatives.{put_alternative};
ghost use Rattle.ess_rules_folds.specs.Forms.{pure_fold};
ghost use Rattle.ess_rules_forms.specs.PureAlternatives.{pure_alternative};
ghost use Rattle.ess_refine_laws.specs.AllRules.{only_one, source_listed, source_listed_once, extremes_listed};
ghost use Rattle.ess_rules_listings.specs.Offered.{offered_by, extremes_of, supply_of};

use crate::made::made_listing;
use crate::terms::listing;
use ess_core_nodes::Node;
use ess_node_types::NameTypes;
use ess_rows::{Boxed, NoMemory, Row};
use ess_rules_folds::forms::{Fold, are_none, fold_over};
use ess_rules_forms::Alternative;
use ess_rules_sources::{
    OnceNames, extreme_alternatives, items_once, put_alternative, source_alone, source_parts,
};
use std::alloc::Global;

/// What a term offers as a listing. `NoMemory` where there is no room for it.
pub fn offered(
    alloc: Global,
    types: &NameTypes,
    names: &OnceNames<'_>,
    term: &Node,
) -> Result<Option<Row<Alternative>>, NoMemory>
    ensures { IfOk result (λ o. option_map (map pure_alternative) o
        ≡ offered_by (pure_names types.now) names.now.one.now names.now.other.now names.now.third.now (pure_node term.now)) }
{
    let found = listing(alloc, types, names.one, term)?;
    if let Some(found) = found {
        return Ok(Some(found));
    }
    let found = made_listing(alloc, types, names.one, names.other, term)?;
    if let Some(found) = found {
        return Ok(Some(found));
    }
    items_once(alloc, names, term)
}

/// A fold over the alternatives of its first source. `NoMemory` where there is no room for it.
#[tactic(auto, using(crate::proofs::Supplies::listed_is))]
pub fn source_listed(
    alloc: Global,
    types: &NameTypes,
    names: &OnceNames<'_>,
    node: &Node,
) -> Result<Option<Boxed<Node>>, NoMemory>
    ensures { IfOk result (λ o. (ys : List Text) (d : pure.Ex → pure.Dom) (c : pure.Ex → pure.Ex) → option_map pure_node o
        ≡ source_listed (supply_of names.now.one.now names.now.other.now names.now.third.now ys d c) (pure_names types.now)
        (pure_node node.now)) }
{
    let Some(fold) = fold_over(node) else {
        return Ok(None);
    };
    if !are_none(fold.others) {
        return Ok(None);
    }
    match offered(alloc, types, names, fold.source)? {
        Some(found) => source_parts(alloc, found.as_slice(), node),
        None => Ok(None),
    }
}

/// A word that forgets order over the only alternative of its first source. `NoMemory` where there is no room for it.
#[tactic(auto, using(crate::proofs::Supplies::listed_once_is))]
pub fn source_listed_once(
    alloc: Global,
    types: &NameTypes,
    names: &OnceNames<'_>,
    node: &Node,
) -> Result<Option<Boxed<Node>>, NoMemory>
    ensures { IfOk result (λ o. (ys : List Text) (d : pure.Ex → pure.Dom) (c : pure.Ex → pure.Ex) → option_map pure_node o
        ≡ source_listed_once (supply_of names.now.one.now names.now.other.now names.now.third.now ys d c) (pure_names types.now)
        (pure_node node.now)) }
{
    let Some(fold) = fold_over(node) else {
        return Ok(None);
    };
    if !are_none(fold.others) {
        return Ok(None);
    }
    let Some(found) = offered(alloc, types, names, fold.source)? else {
        return Ok(None);
    };
    match only_one(found.as_slice()) {
        Some(one) => source_alone(alloc, one, node),
        None => Ok(None),
    }
}

/// The only alternative.
fn only_one(found: &[Alternative]) -> Option<&Alternative>
    ensures { option_map (λ a. pure_alternative a.now) result ≡ only_one (Some (map pure_alternative found.now)) }
{
    match found.split_first() {
        None => None,
        Some((first, rest)) => match rest.split_first() {
            None => Some(first),
            Some(_) => None,
        },
    }
}

/// The least or the greatest over the alternatives of the first source. `NoMemory` where there is no room for it.
#[tactic(auto, using(crate::proofs::Supplies::extremes_are))]
pub fn extremes_listed(
    alloc: Global,
    types: &NameTypes,
    names: &OnceNames<'_>,
    node: &Node,
) -> Result<Option<Boxed<Node>>, NoMemory>
    ensures { IfOk result (λ o. (ys : List Text) (d : pure.Ex → pure.Dom) (c : pure.Ex → pure.Ex) → option_map pure_node o
        ≡ extremes_listed (supply_of names.now.one.now names.now.other.now names.now.third.now ys d c) (pure_names types.now)
        (pure_node node.now)) }
{
    let Some(fold) = fold_over(node) else {
        return Ok(None);
    };
    if fold.mark || !are_none(fold.others) {
        return Ok(None);
    }
    extremes_of(alloc, types, names, &fold)
}

/// The same by the parts of the root.
fn extremes_of(
    alloc: Global,
    types: &NameTypes,
    names: &OnceNames<'_>,
    fold: &Fold<'_>,
) -> Result<Option<Boxed<Node>>, NoMemory>
    ensures { IfOk result (λ o. option_map pure_node o
        ≡ extremes_of (pure_names types.now) names.now.one.now names.now.other.now names.now.third.now (pure_fold fold.now)) }
{
    let Some(found) = offered(alloc, types, names, fold.source)? else {
        return Ok(None);
    };
    let put = each_put(alloc, fold, found.as_slice())?;
    let made = extreme_alternatives(alloc, fold.fun, put.as_slice())?;
    Ok(made)
}

/// Each alternative of the source as one of the whole comprehension.
fn each_put(
    alloc: Global,
    fold: &Fold<'_>,
    found: &[Alternative],
) -> Result<Row<Alternative>, NoMemory>
    ensures { IfOk result (λ l. map pure_alternative l
        ≡ map (put_alternative fold.now.name.now (pure_node fold.now.body.now) (pure_gens fold.now.rest.now))
        (map pure_alternative found.now)) }
{
    let mut all = Row::with_capacity(alloc, found.len())?;
    for one in found {
        let Alternative { gens, item } = put_alternative(alloc, fold, one)?;
        all.push(Alternative { gens, item })?;
    }
    Ok(all)
}
