//! Words that forget order, and folds, over what their first source offers that isn't plain.
ghost use Rattle.std.specs.Prelude.{◌≡◌, Some, IfOk, option_map, map};
ghost use Rattle.ess_core_nodes.specs.NodeViews.{pure_node};
ghost use Rattle.ess_node_types.specs.TypedNames.{pure_names};
ghost use Rattle.ess_rules_laws.specs.ListedSources.{laid_out as comp_of};
ghost use Rattle.ess_rules_forms.specs.PureAlternatives.{pure_alternative};
ghost use Rattle.ess_refine_laws.specs.AllRules.{only_one as the_only};
ghost use Rattle.ess_open_rules_laws.specs.OpenSources.{over_one_opened as one_opened, over_each_picked as each_picked};
ghost use Rattle.ess_kind_rules.specs.Supplies.{taken_supply};

use crate::offering::{comp_offered, picked_members};
use crate::supplies::Taken;
use ess_core_nodes::{Node, copy_gens};
use ess_node_building::{comprehension, word};
use ess_node_types::NameTypes;
use ess_rows::{Boxed, NoMemory};
use ess_rules_folds::forms::{are_none, fold_over};
use ess_rules_forms::Alternative;
use ess_rules_opening::{comp_word, forgets_order};
use ess_rules_sources::source_parts;
use std::alloc::Global;

/// A word that forgets order over the one alternative of its first source that isn't plain. `NoMemory` where there is no room for it.
#[tactic(auto, using(crate::proofs::WordForms::one_by_parts))]
pub fn over_one_opened(
    alloc: Global,
    types: &NameTypes,
    taken: &Taken<'_>,
    node: &Node,
) -> Result<Option<Boxed<Node>>, NoMemory>
    ensures { IfOk result (λ o. option_map pure_node o
        ≡ one_opened (taken_supply taken.now) (pure_names types.now) (pure_node node.now)) }
{
    let Some(parts) = comp_word(node) else {
        return Ok(None);
    };
    if !forgets_order(parts.fun) {
        return Ok(None);
    }
    let found = comp_offered(alloc, types, taken, parts.body, parts.gens)?;
    let Some(found) = found else {
        return Ok(None);
    };
    match only_one(found.as_slice()) {
        Some(one) => {
            let items = laid_out(alloc, one)?;
            Ok(Some(word(alloc, parts.mark, parts.fun, items)?))
        }
        None => Ok(None),
    }
}

/// A fold over several alternatives of what its first source picks. `NoMemory` where there is no room for it.
#[tactic(auto, using(crate::proofs::WordForms::picked_by_parts))]
pub fn over_each_picked(
    alloc: Global,
    types: &NameTypes,
    taken: &Taken<'_>,
    node: &Node,
) -> Result<Option<Boxed<Node>>, NoMemory>
    ensures { IfOk result (λ o. option_map pure_node o
        ≡ each_picked (taken_supply taken.now) (pure_names types.now) (pure_node node.now)) }
{
    let Some(fold) = fold_over(node) else {
        return Ok(None);
    };
    if !are_none(fold.others) {
        return Ok(None);
    }
    let found = picked_members(alloc, types, taken, fold.source)?;
    match found {
        Some(found) => source_parts(alloc, found.as_slice(), node),
        None => Ok(None),
    }
}

/// The only alternative.
pub(crate) fn only_one(found: &[Alternative]) -> Option<&Alternative>
    ensures { option_map (λ a. pure_alternative a.now) result ≡ the_only (Some (map pure_alternative found.now)) }
{
    match found.split_first() {
        None => None,
        Some((first, rest)) => match rest.split_first() {
            None => Some(first),
            Some(_) => None,
        },
    }
}

/// The comprehension of an alternative.
pub(crate) fn laid_out(alloc: Global, offered: &Alternative) -> Result<Boxed<Node>, NoMemory>
    ensures { IfOk result (λ n. pure_node n ≡ comp_of (pure_alternative offered.now)) }
{
    let item = offered.item.get().copy(alloc)?;
    let gens = copy_gens(alloc, offered.gens.as_slice())?;
    comprehension(alloc, item, gens)
}
