//! Sources that are items of comprehensions by number, or are picked out of such items.
ghost use Rattle.std.specs.Prelude.{◌≡◌, Bool, map, option_map, IfOk};
ghost use Rattle.ess_semantics.specs.Trees.{comp_ex};
ghost use Rattle.ess_core_nodes.specs.NodeViews.{pure_node, pure_gens};
ghost use Rattle.ess_refine_laws.specs.AllRules.{only_one as the_only};
ghost use Rattle.ess_ordered_laws.specs.SourcesOfItems.{may_be_taken as may_take, item_behind as behind_item, over_an_item};
ghost use Rattle.ess_rules_forms.specs.PureAlternatives.{pure_alternative};
ghost use Rattle.ess_rules_opening.specs.OpenedViews.{pure_comp_word};
ghost use Rattle.ess_rules_ordered.specs.ItemForms.{under_word as beneath_word, item_gens as gens_of_item, gens_over as gens_with};
ghost use Rattle.ess_rules_ordered.specs.Supplies.{item_supply};

use crate::decided::are_decided;
use crate::lookups::ordered_lookup;
use crate::names::ItemNames;
use crate::picked::laid_out;
use ess_core_nodes::{Gen, Node, copy_gens};
use ess_node_building::{comprehension, from, name, word};
use ess_rows::{Boxed, NoMemory, Row, Text};
use ess_rules_folds::forms::{comp_in, source_in};
use ess_rules_forms::Alternative;
use ess_rules_generators::before;
use ess_rules_opening::{CompWord, at_first_open, comp_word, forgets_order};
use std::alloc::Global;

/// A comprehension whose first source that isn't plain is an item of another by its number, over what the lookup of that item picks: under
/// a word that forgets order, and in any place where no table decides it. `NoMemory` where there is no room for it.
#[tactic(auto, using(crate::proofs::ItemForms::over_item_by_parts))]
pub fn source_of_an_item(
    alloc: Global,
    names: &ItemNames<'_>,
    node: &Node,
) -> Result<Option<Boxed<Node>>, NoMemory>
    ensures { IfOk result (λ o. option_map pure_node o ≡ over_an_item (item_supply names.now) (pure_node node.now)) }
{
    if let Some((body, gens)) = comp_in(node) {
        return item_behind(alloc, names, false, body, gens);
    }
    match comp_word(node) {
        Some(parts) => under_word(alloc, names, &parts),
        None => Ok(None),
    }
}

/// The same of the operand of a word that forgets order.
fn under_word(
    alloc: Global,
    names: &ItemNames<'_>,
    parts: &CompWord<'_>,
) -> Result<Option<Boxed<Node>>, NoMemory>
    ensures { IfOk result (λ o. option_map pure_node o ≡ beneath_word (item_supply names.now) (pure_comp_word parts.now)) }
{
    if !forgets_order(parts.fun) {
        return Ok(None);
    }
    let new = item_behind(alloc, names, true, parts.body, parts.gens)?;
    match new {
        Some(new) => Ok(Some(word(alloc, parts.mark, parts.fun, new)?)),
        None => Ok(None),
    }
}

/// A comprehension over such an item behind plain generators.
#[tactic(auto, using(crate::proofs::ItemForms::behind_by_gens))]
fn item_behind(
    alloc: Global,
    names: &ItemNames<'_>,
    any: bool,
    body: &Node,
    gens: &[Gen],
) -> Result<Option<Boxed<Node>>, NoMemory>
    ensures { IfOk result (λ o. option_map pure_node o
        ≡ behind_item (item_supply names.now) any (comp_ex (pure_node body.now) (pure_gens gens.now))) }
{
    let Some(opened) = at_first_open(gens) else {
        return Ok(None);
    };
    let after = item_gens(alloc, names, any, opened.after)?;
    match after {
        Some(after) => {
            let gens = before(alloc, opened.before, after)?;
            let body = body.copy(alloc)?;
            Ok(Some(comprehension(alloc, body, gens)?))
        }
        None => Ok(None),
    }
}

/// Generators whose first one runs over such an item.
fn item_gens(
    alloc: Global,
    names: &ItemNames<'_>,
    any: bool,
    gens: &[Gen],
) -> Result<Option<Row<Gen>>, NoMemory>
    ensures { IfOk result (λ o. option_map pure_gens o ≡ gens_of_item (item_supply names.now) any (pure_gens gens.now)) }
{
    let Some((bound, source, rest)) = source_in(gens) else {
        return Ok(None);
    };
    let found = ordered_lookup(alloc, names.counted, names.parts, source)?;
    let Some(found) = found else {
        return Ok(None);
    };
    match only_one(found.as_slice()) {
        Some(one) => {
            if may_be_taken(any, one) {
                Ok(Some(gens_over(alloc, names.other, bound, one, rest)?))
            } else {
                Ok(None)
            }
        }
        None => Ok(None),
    }
}

/// The only alternative.
fn only_one(found: &[Alternative]) -> Option<&Alternative>
    ensures { option_map (λ a. pure_alternative a.now) result ≡ the_only (Some (map pure_alternative found.now)) }
{
    match found.split_first() {
        None => None,
        Some((one, more)) => match more.split_first() {
            None => Some(one),
            Some(_) => None,
        },
    }
}

/// Whether the alternative may be taken: any, or one that no table decides.
fn may_be_taken(any: bool, one: &Alternative) -> bool
    ensures { result ≡ may_take any (pure_alternative one.now) }
{
    any || are_decided(one.gens.as_slice())
}

/// A new name over what the alternative has, and the bound one over that, before others.
fn gens_over(
    alloc: Global,
    new: &Text,
    bound: &Text,
    one: &Alternative,
    rest: &[Gen],
) -> Result<Row<Gen>, NoMemory>
    ensures { IfOk result (λ gs. pure_gens gs
        ≡ gens_with new.now bound.now (pure_alternative one.now) (pure_gens rest.now)) }
{
    let list = laid_out(alloc, one)?;
    let item = name(alloc, new)?;
    let mut gens = Row::new(alloc);
    gens.push(from(alloc, new, list)?)?;
    gens.push(from(alloc, bound, item)?)?;
    let mut behind = copy_gens(alloc, rest)?;
    gens.append(&mut behind)?;
    Ok(gens)
}
