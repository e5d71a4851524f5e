//! What a selection offers as a lookup, whatever its term.
ghost use Rattle.std.specs.Prelude.{◌≡◌, map, option_map, IfOk};
ghost use Rattle.ess_core_nodes.specs.NodeViews.{pure_node};
ghost use Rattle.ess_node_types.specs.TypedNames.{pure_names};
ghost use Rattle.ess_kind_rules_laws.specs.TermLookups.{looked_up, looked_up_alone};
ghost use Rattle.ess_rules_forms.specs.PureAlternatives.{pure_alternative};

use crate::literals::domain_list_lookup;
use crate::selections::one_lookup;
use ess_core_nodes::Node;
use ess_node_types::NameTypes;
use ess_rows::{NoMemory, Row, Text};
use ess_rules_alternatives::{
    as_alternative, function_literal_lookup, list_lookup, lookup_through_each,
};
use ess_rules_forms::Alternative;
use ess_rules_picked::picked_within;
use std::alloc::Global;

/// What the tree picks, as alternatives of which at most one has an item. The first of the names is that of the item of the one lookup,
/// or of what is picked within; the others are for the lookup of that, and for the components of an argument. Nothing where nothing is
/// picked, where the term is none that can be looked up, or where there are too few names; `NoMemory` where there is no room for it.
#[tactic(auto, using(crate::proofs::LookedForms::looked_alone, crate::proofs::LookedForms::looked_within))]
pub fn looked_up(
    alloc: Global,
    types: &NameTypes,
    one: &Text,
    names: &[Text],
    node: &Node,
) -> Result<Option<Row<Alternative>>, NoMemory>
    ensures { IfOk result (λ o. option_map (map pure_alternative) o
        ≡ looked_up (pure_names types.now) one.now names.now (pure_node node.now)) }
{
    match names.split_first() {
        None => Ok(None),
        Some((item, rest)) => match picked_within(node) {
            None => looked_up_alone(alloc, types, one, item, rest, node),
            Some(operand) => match looked_up(alloc, types, one, rest, operand)? {
                None => Ok(None),
                Some(offered) => lookup_through_each(alloc, item, 1, offered.as_slice(), node),
            },
        },
    }
}

/// The same where nothing is picked within: of literals case by case, else by the one lookup.
fn looked_up_alone(
    alloc: Global,
    types: &NameTypes,
    one: &Text,
    item: &Text,
    names: &[Text],
    node: &Node,
) -> Result<Option<Row<Alternative>>, NoMemory>
    ensures { IfOk result (λ o. option_map (map pure_alternative) o
        ≡ looked_up_alone (pure_names types.now) one.now item.now names.now (pure_node node.now)) }
{
    if let Some(found) = list_lookup(alloc, node)? {
        return Ok(Some(found));
    }
    if let Some(found) = domain_list_lookup(alloc, one, node)? {
        return Ok(Some(found));
    }
    if let Some(found) = function_literal_lookup(alloc, node)? {
        return Ok(Some(found));
    }
    match one_lookup(alloc, types, one, names, node)? {
        Some(lookup) => Ok(Some(as_alternative(alloc, item, lookup.get())?)),
        None => Ok(None),
    }
}
