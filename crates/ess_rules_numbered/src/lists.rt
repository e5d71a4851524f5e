//! Comprehensions whose first generator that isn't plain runs over a source that is counted: how many items they have at most.
ghost use Rattle.std.specs.Prelude.{◌≡◌, option_map, IfOk};
ghost use Rattle.ess_core_nodes.specs.NodeViews.{pure_node, pure_gens};
ghost use Rattle.ess_node_types.specs.TypedNames.{pure_names};
ghost use Rattle.ess_open_rules_laws.specs.OpenGenerators.{at_first_open as first_open};
ghost use Rattle.ess_numbered_laws.specs.CountedSources.{begins_counted as begin_counted, is_over_counted as over_counted, counted_list as list_counted};
ghost use Rattle.ess_rules_ordered.specs.Supplies.{item_supply};

use crate::most::most_items;
use crate::sources::is_counted;
use ess_core_nodes::{Gen, Node};
use ess_node_types::{NameTypes, names_behind};
use ess_rows::{Boxed, NoMemory};
use ess_rules_folds::forms::{comp_in, source_in};
use ess_rules_opening::at_first_open;
use ess_rules_ordered::ItemNames;
use std::alloc::Global;

/// How many items such a comprehension has at most. `NoMemory` where there is no room for it.
#[tactic(auto, using(crate::proofs::CountedForms::list_by_parts))]
pub(crate) fn counted_list(
    alloc: Global,
    types: &NameTypes,
    names: &ItemNames<'_>,
    node: &Node,
) -> Result<Option<Boxed<Node>>, NoMemory>
    ensures { IfOk result (λ o. option_map pure_node o
        ≡ list_counted (item_supply names.now) (pure_names types.now) (pure_node node.now)) }
{
    match comp_in(node) {
        Some((_, gens)) => {
            if is_over_counted(alloc, types, names, gens)? {
                most_items(alloc, names.counted, node)
            } else {
                Ok(None)
            }
        }
        None => Ok(None),
    }
}

/// Whether the first of the generators that isn't plain runs over such a source.
fn is_over_counted(
    alloc: Global,
    types: &NameTypes,
    names: &ItemNames<'_>,
    gens: &[Gen],
) -> Result<bool, NoMemory>
    ensures { IfOk result (λ b. b
        ≡ over_counted (item_supply names.now) (pure_names types.now) (first_open (pure_gens gens.now))) }
{
    let Some(opened) = at_first_open(gens) else {
        return Ok(false);
    };
    let under = names_behind(alloc, opened.before, types)?;
    begins_counted(alloc, &under, names, opened.after)
}

/// Whether the first generator does.
#[tactic(auto, using(crate::proofs::CountedForms::begins_by_parts))]
fn begins_counted(
    alloc: Global,
    types: &NameTypes,
    names: &ItemNames<'_>,
    gens: &[Gen],
) -> Result<bool, NoMemory>
    ensures { IfOk result (λ b. b ≡ begin_counted (item_supply names.now) (pure_names types.now) (pure_gens gens.now)) }
{
    match source_in(gens) {
        Some((_, source, _)) => is_counted(alloc, types, names, source),
        None => Ok(false),
    }
}
