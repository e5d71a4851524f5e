//! Rules that ask more than the root: guards, index domains of matrices, what sources offer.
ghost use Rattle.std.specs.Prelude.{◌≡◌, IfOk, None, option_map, if◌then◌else◌};
ghost use Rattle.ess_core_nodes.specs.NodeViews.{pure_node, pure_dom};
ghost use Rattle.ess_node_types.specs.TypedNames.{pure_names};
ghost use Rattle.ess_rules_laws.specs.InclusionRules.{unequal as told_unequal};
ghost use Rattle.ess_rules_laws.specs.LiteralRules.{different_listed as listed_apart};
ghost use Rattle.ess_rules_laws.specs.ListRules.{different_term as items_apart};
ghost use Rattle.ess_refine_laws.specs.AllRules.{compares_compound as is_compound, tells_scalars_apart as are_scalars};
ghost use Rattle.ess_refine_laws.specs.AllRules.{matrices_at, source_listed as in_source};
ghost use Rattle.ess_kind_rules.specs.Supplies.{taken_supply};
ghost use Rattle.ess_rules.specs.Ruled.{both_told, axis_asked as told_where_asked};

use ess_core_nodes::{Node, NodeDom};
use ess_guard_forms::index_dom;
use ess_kind_rules::Taken;
use ess_node_types::NameTypes;
use ess_rows::{Boxed, NoMemory};
use ess_rules_comparing::{compares_compound, equal_matrices, unequal};
use ess_rules_forms::truth_pair;
use ess_rules_listings::source_listed;
use ess_rules_lists::{different_listed, different_term};
use ess_rules_opening::has_no_source;
use ess_rules_sizes::tells_scalars_apart;
use ess_rules_sources::OnceNames;
use std::alloc::Global;

/// `a != b` of compound values. `NoMemory` where there is no room for it.
pub(crate) fn not_equal(
    alloc: Global,
    names: &NameTypes,
    _taken: &Taken<'_>,
    node: &Node,
) -> Result<Option<Boxed<Node>>, NoMemory>
    ensures { IfOk result (λ o. option_map pure_node o
        ≡ (if is_compound (pure_names names.now) (pure_node node.now) then told_unequal (pure_node node.now) else None)) }
{
    if compares_compound(alloc, names, node)? {
        unequal(alloc, node)
    } else {
        Ok(None)
    }
}

/// That the items of a literal differ, where they aren't scalars. `NoMemory` where there is no room for it.
pub(crate) fn different_items(
    alloc: Global,
    names: &NameTypes,
    _taken: &Taken<'_>,
    node: &Node,
) -> Result<Option<Boxed<Node>>, NoMemory>
    ensures { IfOk result (λ o. option_map pure_node o
        ≡ (if are_scalars (pure_names names.now) (pure_node node.now) then None else listed_apart (pure_node node.now))) }
{
    if tells_scalars_apart(alloc, names, node)? {
        Ok(None)
    } else {
        different_listed(alloc, node)
    }
}

/// That the items of a term differ, where they aren't scalars. `NoMemory` where there is no room for it.
pub(crate) fn all_different(
    alloc: Global,
    names: &NameTypes,
    taken: &Taken<'_>,
    node: &Node,
) -> Result<Option<Boxed<Node>>, NoMemory>
    ensures { IfOk result (λ o. option_map pure_node o ≡ (if are_scalars (pure_names names.now) (pure_node node.now) then None
        else items_apart taken.now.one.now (pure_node node.now))) }
{
    if tells_scalars_apart(alloc, names, node)? {
        Ok(None)
    } else {
        different_term(alloc, taken.one, node)
    }
}

/// Equality of matrices over the index domains that their forms tell, where both do. `NoMemory` where there is no room for it.
#[tactic(auto, using(crate::proofs::SpecialRoots::no_matrices))]
pub(crate) fn equal_matrices_at(
    alloc: Global,
    names: &NameTypes,
    taken: &Taken<'_>,
    node: &Node,
) -> Result<Option<Boxed<Node>>, NoMemory>
    ensures { IfOk result (λ o. option_map pure_node o ≡ (if both_told (pure_node node.now)
        then matrices_at (taken_supply taken.now) (pure_names names.now) (pure_node node.now) else None)) }
{
    match truth_pair(node) {
        None => Ok(None),
        Some((_, (a, b))) => {
            let first = axis_asked(alloc, a)?;
            let Some(first) = first else {
                return Ok(None);
            };
            let second = axis_asked(alloc, b)?;
            let Some(second) = second else {
                return Ok(None);
            };
            equal_matrices(
                alloc,
                first.get(),
                second.get(),
                names,
                taken.one,
                taken.other,
                node,
            )
        }
    }
}

/// The index domain that the form of a term tells, where it may be asked for.
fn axis_asked(alloc: Global, node: &Node) -> Result<Option<Boxed<NodeDom>>, NoMemory>
    ensures { IfOk result (λ o. option_map pure_dom o ≡ told_where_asked (pure_node node.now)) }
{
    if has_no_source(node) {
        index_dom(alloc, node)
    } else {
        Ok(None)
    }
}

/// A fold over what its first source offers. `NoMemory` where there is no room for it.
pub(crate) fn over_a_source(
    alloc: Global,
    names: &NameTypes,
    taken: &Taken<'_>,
    node: &Node,
) -> Result<Option<Boxed<Node>>, NoMemory>
    ensures { IfOk result (λ o. option_map pure_node o ≡ in_source (taken_supply taken.now) (pure_names names.now) (pure_node node.now)) }
{
    let three = OnceNames {
        one: taken.one,
        other: taken.other,
        third: taken.third,
    };
    source_listed(alloc, names, &three, node)
}
