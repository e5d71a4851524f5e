//! What a view offers as a listing, by its kind.
ghost use Rattle.std.specs.Prelude.{◌≡◌, option_map, IfOk};
ghost use Rattle.ess_core_nodes.specs.NodeViews.{pure_node};
ghost use Rattle.ess_kind_rules_laws.specs.ViewListings.{view_listing, listing_of};
ghost use Rattle.ess_rules_forms.specs.PureAlternatives.{pure_alternative};
ghost use Rattle.ess_rules_offers.specs.Listed.{members_listed};

use crate::matrices::matrix_listing;
use crate::{kinds, sizes};
use ess_core::{Fun, ReprKind};
use ess_core_nodes::Node;
use ess_rows::{NoMemory, Text};
use ess_rules_forms::{Alternative, plain_word};
use ess_rules_kinds::{members_once, occurrence_listing};
use ess_rules_pairs::{
    function_1d_listing, function_1d_partial_listing, function_nd_listing,
    function_nd_partial_listing, relation_matrix_listing,
};
use ess_rules_picked::names_seen;
use std::alloc::Global;

/// The members of the value that a view stands for, and those of the set of a multiset's members, each called by the name; another name
/// is for how often it is there, and there must be one more for each component of an argument or tuple. Nothing for another tree, or
/// where there are too few names; `NoMemory` where there is no room for it.
#[tactic(auto, using(ess_core_nodes::proofs::NodeEquations::pure_seen_is, ess_core::proofs::RepresentationEquations::pure_repr_is, crate::proofs::ListedForms::listed_by_word, crate::proofs::ListedForms::listed_by_kind))]
pub fn view_listing(
    alloc: Global,
    one: &Text,
    other: &Text,
    parts: &[Text],
    node: &Node,
) -> Result<Option<Alternative>, NoMemory>
    ensures { IfOk result (λ o. option_map pure_alternative o ≡ view_listing one.now other.now parts.now (pure_node node.now)) }
{
    match node {
        Node::Seen(seen) => listing_of(alloc, seen.get().repr.kind, one, other, parts, node),
        Node::Op(_, _, _) => members_listed(alloc, one, node),
        _ => Ok(None),
    }
}

/// The members of a multiset, each once.
#[tactic(auto, using(crate::proofs::ListedForms::listed_of_word, crate::proofs::ListedForms::listed_once))]
fn members_listed(alloc: Global, one: &Text, node: &Node) -> Result<Option<Alternative>, NoMemory>
    ensures { IfOk result (λ o. option_map pure_alternative o ≡ members_listed one.now (pure_node node.now)) }
{
    match plain_word(node) {
        Some((Fun::ToSet, view)) => {
            let slots = sizes::slots_seen(alloc, view)?;
            members_once(alloc, one, slots.get(), node)
        }
        _ => Ok(None),
    }
}

/// By the kind of a view.
fn listing_of(
    alloc: Global,
    kind: ReprKind,
    one: &Text,
    other: &Text,
    parts: &[Text],
    view: &Node,
) -> Result<Option<Alternative>, NoMemory>
    ensures { IfOk result (λ o. option_map pure_alternative o ≡ listing_of kind one.now other.now parts.now (pure_node view.now)) }
{
    let names = names_seen(parts, view);
    match kind {
        ReprKind::Matrix => matrix_listing(alloc, one, view),
        ReprKind::Occurrence => occurrence_listing(alloc, one, view),
        ReprKind::Explicit => kinds::explicit(alloc, one, view),
        ReprKind::ExplicitVarSizeWithMarker => kinds::marked(alloc, one, view),
        ReprKind::ExplicitVarSizeWithFlags => kinds::flagged(alloc, one, view),
        ReprKind::ExplicitVarSizeWithDummy => kinds::with_dummy(alloc, one, view),
        ReprKind::MSetOccurrence => kinds::occurring(alloc, one, other, view),
        ReprKind::MSetExplicitWithRepetition => kinds::repeated(alloc, one, view),
        ReprKind::MSetExplicitWithFlags => kinds::counted(alloc, one, other, view),
        ReprKind::Function1D => function_1d_listing(alloc, one, view),
        ReprKind::Function1DPartial => function_1d_partial_listing(alloc, one, view),
        ReprKind::FunctionND => function_nd_listing(alloc, names, view),
        ReprKind::FunctionNDPartial => function_nd_partial_listing(alloc, names, view),
        ReprKind::RelationAsMatrix => relation_matrix_listing(alloc, names, view),
        ReprKind::FunctionAsRelation => kinds::kept(alloc, one, view),
        ReprKind::RelationAsSet => kinds::kept(alloc, one, view),
        ReprKind::PartitionAsSet => kinds::kept(alloc, one, view),
        ReprKind::PartitionOccurrence => kinds::numbered(alloc, one, view),
        _ => Ok(None),
    }
}
