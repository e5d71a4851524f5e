//! The listing of relations that are kept as a truth value for each possible tuple.
ghost use Rattle.std.specs.Prelude.{◌≡◌, option_map, IfOk};
ghost use Rattle.ess_semantics.specs.Trees.{tuple_dom};
ghost use Rattle.ess_core_nodes.specs.NodeViews.{pure_node, pure_dom, pure_doms};
ghost use Rattle.ess_rules_laws.specs.OccurrenceViews.{relation_matrix_listing};
ghost use Rattle.ess_rules_kinds.specs.ViewParts.{leaf_view};
ghost use Rattle.ess_rules_forms.specs.PureAlternatives.{pure_alternative};
ghost use Rattle.ess_rules_kinds.specs.CodeParts.{pure_leaf};

use crate::names::names_fit;
use crate::offers::{flag_at, run_where};
use crate::runs::by_names;
use ess_core::ReprKind;
use ess_core_nodes::{Node, NodeDom, copy_doms};
use ess_rows::{Boxed, NoMemory, Text};
use ess_rules_forms::Alternative;
use ess_rules_kinds::{Leaf, leaf_parts};
use std::alloc::Global;

/// The tuples of a relation: the names over the components, where the cell there is true, and the tuple of them. Nothing for another
/// tree, nor where the names don't fit; `NoMemory` where there is no room for it.
#[tactic(auto, using(crate::proofs::PairListings::relation_matrix_listing_by_parts))]
pub fn relation_matrix_listing(
    alloc: Global,
    names: &[Text],
    view: &Node,
) -> Result<Option<Alternative>, NoMemory>
    ensures { IfOk result (λ o. option_map pure_alternative o ≡ relation_matrix_listing names.now (pure_node view.now)) }
{
    match leaf_parts(view) {
        Some(parts) => tuples_from(alloc, names, &parts),
        None => Ok(None),
    }
}

/// The same of the parts of a view.
fn tuples_from(
    alloc: Global,
    names: &[Text],
    parts: &Leaf<'_>,
) -> Result<Option<Alternative>, NoMemory>
    ensures { IfOk result (λ o. option_map pure_alternative o ≡ relation_matrix_listing names.now (leaf_view (pure_leaf parts.now))) }
{
    match parts.kind {
        ReprKind::RelationAsMatrix => match parts.dom {
            NodeDom::Relation(_, _, doms) => {
                if names_fit(names, doms.as_slice()) {
                    let run = by_names(alloc, names)?;
                    let test = flag_at(alloc, parts.table, parts.at, run.keys.as_slice())?;
                    let dom = tuple_of(alloc, doms.as_slice())?;
                    let gens = run_where(alloc, &run.pattern, dom.get(), test)?;
                    let item = run.argument.get().copy(alloc)?;
                    Ok(Some(Alternative { gens, item }))
                } else {
                    Ok(None)
                }
            }
            _ => Ok(None),
        },
        _ => Ok(None),
    }
}

/// The domain of tuples of these.
fn tuple_of(alloc: Global, doms: &[NodeDom]) -> Result<Boxed<NodeDom>, NoMemory>
    ensures { IfOk result (λ d. pure_dom d ≡ tuple_dom (pure_doms doms.now)) }
{
    let doms = copy_doms(alloc, doms)?;
    Boxed::new(alloc, NodeDom::Tuple(doms))
}
