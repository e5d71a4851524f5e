//! Listings of functions from tuples of atoms that are kept by argument. There is a name for each component.
ghost use Rattle.std.specs.Prelude.{◌≡◌, option_map, IfOk};
ghost use Rattle.ess_core_nodes.specs.NodeViews.{pure_node};
ghost use Rattle.ess_rules_laws.specs.FunctionNDViews.{function_nd_listing};
ghost use Rattle.ess_rules_laws.specs.FunctionNDPartialViews.{function_nd_partial_listing};
ghost use Rattle.ess_rules_kinds.specs.ViewParts.{nested_view};
ghost use Rattle.ess_rules_forms.specs.PureAlternatives.{pure_alternative};
ghost use Rattle.ess_rules_kinds.specs.CodeParts.{pure_nested};

use crate::names::names_fit;
use crate::offers::{flagged_pairs, total_pairs};
use crate::runs::by_names;
use ess_core::ReprKind;
use ess_core_nodes::{Node, NodeDom};
use ess_rows::{NoMemory, Text};
use ess_rules_forms::Alternative;
use ess_rules_kinds::{Nested, nested_parts};
use std::alloc::Global;

/// The pairs of a total function from tuples of atoms: the names over the first domain, with the result there. Nothing for another
/// tree, nor where the names don't fit; `NoMemory` where there is no room for it.
#[tactic(auto, using(crate::proofs::PairListings::function_nd_listing_by_parts))]
pub fn function_nd_listing(
    alloc: Global,
    names: &[Text],
    view: &Node,
) -> Result<Option<Alternative>, NoMemory>
    ensures { IfOk result (λ o. option_map pure_alternative o ≡ function_nd_listing names.now (pure_node view.now)) }
{
    match nested_parts(view) {
        Some(parts) => total_from(alloc, names, &parts),
        None => Ok(None),
    }
}

/// The same of the parts of a view.
fn total_from(
    alloc: Global,
    names: &[Text],
    parts: &Nested<'_>,
) -> Result<Option<Alternative>, NoMemory>
    ensures { IfOk result (λ o. option_map pure_alternative o ≡ function_nd_listing names.now (nested_view (pure_nested parts.now))) }
{
    match parts.kind {
        ReprKind::FunctionND => match parts.dom {
            NodeDom::Function(_, _, first, last) => match first.get() {
                NodeDom::Tuple(doms) => {
                    if names_fit(names, doms.as_slice()) {
                        let run = by_names(alloc, names)?;
                        let (first, last) = (first.get(), last.get());
                        Ok(Some(total_pairs(
                            alloc,
                            &run,
                            parts.child,
                            first,
                            last,
                            parts.cells,
                            parts.at,
                        )?))
                    } else {
                        Ok(None)
                    }
                }
                _ => Ok(None),
            },
            _ => Ok(None),
        },
        _ => Ok(None),
    }
}

/// The pairs of a function from tuples of atoms with flags: the names over the first domain, where the flag there is true, with the
/// result there. Nothing for another tree, nor where the names don't fit; `NoMemory` where there is no room for it.
#[tactic(auto, using(crate::proofs::PairListings::function_nd_partial_listing_by_parts))]
pub fn function_nd_partial_listing(
    alloc: Global,
    names: &[Text],
    view: &Node,
) -> Result<Option<Alternative>, NoMemory>
    ensures { IfOk result (λ o. option_map pure_alternative o ≡ function_nd_partial_listing names.now (pure_node view.now)) }
{
    match nested_parts(view) {
        Some(parts) => partial_from(alloc, names, &parts),
        None => Ok(None),
    }
}

/// The same of the parts of a view.
fn partial_from(
    alloc: Global,
    names: &[Text],
    parts: &Nested<'_>,
) -> Result<Option<Alternative>, NoMemory>
    ensures { IfOk result (λ o. option_map pure_alternative o ≡ function_nd_partial_listing names.now (nested_view (pure_nested parts.now))) }
{
    match parts.kind {
        ReprKind::FunctionNDPartial => match parts.dom {
            NodeDom::Function(_, _, first, last) => match first.get() {
                NodeDom::Tuple(doms) => match parts.cells.split_first() {
                    None => Ok(None),
                    Some((flags, cells)) => {
                        if names_fit(names, doms.as_slice()) {
                            let run = by_names(alloc, names)?;
                            let (first, last) = (first.get(), last.get());
                            Ok(Some(flagged_pairs(
                                alloc,
                                &run,
                                parts.child,
                                first,
                                last,
                                flags,
                                cells,
                                parts.at,
                            )?))
                        } else {
                            Ok(None)
                        }
                    }
                },
                _ => Ok(None),
            },
            _ => Ok(None),
        },
        _ => Ok(None),
    }
}
