//! Listings of functions from atoms that are kept by argument.
ghost use Rattle.std.specs.Prelude.{◌≡◌, option_map, IfOk};
ghost use Rattle.ess_core_nodes.specs.NodeViews.{pure_node};
ghost use Rattle.ess_rules_laws.specs.Function1DViews.{function_1d_listing};
ghost use Rattle.ess_rules_laws.specs.Function1DPartialViews.{function_1d_partial_listing};
ghost use Rattle.ess_rules_kinds.specs.ViewParts.{nested_view};
ghost use Rattle.ess_rules_forms.specs.PureAlternatives.{pure_alternative};
ghost use Rattle.ess_rules_kinds.specs.CodeParts.{pure_nested};

use crate::offers::{flagged_pairs, total_pairs};
use crate::runs::by_name;
use ess_core::ReprKind;
use ess_core_nodes::{Node, NodeDom};
use ess_rows::{NoMemory, Text};
use ess_rules_forms::Alternative;
use ess_rules_kinds::{Nested, nested_parts};
use std::alloc::Global;

/// The pairs of a total function from an atom: the name over the first domain, with the result at it. Nothing for another tree;
/// `NoMemory` where there is no room for it.
#[tactic(auto, using(crate::proofs::PairListings::function_1d_listing_by_parts))]
pub fn function_1d_listing(
    alloc: Global,
    one: &Text,
    view: &Node,
) -> Result<Option<Alternative>, NoMemory>
    ensures { IfOk result (λ o. option_map pure_alternative o ≡ function_1d_listing one.now (pure_node view.now)) }
{
    match nested_parts(view) {
        Some(parts) => total_from(alloc, one, &parts),
        None => Ok(None),
    }
}

/// The same of the parts of a view.
fn total_from(
    alloc: Global,
    one: &Text,
    parts: &Nested<'_>,
) -> Result<Option<Alternative>, NoMemory>
    ensures { IfOk result (λ o. option_map pure_alternative o ≡ function_1d_listing one.now (nested_view (pure_nested parts.now))) }
{
    match parts.kind {
        ReprKind::Function1D => match parts.dom {
            NodeDom::Function(_, _, first, last) => {
                let run = by_name(alloc, one)?;
                let (first, last) = (first.get(), last.get());
                Ok(Some(total_pairs(alloc, &run, parts.child, first, last, parts.cells, parts.at)?))
            }
            _ => Ok(None),
        },
        _ => Ok(None),
    }
}

/// The pairs of a function from an atom with flags: the name over the first domain, where its flag is true, with the result at it.
/// Nothing for another tree; `NoMemory` where there is no room for it.
#[tactic(auto, using(crate::proofs::PairListings::function_1d_partial_listing_by_parts))]
pub fn function_1d_partial_listing(
    alloc: Global,
    one: &Text,
    view: &Node,
) -> Result<Option<Alternative>, NoMemory>
    ensures { IfOk result (λ o. option_map pure_alternative o ≡ function_1d_partial_listing one.now (pure_node view.now)) }
{
    match nested_parts(view) {
        Some(parts) => partial_from(alloc, one, &parts),
        None => Ok(None),
    }
}

/// The same of the parts of a view.
fn partial_from(
    alloc: Global,
    one: &Text,
    parts: &Nested<'_>,
) -> Result<Option<Alternative>, NoMemory>
    ensures { IfOk result (λ o. option_map pure_alternative o ≡ function_1d_partial_listing one.now (nested_view (pure_nested parts.now))) }
{
    match parts.kind {
        ReprKind::Function1DPartial => match parts.dom {
            NodeDom::Function(_, _, first, last) => match parts.cells.split_first() {
                None => Ok(None),
                Some((flags, cells)) => {
                    let run = by_name(alloc, one)?;
                    let (first, last) = (first.get(), last.get());
                    Ok(Some(flagged_pairs(
                        alloc,
                        &run,
                        parts.child,
                        first,
                        last,
                        flags,
                        cells,
                        parts.at,
                    )?))
                }
            },
            _ => Ok(None),
        },
        _ => Ok(None),
    }
}
