//! Lookups in views of functions from tuples of atoms, at any argument: the names run over the first domain, and the tuple of them is
//! the argument.
ghost use Rattle.std.specs.Prelude.{◌≡◌, option_map, IfOk};
ghost use Rattle.ess_core_nodes.specs.NodeViews.{pure_node};
ghost use Rattle.ess_rules_laws.specs.FunctionNDViews.{function_nd_result, function_nd_lookup};
ghost use Rattle.ess_rules_laws.specs.FunctionNDPartialViews.{function_nd_partial_result, function_nd_partial_lookup};
ghost use Rattle.ess_rules_kinds.specs.ViewParts.{nested_view};
ghost use Rattle.ess_rules_kinds.specs.CodeParts.{pure_nested};

use crate::applications::applied;
use crate::names::names_fit;
use crate::results::{flagged_result, total_result};
use crate::runs::by_names;
use ess_core::ReprKind;
use ess_core_nodes::{Node, NodeDom};
use ess_rows::{Boxed, NoMemory, Text};
use ess_rules_kinds::{Nested, nested_parts};
use std::alloc::Global;

/// The lookup of `f(a)` and of `image(f, a)` in a view of a total function from tuples of atoms: the names over the first domain, where
/// the tuple of them is a, the result there. Nothing for another root, nor where the names don't fit; `NoMemory` where there is no room
/// for it.
#[tactic(auto, using(crate::proofs::PairLookups::function_nd_lookup_by_operands))]
pub fn function_nd_lookup(
    alloc: Global,
    names: &[Text],
    node: &Node,
) -> Result<Option<Boxed<Node>>, NoMemory>
    ensures { IfOk result (λ o. option_map pure_node o ≡ function_nd_lookup names.now (pure_node node.now)) }
{
    match applied(node) {
        Some((function, argument)) => total_at(alloc, names, function, argument),
        None => Ok(None),
    }
}

/// The result of a total function at an argument.
#[tactic(auto, using(crate::proofs::PairLookups::function_nd_result_by_parts))]
fn total_at(
    alloc: Global,
    names: &[Text],
    function: &Node,
    argument: &Node,
) -> Result<Option<Boxed<Node>>, NoMemory>
    ensures { IfOk result (λ o. option_map pure_node o ≡ function_nd_result names.now (pure_node function.now) (pure_node argument.now)) }
{
    match nested_parts(function) {
        Some(parts) => total_where(alloc, names, argument, &parts),
        None => Ok(None),
    }
}

/// The same of the parts of a view.
fn total_where(
    alloc: Global,
    names: &[Text],
    argument: &Node,
    parts: &Nested<'_>,
) -> Result<Option<Boxed<Node>>, NoMemory>
    ensures { IfOk result (λ o. option_map pure_node o
        ≡ function_nd_result names.now (nested_view (pure_nested parts.now)) (pure_node argument.now)) }
{
    match parts.kind {
        ReprKind::FunctionND => match parts.dom {
            NodeDom::Function(_, _, first, last) => match first.get() {
                NodeDom::Tuple(doms) => {
                    if names_fit(names, doms.as_slice()) {
                        let run = by_names(alloc, names)?;
                        let (first, last) = (first.get(), last.get());
                        Ok(Some(total_result(
                            alloc,
                            &run,
                            parts.child,
                            first,
                            last,
                            parts.cells,
                            parts.at,
                            argument,
                        )?))
                    } else {
                        Ok(None)
                    }
                }
                _ => Ok(None),
            },
            _ => Ok(None),
        },
        _ => Ok(None),
    }
}

// ---- functions with flags

/// The same of a function with flags, where the flag at the names is true.
#[tactic(auto, using(crate::proofs::PairLookups::function_nd_partial_lookup_by_operands))]
pub fn function_nd_partial_lookup(
    alloc: Global,
    names: &[Text],
    node: &Node,
) -> Result<Option<Boxed<Node>>, NoMemory>
    ensures { IfOk result (λ o. option_map pure_node o ≡ function_nd_partial_lookup names.now (pure_node node.now)) }
{
    match applied(node) {
        Some((function, argument)) => partial_at(alloc, names, function, argument),
        None => Ok(None),
    }
}

/// The result of a function with flags at an argument.
#[tactic(auto, using(crate::proofs::PairLookups::function_nd_partial_result_by_parts))]
fn partial_at(
    alloc: Global,
    names: &[Text],
    function: &Node,
    argument: &Node,
) -> Result<Option<Boxed<Node>>, NoMemory>
    ensures { IfOk result (λ o. option_map pure_node o
        ≡ function_nd_partial_result names.now (pure_node function.now) (pure_node argument.now)) }
{
    match nested_parts(function) {
        Some(parts) => partial_where(alloc, names, argument, &parts),
        None => Ok(None),
    }
}

/// The same of the parts of a view.
fn partial_where(
    alloc: Global,
    names: &[Text],
    argument: &Node,
    parts: &Nested<'_>,
) -> Result<Option<Boxed<Node>>, NoMemory>
    ensures { IfOk result (λ o. option_map pure_node o
        ≡ function_nd_partial_result names.now (nested_view (pure_nested parts.now)) (pure_node argument.now)) }
{
    match parts.kind {
        ReprKind::FunctionNDPartial => match parts.dom {
            NodeDom::Function(_, _, first, last) => match first.get() {
                NodeDom::Tuple(doms) => match parts.cells.split_first() {
                    None => Ok(None),
                    Some((flags, cells)) => {
                        if names_fit(names, doms.as_slice()) {
                            let run = by_names(alloc, names)?;
                            let (first, last) = (first.get(), last.get());
                            Ok(Some(flagged_result(
                                alloc,
                                &run,
                                parts.child,
                                first,
                                last,
                                flags,
                                cells,
                                parts.at,
                                argument,
                            )?))
                        } else {
                            Ok(None)
                        }
                    }
                },
                _ => Ok(None),
            },
            _ => Ok(None),
        },
        _ => Ok(None),
    }
}
