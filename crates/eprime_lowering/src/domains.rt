//! Domains of models for domains of refined trees.
ghost use Rattle.std.specs.Prelude.{◌≡◌, ◌||◌, IfOk, map, option_map};
ghost use Rattle.ess_semantics.specs.Kinds.{is_bounded as bounded};
ghost use Rattle.ess_semantics.specs.Trees.{int_dom};
ghost use Rattle.ess_core_nodes.specs.NodeViews.{pure_dom, pure_ends, pure_nodes};
ghost use Rattle.eprime_tree.specs.Views.{pure_dom as pure_model_dom};
ghost use Rattle.eprime_read_convert.specs.Lines.{scope_of};
ghost use Rattle.eprime_lowering.specs.Lowered.{lowered_dom};

use crate::lowering::lower_all;
use crate::ranges::{int_of, is_bounded};
use eprime_read_convert::Lines;
use eprime_tree::PDom;
use ess_core_nodes::{Ends, Node, NodeDom};
use ess_rows::NoMemory;
use std::alloc::Global;

/// The domain of a model that stands for the tree, where these lines declare names: `bool`, or `int` with ranges, in which a bound may
/// be left out where `half_open` says so. The answer is None where none does, and `NoMemory` comes where there is no room for it.
#[cycle(lower)]
#[tactic(auto, using(crate::proofs::Nodes::int_is))]
pub fn lower_dom(
    alloc: Global,
    lines: &Lines,
    half_open: bool,
    dom: &NodeDom,
) -> Result<Option<PDom>, NoMemory>
    ensures { IfOk result (λ o. option_map (pure_model_dom (scope_of lines.now)) o
        ≡ lowered_dom (scope_of lines.now) half_open (pure_dom dom.now)) }
{
    match dom {
        NodeDom::Bool => Ok(Some(PDom::Bool)),
        NodeDom::Int(ends, bounds) => {
            lower_int(alloc, lines, bounds.as_slice(), half_open, ends.as_slice())
        }
        _ => Ok(None),
    }
}

/// An int domain of ranges of these forms with these bounds.
#[cycle(lower)]
fn lower_int(
    alloc: Global,
    lines: &Lines,
    bounds: &[Node],
    half_open: bool,
    ends: &[Ends],
) -> Result<Option<PDom>, NoMemory>
    ensures { IfOk result (λ o. option_map (pure_model_dom (scope_of lines.now)) o
        ≡ lowered_dom (scope_of lines.now) half_open (int_dom (map pure_ends ends.now) (pure_nodes bounds.now))) }
{
    if !are_allowed(half_open, ends) {
        return Ok(None);
    }
    match lower_all(alloc, lines, bounds)? {
        Some(row) => int_of(alloc, ends, row),
        None => Ok(None),
    }
}

/// Whether ranges may have these forms, where a bound may be left out or not.
fn are_allowed(half_open: bool, ends: &[Ends]) -> bool
    ensures { result ≡ (half_open || bounded (map pure_ends ends.now)) }
{
    half_open || is_bounded(ends)
}
