//! An operator on a picked value becomes one on the item of each alternative.
ghost use Rattle.std.specs.Prelude.{◌≡◌, map, option_map, IfOk};
ghost use Rattle.ess_core_nodes.specs.NodeViews.{pure_node};
ghost use Rattle.ess_rules_laws.specs.AlternativeLookups.{select_each as selected, select_whole_each as whole_selected};
ghost use Rattle.ess_rules_forms.specs.PureAlternatives.{pure_alternative};

use crate::picked::picking_each;
use ess_core_nodes::Node;
use ess_node_building::name;
use ess_rows::{Boxed, NoMemory, Text};
use ess_rules_forms::Alternative;
use ess_rules_lookups::{takes, with_item};
use std::alloc::Global;

/// `N[t]` over the alternatives of t, which is the operand of N at a place; x is a new name. `NoMemory` where there is no room for it.
#[tactic(auto, using(ess_core_nodes::proofs::NodeEquations::pure_seen_is))]
pub fn select_each(
    alloc: Global,
    bound: &Text,
    at: u64,
    offered: &[Alternative],
    node: &Node,
) -> Result<Option<Boxed<Node>>, NoMemory>
    ensures { IfOk result (λ o. option_map pure_node o ≡ selected bound.now at (map pure_alternative offered.now) (pure_node node.now)) }
{
    match node {
        Node::Op(mark, op, operands) => {
            if takes(op, operands.as_slice(), at) {
                let body = with_item(alloc, bound, at, *mark, op, operands.as_slice())?;
                Ok(Some(picking_each(alloc, *mark, bound, offered, body.get())?))
            } else {
                Ok(None)
            }
        }
        _ => Ok(None),
    }
}

/// A picked scalar by itself, over its alternatives; x is a new name. `NoMemory` where there is no room for it.
#[tactic(auto, using(ess_core_nodes::proofs::NodeEquations::pure_seen_is))]
pub fn select_whole_each(
    alloc: Global,
    bound: &Text,
    offered: &[Alternative],
    node: &Node,
) -> Result<Option<Boxed<Node>>, NoMemory>
    ensures { IfOk result (λ o. option_map pure_node o ≡ whole_selected bound.now (map pure_alternative offered.now) (pure_node node.now)) }
{
    match node {
        Node::Op(mark, _, _) => {
            let item = name(alloc, bound)?;
            Ok(Some(picking_each(alloc, *mark, bound, offered, item.get())?))
        }
        _ => Ok(None),
    }
}
