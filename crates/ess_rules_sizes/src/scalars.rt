//! Lists of scalars: that their items differ is said by models themselves.
ghost use Rattle.std.specs.Prelude.{◌≡◌, option_map, IfOk};
ghost use Rattle.std.specs.List.{list_all};
ghost use Rattle.ess_semantics.specs.Typing.{types_of};
ghost use Rattle.ess_core.specs.TypeViews.{pure_ty};
ghost use Rattle.ess_core_nodes.specs.NodeViews.{pure_node, pure_nodes};
ghost use Rattle.ess_node_types.specs.TypedNames.{pure_names};
ghost use Rattle.ess_refine_laws.specs.ScalarItems.{is_scalar as scalar, has_scalar_items as lists_scalars};
ghost use Rattle.ess_refine_laws.specs.AllRules.{tells_scalars_apart as scalars_apart};

use ess_core::{Fun, Ty};
use ess_core_nodes::{Node, Op};
use ess_node_operands::{Operands, by_number};
use ess_node_types::{NameTypes, names_behind, type_of};
use ess_rows::{Boxed, NoMemory};
use std::alloc::Global;

/// Whether the root is `allDiff` of scalars, or of what isn't laid open as a list. `NoMemory` where there is no room to find out.
#[tactic(auto, using(ess_core_nodes::proofs::NodeEquations::pure_seen_is))]
pub fn tells_scalars_apart(alloc: Global, types: &NameTypes, node: &Node) -> Result<bool, NoMemory>
    ensures { IfOk result (λ b. b ≡ scalars_apart (pure_names types.now) (pure_node node.now)) }
{
    match node {
        Node::Op(true, Op::Word(Fun::AllDiff), operands) => match by_number(operands.as_slice()) {
            Operands::One(list) => has_scalar_items(alloc, types, list),
            _ => Ok(false),
        },
        _ => Ok(false),
    }
}

/// Whether the items of a comprehension or a list literal are scalars.
#[tactic(auto, using(ess_core_nodes::proofs::NodeEquations::pure_seen_is))]
fn has_scalar_items(alloc: Global, types: &NameTypes, list: &Node) -> Result<bool, NoMemory>
    ensures { IfOk result (λ b. b ≡ lists_scalars (pure_node list.now) (pure_names types.now)) }
{
    match list {
        Node::Comp(body, gens) => {
            let under = names_behind(alloc, gens.as_slice(), types)?;
            let ty = type_of(alloc, body.get(), &under)?;
            Ok(is_scalar(&ty))
        }
        Node::Op(false, Op::Matrix, items) => are_scalars(alloc, items.as_slice(), types),
        _ => Ok(true),
    }
}

/// Whether each of the nodes is a scalar.
#[tactic(auto, using(crate::proofs::ScalarNodes::scalars_more, crate::proofs::ScalarNodes::scalars_not, crate::proofs::ScalarNodes::scalars_end))]
fn are_scalars(alloc: Global, nodes: &[Node], types: &NameTypes) -> Result<bool, NoMemory>
    ensures { IfOk result (λ b. b ≡ list_all scalar (types_of (pure_nodes nodes.now) (pure_names types.now))) }
{
    for node in nodes {
        let ty = type_of(alloc, node, types)?;
        if !is_scalar(&ty) {
            return Ok(false);
        }
    }
    Ok(true)
}

/// Whether there is a type, and it is of truth values, of numbers, or a named one.
fn is_scalar(ty: &Option<Boxed<Ty>>) -> bool
    ensures { result ≡ scalar (option_map pure_ty ty.now) }
{
    match ty {
        None => false,
        Some(ty) => match ty.get() {
            Ty::Bool | Ty::Int | Ty::Named(_) => true,
            _ => false,
        },
    }
}
