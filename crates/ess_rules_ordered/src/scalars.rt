//! Whether a root gives a scalar, and whether a term is compound.
ghost use Rattle.std.specs.Prelude.{◌≡◌, IfOk, option_map};
ghost use Rattle.std.specs.Option.{option_copied};
ghost use Rattle.ess_semantics.specs.Typing.{type_of};
ghost use Rattle.ess_core.specs.TypeViews.{pure_ty};
ghost use Rattle.ess_core_nodes.specs.NodeViews.{pure_node};
ghost use Rattle.ess_node_types.specs.TypedNames.{pure_names};
ghost use Rattle.ess_kind_rules_laws.specs.KindRules.{asks_truth as truth_asked};
ghost use Rattle.ess_open_rules_laws.specs.OpenRules.{is_counted_ty as counted_type, gives_scalar as scalar_given, is_compound_ty as compound_type};

use ess_core::Ty;
use ess_core_nodes::Node;
use ess_node_types::{NameTypes, type_of};
use ess_rows::NoMemory;
use ess_rules_forms::seen_type;
use std::alloc::Global;

/// Whether the root gives a truth value where one is asked, or a number. `NoMemory` where there is no room to tell.
pub(crate) fn gives_scalar(alloc: Global, types: &NameTypes, node: &Node) -> Result<bool, NoMemory>
    ensures { IfOk result (λ b. b ≡ scalar_given (pure_names types.now) (pure_node node.now)) }
{
    if asks_truth(node) {
        return Ok(true);
    }
    let ty = type_of(alloc, node, types)?;
    Ok(is_counted_ty(seen_type(&ty)))
}

/// Whether the root stands where a truth value is asked.
#[tactic(auto, using(ess_core_nodes::proofs::NodeEquations::pure_seen_is))]
fn asks_truth(node: &Node) -> bool
    ensures { result ≡ truth_asked (pure_node node.now) }
{
    match node {
        Node::Op(mark, _, _) => *mark,
        _ => false,
    }
}

/// Whether the type is of numbers; values of named types count as such, and so does what is picked out of a literal without items.
#[tactic(auto, using(ess_core::proofs::TypeEquations::pure_rec))]
fn is_counted_ty(ty: Option<&Ty>) -> bool
    ensures { result ≡ counted_type (option_map pure_ty (option_copied ty.entry)) }
{
    match ty {
        Some(Ty::Any) => true,
        Some(Ty::Int) => true,
        Some(Ty::Named(_)) => true,
        _ => false,
    }
}

/// Whether the term is a compound value. `NoMemory` where there is no room to tell.
pub(crate) fn is_compound(alloc: Global, types: &NameTypes, node: &Node) -> Result<bool, NoMemory>
    ensures { IfOk result (λ b. b ≡ compound_type (type_of (pure_node node.now) (pure_names types.now))) }
{
    let ty = type_of(alloc, node, types)?;
    Ok(is_compound_ty(seen_type(&ty)))
}

/// Whether the type is of compound values.
#[tactic(auto, using(ess_core::proofs::TypeEquations::pure_rec))]
fn is_compound_ty(ty: Option<&Ty>) -> bool
    ensures { result ≡ compound_type (option_map pure_ty (option_copied ty.entry)) }
{
    match ty {
        None => false,
        Some(ty) => match ty {
            Ty::Any => false,
            Ty::Bool => false,
            Ty::Int => false,
            Ty::Named(_) => false,
            _ => true,
        },
    }
}
