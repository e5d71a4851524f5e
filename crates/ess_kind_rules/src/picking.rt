//! What is picked out of terms; relations applied, and sizes of total functions.
ghost use Rattle.std.specs.Prelude.{◌≡◌, ◌&&◌, ◌||◌, IfOk, option_map, true};
ghost use Rattle.std.specs.Option.{option_copied};
ghost use Rattle.ess_semantics.specs.Typing.{type_of};
ghost use Rattle.ess_core.specs.TypeViews.{pure_ty};
ghost use Rattle.ess_core_nodes.specs.NodeViews.{pure_node, pure_nodes, pure_op};
ghost use Rattle.ess_node_types.specs.TypedNames.{pure_names};
ghost use Rattle.ess_kind_rules_laws.specs.KindRules.{asks_truth as truth_asked, function_size as size_of_function};
ghost use Rattle.ess_open_rules_laws.specs.OpenRules.{related as related_to, is_relation_ty as relation_type, is_counted_ty as counted_type, gives_scalar as scalar_given, is_compound_ty as compound_type, first_picked as picked_first, over_a_pick as picked_over, pick_alone as scalar_picked, compares_values as values_compared};
ghost use Rattle.ess_kind_rules_laws.specs.TermLookups.{picks as picked_out};
ghost use Rattle.ess_kind_rules.specs.Supplies.{taken_supply};

use crate::supplies::Taken;
use ess_core::{Op1, Op2, Ty};
use ess_core_nodes::{Node, Op, copy_nodes};
use ess_node_building::{binary, literal};
use ess_node_types::{NameTypes, type_of};
use ess_rows::{Boxed, NoMemory};
use ess_rules_alternatives::{select_each, select_whole_each};
use ess_rules_forms::{only_in, seen_type};
use ess_rules_offers::{looked_up, members_of_first};
use ess_rules_picked::picks;
use std::alloc::Global;

/// `r(a, b)` as `(a, b) in r`, where r is a relation. `NoMemory` where there is no room for it.
#[tactic(auto, using(ess_core_nodes::proofs::NodeEquations::pure_seen_is))]
pub fn related(
    alloc: Global,
    types: &NameTypes,
    node: &Node,
) -> Result<Option<Boxed<Node>>, NoMemory>
    ensures { IfOk result (λ o. option_map pure_node o ≡ related_to (pure_names types.now) (pure_node node.now)) }
{
    match node {
        Node::Op(true, Op::Apply, operands) => match operands.as_slice().split_first() {
            Some((relation, arguments)) => {
                if !is_relation(alloc, types, relation)? {
                    return Ok(None);
                }
                let tuple = literal(alloc, Op::Tuple, copy_nodes(alloc, arguments)?)?;
                let relation = relation.copy(alloc)?;
                Ok(Some(binary(alloc, true, Op2::Member, tuple, relation)?))
            }
            None => Ok(None),
        },
        _ => Ok(None),
    }
}

/// Whether the term is a relation.
fn is_relation(alloc: Global, types: &NameTypes, node: &Node) -> Result<bool, NoMemory>
    ensures { IfOk result (λ b. b ≡ relation_type (type_of (pure_node node.now) (pure_names types.now))) }
{
    let ty = type_of(alloc, node, types)?;
    Ok(is_relation_ty(seen_type(&ty)))
}

/// Whether the type is of relations.
#[tactic(auto, using(ess_core::proofs::TypeEquations::pure_rec))]
fn is_relation_ty(ty: Option<&Ty>) -> bool
    ensures { result ≡ relation_type (option_map pure_ty (option_copied ty.entry)) }
{
    match ty {
        Some(Ty::Relation(_)) => true,
        _ => false,
    }
}

/// The size of a view of a total function. `NoMemory` where there is no room for it.
#[tactic(auto, using(ess_core_nodes::proofs::NodeEquations::pure_seen_is, crate::proofs::CompForms::size_by_operand))]
pub fn function_size(alloc: Global, node: &Node) -> Result<Option<Boxed<Node>>, NoMemory>
    ensures { IfOk result (λ o. option_map pure_node o ≡ size_of_function (pure_node node.now)) }
{
    match node {
        Node::Op(false, Op::Unary(Op1::Bar), operands) => match only_in(operands.as_slice()) {
            Some(function) => members_of_first(alloc, function),
            None => Ok(None),
        },
        _ => Ok(None),
    }
}

/// Whether the root stands where a truth value is asked.
#[tactic(auto, using(ess_core_nodes::proofs::NodeEquations::pure_seen_is))]
pub(crate) fn asks_truth(node: &Node) -> bool
    ensures { result ≡ truth_asked (pure_node node.now) }
{
    match node {
        Node::Op(mark, _, _) => *mark,
        _ => false,
    }
}

/// Whether the root gives a truth value where one is asked, or a number.
fn gives_scalar(alloc: Global, types: &NameTypes, node: &Node) -> Result<bool, NoMemory>
    ensures { IfOk result (λ b. b ≡ scalar_given (pure_names types.now) (pure_node node.now)) }
{
    if asks_truth(node) {
        return Ok(true);
    }
    let ty = type_of(alloc, node, types)?;
    Ok(is_counted_ty(seen_type(&ty)))
}

/// Whether the type is of numbers; values of named types count as such, and so does what is picked out of a literal without items.
#[tactic(auto, using(ess_core::proofs::TypeEquations::pure_rec))]
fn is_counted_ty(ty: Option<&Ty>) -> bool
    ensures { result ≡ counted_type (option_map pure_ty (option_copied ty.entry)) }
{
    match ty {
        Some(Ty::Any) => true,
        Some(Ty::Int) => true,
        Some(Ty::Named(_)) => true,
        _ => false,
    }
}

/// Whether the term is a compound value.
fn is_compound(alloc: Global, types: &NameTypes, node: &Node) -> Result<bool, NoMemory>
    ensures { IfOk result (λ b. b ≡ compound_type (type_of (pure_node node.now) (pure_names types.now))) }
{
    let ty = type_of(alloc, node, types)?;
    Ok(is_compound_ty(seen_type(&ty)))
}

/// Whether the type is of compound values.
#[tactic(auto, using(ess_core::proofs::TypeEquations::pure_rec))]
fn is_compound_ty(ty: Option<&Ty>) -> bool
    ensures { result ≡ compound_type (option_map pure_ty (option_copied ty.entry)) }
{
    match ty {
        None => false,
        Some(ty) => match ty {
            Ty::Any => false,
            Ty::Bool => false,
            Ty::Int => false,
            Ty::Named(_) => false,
            _ => true,
        },
    }
}

/// Whether the operator compares values.
fn compares_values(mark: bool, op: &Op) -> bool
    ensures { result ≡ values_compared mark (pure_op op.now) }
{
    if !mark {
        return false;
    }
    match op {
        Op::Binary(sign) => is_comparison(*sign),
        _ => false,
    }
}

/// Whether the sign compares values.
fn is_comparison(sign: Op2) -> bool
    ensures { result ≡ values_compared true (pure_op (Op.Binary sign)) }
{
    match sign {
        Op2::Eq | Op2::Ne | Op2::Lt | Op2::Le | Op2::Gt | Op2::Ge => true,
        _ => false,
    }
}

/// Whether the operand picks a value, a compound one unless any will do.
fn takes(alloc: Global, types: &NameTypes, any: bool, operand: &Node) -> Result<bool, NoMemory>
    ensures { IfOk result (λ b. b ≡ picked_out (pure_node operand.now)
        && (any || compound_type (type_of (pure_node operand.now) (pure_names types.now)))) }
{
    if !picks(operand) {
        return Ok(false);
    }
    if any {
        return Ok(true);
    }
    is_compound(alloc, types, operand)
}

/// The number of the first operand that picks a value, a compound one unless any will do, with that operand.
#[tactic(auto, using(crate::proofs::PickedRows::picked_later, crate::proofs::PickedRows::picked_here, crate::proofs::PickedRows::picked_none))]
fn first_picked<'a>(
    alloc: Global,
    types: &NameTypes,
    any: bool,
    operands: &'a [Node],
) -> Result<Option<(u64, &'a Node)>, NoMemory>
    ensures { IfOk result (λ o. option_map (λ p. (p.0, pure_node p.1.now)) o
        ≡ picked_first any (pure_names types.now) 1 (pure_nodes operands.now)) }
{
    let mut at: u64 = 1;
    for operand in operands {
        if takes(alloc, types, any, operand)? {
            return Ok(Some((at, operand)));
        }
        at = match at.checked_add(1) {
            Some(next) => next,
            None => return Err(NoMemory),
        };
    }
    Ok(None)
}

/// A scalar root over the alternatives of its first operand that picks a compound value, or at a comparison any value. `NoMemory` where
/// there is no room for it.
#[tactic(auto, using(ess_core_nodes::proofs::NodeEquations::pure_seen_is))]
pub fn over_picked(
    alloc: Global,
    types: &NameTypes,
    taken: &Taken<'_>,
    node: &Node,
) -> Result<Option<Boxed<Node>>, NoMemory>
    ensures { IfOk result (λ o. option_map pure_node o
        ≡ picked_over (taken_supply taken.now) (pure_names types.now) (pure_node node.now)) }
{
    match node {
        Node::Op(mark, op, operands) => {
            if !gives_scalar(alloc, types, node)? {
                return Ok(None);
            }
            let any = compares_values(*mark, op);
            let picked = first_picked(alloc, types, any, operands.as_slice())?;
            let Some((at, operand)) = picked else {
                return Ok(None);
            };
            let found = looked_up(alloc, types, taken.third, taken.parts, operand)?;
            match found {
                Some(found) => select_each(alloc, taken.one, at, found.as_slice(), node),
                None => Ok(None),
            }
        }
        _ => Ok(None),
    }
}

/// A picked scalar by itself. `NoMemory` where there is no room for it.
pub fn picked_scalar(
    alloc: Global,
    types: &NameTypes,
    taken: &Taken<'_>,
    node: &Node,
) -> Result<Option<Boxed<Node>>, NoMemory>
    ensures { IfOk result (λ o. option_map pure_node o
        ≡ scalar_picked (taken_supply taken.now) (pure_names types.now) (pure_node node.now)) }
{
    if !picks(node) || !gives_scalar(alloc, types, node)? {
        return Ok(None);
    }
    let found = looked_up(alloc, types, taken.third, taken.parts, node)?;
    match found {
        Some(found) => select_whole_each(alloc, taken.one, found.as_slice(), node),
        None => Ok(None),
    }
}
