//! The types of operators' nodes, from the types of their operands.
ghost use Rattle.std.specs.Prelude.{◌≡◌, map, option_map, IfOk};
ghost use Rattle.ess_semantics.specs.Trees.{unary, binary, application};
ghost use Rattle.ess_semantics.specs.OperatorTypes.{type_of_op};
ghost use Rattle.ess_core.specs.TypeViews.{pure_ty};
ghost use Rattle.ess_core_nodes.specs.NodeViews.{pure_op};

use crate::records::type_of_record;
use ess_core::{Op1, Op2, Ty};
use ess_core_nodes::Op;
use ess_rows::{Boxed, NoMemory, Row};
use ess_types_operators::{
    type_of_application, type_of_binary, type_of_function, type_of_list, type_of_mset,
    type_of_partition, type_of_relation, type_of_set, type_of_tuple, type_of_unary, type_of_word,
};
use std::alloc::Global;

/// The type of an operator or literal with operands of these types, where they fit: none for an index. `NoMemory` where there is no
/// room for it.
pub fn type_of_op(alloc: Global, op: &Op, tys: Row<Ty>) -> Result<Option<Boxed<Ty>>, NoMemory>
    ensures { IfOk result (λ o. option_map pure_ty o ≡ type_of_op (pure_op op.now) (map pure_ty tys)) }
{
    match op {
        Op::Unary(op) => type_on_one(alloc, *op, tys.as_slice()),
        Op::Binary(op) => type_on_two(alloc, *op, tys.as_slice()),
        Op::Word(fun) => type_of_word(alloc, *fun, tys.as_slice()),
        Op::Index(_) => Ok(None),
        Op::Apply => type_of_applied(alloc, tys.as_slice()),
        Op::Tuple => Ok(Some(type_of_tuple(alloc, tys)?)),
        Op::Set => type_of_set(alloc, tys.as_slice()),
        Op::MSet => type_of_mset(alloc, tys.as_slice()),
        Op::Function => type_of_function(alloc, tys.as_slice()),
        Op::Relation => type_of_relation(alloc, tys.as_slice()),
        Op::Partition => type_of_partition(alloc, tys.as_slice()),
        Op::Matrix => type_of_list(alloc, tys.as_slice()),
        Op::Record(names) => Ok(Some(type_of_record(alloc, names.as_slice(), tys.as_slice())?)),
    }
}

/// The type of an operator on one operand.
#[tactic(auto, using(crate::proofs::OperandCounts::one_operand, crate::proofs::OperandCounts::other_operands_1))]
fn type_on_one(alloc: Global, op: Op1, tys: &[Ty]) -> Result<Option<Boxed<Ty>>, NoMemory>
    ensures { IfOk result (λ o. option_map pure_ty o ≡ type_of_op (unary op) (map pure_ty tys.now)) }
{
    if tys.len() == 1 {
        return Ok(type_of_unary(alloc, op, &tys[0])?);
    }
    Ok(None)
}

/// The type of an operator on two operands.
#[tactic(auto, using(crate::proofs::OperandCounts::two_operands, crate::proofs::OperandCounts::other_operands_2))]
fn type_on_two(alloc: Global, op: Op2, tys: &[Ty]) -> Result<Option<Boxed<Ty>>, NoMemory>
    ensures { IfOk result (λ o. option_map pure_ty o ≡ type_of_op (binary op) (map pure_ty tys.now)) }
{
    if tys.len() == 2 {
        return Ok(type_of_binary(alloc, op, &tys[0], &tys[1])?);
    }
    Ok(None)
}

/// The type of an application: the first operand is applied to the others.
fn type_of_applied(alloc: Global, tys: &[Ty]) -> Result<Option<Boxed<Ty>>, NoMemory>
    ensures { IfOk result (λ o. option_map pure_ty o ≡ type_of_op application (map pure_ty tys.now)) }
{
    match tys.split_first() {
        Some((applied, arguments)) => type_of_application(alloc, applied, arguments),
        None => Ok(None),
    }
}
