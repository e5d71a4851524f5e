//! The types of nodes, from those of their parts.
ghost use Rattle.std.specs.Prelude.{◌≡◌, [], ◌∷◌, map, option_map, IfOk};
ghost use Rattle.ess_semantics.specs.Lists.{and_then, all_some};
ghost use Rattle.ess_semantics.specs.Values.{a_matrix};
ghost use Rattle.ess_semantics.specs.Types.{int_ty, compound2};
ghost use Rattle.ess_semantics.specs.Trees.{unary, binary, word, application, tuple_literal};
ghost use Rattle.ess_semantics.specs.OperatorTypes.{type_of_op};
ghost use Rattle.ess_core.specs.TypeViews.{pure_ty};
ghost use Rattle.ess_types_nodes.specs.Parts.{fitting};

use ess_core::{Boxed, Fun, NoMemory, Op1, Op2, Row, Ty};
use ess_types_names::Under;
use ess_types_operators::{
    type_of_application, type_of_binary, type_of_comprehension, type_of_pair, type_of_unary,
    type_of_word,
};
use std::alloc::Global;

/// The type of an operator on one operand.
pub(crate) fn type_of_one(
    alloc: Global,
    op: Op1,
    ty: Option<Boxed<Ty>>,
) -> Result<Option<Boxed<Ty>>, NoMemory>
    ensures { IfOk result (λ o. option_map pure_ty o ≡ and_then (all_some (option_map pure_ty ty ∷ [])) (type_of_op (unary op))) }
{
    match ty {
        Some(ty) => type_of_unary(alloc, op, ty.get()),
        None => Ok(None),
    }
}

/// The type of an operator on two operands.
pub(crate) fn type_of_two(
    alloc: Global,
    op: Op2,
    first: Option<Boxed<Ty>>,
    second: Option<Boxed<Ty>>,
) -> Result<Option<Boxed<Ty>>, NoMemory>
    ensures { IfOk result (λ o. option_map pure_ty o
        ≡ and_then (all_some (option_map pure_ty first ∷ option_map pure_ty second ∷ [])) (type_of_op (binary op))) }
{
    match (first, second) {
        (Some(first), Some(second)) => type_of_binary(alloc, op, first.get(), second.get()),
        (_, _) => Ok(None),
    }
}

/// The type of a pair of a function literal.
pub(crate) fn type_of_two_parts(
    alloc: Global,
    first: Option<Boxed<Ty>>,
    second: Option<Boxed<Ty>>,
) -> Result<Option<Boxed<Ty>>, NoMemory>
    ensures { IfOk result (λ o. option_map pure_ty o
        ≡ and_then (all_some (option_map pure_ty first ∷ option_map pure_ty second ∷ [])) (type_of_op tuple_literal)) }
{
    match (first, second) {
        (Some(first), Some(second)) => Ok(Some(type_of_pair(alloc, first, second)?)),
        (_, _) => Ok(None),
    }
}

/// The type of a call of a function word.
pub(crate) fn type_of_call(
    alloc: Global,
    fun: Fun,
    tys: Option<Row<Ty>>,
) -> Result<Option<Boxed<Ty>>, NoMemory>
    ensures { IfOk result (λ o. option_map pure_ty o ≡ and_then (option_map (map pure_ty) tys) (type_of_op (word fun))) }
{
    match tys {
        Some(tys) => type_of_word(alloc, fun, tys.as_slice()),
        None => Ok(None),
    }
}

/// The type of an application.
pub(crate) fn type_of_apply(
    alloc: Global,
    applied: Option<Boxed<Ty>>,
    arguments: Option<Row<Ty>>,
) -> Result<Option<Boxed<Ty>>, NoMemory>
    ensures { IfOk result (λ o. option_map pure_ty o
        ≡ and_then (and_then (option_map pure_ty applied) (λ t. option_map (λ ts. t ∷ ts) (option_map (map pure_ty) arguments)))
        (type_of_op application)) }
{
    match (applied, arguments) {
        (Some(applied), Some(arguments)) => {
            type_of_application(alloc, applied.get(), arguments.as_slice())
        }
        (_, _) => Ok(None),
    }
}

/// The type of a comprehension, from that of its items.
pub(crate) fn type_of_items(
    alloc: Global,
    item: Option<Boxed<Ty>>,
) -> Result<Option<Boxed<Ty>>, NoMemory>
    ensures { IfOk result (λ o. option_map pure_ty o ≡ option_map (compound2 a_matrix int_ty) (option_map pure_ty item)) }
{
    match item {
        Some(item) => Ok(Some(type_of_comprehension(alloc, item)?)),
        None => Ok(None),
    }
}

/// The type of a comprehension's items, where the types of its generators fit.
pub(crate) fn item_where(under: Under, item: Option<Boxed<Ty>>) -> Option<Boxed<Ty>>
    ensures { option_map pure_ty result ≡ fitting under (option_map pure_ty item) }
{
    match under {
        Under::Fits => item,
        Under::Misfits => None,
    }
}
