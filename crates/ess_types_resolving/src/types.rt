//! The types of nodes, from those of their parts.
ghost use Rattle.std.specs.Prelude.{◌≡◌, ◌||◌, [], ◌∷◌, Some, map, option_map, if◌then◌else◌, IfOk};
ghost use Rattle.ess_semantics.specs.Lists.{and_then, all_some};
ghost use Rattle.ess_semantics.specs.Names.{look};
ghost use Rattle.ess_semantics.specs.Values.{a_matrix};
ghost use Rattle.ess_semantics.specs.Types.{is_bool as is_bool_ty, bool_ty, int_ty, compound2};
ghost use Rattle.ess_semantics.specs.Trees.{unary, binary, word, application, tuple_literal, is_truth_word};
ghost use Rattle.ess_semantics.specs.OperatorTypes.{type_of_op};
ghost use Rattle.ess_semantics.specs.Typing.{number_cell_ty};
ghost use Rattle.ess_core.specs.TypeViews.{pure_ty};
ghost use Rattle.ess_core.specs.TreeViews.{call_mark};
ghost use Rattle.ess_types_names.specs.Tables.{pure_table};
ghost use Rattle.ess_types_resolving.specs.Generators.{fitting};
ghost use Rattle.ess_types_resolving.specs.Parts.{joined, is_function};

use ess_core::{Boxed, Fun, NoMemory, Op1, Op2, Row, Text, Ty};
use ess_types_names::{TypeTable, Under};
use ess_types_operators::{
    is_bool, number_cell_type, type_of_application, type_of_binary, type_of_comprehension,
    type_of_pair, type_of_unary, type_of_word,
};
use std::alloc::Global;

/// The type of a name.
pub(crate) fn type_of_name(
    alloc: Global,
    name: &Text,
    table: &TypeTable,
) -> Result<Option<Boxed<Ty>>, NoMemory>
    ensures { IfOk result (λ o. option_map pure_ty o ≡ look (pure_table table.now) name.now) }
{
    match table.look(name) {
        Some(ty) => Ok(Some(Boxed::new(alloc, ty.copy(alloc)?)?)),
        None => Ok(None),
    }
}

/// The type of a cell.
pub(crate) fn type_of_cell(
    alloc: Global,
    is_bool: bool,
    name: &Text,
    table: &TypeTable,
) -> Result<Boxed<Ty>, NoMemory>
    ensures { IfOk result (λ t. pure_ty t ≡ (if is_bool then bool_ty else number_cell_ty (look (pure_table table.now) name.now))) }
{
    if is_bool {
        Boxed::new(alloc, Ty::Bool)
    } else {
        number_cell_type(alloc, table.look(name))
    }
}

/// The type of an operator on one operand.
pub(crate) fn type_of_one(
    alloc: Global,
    op: Op1,
    ty: Option<Boxed<Ty>>,
) -> Result<Option<Boxed<Ty>>, NoMemory>
    ensures { IfOk result (λ o. option_map pure_ty o ≡ and_then (all_some (option_map pure_ty ty ∷ [])) (type_of_op (unary op))) }
{
    match ty {
        Some(ty) => type_of_unary(alloc, op, ty.get()),
        None => Ok(None),
    }
}

/// The type of an operator on two operands.
pub(crate) fn type_of_two(
    alloc: Global,
    op: Op2,
    first: Option<Boxed<Ty>>,
    second: Option<Boxed<Ty>>,
) -> Result<Option<Boxed<Ty>>, NoMemory>
    ensures { IfOk result (λ o. option_map pure_ty o
        ≡ and_then (all_some (option_map pure_ty first ∷ option_map pure_ty second ∷ [])) (type_of_op (binary op))) }
{
    match (first, second) {
        (Some(first), Some(second)) => type_of_binary(alloc, op, first.get(), second.get()),
        (_, _) => Ok(None),
    }
}

/// The type of a pair of a function literal.
pub(crate) fn type_of_two_parts(
    alloc: Global,
    first: Option<Boxed<Ty>>,
    second: Option<Boxed<Ty>>,
) -> Result<Option<Boxed<Ty>>, NoMemory>
    ensures { IfOk result (λ o. option_map pure_ty o
        ≡ and_then (all_some (option_map pure_ty first ∷ option_map pure_ty second ∷ [])) (type_of_op tuple_literal)) }
{
    match (first, second) {
        (Some(first), Some(second)) => Ok(Some(type_of_pair(alloc, first, second)?)),
        (_, _) => Ok(None),
    }
}

/// The type of a call of a function word.
pub(crate) fn type_of_call(
    alloc: Global,
    fun: Fun,
    tys: Option<Row<Ty>>,
) -> Result<Option<Boxed<Ty>>, NoMemory>
    ensures { IfOk result (λ o. option_map pure_ty o ≡ and_then (option_map (map pure_ty) tys) (type_of_op (word fun))) }
{
    match tys {
        Some(tys) => type_of_word(alloc, fun, tys.as_slice()),
        None => Ok(None),
    }
}

/// The type of an application.
pub(crate) fn type_of_apply(
    alloc: Global,
    applied: Option<Boxed<Ty>>,
    arguments: Option<Row<Ty>>,
) -> Result<Option<Boxed<Ty>>, NoMemory>
    ensures { IfOk result (λ o. option_map pure_ty o
        ≡ and_then (and_then (option_map pure_ty applied) (λ t. option_map (λ ts. t ∷ ts) (option_map (map pure_ty) arguments)))
        (type_of_op application)) }
{
    match (applied, arguments) {
        (Some(applied), Some(arguments)) => {
            type_of_application(alloc, applied.get(), arguments.as_slice())
        }
        (_, _) => Ok(None),
    }
}

/// The type of a comprehension, from that of its items.
pub(crate) fn type_of_items(
    alloc: Global,
    item: Option<Boxed<Ty>>,
) -> Result<Option<Boxed<Ty>>, NoMemory>
    ensures { IfOk result (λ o. option_map pure_ty o ≡ option_map (compound2 a_matrix int_ty) (option_map pure_ty item)) }
{
    match item {
        Some(item) => Ok(Some(type_of_comprehension(alloc, item)?)),
        None => Ok(None),
    }
}

/// The type of a comprehension's items, where the types of its generators fit.
pub(crate) fn item_where(under: Under, item: Option<Boxed<Ty>>) -> Option<Boxed<Ty>>
    ensures { option_map pure_ty result ≡ fitting under (option_map pure_ty item) }
{
    match under {
        Under::Fits => item,
        Under::Misfits => None,
    }
}

/// The types of operands, and that of one more.
#[tactic(auto, using(crate::proofs::Operands::one_more))]
pub(crate) fn with_type(
    tys: Option<Row<Ty>>,
    ty: Option<Boxed<Ty>>,
) -> Result<Option<Row<Ty>>, NoMemory>
    ensures { IfOk result (λ o. option_map (map pure_ty) o
        ≡ joined (option_map (map pure_ty) tys) (option_map (λ t. t ∷ []) (option_map pure_ty ty))) }
{
    match (tys, ty) {
        (Some(tys), Some(ty)) => {
            let mut tys = tys;
            tys.push(ty.into_inner())?;
            Ok(Some(tys))
        }
        (_, _) => Ok(None),
    }
}

/// Whether this is the type of truth values.
pub(crate) fn is_truth(ty: &Option<Boxed<Ty>>) -> bool
    ensures { result ≡ is_bool_ty (option_map pure_ty ty.now) }
{
    match ty {
        Some(ty) => is_bool(Some(ty.get())),
        None => is_bool(None),
    }
}

/// The mark of a call of a function word, where its result has this type.
#[tactic(auto, using(crate::proofs::Marks::word_marked, crate::proofs::Marks::truth_marked))]
pub(crate) fn call_mark(fun: Fun, ty: &Option<Boxed<Ty>>) -> bool
    ensures { call_mark result fun ≡ (is_truth_word fun || is_bool_ty (option_map pure_ty ty.now)) }
{
    if truth_word(fun) {
        return false;
    }
    is_truth(ty)
}

/// Whether a function word gives a truth value, whatever its operands are.
fn truth_word(fun: Fun) -> bool
    ensures { result ≡ is_truth_word fun }
{
    match fun {
        Fun::And => true,
        Fun::Or => true,
        Fun::AllDiff => true,
        Fun::Together => true,
        _ => false,
    }
}

/// Whether this is the type of a function.
pub(crate) fn applies_function(ty: &Option<Boxed<Ty>>) -> bool
    ensures { result ≡ is_function (option_map pure_ty ty.now) }
{
    match ty {
        Some(ty) => function_type(ty.get()),
        None => false,
    }
}

/// Whether this is the type of a function.
fn function_type(ty: &Ty) -> bool
    ensures { result ≡ is_function (Some (pure_ty ty.now)) }
{
    match ty {
        Ty::Function(_, _) => true,
        _ => false,
    }
}
