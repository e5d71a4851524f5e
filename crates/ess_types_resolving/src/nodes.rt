//! Nodes of resolved parts, with their types.
ghost use Rattle.std.specs.Prelude.{◌≡◌, ◌||◌, [], ◌∷◌, Some, map, option_map, if◌then◌else◌, IfOk};
ghost use Rattle.ess_semantics.specs.Lists.{and_then, all_some};
ghost use Rattle.ess_semantics.specs.Names.{look};
ghost use Rattle.ess_semantics.specs.Values.{a_matrix};
ghost use Rattle.ess_semantics.specs.Types.{is_bool as is_bool_ty, bool_ty, int_ty, compound2};
ghost use Rattle.ess_semantics.specs.Trees.{unary, binary, word, index, application, node_ex, name_ex, comp_ex, cell_ex, more_exs, no_exs, is_truth_op1, is_truth_op2, is_truth_word};
ghost use Rattle.ess_semantics.specs.declared.words.Fun.TheVariants as Word;
ghost use Rattle.ess_semantics.specs.OperatorTypes.{type_of_op};
ghost use Rattle.ess_semantics.specs.Typing.{number_cell_ty};
ghost use Rattle.ess_core.specs.TypeViews.{pure_ty};
ghost use Rattle.ess_core.specs.TreeViews.{pure_ex, pure_exs, pure_gens, pure_step, words_of, within, exs_of};
ghost use Rattle.ess_types_names.specs.Tables.{pure_table};
ghost use Rattle.ess_types_resolving.specs.Generators.{fitting};

use crate::types::{
    call_mark, is_truth, item_where, type_of_call, type_of_cell, type_of_items, type_of_name,
    type_of_one, type_of_two,
};
use ess_core::{Boxed, Ex, Fun, Gen, NoMemory, Op1, Op2, Row, Step, Text, Ty};
use ess_types_names::{TypeTable, Under};
use std::alloc::Global;

/// A tree beside its type.
pub(crate) fn typed(
    alloc: Global,
    ex: Ex,
    ty: Option<Boxed<Ty>>,
) -> Result<(Boxed<Ex>, Option<Boxed<Ty>>), NoMemory>
    ensures tree { IfOk result (λ r. r.0 ≡ ex) }
    ensures types { IfOk result (λ r. r.1 ≡ ty) }
{
    let ex = Boxed::new(alloc, ex)?;
    Ok((ex, ty))
}

/// A name.
pub(crate) fn name_node(
    alloc: Global,
    name: &Text,
    table: &TypeTable,
) -> Result<(Boxed<Ex>, Option<Boxed<Ty>>), NoMemory>
    ensures tree { IfOk result (λ r. pure_ex r.0 ≡ name_ex name.now) }
    ensures types { IfOk result (λ r. option_map pure_ty r.1 ≡ look (pure_table table.now) name.now) }
{
    let ty = type_of_name(alloc, name, table)?;
    let copy = name.copy(alloc)?;
    typed(alloc, Ex::Name(copy), ty)
}

/// An operator on one operand.
#[tactic(auto, using(crate::proofs::Marks::one_marked))]
pub(crate) fn one_node(
    alloc: Global,
    op: Op1,
    operand: (Boxed<Ex>, Option<Boxed<Ty>>),
) -> Result<(Boxed<Ex>, Option<Boxed<Ty>>), NoMemory>
    ensures tree { IfOk result (λ r. pure_ex r.0
        ≡ node_ex (is_truth_op1 op || is_bool_ty (option_map pure_ty r.1)) (unary op) (more_exs (pure_ex operand.0) no_exs)) }
    ensures types { IfOk result (λ r. option_map pure_ty r.1
        ≡ and_then (all_some (option_map pure_ty operand.1 ∷ [])) (type_of_op (unary op))) }
{
    let (operand, ty) = operand;
    let ty = type_of_one(alloc, op, ty)?;
    typed(alloc, Ex::One(op, operand), ty)
}

/// An operator on two operands.
#[tactic(auto, using(crate::proofs::Marks::two_marked))]
pub(crate) fn two_node(
    alloc: Global,
    op: Op2,
    first: (Boxed<Ex>, Option<Boxed<Ty>>),
    second: (Boxed<Ex>, Option<Boxed<Ty>>),
) -> Result<(Boxed<Ex>, Option<Boxed<Ty>>), NoMemory>
    ensures tree { IfOk result (λ r. pure_ex r.0
        ≡ node_ex (is_truth_op2 op || is_bool_ty (option_map pure_ty r.1)) (binary op)
        (more_exs (pure_ex first.0) (more_exs (pure_ex second.0) no_exs))) }
    ensures types { IfOk result (λ r. option_map pure_ty r.1
        ≡ and_then (all_some (option_map pure_ty first.1 ∷ option_map pure_ty second.1 ∷ [])) (type_of_op (binary op))) }
{
    let (a, first) = first;
    let (b, second) = second;
    let ty = type_of_two(alloc, op, first, second)?;
    typed(alloc, Ex::Two(op, a, b), ty)
}

/// A call of a function word.
pub(crate) fn call_node(
    alloc: Global,
    fun: Fun,
    operands: (Row<Ex>, Option<Row<Ty>>),
) -> Result<(Boxed<Ex>, Option<Boxed<Ty>>), NoMemory>
    ensures tree { IfOk result (λ r. pure_ex r.0
        ≡ node_ex (is_truth_word fun || is_bool_ty (option_map pure_ty r.1)) (word fun) (pure_exs operands.0)) }
    ensures types { IfOk result (λ r. option_map pure_ty r.1 ≡ and_then (option_map (map pure_ty) operands.1) (type_of_op (word fun))) }
{
    let (operands, tys) = operands;
    let ty = type_of_call(alloc, fun, tys)?;
    let mark = call_mark(fun, &ty);
    typed(alloc, Ex::Call(mark, fun, operands), ty)
}

/// A function at its argument: a call of `image`.
#[tactic(auto, using(crate::proofs::Marks::image_marked))]
pub(crate) fn image_node(
    alloc: Global,
    applied: Boxed<Ex>,
    arguments: Row<Ex>,
    ty: Option<Boxed<Ty>>,
) -> Result<(Boxed<Ex>, Option<Boxed<Ty>>), NoMemory>
    ensures tree { IfOk result (λ r. pure_ex r.0
        ≡ node_ex (is_bool_ty (option_map pure_ty ty)) (word Word.Image) (more_exs (pure_ex applied) (pure_exs arguments))) }
    ensures types { IfOk result (λ r. r.1 ≡ ty) }
{
    let mut operands = Row::new(alloc);
    operands.push(applied.into_inner())?;
    let mut arguments = arguments;
    operands.append(&mut arguments)?;
    let mark = is_truth(&ty);
    typed(alloc, Ex::Call(mark, Fun::Image, operands), ty)
}

/// Another application.
pub(crate) fn apply_node(
    alloc: Global,
    applied: Boxed<Ex>,
    arguments: Row<Ex>,
    ty: Option<Boxed<Ty>>,
) -> Result<(Boxed<Ex>, Option<Boxed<Ty>>), NoMemory>
    ensures tree { IfOk result (λ r. pure_ex r.0
        ≡ node_ex (is_bool_ty (option_map pure_ty ty)) application (more_exs (pure_ex applied) (pure_exs arguments))) }
    ensures types { IfOk result (λ r. r.1 ≡ ty) }
{
    let mark = is_truth(&ty);
    typed(alloc, Ex::Apply(mark, applied, arguments), ty)
}

/// An index.
pub(crate) fn index_node(
    alloc: Global,
    place: Boxed<Ex>,
    steps: Row<Step>,
    ty: Option<Boxed<Ty>>,
) -> Result<(Boxed<Ex>, Option<Boxed<Ty>>), NoMemory>
    ensures tree { IfOk result (λ r. pure_ex r.0
        ≡ node_ex (is_bool_ty (option_map pure_ty ty)) (index (words_of (map pure_step steps)))
        (more_exs (pure_ex place) (exs_of (within (map pure_step steps))))) }
    ensures types { IfOk result (λ r. r.1 ≡ ty) }
{
    let mark = is_truth(&ty);
    typed(alloc, Ex::At(mark, place, steps), ty)
}

/// A comprehension.
pub(crate) fn comp_node(
    alloc: Global,
    body: (Boxed<Ex>, Option<Boxed<Ty>>),
    gens: Row<Gen>,
    under: Under,
) -> Result<(Boxed<Ex>, Option<Boxed<Ty>>), NoMemory>
    ensures tree { IfOk result (λ r. pure_ex r.0 ≡ comp_ex (pure_ex body.0) (pure_gens gens)) }
    ensures types { IfOk result (λ r. option_map pure_ty r.1
        ≡ option_map (compound2 a_matrix int_ty) (fitting under (option_map pure_ty body.1))) }
{
    let (body, item) = body;
    let ty = type_of_items(alloc, item_where(under, item))?;
    typed(alloc, Ex::Comp(body, gens), ty)
}

/// A cell.
pub(crate) fn cell_node(
    alloc: Global,
    is_bool: bool,
    name: &Text,
    at: Row<Ex>,
    table: &TypeTable,
) -> Result<(Boxed<Ex>, Option<Boxed<Ty>>), NoMemory>
    ensures tree { IfOk result (λ r. pure_ex r.0 ≡ cell_ex is_bool name.now (pure_exs at)) }
    ensures types { IfOk result (λ r. option_map pure_ty r.1
        ≡ Some (if is_bool then bool_ty else number_cell_ty (look (pure_table table.now) name.now))) }
{
    let ty = type_of_cell(alloc, is_bool, name, table)?;
    let name = name.copy(alloc)?;
    typed(alloc, Ex::Cell(is_bool, name, at), Some(ty))
}
