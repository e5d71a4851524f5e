ghost use Rattle.std.specs.Prelude.{◌≡◌, false, Some, if◌then◌else◌, map, option_map, IfOk, OnOk};
ghost use Rattle.ess_semantics.specs.Lists.{and_then};
ghost use Rattle.ess_semantics.specs.Types.{bool_ty, int_ty, compound2};
ghost use Rattle.ess_semantics.specs.Values.{a_matrix};
ghost use Rattle.ess_semantics.specs.OperatorTypes.{type_of_binary, type_of_application};
ghost use Rattle.ess_semantics.specs.Names.{look};
ghost use Rattle.ess_semantics.specs.Trees.{node_ex, word, ex1, is_truth_op1};
ghost use Rattle.ess_semantics.specs.Typing.{type_of, number_cell_ty};
ghost use Rattle.ess_core.specs.TypeViews.{pure_ty};
ghost use Rattle.ess_core.specs.TreeViews.{pure_ex, pure_exs};
ghost use Rattle.ess_types_names.specs.Tables.{pure_table};
ghost use Rattle.ess_types_names.specs.Generators.{under as under_of};

use crate::indices::type_behind;
use crate::literals::{
    type_of_function_literal, type_of_list_literal, type_of_matrix_literal, type_of_mset_literal,
    type_of_partition_literal, type_of_record_literal, type_of_relation_literal,
    type_of_set_literal, type_of_tuple_literal,
};
use crate::rows::types_of;
use crate::table::TypeTable;
use crate::under::{Under, types_under};
use ess_core::{Boxed, Ex, Fun, NoMemory, Op1, Op2, Row, Text, Ty};
use ess_types_operators::{
    number_cell_type, type_of_application, type_of_binary, type_of_comprehension, type_of_dom,
    type_of_unary, type_of_word,
};
use std::alloc::Global;

/// The type of an expression under the types of names, where its parts' types fit. The table is as it was.
/// `NoMemory` where there is no room for it; the table may then hold further bound names.
#[cycle(type_of)]
#[tactic(auto, using(ess_core::proofs::PartEquations::pure_view_is, crate::proofs::Nodes::two_typed, crate::proofs::Nodes::application_typed, crate::proofs::Nodes::comp_typed, crate::proofs::Nodes::index_none, crate::proofs::Nodes::index_some, crate::proofs::Tables::unbound_back))]
pub fn type_of(alloc: Global, ex: &Ex, table: &mut TypeTable) -> Result<Option<Boxed<Ty>>, NoMemory>
    ensures ok { IfOk result (λ o. option_map pure_ty o ≡ type_of (pure_ex ex.now) (pure_table table.old)) }
    ensures kept { OnOk result (table.new ≡ table.old) }
{
    match ex {
        Ex::Num(_) => Ok(Some(Boxed::new(alloc, Ty::Int)?)),
        Ex::Truth(_) => Ok(Some(Boxed::new(alloc, Ty::Bool)?)),
        Ex::Name(name) => type_of_name(alloc, name, table),
        Ex::One(op, operand) => type_of_one(alloc, *op, operand.get(), table),
        Ex::Two(op, a, b) => {
            let first = type_of(alloc, a.get(), table)?;
            let second = type_of(alloc, b.get(), table)?;
            type_of_two(alloc, *op, first, second)
        }
        Ex::Call(_, fun, operands) => type_of_call(alloc, *fun, operands.as_slice(), table),
        Ex::At(_, place, steps) => match type_of(alloc, place.get(), table)? {
            Some(ty) => type_behind(alloc, steps.as_slice(), ty, table),
            None => Ok(None),
        },
        Ex::Apply(_, applied, arguments) => {
            let first = type_of(alloc, applied.get(), table)?;
            let others = types_of(alloc, arguments.as_slice(), table)?;
            type_of_apply(alloc, first, others)
        }
        Ex::Tuple(items) => type_of_tuple_literal(alloc, items.as_slice(), table),
        Ex::Rec(fields) => type_of_record_literal(alloc, fields.as_slice(), table),
        Ex::Set(members) => type_of_set_literal(alloc, members.as_slice(), table),
        Ex::MSet(members) => type_of_mset_literal(alloc, members.as_slice(), table),
        Ex::Function(pairs) => type_of_function_literal(alloc, pairs.as_slice(), table),
        Ex::Relation(tuples) => type_of_relation_literal(alloc, tuples.as_slice(), table),
        Ex::Partition(parts) => type_of_partition_literal(alloc, parts.as_slice(), table),
        Ex::Matrix(items, None) => type_of_list_literal(alloc, items.as_slice(), table),
        Ex::Matrix(items, Some(axis)) => {
            type_of_matrix_literal(alloc, items.as_slice(), axis.get(), table)
        }
        Ex::Comp(body, gens) => {
            let mark = table.bound_len();
            let under = types_under(alloc, gens.as_slice(), table)?;
            let item = type_where(alloc, under, body.get(), table)?;
            table.unbind(mark);
            type_of_items(alloc, item)
        }
        Ex::Cell(is_bool, name, _) => type_of_cell(alloc, *is_bool, name, table),
        Ex::Seen(view) => Ok(Some(type_of_dom(alloc, &view.get().dom)?)),
    }
}

/// The type of a name.
fn type_of_name(
    alloc: Global,
    name: &Text,
    table: &TypeTable,
) -> Result<Option<Boxed<Ty>>, NoMemory>
    ensures { IfOk result (λ o. option_map pure_ty o ≡ look (pure_table table.now) name.now) }
{
    match table.look(name) {
        Some(ty) => Ok(Some(Boxed::new(alloc, ty.copy(alloc)?)?)),
        None => Ok(None),
    }
}

/// The type of a cell.
fn type_of_cell(
    alloc: Global,
    is_bool: bool,
    name: &Text,
    table: &TypeTable,
) -> Result<Option<Boxed<Ty>>, NoMemory>
    ensures { IfOk result (λ o. option_map pure_ty o ≡ Some (if is_bool then bool_ty else number_cell_ty (look (pure_table table.now) name.now))) }
{
    if is_bool {
        Ok(Some(Boxed::new(alloc, Ty::Bool)?))
    } else {
        Ok(Some(number_cell_type(alloc, table.look(name))?))
    }
}

/// The type of an operator on one operand.
#[cycle(type_of)]
#[tactic(auto, using(crate::proofs::Nodes::one_typed))]
fn type_of_one(
    alloc: Global,
    op: Op1,
    operand: &Ex,
    table: &mut TypeTable,
) -> Result<Option<Boxed<Ty>>, NoMemory>
    ensures ok { IfOk result (λ o. option_map pure_ty o ≡ type_of (ex1 (is_truth_op1 op) op (pure_ex operand.now)) (pure_table table.old)) }
    ensures kept { OnOk result (table.new ≡ table.old) }
{
    match type_of(alloc, operand, table)? {
        Some(ty) => type_of_unary(alloc, op, ty.get()),
        None => Ok(None),
    }
}

/// The type of an operator on two operands, from their types.
fn type_of_two(
    alloc: Global,
    op: Op2,
    first: Option<Boxed<Ty>>,
    second: Option<Boxed<Ty>>,
) -> Result<Option<Boxed<Ty>>, NoMemory>
    ensures { IfOk result (λ o. option_map pure_ty o ≡ and_then (option_map pure_ty first) (λ t. and_then (option_map pure_ty second) (λ u. type_of_binary op t u))) }
{
    match (first, second) {
        (Some(first), Some(second)) => type_of_binary(alloc, op, first.get(), second.get()),
        (_, _) => Ok(None),
    }
}

/// The type of a call of a function word.
#[cycle(type_of)]
fn type_of_call(
    alloc: Global,
    fun: Fun,
    operands: &[Ex],
    table: &mut TypeTable,
) -> Result<Option<Boxed<Ty>>, NoMemory>
    ensures ok { IfOk result (λ o. option_map pure_ty o ≡ type_of (node_ex false (word fun) (pure_exs operands.now)) (pure_table table.old)) }
    ensures kept { OnOk result (table.new ≡ table.old) }
{
    match types_of(alloc, operands, table)? {
        Some(tys) => type_of_word(alloc, fun, tys.as_slice()),
        None => Ok(None),
    }
}

/// The type of an application, from the types of its parts.
fn type_of_apply(
    alloc: Global,
    applied: Option<Boxed<Ty>>,
    arguments: Option<Row<Ty>>,
) -> Result<Option<Boxed<Ty>>, NoMemory>
    ensures { IfOk result (λ o. option_map pure_ty o ≡ and_then (option_map pure_ty applied) (λ t. and_then (option_map (map pure_ty) arguments) (λ ts. type_of_application t ts))) }
{
    match (applied, arguments) {
        (Some(applied), Some(arguments)) => {
            type_of_application(alloc, applied.get(), arguments.as_slice())
        }
        (_, _) => Ok(None),
    }
}

/// The type of a comprehension, from that of its items.
fn type_of_items(alloc: Global, item: Option<Boxed<Ty>>) -> Result<Option<Boxed<Ty>>, NoMemory>
    ensures { IfOk result (λ o. option_map pure_ty o ≡ option_map (compound2 a_matrix int_ty) (option_map pure_ty item)) }
{
    match item {
        Some(item) => Ok(Some(type_of_comprehension(alloc, item)?)),
        None => Ok(None),
    }
}

/// The type of a body under generators, where these fit.
#[cycle(type_of)]
fn type_where(
    alloc: Global,
    under: Under,
    body: &Ex,
    table: &mut TypeTable,
) -> Result<Option<Boxed<Ty>>, NoMemory>
    ensures ok { IfOk result (λ o. option_map pure_ty o ≡ and_then (under_of under (pure_table table.old)) (type_of (pure_ex body.now))) }
    ensures kept { OnOk result (table.new ≡ table.old) }
{
    match under {
        Under::Fits => type_of(alloc, body, table),
        Under::Misfits => Ok(None),
    }
}
