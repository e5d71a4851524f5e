//! Literals of resolved parts, with their types.
ghost use Rattle.std.specs.Prelude.{◌≡◌, map, option_map, IfOk};
ghost use Rattle.ess_semantics.specs.Lists.{and_then};
ghost use Rattle.ess_semantics.specs.Names.{keys};
ghost use Rattle.ess_semantics.specs.Values.{a_matrix};
ghost use Rattle.ess_semantics.specs.Types.{is_bool, join_all, compound2, type_of_dom};
ghost use Rattle.ess_semantics.specs.Trees.{node_ex, matrix_ex, tuple_literal, record_literal, set_literal, mset_literal, function_literal, relation_literal, partition_literal, matrix_literal};
ghost use Rattle.ess_semantics.specs.OperatorTypes.{type_of_op};
ghost use Rattle.ess_core.specs.TypeViews.{pure_ty};
ghost use Rattle.ess_core.specs.TreeViews.{pure_ex, pure_exs, pure_dom, pure_pair_ex, pure_field_ex, exs_of, field_values};

use crate::nodes::typed;
use ess_core::{Boxed, Dom, Ex, FieldEx, NoMemory, PairEx, Row, Ty};
use ess_types_operators::{
    type_of_function, type_of_list, type_of_matrix, type_of_mset, type_of_partition,
    type_of_record, type_of_relation, type_of_set, type_of_tuple,
};
use std::alloc::Global;

/// A tuple literal.
#[tactic(auto, using(crate::proofs::LiteralMarks::tuple_marked))]
pub(crate) fn tuple_node(
    alloc: Global,
    items: (Row<Ex>, Option<Row<Ty>>),
) -> Result<(Boxed<Ex>, Option<Boxed<Ty>>), NoMemory>
    ensures tree { IfOk result (λ r. pure_ex r.0 ≡ node_ex (is_bool (option_map pure_ty r.1)) tuple_literal (pure_exs items.0)) }
    ensures types { IfOk result (λ r. option_map pure_ty r.1 ≡ and_then (option_map (map pure_ty) items.1) (type_of_op tuple_literal)) }
{
    let (items, tys) = items;
    let ty = tuple_type(alloc, tys)?;
    typed(alloc, Ex::Tuple(items), ty)
}

/// The type of a tuple literal.
fn tuple_type(alloc: Global, tys: Option<Row<Ty>>) -> Result<Option<Boxed<Ty>>, NoMemory>
    ensures { IfOk result (λ o. option_map pure_ty o ≡ and_then (option_map (map pure_ty) tys) (type_of_op tuple_literal)) }
{
    match tys {
        Some(tys) => Ok(Some(type_of_tuple(alloc, tys)?)),
        None => Ok(None),
    }
}

/// A set literal.
#[tactic(auto, using(crate::proofs::LiteralMarks::set_marked))]
pub(crate) fn set_node(
    alloc: Global,
    members: (Row<Ex>, Option<Row<Ty>>),
) -> Result<(Boxed<Ex>, Option<Boxed<Ty>>), NoMemory>
    ensures tree { IfOk result (λ r. pure_ex r.0 ≡ node_ex (is_bool (option_map pure_ty r.1)) set_literal (pure_exs members.0)) }
    ensures types { IfOk result (λ r. option_map pure_ty r.1 ≡ and_then (option_map (map pure_ty) members.1) (type_of_op set_literal)) }
{
    let (members, tys) = members;
    let ty = set_type(alloc, tys)?;
    typed(alloc, Ex::Set(members), ty)
}

/// The type of a set literal.
fn set_type(alloc: Global, tys: Option<Row<Ty>>) -> Result<Option<Boxed<Ty>>, NoMemory>
    ensures { IfOk result (λ o. option_map pure_ty o ≡ and_then (option_map (map pure_ty) tys) (type_of_op set_literal)) }
{
    match tys {
        Some(tys) => type_of_set(alloc, tys.as_slice()),
        None => Ok(None),
    }
}

/// A multiset literal.
#[tactic(auto, using(crate::proofs::LiteralMarks::mset_marked))]
pub(crate) fn mset_node(
    alloc: Global,
    members: (Row<Ex>, Option<Row<Ty>>),
) -> Result<(Boxed<Ex>, Option<Boxed<Ty>>), NoMemory>
    ensures tree { IfOk result (λ r. pure_ex r.0 ≡ node_ex (is_bool (option_map pure_ty r.1)) mset_literal (pure_exs members.0)) }
    ensures types { IfOk result (λ r. option_map pure_ty r.1 ≡ and_then (option_map (map pure_ty) members.1) (type_of_op mset_literal)) }
{
    let (members, tys) = members;
    let ty = mset_type(alloc, tys)?;
    typed(alloc, Ex::MSet(members), ty)
}

/// The type of a multiset literal.
fn mset_type(alloc: Global, tys: Option<Row<Ty>>) -> Result<Option<Boxed<Ty>>, NoMemory>
    ensures { IfOk result (λ o. option_map pure_ty o ≡ and_then (option_map (map pure_ty) tys) (type_of_op mset_literal)) }
{
    match tys {
        Some(tys) => type_of_mset(alloc, tys.as_slice()),
        None => Ok(None),
    }
}

/// A relation literal.
#[tactic(auto, using(crate::proofs::LiteralMarks::relation_marked))]
pub(crate) fn relation_node(
    alloc: Global,
    tuples: (Row<Ex>, Option<Row<Ty>>),
) -> Result<(Boxed<Ex>, Option<Boxed<Ty>>), NoMemory>
    ensures tree { IfOk result (λ r. pure_ex r.0 ≡ node_ex (is_bool (option_map pure_ty r.1)) relation_literal (pure_exs tuples.0)) }
    ensures types { IfOk result (λ r. option_map pure_ty r.1 ≡ and_then (option_map (map pure_ty) tuples.1) (type_of_op relation_literal)) }
{
    let (tuples, tys) = tuples;
    let ty = relation_type(alloc, tys)?;
    typed(alloc, Ex::Relation(tuples), ty)
}

/// The type of a relation literal.
fn relation_type(alloc: Global, tys: Option<Row<Ty>>) -> Result<Option<Boxed<Ty>>, NoMemory>
    ensures { IfOk result (λ o. option_map pure_ty o ≡ and_then (option_map (map pure_ty) tys) (type_of_op relation_literal)) }
{
    match tys {
        Some(tys) => type_of_relation(alloc, tys.as_slice()),
        None => Ok(None),
    }
}

/// A partition literal.
#[tactic(auto, using(crate::proofs::LiteralMarks::partition_marked))]
pub(crate) fn partition_node(
    alloc: Global,
    parts: (Row<Ex>, Option<Row<Ty>>),
) -> Result<(Boxed<Ex>, Option<Boxed<Ty>>), NoMemory>
    ensures tree { IfOk result (λ r. pure_ex r.0 ≡ node_ex (is_bool (option_map pure_ty r.1)) partition_literal (pure_exs parts.0)) }
    ensures types { IfOk result (λ r. option_map pure_ty r.1 ≡ and_then (option_map (map pure_ty) parts.1) (type_of_op partition_literal)) }
{
    let (parts, tys) = parts;
    let ty = partition_type(alloc, tys)?;
    typed(alloc, Ex::Partition(parts), ty)
}

/// The type of a partition literal.
fn partition_type(alloc: Global, tys: Option<Row<Ty>>) -> Result<Option<Boxed<Ty>>, NoMemory>
    ensures { IfOk result (λ o. option_map pure_ty o ≡ and_then (option_map (map pure_ty) tys) (type_of_op partition_literal)) }
{
    match tys {
        Some(tys) => type_of_partition(alloc, tys.as_slice()),
        None => Ok(None),
    }
}

/// A matrix literal without an index domain.
#[tactic(auto, using(crate::proofs::LiteralMarks::list_marked))]
pub(crate) fn list_node(
    alloc: Global,
    items: (Row<Ex>, Option<Row<Ty>>),
) -> Result<(Boxed<Ex>, Option<Boxed<Ty>>), NoMemory>
    ensures tree { IfOk result (λ r. pure_ex r.0 ≡ node_ex (is_bool (option_map pure_ty r.1)) matrix_literal (pure_exs items.0)) }
    ensures types { IfOk result (λ r. option_map pure_ty r.1 ≡ and_then (option_map (map pure_ty) items.1) (type_of_op matrix_literal)) }
{
    let (items, tys) = items;
    let ty = list_type(alloc, tys)?;
    typed(alloc, Ex::Matrix(items, None), ty)
}

/// The type of a matrix literal without an index domain.
fn list_type(alloc: Global, tys: Option<Row<Ty>>) -> Result<Option<Boxed<Ty>>, NoMemory>
    ensures { IfOk result (λ o. option_map pure_ty o ≡ and_then (option_map (map pure_ty) tys) (type_of_op matrix_literal)) }
{
    match tys {
        Some(tys) => type_of_list(alloc, tys.as_slice()),
        None => Ok(None),
    }
}

/// A function literal.
#[tactic(auto, using(crate::proofs::LiteralMarks::function_marked))]
pub(crate) fn function_node(
    alloc: Global,
    pairs: (Row<PairEx>, Option<Row<Ty>>),
) -> Result<(Boxed<Ex>, Option<Boxed<Ty>>), NoMemory>
    ensures tree { IfOk result (λ r. pure_ex r.0
        ≡ node_ex (is_bool (option_map pure_ty r.1)) function_literal (exs_of (map pure_pair_ex pairs.0))) }
    ensures types { IfOk result (λ r. option_map pure_ty r.1 ≡ and_then (option_map (map pure_ty) pairs.1) (type_of_op function_literal)) }
{
    let (pairs, tys) = pairs;
    let ty = function_type(alloc, tys)?;
    typed(alloc, Ex::Function(pairs), ty)
}

/// The type of a function literal.
fn function_type(alloc: Global, tys: Option<Row<Ty>>) -> Result<Option<Boxed<Ty>>, NoMemory>
    ensures { IfOk result (λ o. option_map pure_ty o ≡ and_then (option_map (map pure_ty) tys) (type_of_op function_literal)) }
{
    match tys {
        Some(tys) => type_of_function(alloc, tys.as_slice()),
        None => Ok(None),
    }
}

/// A record literal.
#[tactic(auto, using(crate::proofs::LiteralMarks::record_marked))]
pub(crate) fn record_node(
    alloc: Global,
    fields: (Row<FieldEx>, Option<Row<Ty>>),
) -> Result<(Boxed<Ex>, Option<Boxed<Ty>>), NoMemory>
    ensures tree { IfOk result (λ r. pure_ex r.0
        ≡ node_ex (is_bool (option_map pure_ty r.1)) (record_literal (keys (map pure_field_ex fields.0)))
        (exs_of (field_values (map pure_field_ex fields.0)))) }
    ensures types { IfOk result (λ r. option_map pure_ty r.1
        ≡ and_then (option_map (map pure_ty) fields.1) (type_of_op (record_literal (keys (map pure_field_ex fields.0))))) }
{
    let (fields, tys) = fields;
    let ty = record_type(alloc, fields.as_slice(), tys)?;
    typed(alloc, Ex::Rec(fields), ty)
}

/// The type of a record literal.
fn record_type(
    alloc: Global,
    fields: &[FieldEx],
    tys: Option<Row<Ty>>,
) -> Result<Option<Boxed<Ty>>, NoMemory>
    ensures { IfOk result (λ o. option_map pure_ty o
        ≡ and_then (option_map (map pure_ty) tys) (type_of_op (record_literal (keys (map pure_field_ex fields.now))))) }
{
    match tys {
        Some(tys) => Ok(Some(type_of_record(alloc, fields, tys.as_slice())?)),
        None => Ok(None),
    }
}

/// A matrix literal with its index domain, resolved; its type says what the index domain said before.
#[tactic(auto, using(ess_core::proofs::ExpressionEquations::pure_matrix_on))]
pub(crate) fn matrix_node(
    alloc: Global,
    items: (Row<Ex>, Option<Row<Ty>>),
    axis: &Dom,
    resolved: Boxed<Dom>,
) -> Result<(Boxed<Ex>, Option<Boxed<Ty>>), NoMemory>
    ensures tree { IfOk result (λ r. pure_ex r.0 ≡ matrix_ex (pure_exs items.0) (pure_dom resolved)) }
    ensures types { IfOk result (λ r. option_map pure_ty r.1
        ≡ and_then (option_map (map pure_ty) items.1)
        (λ ts. option_map (compound2 a_matrix (type_of_dom (pure_dom axis.now))) (join_all ts))) }
{
    let (items, tys) = items;
    let ty = matrix_type(alloc, tys, axis)?;
    typed(alloc, Ex::Matrix(items, Some(resolved)), ty)
}

/// The type of a matrix literal with its index domain.
fn matrix_type(
    alloc: Global,
    tys: Option<Row<Ty>>,
    axis: &Dom,
) -> Result<Option<Boxed<Ty>>, NoMemory>
    ensures { IfOk result (λ o. option_map pure_ty o
        ≡ and_then (option_map (map pure_ty) tys) (λ ts. option_map (compound2 a_matrix (type_of_dom (pure_dom axis.now))) (join_all ts))) }
{
    match tys {
        Some(tys) => type_of_matrix(alloc, tys.as_slice(), axis),
        None => Ok(None),
    }
}
