//! Literals beside their types.
ghost use Rattle.std.specs.Prelude.{◌≡◌, false, map, option_map, IfOk};
ghost use Rattle.ess_semantics.specs.Lists.{and_then, all_some};
ghost use Rattle.ess_semantics.specs.Names.{Names, keys};
ghost use Rattle.ess_semantics.specs.Values.{a_matrix};
ghost use Rattle.ess_semantics.specs.Types.{Ty as PureTy, join_all, compound2, type_of_dom};
ghost use Rattle.ess_semantics.specs.Trees.{node_ex, matrix_ex, tuple_literal, record_literal, set_literal, mset_literal, function_literal, relation_literal, partition_literal, matrix_literal};
ghost use Rattle.ess_semantics.specs.OperatorTypes.{type_of_op};
ghost use Rattle.ess_semantics.specs.Typing.{type_of, types_of};
ghost use Rattle.ess_core.specs.TypeViews.{pure_ty};
ghost use Rattle.ess_core.specs.TreeViews.{pure_ex, pure_exs, pure_dom, pure_pair_ex, pure_field_ex, exs_of, field_values};

use ess_core::{Boxed, Dom, Ex, FieldEx, NoMemory, PairEx, Row, Ty};
use ess_types_operators::{
    type_of_function, type_of_list, type_of_matrix, type_of_mset, type_of_partition,
    type_of_record, type_of_relation, type_of_set, type_of_tuple,
};
use std::alloc::Global;

/// A tuple literal: its type is right under any names where those of its items are. `NoMemory` where there is no room for it.
#[tactic(auto, using(crate::proofs::NodeTypes::tuple_typed))]
pub fn tuple_node(
    alloc: Global,
    items: (Row<Ex>, Option<Row<Ty>>),
) -> Result<(Boxed<Ex>, Option<Boxed<Ty>>), NoMemory>
    ensures tree { IfOk result (λ r. pure_ex r.0 ≡ node_ex false tuple_literal (pure_exs items.0)) }
    ensures types { IfOk result (λ r. (g : Names PureTy)
        → option_map (map pure_ty) items.1 ≡ all_some (types_of (pure_exs items.0) g)
        → option_map pure_ty r.1 ≡ type_of (pure_ex r.0) g) }
{
    let (items, tys) = items;
    let ty = tuple_type(alloc, tys)?;
    let ex = Boxed::new(alloc, Ex::Tuple(items))?;
    Ok((ex, ty))
}

/// The type of a tuple literal.
fn tuple_type(alloc: Global, tys: Option<Row<Ty>>) -> Result<Option<Boxed<Ty>>, NoMemory>
    ensures { IfOk result (λ o. option_map pure_ty o ≡ and_then (option_map (map pure_ty) tys) (type_of_op tuple_literal)) }
{
    match tys {
        Some(tys) => Ok(Some(type_of_tuple(alloc, tys)?)),
        None => Ok(None),
    }
}

/// A set literal: its type is right under any names where those of its members are. `NoMemory` where there is no room for it.
#[tactic(auto, using(crate::proofs::NodeTypes::set_typed))]
pub fn set_node(
    alloc: Global,
    members: (Row<Ex>, Option<Row<Ty>>),
) -> Result<(Boxed<Ex>, Option<Boxed<Ty>>), NoMemory>
    ensures tree { IfOk result (λ r. pure_ex r.0 ≡ node_ex false set_literal (pure_exs members.0)) }
    ensures types { IfOk result (λ r. (g : Names PureTy)
        → option_map (map pure_ty) members.1 ≡ all_some (types_of (pure_exs members.0) g)
        → option_map pure_ty r.1 ≡ type_of (pure_ex r.0) g) }
{
    let (members, tys) = members;
    let ty = set_type(alloc, tys)?;
    let ex = Boxed::new(alloc, Ex::Set(members))?;
    Ok((ex, ty))
}

/// The type of a set literal.
fn set_type(alloc: Global, tys: Option<Row<Ty>>) -> Result<Option<Boxed<Ty>>, NoMemory>
    ensures { IfOk result (λ o. option_map pure_ty o ≡ and_then (option_map (map pure_ty) tys) (type_of_op set_literal)) }
{
    match tys {
        Some(tys) => type_of_set(alloc, tys.as_slice()),
        None => Ok(None),
    }
}

/// A multiset literal: its type is right under any names where those of its members are. `NoMemory` where there is no room for it.
#[tactic(auto, using(crate::proofs::NodeTypes::mset_typed))]
pub fn mset_node(
    alloc: Global,
    members: (Row<Ex>, Option<Row<Ty>>),
) -> Result<(Boxed<Ex>, Option<Boxed<Ty>>), NoMemory>
    ensures tree { IfOk result (λ r. pure_ex r.0 ≡ node_ex false mset_literal (pure_exs members.0)) }
    ensures types { IfOk result (λ r. (g : Names PureTy)
        → option_map (map pure_ty) members.1 ≡ all_some (types_of (pure_exs members.0) g)
        → option_map pure_ty r.1 ≡ type_of (pure_ex r.0) g) }
{
    let (members, tys) = members;
    let ty = mset_type(alloc, tys)?;
    let ex = Boxed::new(alloc, Ex::MSet(members))?;
    Ok((ex, ty))
}

/// The type of a multiset literal.
fn mset_type(alloc: Global, tys: Option<Row<Ty>>) -> Result<Option<Boxed<Ty>>, NoMemory>
    ensures { IfOk result (λ o. option_map pure_ty o ≡ and_then (option_map (map pure_ty) tys) (type_of_op mset_literal)) }
{
    match tys {
        Some(tys) => type_of_mset(alloc, tys.as_slice()),
        None => Ok(None),
    }
}

/// A relation literal: its type is right under any names where those of its tuples are. `NoMemory` where there is no room for it.
#[tactic(auto, using(crate::proofs::NodeTypes::relation_typed))]
pub fn relation_node(
    alloc: Global,
    tuples: (Row<Ex>, Option<Row<Ty>>),
) -> Result<(Boxed<Ex>, Option<Boxed<Ty>>), NoMemory>
    ensures tree { IfOk result (λ r. pure_ex r.0 ≡ node_ex false relation_literal (pure_exs tuples.0)) }
    ensures types { IfOk result (λ r. (g : Names PureTy)
        → option_map (map pure_ty) tuples.1 ≡ all_some (types_of (pure_exs tuples.0) g)
        → option_map pure_ty r.1 ≡ type_of (pure_ex r.0) g) }
{
    let (tuples, tys) = tuples;
    let ty = relation_type(alloc, tys)?;
    let ex = Boxed::new(alloc, Ex::Relation(tuples))?;
    Ok((ex, ty))
}

/// The type of a relation literal.
fn relation_type(alloc: Global, tys: Option<Row<Ty>>) -> Result<Option<Boxed<Ty>>, NoMemory>
    ensures { IfOk result (λ o. option_map pure_ty o ≡ and_then (option_map (map pure_ty) tys) (type_of_op relation_literal)) }
{
    match tys {
        Some(tys) => type_of_relation(alloc, tys.as_slice()),
        None => Ok(None),
    }
}

/// A partition literal: its type is right under any names where those of its parts are. `NoMemory` where there is no room for it.
#[tactic(auto, using(crate::proofs::NodeTypes::partition_typed))]
pub fn partition_node(
    alloc: Global,
    parts: (Row<Ex>, Option<Row<Ty>>),
) -> Result<(Boxed<Ex>, Option<Boxed<Ty>>), NoMemory>
    ensures tree { IfOk result (λ r. pure_ex r.0 ≡ node_ex false partition_literal (pure_exs parts.0)) }
    ensures types { IfOk result (λ r. (g : Names PureTy)
        → option_map (map pure_ty) parts.1 ≡ all_some (types_of (pure_exs parts.0) g)
        → option_map pure_ty r.1 ≡ type_of (pure_ex r.0) g) }
{
    let (parts, tys) = parts;
    let ty = partition_type(alloc, tys)?;
    let ex = Boxed::new(alloc, Ex::Partition(parts))?;
    Ok((ex, ty))
}

/// The type of a partition literal.
fn partition_type(alloc: Global, tys: Option<Row<Ty>>) -> Result<Option<Boxed<Ty>>, NoMemory>
    ensures { IfOk result (λ o. option_map pure_ty o ≡ and_then (option_map (map pure_ty) tys) (type_of_op partition_literal)) }
{
    match tys {
        Some(tys) => type_of_partition(alloc, tys.as_slice()),
        None => Ok(None),
    }
}

/// A matrix literal without an index domain: its type is right under any names where those of its items are. `NoMemory` where
/// there is no room for it.
#[tactic(auto, using(crate::proofs::NodeTypes::list_typed))]
pub fn list_node(
    alloc: Global,
    items: (Row<Ex>, Option<Row<Ty>>),
) -> Result<(Boxed<Ex>, Option<Boxed<Ty>>), NoMemory>
    ensures tree { IfOk result (λ r. pure_ex r.0 ≡ node_ex false matrix_literal (pure_exs items.0)) }
    ensures types { IfOk result (λ r. (g : Names PureTy)
        → option_map (map pure_ty) items.1 ≡ all_some (types_of (pure_exs items.0) g)
        → option_map pure_ty r.1 ≡ type_of (pure_ex r.0) g) }
{
    let (items, tys) = items;
    let ty = list_type(alloc, tys)?;
    let ex = Boxed::new(alloc, Ex::Matrix(items, None))?;
    Ok((ex, ty))
}

/// The type of a matrix literal without an index domain.
fn list_type(alloc: Global, tys: Option<Row<Ty>>) -> Result<Option<Boxed<Ty>>, NoMemory>
    ensures { IfOk result (λ o. option_map pure_ty o ≡ and_then (option_map (map pure_ty) tys) (type_of_op matrix_literal)) }
{
    match tys {
        Some(tys) => type_of_list(alloc, tys.as_slice()),
        None => Ok(None),
    }
}

/// A function literal: its type is right under any names where those of its pairs are. `NoMemory` where there is no room for it.
#[tactic(auto, using(crate::proofs::NodeTypes::function_typed))]
pub fn function_node(
    alloc: Global,
    pairs: (Row<PairEx>, Option<Row<Ty>>),
) -> Result<(Boxed<Ex>, Option<Boxed<Ty>>), NoMemory>
    ensures tree { IfOk result (λ r. pure_ex r.0 ≡ node_ex false function_literal (exs_of (map pure_pair_ex pairs.0))) }
    ensures types { IfOk result (λ r. (g : Names PureTy)
        → option_map (map pure_ty) pairs.1 ≡ all_some (types_of (exs_of (map pure_pair_ex pairs.0)) g)
        → option_map pure_ty r.1 ≡ type_of (pure_ex r.0) g) }
{
    let (pairs, tys) = pairs;
    let ty = function_type(alloc, tys)?;
    let ex = Boxed::new(alloc, Ex::Function(pairs))?;
    Ok((ex, ty))
}

/// The type of a function literal.
fn function_type(alloc: Global, tys: Option<Row<Ty>>) -> Result<Option<Boxed<Ty>>, NoMemory>
    ensures { IfOk result (λ o. option_map pure_ty o ≡ and_then (option_map (map pure_ty) tys) (type_of_op function_literal)) }
{
    match tys {
        Some(tys) => type_of_function(alloc, tys.as_slice()),
        None => Ok(None),
    }
}

/// A record literal: its type is right under any names where those of its values are. `NoMemory` where there is no room for it.
#[tactic(auto, using(crate::proofs::NodeTypes::record_typed))]
pub fn record_node(
    alloc: Global,
    fields: (Row<FieldEx>, Option<Row<Ty>>),
) -> Result<(Boxed<Ex>, Option<Boxed<Ty>>), NoMemory>
    ensures tree { IfOk result (λ r. pure_ex r.0
        ≡ node_ex false (record_literal (keys (map pure_field_ex fields.0))) (exs_of (field_values (map pure_field_ex fields.0)))) }
    ensures types { IfOk result (λ r. (g : Names PureTy)
        → option_map (map pure_ty) fields.1 ≡ all_some (types_of (exs_of (field_values (map pure_field_ex fields.0))) g)
        → option_map pure_ty r.1 ≡ type_of (pure_ex r.0) g) }
{
    let (fields, tys) = fields;
    let ty = record_type(alloc, fields.as_slice(), tys)?;
    let ex = Boxed::new(alloc, Ex::Rec(fields))?;
    Ok((ex, ty))
}

/// The type of a record literal.
fn record_type(
    alloc: Global,
    fields: &[FieldEx],
    tys: Option<Row<Ty>>,
) -> Result<Option<Boxed<Ty>>, NoMemory>
    ensures { IfOk result (λ o. option_map pure_ty o
        ≡ and_then (option_map (map pure_ty) tys) (type_of_op (record_literal (keys (map pure_field_ex fields.now))))) }
{
    match tys {
        Some(tys) => Ok(Some(type_of_record(alloc, fields, tys.as_slice())?)),
        None => Ok(None),
    }
}

/// A matrix literal with its index domain: its type is right under any names where those of its items are. `NoMemory` where
/// there is no room for it.
#[tactic(auto, using(ess_core::proofs::ExpressionEquations::pure_matrix_on, crate::proofs::NodeTypes::matrix_typed))]
pub fn matrix_node(
    alloc: Global,
    items: (Row<Ex>, Option<Row<Ty>>),
    axis: Boxed<Dom>,
) -> Result<(Boxed<Ex>, Option<Boxed<Ty>>), NoMemory>
    ensures tree { IfOk result (λ r. pure_ex r.0 ≡ matrix_ex (pure_exs items.0) (pure_dom axis)) }
    ensures types { IfOk result (λ r. (g : Names PureTy)
        → option_map (map pure_ty) items.1 ≡ all_some (types_of (pure_exs items.0) g)
        → option_map pure_ty r.1 ≡ type_of (pure_ex r.0) g) }
{
    let (items, tys) = items;
    let ty = matrix_type(alloc, tys, axis.get())?;
    let ex = Boxed::new(alloc, Ex::Matrix(items, Some(axis)))?;
    Ok((ex, ty))
}

/// The type of a matrix literal with its index domain.
fn matrix_type(
    alloc: Global,
    tys: Option<Row<Ty>>,
    axis: &Dom,
) -> Result<Option<Boxed<Ty>>, NoMemory>
    ensures { IfOk result (λ o. option_map pure_ty o
        ≡ and_then (option_map (map pure_ty) tys) (λ ts. option_map (compound2 a_matrix (type_of_dom (pure_dom axis.now))) (join_all ts))) }
{
    match tys {
        Some(tys) => type_of_matrix(alloc, tys.as_slice(), axis),
        None => Ok(None),
    }
}
