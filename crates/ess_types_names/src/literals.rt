ghost use Rattle.std.specs.Prelude.{◌≡◌, false, map, option_map, IfOk, OnOk};
ghost use Rattle.ess_semantics.specs.Names.{keys};
ghost use Rattle.ess_semantics.specs.Trees.{node_ex, matrix_ex, tuple_literal, record_literal, set_literal, mset_literal, function_literal, relation_literal, partition_literal, matrix_literal};
ghost use Rattle.ess_semantics.specs.Typing.{type_of};
ghost use Rattle.ess_core.specs.TypeViews.{pure_ty};
ghost use Rattle.ess_core.specs.TreeViews.{pure_exs, pure_dom, pure_pair_ex, pure_field_ex, exs_of, field_values};
ghost use Rattle.ess_types_names.specs.Tables.{pure_table};

use crate::rows::{types_of, types_of_fields, types_of_pairs};
use crate::table::TypeTable;
use ess_core::{Boxed, Dom, Ex, FieldEx, NoMemory, PairEx, Ty};
use ess_types_operators::{
    type_of_function, type_of_list, type_of_matrix, type_of_mset, type_of_partition,
    type_of_record, type_of_relation, type_of_set, type_of_tuple,
};
use std::alloc::Global;

/// The type of a tuple literal.
#[cycle(type_of)]
pub(crate) fn type_of_tuple_literal(
    alloc: Global,
    items: &[Ex],
    table: &mut TypeTable,
) -> Result<Option<Boxed<Ty>>, NoMemory>
    ensures ok { IfOk result (λ o. option_map pure_ty o ≡ type_of (node_ex false tuple_literal (pure_exs items.now)) (pure_table table.old)) }
    ensures kept { OnOk result (table.new ≡ table.old) }
{
    match types_of(alloc, items, table)? {
        Some(tys) => Ok(Some(type_of_tuple(alloc, tys)?)),
        None => Ok(None),
    }
}

/// The type of a record literal.
#[cycle(type_of)]
pub(crate) fn type_of_record_literal(
    alloc: Global,
    fields: &[FieldEx],
    table: &mut TypeTable,
) -> Result<Option<Boxed<Ty>>, NoMemory>
    ensures ok { IfOk result (λ o. option_map pure_ty o ≡ type_of (node_ex false (record_literal (keys (map pure_field_ex fields.now))) (exs_of (field_values (map pure_field_ex fields.now)))) (pure_table table.old)) }
    ensures kept { OnOk result (table.new ≡ table.old) }
{
    match types_of_fields(alloc, fields, table)? {
        Some(tys) => Ok(Some(type_of_record(alloc, fields, tys.as_slice())?)),
        None => Ok(None),
    }
}

/// The type of a set literal.
#[cycle(type_of)]
pub(crate) fn type_of_set_literal(
    alloc: Global,
    members: &[Ex],
    table: &mut TypeTable,
) -> Result<Option<Boxed<Ty>>, NoMemory>
    ensures ok { IfOk result (λ o. option_map pure_ty o ≡ type_of (node_ex false set_literal (pure_exs members.now)) (pure_table table.old)) }
    ensures kept { OnOk result (table.new ≡ table.old) }
{
    match types_of(alloc, members, table)? {
        Some(tys) => type_of_set(alloc, tys.as_slice()),
        None => Ok(None),
    }
}

/// The type of a multiset literal.
#[cycle(type_of)]
pub(crate) fn type_of_mset_literal(
    alloc: Global,
    members: &[Ex],
    table: &mut TypeTable,
) -> Result<Option<Boxed<Ty>>, NoMemory>
    ensures ok { IfOk result (λ o. option_map pure_ty o ≡ type_of (node_ex false mset_literal (pure_exs members.now)) (pure_table table.old)) }
    ensures kept { OnOk result (table.new ≡ table.old) }
{
    match types_of(alloc, members, table)? {
        Some(tys) => type_of_mset(alloc, tys.as_slice()),
        None => Ok(None),
    }
}

/// The type of a relation literal.
#[cycle(type_of)]
pub(crate) fn type_of_relation_literal(
    alloc: Global,
    tuples: &[Ex],
    table: &mut TypeTable,
) -> Result<Option<Boxed<Ty>>, NoMemory>
    ensures ok { IfOk result (λ o. option_map pure_ty o ≡ type_of (node_ex false relation_literal (pure_exs tuples.now)) (pure_table table.old)) }
    ensures kept { OnOk result (table.new ≡ table.old) }
{
    match types_of(alloc, tuples, table)? {
        Some(tys) => type_of_relation(alloc, tys.as_slice()),
        None => Ok(None),
    }
}

/// The type of a partition literal.
#[cycle(type_of)]
pub(crate) fn type_of_partition_literal(
    alloc: Global,
    parts: &[Ex],
    table: &mut TypeTable,
) -> Result<Option<Boxed<Ty>>, NoMemory>
    ensures ok { IfOk result (λ o. option_map pure_ty o ≡ type_of (node_ex false partition_literal (pure_exs parts.now)) (pure_table table.old)) }
    ensures kept { OnOk result (table.new ≡ table.old) }
{
    match types_of(alloc, parts, table)? {
        Some(tys) => type_of_partition(alloc, tys.as_slice()),
        None => Ok(None),
    }
}

/// The type of a function literal.
#[cycle(type_of)]
pub(crate) fn type_of_function_literal(
    alloc: Global,
    pairs: &[PairEx],
    table: &mut TypeTable,
) -> Result<Option<Boxed<Ty>>, NoMemory>
    ensures ok { IfOk result (λ o. option_map pure_ty o ≡ type_of (node_ex false function_literal (exs_of (map pure_pair_ex pairs.now))) (pure_table table.old)) }
    ensures kept { OnOk result (table.new ≡ table.old) }
{
    match types_of_pairs(alloc, pairs, table)? {
        Some(tys) => type_of_function(alloc, tys.as_slice()),
        None => Ok(None),
    }
}

/// The type of a matrix literal without an index domain.
#[cycle(type_of)]
pub(crate) fn type_of_list_literal(
    alloc: Global,
    items: &[Ex],
    table: &mut TypeTable,
) -> Result<Option<Boxed<Ty>>, NoMemory>
    ensures ok { IfOk result (λ o. option_map pure_ty o ≡ type_of (node_ex false matrix_literal (pure_exs items.now)) (pure_table table.old)) }
    ensures kept { OnOk result (table.new ≡ table.old) }
{
    match types_of(alloc, items, table)? {
        Some(tys) => type_of_list(alloc, tys.as_slice()),
        None => Ok(None),
    }
}

/// The type of a matrix literal with its index domain.
#[cycle(type_of)]
pub(crate) fn type_of_matrix_literal(
    alloc: Global,
    items: &[Ex],
    axis: &Dom,
    table: &mut TypeTable,
) -> Result<Option<Boxed<Ty>>, NoMemory>
    ensures ok { IfOk result (λ o. option_map pure_ty o ≡ type_of (matrix_ex (pure_exs items.now) (pure_dom axis.now)) (pure_table table.old)) }
    ensures kept { OnOk result (table.new ≡ table.old) }
{
    match types_of(alloc, items, table)? {
        Some(tys) => type_of_matrix(alloc, tys.as_slice(), axis),
        None => Ok(None),
    }
}
