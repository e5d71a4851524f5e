ghost use Rattle.std.specs.Prelude.{◌≡◌, map, option_map, IfOk, OnOk};
ghost use Rattle.ess_semantics.specs.Lists.{all_some};
ghost use Rattle.ess_semantics.specs.Typing.{type_of, types_of};
ghost use Rattle.ess_core.specs.TypeViews.{pure_ty};
ghost use Rattle.ess_core.specs.TreeViews.{pure_exs, pure_pair_ex, pure_field_ex, exs_of, field_values};
ghost use Rattle.ess_types_names.specs.Tables.{pure_table};

use crate::expressions::type_of;
use crate::table::TypeTable;
use ess_core::{Boxed, Ex, FieldEx, NoMemory, PairEx, Row, Ty};
use ess_types_operators::type_of_pair;
use std::alloc::Global;

/// The types of expressions, where each has one. The table is as it was. `NoMemory` where there is no room for them; the table
/// may then hold further bound names.
#[cycle(type_of)]
#[tactic(auto, using(crate::proofs::Operands::exs_more, crate::proofs::Operands::exs_none, crate::proofs::Operands::exs_end, crate::proofs::Ahead::ahead_nothing))]
pub fn types_of(
    alloc: Global,
    exs: &[Ex],
    table: &mut TypeTable,
) -> Result<Option<Row<Ty>>, NoMemory>
    ensures ok { IfOk result (λ o. option_map (map pure_ty) o ≡ all_some (types_of (pure_exs exs.now) (pure_table table.old))) }
    ensures kept { OnOk result (table.new ≡ table.old) }
{
    let mut tys = Row::new(alloc);
    for ex in exs {
        match type_of(alloc, ex, table)? {
            Some(ty) => tys.push(ty.into_inner())?,
            None => return Ok(None),
        }
    }
    Ok(Some(tys))
}

/// The types of a function literal's pairs, where each has one.
#[cycle(type_of)]
#[tactic(auto, using(crate::proofs::Operands::pairs_more, crate::proofs::Operands::pairs_none, crate::proofs::Operands::pairs_end, crate::proofs::Ahead::ahead_nothing))]
pub(crate) fn types_of_pairs(
    alloc: Global,
    pairs: &[PairEx],
    table: &mut TypeTable,
) -> Result<Option<Row<Ty>>, NoMemory>
    ensures ok { IfOk result (λ o. option_map (map pure_ty) o ≡ all_some (types_of (exs_of (map pure_pair_ex pairs.now)) (pure_table table.old))) }
    ensures kept { OnOk result (table.new ≡ table.old) }
{
    let mut tys = Row::new(alloc);
    for pair in pairs {
        match type_of_pair_ex(alloc, pair, table)? {
            Some(ty) => tys.push(ty.into_inner())?,
            None => return Ok(None),
        }
    }
    Ok(Some(tys))
}

/// The type of a pair: that of a tuple.
#[cycle(type_of)]
#[tactic(auto, using(crate::proofs::Nodes::pair_typed, ess_core::proofs::PartEquations::pure_pair_ex_is))]
fn type_of_pair_ex(
    alloc: Global,
    pair: &PairEx,
    table: &mut TypeTable,
) -> Result<Option<Boxed<Ty>>, NoMemory>
    ensures ok { IfOk result (λ o. option_map pure_ty o ≡ type_of (pure_pair_ex pair.now) (pure_table table.old)) }
    ensures kept { OnOk result (table.new ≡ table.old) }
{
    let from = type_of(alloc, &pair.from, table)?;
    let to = type_of(alloc, &pair.to, table)?;
    match (from, to) {
        (Some(from), Some(to)) => Ok(Some(type_of_pair(alloc, from, to)?)),
        (_, _) => Ok(None),
    }
}

/// The types of a record literal's fields, where each has one.
#[cycle(type_of)]
#[tactic(auto, using(crate::proofs::Operands::fields_more, crate::proofs::Operands::fields_none, crate::proofs::Operands::fields_end, crate::proofs::Ahead::ahead_nothing))]
pub(crate) fn types_of_fields(
    alloc: Global,
    fields: &[FieldEx],
    table: &mut TypeTable,
) -> Result<Option<Row<Ty>>, NoMemory>
    ensures ok { IfOk result (λ o. option_map (map pure_ty) o ≡ all_some (types_of (exs_of (field_values (map pure_field_ex fields.now))) (pure_table table.old))) }
    ensures kept { OnOk result (table.new ≡ table.old) }
{
    let mut tys = Row::new(alloc);
    for field in fields {
        match type_of(alloc, &field.ex, table)? {
            Some(ty) => tys.push(ty.into_inner())?,
            None => return Ok(None),
        }
    }
    Ok(Some(tys))
}
