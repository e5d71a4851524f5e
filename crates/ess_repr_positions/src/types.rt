//! Types in place of the positions that a domain has types for.
ghost use Rattle.std.specs.Prelude.{◌≡◌, true, option_map, IfOk};
ghost use Rattle.ess_semantics.specs.Positions.{with_types as types_put};
ghost use Rattle.ess_semantics.specs.Tables.{item_of_type};
ghost use Rattle.ess_core.specs.ValueViews.{pure_val};
ghost use Rattle.ess_eval_domains.specs.ClosedViews.{pure_closed};
ghost use Rattle.ess_translate_positions_laws.specs.Forms.{has_form};
ghost use Rattle.ess_repr_positions.specs.Typed.{val_typed};

use crate::matrices::{each_nested, nested};
use crate::parts::{each, each_field, each_pair, each_part, each_tuple};
use ess_core::{NoMemory, Text, Val};
use ess_eval_domains::Closed;
use std::alloc::Global;

/// The value with types in place of the positions that the domain has types for; nothing where a position is outside its type. It is
/// asked of values of the domain's form. `NoMemory` where there is no room for it.
#[tactic(auto, using(ess_repr_positions_laws::proofs::TypedForms::typed_so))]
pub fn with_types(alloc: Global, domain: &Closed, val: &Val) -> Result<Option<Val>, NoMemory>
    ensures { IfOk result (λ o. has_form (pure_closed domain.now) (pure_val val.now) ≡ true →
        option_map pure_val o ≡ types_put (pure_closed domain.now) (pure_val val.now)) }
{
    typed(alloc, domain, val)
}

/// The same part by part; nothing where the value's kind isn't the domain's.
#[cycle(typing)]
#[tactic(auto, using(crate::proofs::TypedValues::kinds))]
pub(crate) fn typed(alloc: Global, domain: &Closed, val: &Val) -> Result<Option<Val>, NoMemory>
    ensures { IfOk result (λ o. option_map pure_val o ≡ val_typed domain.now val.now) }
{
    match (domain, val) {
        (Closed::Bool, _) => Ok(Some(val.copy(alloc)?)),
        (Closed::Int(_), _) => Ok(Some(val.copy(alloc)?)),
        (Closed::Named(name, count), Val::Num(number)) => item(alloc, name, *count, *number),
        (Closed::Tuple(parts), Val::Tuple(vals)) => {
            match each(alloc, parts.as_slice(), vals.as_slice())? {
                Some(vals) => Ok(Some(Val::Tuple(vals))),
                None => Ok(None),
            }
        }
        (Closed::Rec(fields), Val::Rec(vals)) => {
            match each_field(alloc, fields.as_slice(), vals.as_slice())? {
                Some(vals) => Ok(Some(Val::Rec(vals))),
                None => Ok(None),
            }
        }
        (Closed::Matrix(axes, item), _) => nested(alloc, axes.as_slice(), item.get(), val),
        (Closed::Set(_, member), Val::Set(vals)) => {
            match each_nested(alloc, &[], member.get(), vals.as_slice())? {
                Some(vals) => Ok(Some(Val::Set(vals))),
                None => Ok(None),
            }
        }
        (Closed::MSet(_, member), Val::MSet(vals)) => {
            match each_nested(alloc, &[], member.get(), vals.as_slice())? {
                Some(vals) => Ok(Some(Val::MSet(vals))),
                None => Ok(None),
            }
        }
        (Closed::Function(_, from, to), Val::Function(pairs)) => {
            match each_pair(alloc, from.get(), to.get(), pairs.as_slice())? {
                Some(pairs) => Ok(Some(Val::Function(pairs))),
                None => Ok(None),
            }
        }
        (Closed::Relation(_, parts), Val::Relation(vals)) => {
            match each_tuple(alloc, parts.as_slice(), vals.as_slice())? {
                Some(vals) => Ok(Some(Val::Relation(vals))),
                None => Ok(None),
            }
        }
        (Closed::Partition(_, member), Val::Partition(vals)) => {
            match each_part(alloc, member.get(), vals.as_slice())? {
                Some(vals) => Ok(Some(Val::Partition(vals))),
                None => Ok(None),
            }
        }
        (_, _) => Ok(None),
    }
}

/// The value of a named type at a position; nothing where the type has none there.
#[tactic(auto, using(ess_core::proofs::ValueEquations::pure_item))]
fn item(alloc: Global, name: &Text, count: u64, number: i64) -> Result<Option<Val>, NoMemory>
    ensures { IfOk result (λ o. option_map pure_val o ≡ item_of_type name.now count number) }
{
    match u64::try_from(number) {
        Ok(position) => {
            if 1 <= position && position <= count {
                Ok(Some(Val::Item(name.copy(alloc)?, position)))
            } else {
                Ok(None)
            }
        }
        Err(_) => Ok(None),
    }
}
