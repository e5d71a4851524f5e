//! Expressions, resolved.
ghost use Rattle.std.specs.Prelude.{◌≡◌, option_map, IfOk, OnOk};
ghost use Rattle.ess_semantics.specs.Typing.{type_of};
ghost use Rattle.ess_semantics.specs.Resolving.{resolve};
ghost use Rattle.ess_core.specs.TypeViews.{pure_ty};
ghost use Rattle.ess_core.specs.TreeViews.{pure_ex};
ghost use Rattle.ess_types_names.specs.Tables.{pure_table};

use crate::domains::resolve_dom;
use crate::generators::resolve_gens;
use crate::indices::resolve_indexed;
use crate::literals::{
    function_node, list_node, matrix_node, mset_node, partition_node, record_node, relation_node,
    set_node, tuple_node,
};
use crate::nodes::{call_node, cell_node, comp_node, name_node, one_node, two_node, typed};
use crate::rows::{resolve_applied, resolve_exs, resolve_fields, resolve_pairs};
use crate::views::resolve_view;
use ess_core::{Boxed, Ex, NoMemory, Ty};
use ess_types_names::TypeTable;
use std::alloc::Global;

/// The expression, resolved under the types of names: its indices, applications and calls of `image` say whether they are
/// Boolean, and what each step of an index is. The table is as it was. `NoMemory` where there is no room for it; the table may
/// then hold further bound names.
pub fn resolve_ex(alloc: Global, ex: &Ex, table: &mut TypeTable) -> Result<Boxed<Ex>, NoMemory>
    ensures ok { IfOk result (λ e. pure_ex e ≡ resolve (pure_ex ex.now) (pure_table table.old)) }
    ensures kept { OnOk result (table.new ≡ table.old) }
{
    let (resolved, ty) = resolve_typed(alloc, ex, table)?;
    drop(ty);
    Ok(resolved)
}

/// The expression, resolved, with its type where its parts' types fit.
#[cycle(resolve)]
#[tactic(auto, using(crate::proofs::Paths::index_typed, crate::proofs::Comprehensions::comp_typed, ess_types_names::proofs::Tables::unbound_back))]
pub(crate) fn resolve_typed(
    alloc: Global,
    ex: &Ex,
    table: &mut TypeTable,
) -> Result<(Boxed<Ex>, Option<Boxed<Ty>>), NoMemory>
    ensures tree { IfOk result (λ r. pure_ex r.0 ≡ resolve (pure_ex ex.now) (pure_table table.old)) }
    ensures types { IfOk result (λ r. option_map pure_ty r.1 ≡ type_of (pure_ex ex.now) (pure_table table.old)) }
    ensures kept { OnOk result (table.new ≡ table.old) }
{
    match ex {
        Ex::Num(number) => {
            let ty = Boxed::new(alloc, Ty::Int)?;
            typed(alloc, Ex::Num(*number), Some(ty))
        }
        Ex::Truth(truth) => {
            let ty = Boxed::new(alloc, Ty::Bool)?;
            typed(alloc, Ex::Truth(*truth), Some(ty))
        }
        Ex::Name(name) => name_node(alloc, name, table),
        Ex::One(op, operand) => one_node(alloc, *op, resolve_typed(alloc, operand.get(), table)?),
        Ex::Two(op, a, b) => {
            let first = resolve_typed(alloc, a.get(), table)?;
            let second = resolve_typed(alloc, b.get(), table)?;
            two_node(alloc, *op, first, second)
        }
        Ex::Call(_, fun, operands) => {
            let operands = resolve_exs(alloc, operands.as_slice(), table)?;
            call_node(alloc, *fun, operands)
        }
        Ex::At(_, place, steps) => {
            let place = resolve_typed(alloc, place.get(), table)?;
            resolve_indexed(alloc, steps.as_slice(), place, table)
        }
        Ex::Apply(_, applied, arguments) => {
            let applied = resolve_typed(alloc, applied.get(), table)?;
            resolve_applied(alloc, arguments.as_slice(), applied, table)
        }
        Ex::Tuple(items) => tuple_node(alloc, resolve_exs(alloc, items.as_slice(), table)?),
        Ex::Rec(fields) => record_node(alloc, resolve_fields(alloc, fields.as_slice(), table)?),
        Ex::Set(members) => set_node(alloc, resolve_exs(alloc, members.as_slice(), table)?),
        Ex::MSet(members) => mset_node(alloc, resolve_exs(alloc, members.as_slice(), table)?),
        Ex::Function(pairs) => function_node(alloc, resolve_pairs(alloc, pairs.as_slice(), table)?),
        Ex::Relation(tuples) => relation_node(alloc, resolve_exs(alloc, tuples.as_slice(), table)?),
        Ex::Partition(parts) => partition_node(alloc, resolve_exs(alloc, parts.as_slice(), table)?),
        Ex::Matrix(items, None) => list_node(alloc, resolve_exs(alloc, items.as_slice(), table)?),
        Ex::Matrix(items, Some(axis)) => {
            let items = resolve_exs(alloc, items.as_slice(), table)?;
            let resolved = resolve_dom(alloc, axis.get(), table)?;
            matrix_node(alloc, items, axis.get(), resolved)
        }
        Ex::Comp(body, gens) => {
            let mark = table.bound_len();
            let (gens, under) = resolve_gens(alloc, gens.as_slice(), table)?;
            let body = resolve_typed(alloc, body.get(), table)?;
            table.unbind(mark);
            comp_node(alloc, body, gens, under)
        }
        Ex::Cell(is_bool, name, at) => {
            let (at, tys) = resolve_exs(alloc, at.as_slice(), table)?;
            drop(tys);
            cell_node(alloc, *is_bool, name, at, table)
        }
        Ex::Seen(view) => resolve_view(alloc, view.get(), table),
    }
}
