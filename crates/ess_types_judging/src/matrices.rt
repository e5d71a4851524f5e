//! What is found of matrices with an index domain, of cells and of views.
ghost use Rattle.std.specs.Prelude.{◌≡◌, if◌then◌else◌, map, Some, None, option_map, IfOk, OnOk};
ghost use Rattle.ess_semantics.specs.Lists.{and_then};
ghost use Rattle.ess_semantics.specs.Values.{a_matrix};
ghost use Rattle.ess_semantics.specs.Trees.{cell_ex};
ghost use Rattle.ess_semantics.specs.Names.{look};
ghost use Rattle.ess_semantics.specs.Types.{bool_ty, compound2, join_all, type_of_dom as members_of};
ghost use Rattle.ess_semantics.specs.Typing.{number_cell_ty};
ghost use Rattle.ess_core.specs.TypeViews.{pure_ty};
ghost use Rattle.ess_core.specs.TreeViews.{pure_exs, pure_dom, pure_view};
ghost use Rattle.ess_types_judging_laws.specs.Judged.{judged};
ghost use Rattle.ess_types_judging.specs.Findings.{pure_found, pure_judged, pure_operands};
ghost use Rattle.ess_types_judging.specs.Forms.{typed_part as is_typed_part, matrix_over as is_matrix_over};
ghost use Rattle.ess_types_judging.specs.ScopeViews.{pure_scope};

use crate::domains::judge_dom;
use crate::expressions::judge_operands;
use crate::finiteness::is_atom;
use crate::found::{Found, at_place, both};
use crate::judged::{Judged, Operands, is_list_type, no_operands, over_parts};
use crate::scope::Scope;
use ess_core::{Boxed, Dom, Ex, NoMemory, Row, Text, Ty, View};
use ess_types_operators::{number_cell_type, type_of_dom, type_of_matrix};
use std::alloc::Global;

/// A part of this type that is well formed by itself, where `found` is found of the parts in it.
fn typed_part(ty: Boxed<Ty>, found: Found) -> Judged
    ensures { pure_judged result ≡ is_typed_part (pure_ty ty) (pure_found found) }
{
    let ordered = is_list_type(ty.get());
    Judged {
        ty: Some(ty),
        ordered,
        found,
    }
}

/// The type of a matrix literal on an index domain, where each of its items has a type.
fn type_on(
    alloc: Global,
    typed: bool,
    tys: Row<Ty>,
    axis: &Dom,
) -> Result<Option<Boxed<Ty>>, NoMemory>
    ensures { IfOk result (λ o. option_map pure_ty o ≡ and_then (if typed then Some (map pure_ty tys) else None) (λ ts. option_map (compound2 a_matrix (members_of (pure_dom axis.now))) (join_all ts))) }
{
    if typed {
        type_of_matrix(alloc, tys.as_slice(), axis)
    } else {
        Ok(None)
    }
}

/// A matrix literal, from what is found of its items, where `found` is found of its index domain. `NoMemory` where there is no
/// room for its type.
pub(crate) fn matrix_over(
    alloc: Global,
    axis: &Dom,
    operands: Operands,
    found: Found,
) -> Result<Judged, NoMemory>
    ensures { IfOk result (λ j. pure_judged j ≡ is_matrix_over (pure_dom axis.now) (pure_operands operands) (pure_found found)) }
{
    let Operands {
        tys,
        typed,
        found: items,
    } = operands;
    let ty = type_on(alloc, typed, tys, axis)?;
    let Judged {
        ty,
        ordered,
        found: own,
    } = over_parts(ty, is_atom(axis), at_place(true, items));
    Ok(Judged {
        ty,
        ordered,
        found: both(own, found),
    })
}

/// The type of a cell. `NoMemory` where there is no room for it.
fn type_of_cell(
    alloc: Global,
    is_bool: bool,
    name: &Text,
    scope: &Scope,
) -> Result<Boxed<Ty>, NoMemory>
    ensures { IfOk result (λ t. pure_ty t ≡ (if is_bool then bool_ty else number_cell_ty (look (pure_scope scope.now).tys name.now))) }
{
    if is_bool {
        Boxed::new(alloc, Ty::Bool)
    } else {
        number_cell_type(alloc, scope.table.look(name))
    }
}

/// A cell.
#[cycle(judge)]
pub(crate) fn judge_cell(
    alloc: Global,
    at: &[Ex],
    is_bool: bool,
    name: &Text,
    scope: &mut Scope,
) -> Result<Judged, NoMemory>
    ensures ok { IfOk result (λ j. pure_judged j ≡ judged (cell_ex is_bool name.now (pure_exs at.now)) (pure_scope scope.old)) }
    ensures kept { OnOk result (scope.new ≡ scope.old) }
{
    let mut operands = no_operands(alloc);
    judge_operands(alloc, at, scope, &mut operands)?;
    let ty = type_of_cell(alloc, is_bool, name, scope)?;
    Ok(typed_part(ty, at_place(true, operands.found)))
}

/// A view.
#[cycle(judge)]
pub(crate) fn judge_view(alloc: Global, view: &View, scope: &mut Scope) -> Result<Judged, NoMemory>
    ensures ok { IfOk result (λ j. pure_judged j ≡ judged (pure_view view.now) (pure_scope scope.old)) }
    ensures kept { OnOk result (scope.new ≡ scope.old) }
{
    let mut operands = no_operands(alloc);
    judge_operands(alloc, view.at.as_slice(), scope, &mut operands)?;
    let found = judge_dom(alloc, &view.dom, scope)?;
    let ty = type_of_dom(alloc, &view.dom)?;
    Ok(typed_part(ty, both(found, at_place(true, operands.found))))
}
