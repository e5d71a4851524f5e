//! What is found of a node, from what is found of its operands.
ghost use Rattle.std.specs.Prelude.{◌≡◌, map, IfOk};
ghost use Rattle.std.specs.List.{list_all};
ghost use Rattle.ess_semantics.specs.ExpressionJudgements.{is_ordered_ty};
ghost use Rattle.ess_core.specs.TypeViews.{pure_ty};
ghost use Rattle.ess_types_judging_laws.specs.Found.{all_well as all_is_well};
ghost use Rattle.ess_types_judging_laws.specs.Combined.{name_judged as is_name_judged};
ghost use Rattle.ess_types_judging_laws.specs.Accumulated.{plain_judged, typed_fits};
ghost use Rattle.ess_types_judging.specs.Findings.{pure_found, pure_judged, pure_operands, pure_node};
ghost use Rattle.ess_types_judging.specs.ScopeViews.{pure_scope};
ghost use Rattle.ess_types_judging.specs.Ordered.{is_ordered_item as is_item_ordered};

use crate::fields::fields_differ;
use crate::found::{Found, all_well, at_place};
use crate::judged::{Judged, Operands, is_list_type, over_parts};
use crate::nodes::{Node, compares, forgets_order};
use crate::scope::{Scope, depends_on_finds, knows_name};
use crate::typing::type_of_operator;
use ess_core::{Boxed, NoMemory, Text, Ty};
use std::alloc::Global;

/// Whether the type isn't an unnamed one.
fn is_ordered_item(ty: &Ty, scope: &Scope) -> bool
    ensures { result ≡ is_item_ordered (pure_ty ty.now) (pure_scope scope.now) }
{
    match ty {
        Ty::Named(name) => !scope.unnamed.has(name),
        _ => true,
    }
}

/// Whether values of the type, or their members, have an order.
#[tactic(auto, using(crate::proofs::OrderLemmas::matrix_items, crate::proofs::OrderLemmas::set_members, crate::proofs::OrderLemmas::mset_members))]
fn is_ordered(ty: &Ty, scope: &Scope) -> bool
    ensures { result ≡ is_ordered_ty (pure_ty ty.now) (pure_scope scope.now) }
{
    match ty {
        Ty::Named(name) => !scope.unnamed.has(name),
        Ty::Matrix(_, item) => is_ordered_item(item.get(), scope),
        Ty::Set(member) => is_ordered_item(member.get(), scope),
        Ty::MSet(member) => is_ordered_item(member.get(), scope),
        _ => true,
    }
}

/// Whether each of the types has an order.
#[tactic(auto, using(crate::proofs::OrderLemmas::ordered_more, crate::proofs::OrderLemmas::ordered_none, crate::proofs::OrderLemmas::ordered_all))]
fn are_ordered(tys: &[Ty], scope: &Scope) -> bool
    ensures { result ≡ list_all (λ u. is_ordered_ty u (pure_scope scope.now)) (map pure_ty tys.now) }
{
    for (i, ty) in tys.iter().enumerate() {
        if !is_ordered(ty, scope) {
            return false;
        }
    }
    true
}

/// Whether the operands fit a node beside its own type: fields stand once, and what is compared has an order.
fn node_fits(node: &Node<'_>, operands: &Operands, scope: &Scope) -> bool
    ensures { result ≡ typed_fits (pure_node node.now) (pure_operands operands.now).tys (pure_scope scope.now) }
{
    match node {
        Node::Record(fields) => fields_differ(fields),
        _ => !compares(node) || (operands.typed && are_ordered(operands.tys.as_slice(), scope)),
    }
}

/// A node but an index, from what is found of its operands. `NoMemory` where there is no room for its type.
pub(crate) fn finish(
    alloc: Global,
    node: &Node<'_>,
    operands: Operands,
    scope: &Scope,
) -> Result<Judged, NoMemory>
    ensures { IfOk result (λ j. pure_judged j ≡ plain_judged (pure_node node.now) (pure_operands operands) (pure_scope scope.now)) }
{
    let fits = node_fits(node, &operands, scope);
    let place = !forgets_order(node);
    let Operands { tys, typed, found } = operands;
    if typed {
        let ty = type_of_operator(alloc, node, tys)?;
        Ok(over_parts(ty, fits, at_place(place, found)))
    } else {
        drop(tys);
        Ok(over_parts(None, fits, at_place(place, found)))
    }
}

/// What is found of a name of which this is known.
fn name_found(known: bool, fits: bool, fixed: bool) -> Found
    ensures { pure_found result ≡ record all_is_well { known = known; fits = fits; fixed = fixed } }
{
    Found {
        known,
        fits,
        fixed,
        ..all_well()
    }
}

/// A name. `NoMemory` where there is no room for its type.
pub(crate) fn name_judged(alloc: Global, name: &Text, scope: &Scope) -> Result<Judged, NoMemory>
    ensures { IfOk result (λ j. pure_judged j ≡ is_name_judged name.now (pure_scope scope.now)) }
{
    let known = knows_name(scope, name);
    let fixed = !depends_on_finds(scope, name);
    match scope.table.look(name) {
        Some(ty) => {
            let ordered = is_list_type(ty);
            let ty = Boxed::new(alloc, ty.copy(alloc)?)?;
            Ok(Judged {
                ty: Some(ty),
                ordered,
                found: name_found(known, true, fixed),
            })
        }
        None => Ok(Judged {
            ty: None,
            ordered: false,
            found: name_found(known, false, fixed),
        }),
    }
}
