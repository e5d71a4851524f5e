//! What is found of expressions, and of operands one after another.
ghost use Rattle.std.specs.Prelude.{◌≡◌, OnOk, IfOk, option_map};
ghost use Rattle.ess_semantics.specs.Lists.{is_some_and};
ghost use Rattle.ess_semantics.specs.Types.{bool_ty, int_ty};
ghost use Rattle.ess_semantics.specs.ExpressionJudgements.{is_list};
ghost use Rattle.ess_core.specs.TypeViews.{pure_ty};
ghost use Rattle.ess_types_judging_laws.specs.Combined.{literal_judged};
ghost use Rattle.ess_types_judging_laws.specs.Accumulated.{none_yet, added, over_parts as is_over_parts};
ghost use Rattle.ess_types_judging.specs.Findings.{pure_found, pure_judged, pure_operands};

use crate::found::{Found, all_well, both, layer};
use ess_core::{Boxed, NoMemory, Row, Ty};
use std::alloc::Global;

/// What is found of an expression: its type, where it has one, whether it is a source that has an order, and the rest.
#[derive(Drop)]
pub struct Judged {
    pub ty: Option<Boxed<Ty>>,
    pub ordered: bool,
    pub found: Found,
}

/// What is found of operands: their types, whether each has one, and the rest.
#[derive(Drop)]
pub struct Operands {
    pub tys: Row<Ty>,
    pub typed: bool,
    pub found: Found,
}

/// Whether the type is one of lists.
pub(crate) fn is_list_type(ty: &Ty) -> bool
    ensures { result ≡ is_list (pure_ty ty.now) }
{
    match ty {
        Ty::Any => true,
        Ty::Matrix(_, _) => true,
        _ => false,
    }
}

/// Whether there is a type, and it is one of lists.
fn is_list_there(ty: &Option<Boxed<Ty>>) -> bool
    ensures { result ≡ is_some_and (option_map pure_ty ty.now) is_list }
{
    match ty {
        Some(ty) => is_list_type(ty.get()),
        None => false,
    }
}

/// A part of this type, where `fits` says whether its own form fits, and `found` is found of the parts in it.
pub(crate) fn over_parts(ty: Option<Boxed<Ty>>, fits: bool, found: Found) -> Judged
    ensures { pure_judged result ≡ is_over_parts (option_map pure_ty ty) fits (pure_found found) }
{
    let ordered = is_list_there(&ty);
    let found = both(layer(ty.is_some() && fits), found);
    Judged { ty, ordered, found }
}

/// A number.
pub(crate) fn number_judged(alloc: Global) -> Result<Judged, NoMemory>
    ensures { IfOk result (λ j. pure_judged j ≡ literal_judged int_ty) }
{
    Ok(Judged {
        ty: Some(Boxed::new(alloc, Ty::Int)?),
        ordered: false,
        found: all_well(),
    })
}

/// A truth value.
pub(crate) fn truth_judged(alloc: Global) -> Result<Judged, NoMemory>
    ensures { IfOk result (λ j. pure_judged j ≡ literal_judged bool_ty) }
{
    Ok(Judged {
        ty: Some(Boxed::new(alloc, Ty::Bool)?),
        ordered: false,
        found: all_well(),
    })
}

/// Before the first operand.
pub(crate) fn no_operands(alloc: Global) -> Operands
    ensures { pure_operands result ≡ none_yet }
{
    Operands {
        tys: Row::new(alloc),
        typed: true,
        found: all_well(),
    }
}

/// Adds an operand. `NoMemory` where there is no room for its type.
#[tactic(auto, using(crate::proofs::OperandLemmas::added_typed, crate::proofs::OperandLemmas::added_untyped, crate::proofs::OperandLemmas::added_late))]
pub(crate) fn add(operands: &mut Operands, judged: Judged) -> Result<(), NoMemory>
    ensures { OnOk result (pure_operands operands.new ≡ added (pure_operands operands.old) (pure_judged judged)) }
{
    let Judged {
        ty,
        ordered: _,
        found,
    } = judged;
    operands.found = both(operands.found, found);
    match ty {
        Some(ty) => operands.tys.push(ty.into_inner()),
        None => {
            operands.typed = false;
            Ok(())
        }
    }
}
