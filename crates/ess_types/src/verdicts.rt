//! The first judgement that a statement fails.
ghost use Rattle.std.specs.Prelude.{◌≡◌, ◌&&◌, option_map, if◌then◌else◌, IfOk};
ghost use Rattle.ess_semantics.specs.Lists.{is_none_or};
ghost use Rattle.ess_semantics.specs.Types.{bool_ty, int_ty};
ghost use Rattle.ess_semantics.specs.DomainJudgements.{is_finite as is_a_finite, needs_known_slots as slots_are_known};
ghost use Rattle.ess_semantics.specs.Judgements.{found_domain, given_domain, is_letting};
ghost use Rattle.ess_core.specs.TypeViews.{pure_ty};
ghost use Rattle.ess_core.specs.StatementViews.{pure_stm};
ghost use Rattle.ess_types_judging.specs.ScopeViews.{pure_scope};
ghost use Rattle.ess_types_judging_laws.specs.Verdicts.{findings, place_agrees, size_found, agrees};
ghost use Rattle.ess_types.specs.Entering.{AreStems};
ghost use Rattle.ess_types.specs.Judging.{IsFirstFound};
ghost use Rattle.ess_types.specs.Progress.{pure_findings};
ghost use Rattle.ess_types.specs.Refusals.{pure_judgement, first_of};

use crate::findings::Findings;
use crate::fresh::declares_new;
use crate::refusal::Judgement;
use ess_core::{Boxed, NoMemory, Stm, Ty};
use ess_types_judging::{Scope, is_finite, needs_known_slots};
use ess_types_operators::{fits_bool, fits_int};
use ess_types_scopes::NameSet;
use std::alloc::Global;

/// The first judgement that a statement fails, as it was `written` and with lettings `put` in. `fresh` is found of it as it was
/// written: whether its patterns bind new names. `found` is found of it with lettings put in. `NoMemory` where there is no room
/// for the names that it declares.
pub(crate) fn first_failed(
    alloc: Global,
    written: &Stm,
    put: &Stm,
    fresh: bool,
    found: &Findings,
    scope: &Scope,
    stems: &NameSet,
) -> Result<Option<Judgement>, NoMemory>
    requires stems { AreStems stems.now (pure_scope scope.now) }
    requires fresh { fresh ≡ (findings (pure_stm written.now) (pure_scope scope.now)).found.new }
    requires found { pure_findings found.now ≡ findings (pure_stm put.now) (pure_scope scope.now) }
    ensures { IfOk result (IsFirstFound (pure_stm written.now) (pure_stm put.now) (pure_scope scope.now)) }
{
    let fresh = declares_new(alloc, written, scope, stems)? & fresh;
    let typed = types_fit(put, found);
    let finite = finds_finite(put) & found.found.finite;
    let enumerable = found.found.enumerable & has_fixed_size(put, found);
    let known_slots = gives_known_slots(put);
    Ok(first_missed(
        found.found.known,
        fresh,
        typed,
        finite,
        enumerable,
        known_slots,
    ))
}

/// The first judgement that isn't met.
fn first_missed(
    known: bool,
    fresh: bool,
    typed: bool,
    finite: bool,
    enumerable: bool,
    known_slots: bool,
) -> Option<Judgement>
    ensures { option_map pure_judgement result ≡ first_of known fresh typed finite enumerable known_slots }
{
    if !known {
        return Some(Judgement::UnknownName);
    }
    if !fresh {
        return Some(Judgement::DoubleName);
    }
    if !typed {
        return Some(Judgement::IllTyped);
    }
    if !finite {
        return Some(Judgement::NotFinite);
    }
    if !enumerable {
        return Some(Judgement::NotEnumerable);
    }
    if !known_slots {
        return Some(Judgement::OpenGiven);
    }
    None
}

/// Whether the statement's types fit, in itself and in its place.
fn types_fit(put: &Stm, found: &Findings) -> bool
    ensures { result ≡ (pure_findings found.now).found.fits && place_agrees (pure_stm put.now) (pure_findings found.now)
        && (if is_letting (pure_stm put.now) then (pure_findings found.now).found.unordered else (pure_findings found.now).found.in_order) }
{
    let place = fits_place(put, found);
    (found.found.fits & place) & is_ordered(put, found)
}

/// Whether no comprehension without an order stands where order counts.
fn is_ordered(put: &Stm, found: &Findings) -> bool
    ensures { result ≡ (if is_letting (pure_stm put.now) then (pure_findings found.now).found.unordered
        else (pure_findings found.now).found.in_order) }
{
    match put {
        Stm::LetEx(_, _) => found.found.unordered,
        _ => found.found.in_order,
    }
}

/// Whether the expression's type is the one that the statement's place asks for.
fn fits_place(put: &Stm, found: &Findings) -> bool
    ensures { result ≡ place_agrees (pure_stm put.now) (pure_findings found.now) }
{
    match put {
        Stm::LetUnnamed(_, _) => is_int(&found.ty),
        Stm::Needs(_) => is_bool(&found.ty) & found.found.fixed,
        Stm::SuchThat(_) => is_bool(&found.ty),
        Stm::Minimise(_) => is_int(&found.ty),
        Stm::Maximise(_) => is_int(&found.ty),
        _ => true,
    }
}

/// Whether there is a type, and it agrees with bool.
fn is_bool(ty: &Option<Boxed<Ty>>) -> bool
    ensures { result ≡ agrees (option_map pure_ty ty.now) bool_ty }
{
    match ty {
        Some(ty) => fits_bool(ty.get()),
        None => false,
    }
}

/// Whether there is a type, and it agrees with int.
fn is_int(ty: &Option<Boxed<Ty>>) -> bool
    ensures { result ≡ agrees (option_map pure_ty ty.now) int_ty }
{
    match ty {
        Some(ty) => fits_int(ty.get()),
        None => false,
    }
}

/// Whether the domain is finite, where the statement is a find.
fn finds_finite(put: &Stm) -> bool
    ensures { result ≡ is_none_or (found_domain (pure_stm put.now)) is_a_finite }
{
    match put {
        Stm::Find(_, dom) => is_finite(dom.get()),
        _ => true,
    }
}

/// Whether the size of an unnamed type is fixed, where the statement declares one.
fn has_fixed_size(put: &Stm, found: &Findings) -> bool
    ensures { result ≡ size_found (pure_stm put.now) (pure_findings found.now) }
{
    match put {
        Stm::LetUnnamed(_, _) => found.found.fixed,
        _ => true,
    }
}

/// Whether members of the domain have a known size, where the statement is a given.
fn gives_known_slots(put: &Stm) -> bool
    ensures { result ≡ is_none_or (given_domain (pure_stm put.now)) slots_are_known }
{
    match put {
        Stm::Given(_, dom) => needs_known_slots(dom.get()),
        _ => true,
    }
}
