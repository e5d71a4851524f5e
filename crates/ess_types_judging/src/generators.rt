//! What is found of generators, from left to right, and of a comprehension.
ghost use Rattle.std.specs.Prelude.{◌≡◌, IfOk, OnOk};
ghost use Rattle.std.specs.List.{list_any};
ghost use Rattle.ess_semantics.specs.Names.{is_among as is_name_among};
ghost use Rattle.ess_semantics.specs.Types.{type_of_dom as members_of};
ghost use Rattle.ess_semantics.specs.Scopes.{names_in_scope};
ghost use Rattle.ess_semantics.specs.Judgements.{binds_new as is_new};
ghost use Rattle.ess_core.specs.TypeViews.{pure_ty};
ghost use Rattle.ess_core.specs.TreeViews.{pure_dom, pure_pat};
ghost use Rattle.ess_types_judging_laws.specs.Combined.{over_found as is_over_found, pattern_found as is_pattern_found, comp_judged as is_comp_judged};
ghost use Rattle.ess_types_judging.specs.Findings.{pure_found, pure_judged};
ghost use Rattle.ess_types_judging.specs.Judging.{pure_gathered};
ghost use Rattle.ess_types_judging.specs.ScopeViews.{pure_scope, left_at};

use crate::bounds::{all_distinct, push_names};
use crate::finiteness::{is_enumerable, is_finite};
use crate::found::{Found, all_well, at_place, both};
use crate::gathered::Gathered;
use crate::judged::Judged;
use crate::scope::{Scope, knows_name, leave};
use crate::typing::list_type;
use ess_core::{Dom, NoMemory, Pat, Row, Text, Ty};
use ess_types_operators::pattern_fits;
use std::alloc::Global;

/// Whether one of the names is declared or bound.
#[tactic(auto, using(crate::proofs::ScopeLemmas::known_here, crate::proofs::ScopeLemmas::known_later, crate::proofs::ScopeLemmas::known_none))]
pub(crate) fn knows_any(names: &[Text], scope: &Scope) -> bool
    ensures { result ≡ list_any (is_name_among (names_in_scope (pure_scope scope.now))) names.now }
{
    for (i, name) in names.iter().enumerate() {
        if knows_name(scope, name) {
            return true;
        }
    }
    false
}

/// Whether a pattern binds new names, each once. `NoMemory` where there is no room for them.
fn binds_new(alloc: Global, pat: &Pat, ty: &Ty, scope: &Scope) -> Result<bool, NoMemory>
    ensures { IfOk result (λ b. b ≡ is_new (pure_pat pat.now) (pure_ty ty.now) (pure_scope scope.now)) }
{
    let mut names = Row::new(alloc);
    push_names(alloc, pat, &mut names)?;
    let distinct = all_distinct(names.as_slice());
    let known = knows_any(names.as_slice(), scope);
    Ok(distinct & !known)
}

/// What is asked of a pattern at a type. `NoMemory` where there is no room for its names.
pub(crate) fn pattern_found(
    alloc: Global,
    pat: &Pat,
    ty: &Ty,
    scope: &Scope,
) -> Result<Found, NoMemory>
    ensures { IfOk result (λ f. pure_found f ≡ is_pattern_found (pure_pat pat.now) (pure_ty ty.now) (pure_scope scope.now)) }
{
    let fresh = binds_new(alloc, pat, ty, scope)?;
    let fits = pattern_fits(pat, ty);
    Ok(Found {
        fresh,
        fits,
        ..all_well()
    })
}

/// What is asked of a generator over a domain beside its domain, whose members have this type.
pub(crate) fn over_found(
    alloc: Global,
    pat: &Pat,
    ty: &Ty,
    dom: &Dom,
    scope: &Scope,
) -> Result<Found, NoMemory>
    ensures { IfOk result (λ f. pure_ty ty.now ≡ members_of (pure_dom dom.now) → pure_found f ≡ is_over_found (pure_pat pat.now) (pure_dom dom.now) (pure_scope scope.now)) }
{
    let found = pattern_found(alloc, pat, ty, scope)?;
    Ok(Found {
        finite: is_finite(dom),
        enumerable: is_enumerable(dom),
        ..found
    })
}

/// A comprehension, from its generators and its body, as `leave` leaves it. `NoMemory` where there is no room for its type.
pub(crate) fn comp_judged(
    alloc: Global,
    gathered: Gathered,
    body: Judged,
    types: usize,
    generators: usize,
    scope: &mut Scope,
) -> Result<Judged, NoMemory>
    ensures ok { IfOk result (λ j. pure_judged j ≡ is_comp_judged (pure_gathered gathered (pure_scope scope.old)) (pure_judged body)) }
    ensures left { OnOk result (scope.new ≡ left_at scope.old types generators) }
{
    leave(scope, types, generators);
    let Judged {
        ty,
        ordered: _,
        found,
    } = body;
    let ty = if gathered.typed {
        list_type(alloc, ty)?
    } else {
        drop(ty);
        None
    };
    let own = Found {
        fits: ty.is_some(),
        in_order: gathered.ordered,
        ..all_well()
    };
    let found = both(own, both(gathered.found, at_place(true, found)));
    Ok(Judged {
        ty,
        ordered: gathered.ordered,
        found,
    })
}
