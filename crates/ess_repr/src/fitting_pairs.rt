//! Which representations fit the relation of a function's pairs, or the set of these.
ghost use Rattle.std.specs.Prelude.{◌≡◌, false, [], ◌∷◌, map};
ghost use Rattle.ess_semantics.specs.Choice.{reprs_of};
ghost use Rattle.ess_semantics.specs.Trees.{set_dom, tuple_dom, relation_dom, no_exs, more_doms, no_doms};
ghost use Rattle.ess_semantics.specs.Kinds.{fits as fits_meant, all_fit as all_fit_meant, size_marks};
ghost use Rattle.ess_core.specs.TreeViews.{pure_repr, pure_dom};

use crate::atoms::is_atom;
use crate::fitting::fits;
use crate::fitting_sets::{is_leaf, only_child};
use ess_core::{Dom, Repr, ReprKind};

/// Whether there is one child alone, which fits the relation of the pairs, which has the attribute `size` or not.
#[cycle(fits)]
#[tactic(auto, using(crate::proofs::FittingChildren::only_none, crate::proofs::FittingChildren::only_some))]
pub(crate) fn pairs_fit(children: &[Repr], sized: bool, from: &Dom, to: &Dom) -> bool
    ensures { result ≡ all_fit_meant (reprs_of (map pure_repr children.now)) (relation_dom (size_marks sized false false) no_exs (more_doms (pure_dom from.now) (more_doms (pure_dom to.now) no_doms)) ∷ []) }
{
    match only_child(children) {
        Some(child) => pair_relation_fits(child, sized, from, to),
        None => false,
    }
}

/// Whether a representation fits a relation of two components.
#[cycle(fits)]
#[tactic(auto, using(crate::proofs::FittingChildren::kind_in, crate::proofs::SizedForms::set_child))]
fn pair_relation_fits(repr: &Repr, sized: bool, from: &Dom, to: &Dom) -> bool
    ensures { result ≡ fits_meant (pure_repr repr.now) (relation_dom (size_marks sized false false) no_exs (more_doms (pure_dom from.now) (more_doms (pure_dom to.now) no_doms))) }
{
    let children = repr.children.as_slice();
    match repr.kind {
        ReprKind::RelationAsMatrix => is_atom(from) && is_atom(to) && is_leaf(children),
        ReprKind::RelationAsSet => pair_sets_fit(children, sized, from, to),
        _ => false,
    }
}

/// Whether there is one child alone, which fits the set of the pairs, which has the attribute `size` or not.
#[cycle(fits)]
#[tactic(auto, using(crate::proofs::FittingChildren::only_none, crate::proofs::FittingChildren::only_some))]
fn pair_sets_fit(children: &[Repr], sized: bool, from: &Dom, to: &Dom) -> bool
    ensures { result ≡ all_fit_meant (reprs_of (map pure_repr children.now)) (set_dom (size_marks sized false false) no_exs (tuple_dom (more_doms (pure_dom from.now) (more_doms (pure_dom to.now) no_doms))) ∷ []) }
{
    match only_child(children) {
        Some(child) => pair_set_fits(child, sized, from, to),
        None => false,
    }
}

/// Whether a representation fits a set of pairs.
#[cycle(fits)]
#[tactic(auto, using(crate::proofs::FittingChildren::kind_in))]
fn pair_set_fits(repr: &Repr, sized: bool, from: &Dom, to: &Dom) -> bool
    ensures { result ≡ fits_meant (pure_repr repr.now) (set_dom (size_marks sized false false) no_exs (tuple_dom (more_doms (pure_dom from.now) (more_doms (pure_dom to.now) no_doms)))) }
{
    let children = repr.children.as_slice();
    match repr.kind {
        ReprKind::Explicit => sized && only_pair_fits(children, from, to),
        ReprKind::ExplicitVarSizeWithMarker => only_pair_fits(children, from, to),
        ReprKind::ExplicitVarSizeWithFlags => only_pair_fits(children, from, to),
        _ => false,
    }
}

/// Whether there is one child alone, which fits the pairs.
#[cycle(fits)]
#[tactic(auto, using(crate::proofs::FittingChildren::only_none, crate::proofs::FittingChildren::only_some))]
fn only_pair_fits(children: &[Repr], from: &Dom, to: &Dom) -> bool
    ensures { result ≡ all_fit_meant (reprs_of (map pure_repr children.now)) (tuple_dom (more_doms (pure_dom from.now) (more_doms (pure_dom to.now) no_doms)) ∷ []) }
{
    match only_child(children) {
        Some(child) => pair_fits(child, from, to),
        None => false,
    }
}

/// Whether a representation fits pairs.
#[cycle(fits)]
#[tactic(auto, using(crate::proofs::FittingChildren::kind_in))]
fn pair_fits(repr: &Repr, from: &Dom, to: &Dom) -> bool
    ensures { result ≡ fits_meant (pure_repr repr.now) (tuple_dom (more_doms (pure_dom from.now) (more_doms (pure_dom to.now) no_doms))) }
{
    match repr.kind {
        ReprKind::Tuple => both_fit(repr.children.as_slice(), from, to),
        _ => false,
    }
}

/// Whether there are two children, each of which fits its domain.
#[cycle(fits)]
#[tactic(auto, using(crate::proofs::FittingChildren::two_fit, crate::proofs::FittingChildren::first_misfits, crate::proofs::FittingChildren::not_two))]
fn both_fit(children: &[Repr], from: &Dom, to: &Dom) -> bool
    ensures { result ≡ all_fit_meant (reprs_of (map pure_repr children.now)) (pure_dom from.now ∷ pure_dom to.now ∷ []) }
{
    if children.len() != 2 {
        return false;
    }
    fits(&children[0], from) && fits(&children[1], to)
}
