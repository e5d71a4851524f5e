//! Which representations fit a relation of several components, or the set of its tuples.
ghost use Rattle.std.specs.Prelude.{◌≡◌, false, [], ◌∷◌, map};
ghost use Rattle.ess_semantics.specs.Choice.{reprs_of};
ghost use Rattle.ess_semantics.specs.Trees.{set_dom, tuple_dom, relation_dom, no_exs};
ghost use Rattle.ess_semantics.specs.Kinds.{fits as fits_meant, all_fit as all_fit_meant, size_marks};
ghost use Rattle.ess_core.specs.TreeViews.{pure_repr, pure_doms};

use crate::atoms::are_atoms;
use crate::fitting::tuple_fits;
use crate::fitting_sets::{is_leaf, only_child};
use ess_core::{Dom, Repr, ReprKind};

/// Whether a representation fits a relation of these components, which has the attribute `size` or not.
#[cycle(fits)]
#[tactic(auto, using(crate::proofs::FittingChildren::kind_in, crate::proofs::SizedForms::set_child))]
pub(crate) fn relation_fits(repr: &Repr, sized: bool, parts: &[Dom]) -> bool
    ensures { result ≡ fits_meant (pure_repr repr.now) (relation_dom (size_marks sized false false) no_exs (pure_doms parts.now)) }
{
    let children = repr.children.as_slice();
    match repr.kind {
        ReprKind::RelationAsMatrix => are_atoms(parts) && is_leaf(children),
        ReprKind::RelationAsSet => tuple_sets_fit(children, sized, parts),
        _ => false,
    }
}

/// Whether there is one child alone, which fits the set of tuples, which has the attribute `size` or not.
#[cycle(fits)]
#[tactic(auto, using(crate::proofs::FittingChildren::only_none, crate::proofs::FittingChildren::only_some))]
fn tuple_sets_fit(children: &[Repr], sized: bool, parts: &[Dom]) -> bool
    ensures { result ≡ all_fit_meant (reprs_of (map pure_repr children.now)) (set_dom (size_marks sized false false) no_exs (tuple_dom (pure_doms parts.now)) ∷ []) }
{
    match only_child(children) {
        Some(child) => tuple_set_fits(child, sized, parts),
        None => false,
    }
}

/// Whether a representation fits a set of tuples.
#[cycle(fits)]
#[tactic(auto, using(crate::proofs::FittingChildren::kind_in))]
fn tuple_set_fits(repr: &Repr, sized: bool, parts: &[Dom]) -> bool
    ensures { result ≡ fits_meant (pure_repr repr.now) (set_dom (size_marks sized false false) no_exs (tuple_dom (pure_doms parts.now))) }
{
    let children = repr.children.as_slice();
    match repr.kind {
        ReprKind::Explicit => sized && tuples_fit(children, parts),
        ReprKind::ExplicitVarSizeWithMarker => tuples_fit(children, parts),
        ReprKind::ExplicitVarSizeWithFlags => tuples_fit(children, parts),
        _ => false,
    }
}

/// Whether there is one child alone, which fits the tuples.
#[cycle(fits)]
#[tactic(auto, using(crate::proofs::FittingChildren::only_none, crate::proofs::FittingChildren::only_some))]
fn tuples_fit(children: &[Repr], parts: &[Dom]) -> bool
    ensures { result ≡ all_fit_meant (reprs_of (map pure_repr children.now)) (tuple_dom (pure_doms parts.now) ∷ []) }
{
    match only_child(children) {
        Some(child) => tuple_fits(child, parts),
        None => false,
    }
}
