//! Which representations fit a set, or the set of a partition's parts; and whether an only child fits its domain.
ghost use Rattle.std.specs.Prelude.{◌≡◌, false, [], ◌∷◌, map};
ghost use Rattle.std.specs.Option.{option_copied};
ghost use Rattle.ess_semantics.specs.Lists.{only_of};
ghost use Rattle.ess_semantics.specs.Choice.{reprs_of};
ghost use Rattle.ess_semantics.specs.Trees.{set_dom, no_exs};
ghost use Rattle.ess_semantics.specs.Kinds.{fits as fits_meant, all_fit as all_fit_meant, size_marks};
ghost use Rattle.ess_core.specs.TreeViews.{pure_repr, pure_dom};

use crate::atoms::{has_dummy, is_atom};
use crate::fitting::fits;
use ess_core::{Dom, Repr, ReprKind};

/// The child, where there is one alone.
pub(crate) fn only_child(children: &[Repr]) -> Option<&Repr>
    ensures { option_copied result ≡ only_of children.now }
{
    if children.len() == 1 {
        Some(&children[0])
    } else {
        None
    }
}

/// Whether there is no child.
#[tactic(auto, using(crate::proofs::FittingChildren::no_child, crate::proofs::FittingChildren::some_child))]
pub(crate) fn is_leaf(children: &[Repr]) -> bool
    ensures { result ≡ all_fit_meant (reprs_of (map pure_repr children.now)) [] }
{
    children.len() == 0
}

/// Whether there is one child alone, which fits the domain.
#[cycle(fits)]
#[tactic(auto, using(crate::proofs::FittingChildren::only_none, crate::proofs::FittingChildren::only_some))]
pub(crate) fn child_fits(children: &[Repr], dom: &Dom) -> bool
    ensures { result ≡ all_fit_meant (reprs_of (map pure_repr children.now)) (pure_dom dom.now ∷ []) }
{
    match only_child(children) {
        Some(child) => fits(child, dom),
        None => false,
    }
}

/// Whether a representation fits a set, which has the attribute `size` or not.
#[cycle(fits)]
#[tactic(auto, using(crate::proofs::FittingChildren::kind_in))]
pub(crate) fn set_fits(repr: &Repr, sized: bool, member: &Dom) -> bool
    ensures { result ≡ fits_meant (pure_repr repr.now) (set_dom (size_marks sized false false) no_exs (pure_dom member.now)) }
{
    let children = repr.children.as_slice();
    match repr.kind {
        ReprKind::Occurrence => is_atom(member) && is_leaf(children),
        ReprKind::Explicit => sized && child_fits(children, member),
        ReprKind::ExplicitVarSizeWithMarker => child_fits(children, member),
        ReprKind::ExplicitVarSizeWithFlags => child_fits(children, member),
        ReprKind::ExplicitVarSizeWithDummy => has_dummy(member) && is_leaf(children),
        _ => false,
    }
}

/// Whether there is one child alone, which fits a set, which has the attribute `size` or not.
#[cycle(fits)]
#[tactic(auto, using(crate::proofs::FittingChildren::only_none, crate::proofs::FittingChildren::only_some))]
fn part_fits(children: &[Repr], sized: bool, member: &Dom) -> bool
    ensures { result ≡ all_fit_meant (reprs_of (map pure_repr children.now)) (set_dom (size_marks sized false false) no_exs (pure_dom member.now) ∷ []) }
{
    match only_child(children) {
        Some(child) => set_fits(child, sized, member),
        None => false,
    }
}

/// Whether a representation fits a set of sets.
#[cycle(fits)]
#[tactic(auto, using(crate::proofs::FittingChildren::kind_in))]
fn set_of_sets_fits(repr: &Repr, sized: bool, part_sized: bool, member: &Dom) -> bool
    ensures { result ≡ fits_meant (pure_repr repr.now) (set_dom (size_marks sized false false) no_exs (set_dom (size_marks part_sized false false) no_exs (pure_dom member.now))) }
{
    let children = repr.children.as_slice();
    match repr.kind {
        ReprKind::Explicit => sized && part_fits(children, part_sized, member),
        ReprKind::ExplicitVarSizeWithMarker => part_fits(children, part_sized, member),
        ReprKind::ExplicitVarSizeWithFlags => part_fits(children, part_sized, member),
        _ => false,
    }
}

/// Whether there is one child alone, which fits the set of a partition's parts: it has `size` or not, as have its members.
#[cycle(fits)]
#[tactic(auto, using(crate::proofs::FittingChildren::only_none, crate::proofs::FittingChildren::only_some))]
pub(crate) fn parts_fit_sets(children: &[Repr], sized: bool, part_sized: bool, member: &Dom) -> bool
    ensures { result ≡ all_fit_meant (reprs_of (map pure_repr children.now)) (set_dom (size_marks sized false false) no_exs (set_dom (size_marks part_sized false false) no_exs (pure_dom member.now)) ∷ []) }
{
    match only_child(children) {
        Some(child) => set_of_sets_fits(child, sized, part_sized, member),
        None => false,
    }
}
