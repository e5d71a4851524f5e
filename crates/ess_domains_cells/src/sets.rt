// Sets and multisets.
ghost use Rattle.std.specs.Prelude.{◌≡◌, [], ◌∷◌, map};
ghost use Rattle.ess_semantics.specs.Choice.{reprs_of};
ghost use Rattle.ess_core.specs.TreeViews.{pure_repr};
ghost use Rattle.ess_core.specs.declared.representations.Repr.TheViews.{out-Repr};
ghost use Rattle.ess_eval_domains.specs.ClosedViews.{pure_closed};
ghost use Rattle.ess_domains_cells.specs.Kept.{kept as kept_of};
ghost use Rattle.ess_domains_cells.specs.LayerCounts.{counted_set, first_set, counted_mset};

use crate::bounds::bound;
use crate::kept::{greatest, product, sum};
use crate::layers::{has_mset_slots, has_slots, mset_own, set_own, slots_or};
use crate::members::member_count;
use crate::representations::first_cells;
use ess_core::Repr;
use ess_eval_domains::Closed;

/// The cells of a set of this size.
#[cycle(cells)]
#[tactic(auto, using(crate::proofs::LayerSteps::set_step, crate::proofs::LayerSteps::set_leaf))]
pub(crate) fn set_cells(
    repr: &Repr,
    size: Option<u128>,
    member: &Closed,
    volume: u128,
    longest: u128,
) -> u128
    ensures { result ≡ kept_of (counted_set (pure_repr repr.now) size (pure_closed member.now) volume longest) }
{
    let slots = slots_or(size, bound(member));
    let own = set_own(repr.kind, volume, longest, slots, member_count(member));
    if has_slots(repr.kind) {
        let places = product(volume, slots);
        let axis = greatest(longest, slots);
        sum(
            own,
            first_cells(repr.children.as_slice(), member, places, axis),
        )
    } else {
        own
    }
}

/// The cells of an only child that is a set of this size.
#[cycle(cells)]
#[tactic(auto, using(crate::proofs::TreeSteps::set_none, crate::proofs::TreeSteps::set_first))]
pub(crate) fn first_set_cells(
    reprs: &[Repr],
    size: Option<u128>,
    member: &Closed,
    volume: u128,
    longest: u128,
) -> u128
    ensures { result ≡ kept_of (first_set (reprs_of (map pure_repr reprs.now)) size (pure_closed member.now) volume longest) }
{
    if reprs.len() == 0 {
        return 0;
    }
    set_cells(&reprs[0], size, member, volume, longest)
}

/// The cells of a multiset with so many slots.
#[cycle(cells)]
#[tactic(auto, using(crate::proofs::TreeSteps::mset_step, crate::proofs::TreeSteps::mset_leaf))]
pub(crate) fn mset_cells(
    repr: &Repr,
    slots: u128,
    member: &Closed,
    volume: u128,
    longest: u128,
) -> u128
    ensures { result ≡ kept_of (counted_mset (pure_repr repr.now) slots (pure_closed member.now) volume longest) }
{
    let own = mset_own(repr.kind, volume, longest, slots, member_count(member));
    if has_mset_slots(repr.kind) {
        let places = product(volume, slots);
        let axis = greatest(longest, slots);
        sum(
            own,
            first_cells(repr.children.as_slice(), member, places, axis),
        )
    } else {
        own
    }
}
