// Relations.
ghost use Rattle.std.specs.Prelude.{◌≡◌, [], ◌∷◌, map};
ghost use Rattle.ess_semantics.specs.Choice.{reprs_of};
ghost use Rattle.ess_semantics.specs.Domains.{tuples};
ghost use Rattle.ess_core.specs.TreeViews.{pure_repr};
ghost use Rattle.ess_core.specs.declared.representations.Repr.TheViews.{out-Repr};
ghost use Rattle.ess_eval_domains.specs.ClosedViews.{pure_closeds};
ghost use Rattle.ess_domains_cells.specs.Kept.{kept as kept_of};
ghost use Rattle.ess_domains_cells.specs.Counted.{counted_children};
ghost use Rattle.ess_domains_cells.specs.LayerCounts.{counted_set, first_set, counted_relation};

use crate::bounds::bounds_product;
use crate::kept::{greatest, kept, product, sum};
use crate::kinds::{is_relation_set, is_relation_table};
use crate::layers::{has_slots, set_own, slots_or};
use crate::members::members_product;
use crate::representations::tuple_cells;
use crate::shapes::longest_members;
use ess_core::Repr;
use ess_eval_domains::Closed;

/// The cells of a relation of this size.
#[cycle(cells)]
#[tactic(auto, using(crate::proofs::RelationForms::table_relation, crate::proofs::RelationForms::set_relation, crate::proofs::RelationForms::other_relation))]
pub(crate) fn relation_cells(
    repr: &Repr,
    size: Option<u128>,
    parts: &[Closed],
    volume: u128,
    longest: u128,
) -> u128
    ensures { result ≡ kept_of (counted_relation (pure_repr repr.now) size (pure_closeds parts.now) volume longest) }
{
    if is_relation_table(repr.kind) {
        let places = product(volume, members_product(parts));
        return kept(greatest(places, greatest(longest, longest_members(parts))));
    }
    if is_relation_set(repr.kind) {
        return first_tuple_set(repr.children.as_slice(), size, parts, volume, longest);
    }
    0
}

/// The cells of an only child that is a set of tuples.
#[cycle(cells)]
#[tactic(auto, using(crate::proofs::TreeSteps::set_none, crate::proofs::TreeSteps::set_first))]
fn first_tuple_set(
    reprs: &[Repr],
    size: Option<u128>,
    parts: &[Closed],
    volume: u128,
    longest: u128,
) -> u128
    ensures { result ≡ kept_of (first_set (reprs_of (map pure_repr reprs.now)) size (tuples (pure_closeds parts.now)) volume longest) }
{
    if reprs.len() == 0 {
        return 0;
    }
    tuple_set_cells(&reprs[0], size, parts, volume, longest)
}

/// The cells of a set of tuples.
#[cycle(cells)]
#[tactic(auto, using(crate::proofs::RelationForms::tuple_set_step, crate::proofs::RelationForms::tuple_set_leaf))]
fn tuple_set_cells(
    repr: &Repr,
    size: Option<u128>,
    parts: &[Closed],
    volume: u128,
    longest: u128,
) -> u128
    ensures { result ≡ kept_of (counted_set (pure_repr repr.now) size (tuples (pure_closeds parts.now)) volume longest) }
{
    let slots = slots_or(size, bounds_product(parts));
    let own = set_own(repr.kind, volume, longest, slots, members_product(parts));
    if has_slots(repr.kind) {
        let places = product(volume, slots);
        let axis = greatest(longest, slots);
        sum(
            own,
            first_tuple(repr.children.as_slice(), parts, places, axis),
        )
    } else {
        own
    }
}

/// The cells of an only child that is a tuple.
#[cycle(cells)]
#[tactic(auto, using(crate::proofs::TreeSteps::kids_none, crate::proofs::TreeSteps::kids_first))]
fn first_tuple(reprs: &[Repr], parts: &[Closed], volume: u128, longest: u128) -> u128
    ensures { result ≡ kept_of (counted_children (reprs_of (map pure_repr reprs.now)) (tuples (pure_closeds parts.now) ∷ []) volume longest) }
{
    if reprs.len() == 0 {
        return 0;
    }
    tuple_cells(&reprs[0], parts, volume, longest)
}
