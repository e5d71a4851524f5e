// Functions.
ghost use Rattle.std.specs.Prelude.{◌≡◌, [], ◌∷◌, map};
ghost use Rattle.ess_semantics.specs.Choice.{reprs_of};
ghost use Rattle.ess_semantics.specs.Domains.{functions, tuples, no_domains, more_domains};
ghost use Rattle.ess_core.specs.TreeViews.{pure_repr};
ghost use Rattle.ess_core.specs.declared.representations.Repr.TheViews.{out-Repr};
ghost use Rattle.ess_eval_domains.specs.ClosedViews.{pure_attributes, pure_closed};
ghost use Rattle.ess_domains_cells.specs.Kept.{kept as kept_of};
ghost use Rattle.ess_domains_cells.specs.Counted.{counted, counted_children};
ghost use Rattle.ess_domains_cells.specs.LayerCounts.{counted_set, first_set, counted_relation};
ghost use Rattle.ess_domains_cells.specs.KindCounts.{counted_over, first_relation};

use crate::bounds::bound;
use crate::kept::{greatest, kept, product, sum};
use crate::kinds::{has_flags, is_pairs_kind, is_relation_set, is_relation_table, is_tuple_kind};
use crate::layers::{has_slots, set_own, slots_or};
use crate::members::member_count;
use crate::representations::{cells_behind, first_cells};
use crate::shapes::{function_axes, pair_size};
use ess_core::Repr;
use ess_eval_domains::{Attribute, Closed};

/// The cells of a function.
#[cycle(cells)]
#[tactic(auto, using(crate::proofs::TreeForms::pairs_there, crate::proofs::TreeForms::over_there))]
pub(crate) fn function_cells(
    repr: &Repr,
    own: &[Attribute],
    from: &Closed,
    to: &Closed,
    volume: u128,
    longest: u128,
) -> u128
    ensures { result ≡ kept_of (counted (pure_repr repr.now) (functions (pure_attributes own.now) (pure_closed from.now) (pure_closed to.now)) volume longest) }
{
    if is_pairs_kind(repr.kind) {
        let size = pair_size(own, from);
        first_pair_relation(repr.children.as_slice(), size, from, to, volume, longest)
    } else {
        over_cells(repr, function_axes(repr.kind, from), to, volume, longest)
    }
}

/// The cells of a function over these axes.
#[cycle(cells)]
#[tactic(auto, using(crate::proofs::TreeForms::over_flags, crate::proofs::TreeForms::over_plain))]
fn over_cells(
    repr: &Repr,
    axes: Option<(u128, u128)>,
    to: &Closed,
    volume: u128,
    longest: u128,
) -> u128
    ensures { result ≡ kept_of (counted_over (out-Repr repr.now).kind (reprs_of (map pure_repr (out-Repr repr.now).children)) axes (pure_closed to.now) volume longest) }
{
    match axes {
        Some((count, most)) => {
            let places = product(volume, count);
            let axis = greatest(longest, most);
            let below = first_cells(repr.children.as_slice(), to, places, axis);
            if has_flags(repr.kind) {
                sum(kept(greatest(places, axis)), below)
            } else {
                below
            }
        }
        None => 0,
    }
}

/// The cells of an only child that is the relation of pairs.
#[cycle(cells)]
#[tactic(auto, using(crate::proofs::TreeSteps::relation_none, crate::proofs::TreeSteps::relation_first))]
fn first_pair_relation(
    reprs: &[Repr],
    size: Option<u128>,
    from: &Closed,
    to: &Closed,
    volume: u128,
    longest: u128,
) -> u128
    ensures { result ≡ kept_of (first_relation (reprs_of (map pure_repr reprs.now)) size (more_domains (pure_closed from.now) (more_domains (pure_closed to.now) no_domains)) volume longest) }
{
    if reprs.len() == 0 {
        return 0;
    }
    pair_relation_cells(&reprs[0], size, from, to, volume, longest)
}

/// The cells of a relation of pairs.
#[cycle(cells)]
#[tactic(auto, using(crate::proofs::RelationForms::table_pairs, crate::proofs::RelationForms::set_relation, crate::proofs::RelationForms::other_relation))]
fn pair_relation_cells(
    repr: &Repr,
    size: Option<u128>,
    from: &Closed,
    to: &Closed,
    volume: u128,
    longest: u128,
) -> u128
    ensures { result ≡ kept_of (counted_relation (pure_repr repr.now) size (more_domains (pure_closed from.now) (more_domains (pure_closed to.now) no_domains)) volume longest) }
{
    if is_relation_table(repr.kind) {
        let first = member_count(from);
        let second = member_count(to);
        let places = product(volume, product(first, second));
        return kept(greatest(places, greatest(longest, greatest(first, second))));
    }
    if is_relation_set(repr.kind) {
        return first_pair_set(repr.children.as_slice(), size, from, to, volume, longest);
    }
    0
}

/// The cells of an only child that is a set of pairs.
#[cycle(cells)]
#[tactic(auto, using(crate::proofs::TreeSteps::set_none, crate::proofs::TreeSteps::set_first))]
fn first_pair_set(
    reprs: &[Repr],
    size: Option<u128>,
    from: &Closed,
    to: &Closed,
    volume: u128,
    longest: u128,
) -> u128
    ensures { result ≡ kept_of (first_set (reprs_of (map pure_repr reprs.now)) size (tuples (more_domains (pure_closed from.now) (more_domains (pure_closed to.now) no_domains))) volume longest) }
{
    if reprs.len() == 0 {
        return 0;
    }
    pair_set_cells(&reprs[0], size, from, to, volume, longest)
}

/// The cells of a set of pairs.
#[cycle(cells)]
#[tactic(auto, using(crate::proofs::RelationForms::pair_set_step, crate::proofs::RelationForms::pair_set_leaf))]
fn pair_set_cells(
    repr: &Repr,
    size: Option<u128>,
    from: &Closed,
    to: &Closed,
    volume: u128,
    longest: u128,
) -> u128
    ensures { result ≡ kept_of (counted_set (pure_repr repr.now) size (tuples (more_domains (pure_closed from.now) (more_domains (pure_closed to.now) no_domains))) volume longest) }
{
    let most = product(bound(from), bound(to));
    let slots = slots_or(size, most);
    let members = product(member_count(from), member_count(to));
    let own = set_own(repr.kind, volume, longest, slots, members);
    if has_slots(repr.kind) {
        let places = product(volume, slots);
        let axis = greatest(longest, slots);
        sum(
            own,
            first_pair(repr.children.as_slice(), from, to, places, axis),
        )
    } else {
        own
    }
}

/// The cells of an only child that is a pair.
#[cycle(cells)]
#[tactic(auto, using(crate::proofs::TreeSteps::kids_none, crate::proofs::TreeSteps::kids_first))]
fn first_pair(reprs: &[Repr], from: &Closed, to: &Closed, volume: u128, longest: u128) -> u128
    ensures { result ≡ kept_of (counted_children (reprs_of (map pure_repr reprs.now)) (tuples (more_domains (pure_closed from.now) (more_domains (pure_closed to.now) no_domains)) ∷ []) volume longest) }
{
    if reprs.len() == 0 {
        return 0;
    }
    pair_cells(&reprs[0], from, to, volume, longest)
}

/// The cells of a pair.
#[cycle(cells)]
#[tactic(auto, using(crate::proofs::TreeSteps::pair_yes, crate::proofs::TreeSteps::tuple_no))]
fn pair_cells(repr: &Repr, from: &Closed, to: &Closed, volume: u128, longest: u128) -> u128
    ensures { result ≡ kept_of (counted (pure_repr repr.now) (tuples (more_domains (pure_closed from.now) (more_domains (pure_closed to.now) no_domains))) volume longest) }
{
    if is_tuple_kind(repr.kind) {
        both_cells(repr.children.as_slice(), from, to, volume, longest)
    } else {
        0
    }
}

/// The cells of two children.
#[cycle(cells)]
#[tactic(auto, using(crate::proofs::TreeSteps::kids_none, crate::proofs::TreeSteps::kids_one, crate::proofs::TreeSteps::kids_both))]
fn both_cells(reprs: &[Repr], from: &Closed, to: &Closed, volume: u128, longest: u128) -> u128
    ensures { result ≡ kept_of (counted_children (reprs_of (map pure_repr reprs.now)) (pure_closed from.now ∷ pure_closed to.now ∷ []) volume longest) }
{
    if reprs.len() == 0 {
        return 0;
    }
    let first = cells_behind(&reprs[0], from, volume, longest);
    if reprs.len() == 1 {
        return first;
    }
    sum(first, cells_behind(&reprs[1], to, volume, longest))
}
