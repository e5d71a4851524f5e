// Partitions.
ghost use Rattle.std.specs.Prelude.{◌≡◌, [], ◌∷◌, map};
ghost use Rattle.ess_semantics.specs.Choice.{reprs_of};
ghost use Rattle.ess_semantics.specs.Domains.{partitions};
ghost use Rattle.ess_core.specs.TreeViews.{pure_repr};
ghost use Rattle.ess_core.specs.declared.representations.Repr.TheViews.{out-Repr};
ghost use Rattle.ess_eval_domains.specs.ClosedViews.{pure_attributes, pure_closed};
ghost use Rattle.ess_domains_cells.specs.Kept.{kept as kept_of};
ghost use Rattle.ess_domains_cells.specs.Counted.{counted};
ghost use Rattle.ess_domains_cells.specs.LayerCounts.{counted_sets};
ghost use Rattle.ess_domains_cells.specs.KindCounts.{first_sets};

use crate::bounds::bound;
use crate::kept::{greatest, kept, power, product, sum};
use crate::kinds::{is_partition_set, is_partition_table};
use crate::layers::{has_slots, set_own, slots_or, table};
use crate::members::member_count;
use crate::sets::first_set_cells;
use crate::shapes::{part_size, parts_size};
use ess_core::Repr;
use ess_eval_domains::{Attribute, Closed};

/// The cells of a partition.
#[cycle(cells)]
#[tactic(auto, using(crate::proofs::RelationForms::table_partition, crate::proofs::RelationForms::set_partition, crate::proofs::RelationForms::other_partition))]
pub(crate) fn partition_cells(
    repr: &Repr,
    own: &[Attribute],
    member: &Closed,
    volume: u128,
    longest: u128,
) -> u128
    ensures { result ≡ kept_of (counted (pure_repr repr.now) (partitions (pure_attributes own.now) (pure_closed member.now)) volume longest) }
{
    if is_partition_table(repr.kind) {
        let numbers = table(volume, longest, member_count(member));
        return sum(kept(greatest(volume, longest)), numbers);
    }
    if is_partition_set(repr.kind) {
        let size = parts_size(own, member);
        let each = part_size(own);
        return first_parts(
            repr.children.as_slice(),
            size,
            each,
            member,
            volume,
            longest,
        );
    }
    0
}

/// The cells of an only child that is a set of sets.
#[cycle(cells)]
#[tactic(auto, using(crate::proofs::TreeSteps::sets_none, crate::proofs::TreeSteps::sets_first))]
fn first_parts(
    reprs: &[Repr],
    size: Option<u128>,
    each: Option<u128>,
    member: &Closed,
    volume: u128,
    longest: u128,
) -> u128
    ensures { result ≡ kept_of (first_sets (reprs_of (map pure_repr reprs.now)) size each (pure_closed member.now) volume longest) }
{
    if reprs.len() == 0 {
        return 0;
    }
    part_set_cells(&reprs[0], size, each, member, volume, longest)
}

/// The cells of a set of sets.
#[cycle(cells)]
#[tactic(auto, using(crate::proofs::RelationForms::part_set_step, crate::proofs::RelationForms::part_set_leaf))]
fn part_set_cells(
    repr: &Repr,
    size: Option<u128>,
    each: Option<u128>,
    member: &Closed,
    volume: u128,
    longest: u128,
) -> u128
    ensures { result ≡ kept_of (counted_sets (pure_repr repr.now) size each (pure_closed member.now) volume longest) }
{
    let slots = slots_or(size, power(2, bound(member)));
    let own = set_own(repr.kind, volume, longest, slots, 0);
    if has_slots(repr.kind) {
        let places = product(volume, slots);
        let axis = greatest(longest, slots);
        sum(
            own,
            first_set_cells(repr.children.as_slice(), each, member, places, axis),
        )
    } else {
        own
    }
}
