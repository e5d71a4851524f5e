ghost use Rattle.std.specs.Prelude.{◌≡◌, [], ◌∷◌, map};
ghost use Rattle.ess_semantics.specs.Choice.{reprs_of};
ghost use Rattle.ess_semantics.specs.Domains.{matrices, tuples, domain_list};
ghost use Rattle.ess_core.specs.TreeViews.{pure_repr};
ghost use Rattle.ess_core.specs.declared.representations.Repr.TheViews.{out-Repr};
ghost use Rattle.ess_eval_domains.specs.ClosedViews.{pure_closed, pure_closeds, pure_field_closed, domains_of, record_domain};
ghost use Rattle.ess_domains_cells.specs.Kept.{kept as kept_of};
ghost use Rattle.ess_domains_cells.specs.Counted.{counted, counted_children};

use crate::attributes::greatest_size;
use crate::functions::function_cells;
use crate::kept::{greatest, kept, product, sum};
use crate::kinds::{is_matrix_kind, is_record_kind, is_tuple_kind};
use crate::layers::kept_size;
use crate::members::members_product;
use crate::partitions::partition_cells;
use crate::relations::relation_cells;
use crate::sets::{mset_cells, set_cells};
use crate::shapes::{atom_cells, longest_members, mset_slots};
use ess_core::Repr;
use ess_eval_domains::{Closed, FieldClosed};

/// The cells of a representation of a domain behind axes of this volume, the longest of which has so many members; kept at the
/// limit.
#[cycle(cells)]
#[tactic(auto, using(crate::proofs::TreeForms::at_bool, crate::proofs::TreeForms::at_int, crate::proofs::TreeForms::at_named, crate::proofs::TreeForms::at_tuple, crate::proofs::TreeForms::at_record, crate::proofs::TreeForms::at_matrix, crate::proofs::TreeForms::at_set, crate::proofs::TreeForms::at_mset, crate::proofs::TreeForms::at_function, crate::proofs::TreeForms::at_relation, crate::proofs::TreeForms::at_partition))]
pub fn cells_behind(repr: &Repr, domain: &Closed, volume: u128, longest: u128) -> u128
    ensures { result ≡ kept_of (counted (pure_repr repr.now) (pure_closed domain.now) volume longest) }
{
    match domain {
        Closed::Bool => atom_cells(repr.kind, volume, longest),
        Closed::Int(_) => atom_cells(repr.kind, volume, longest),
        Closed::Named(_, _) => atom_cells(repr.kind, volume, longest),
        Closed::Tuple(parts) => tuple_cells(repr, parts.as_slice(), volume, longest),
        Closed::Rec(fields) => record_cells(repr, fields.as_slice(), volume, longest),
        Closed::Matrix(axes, item) => {
            matrix_cells(repr, axes.as_slice(), item.get(), volume, longest)
        }
        Closed::Set(own, member) => {
            let size = kept_size(greatest_size(own.as_slice()));
            set_cells(repr, size, member.get(), volume, longest)
        }
        Closed::MSet(own, member) => {
            let slots = mset_slots(own.as_slice(), member.get());
            mset_cells(repr, slots, member.get(), volume, longest)
        }
        Closed::Function(own, from, to) => {
            function_cells(repr, own.as_slice(), from.get(), to.get(), volume, longest)
        }
        Closed::Relation(own, parts) => {
            let size = kept_size(greatest_size(own.as_slice()));
            relation_cells(repr, size, parts.as_slice(), volume, longest)
        }
        Closed::Partition(own, member) => {
            partition_cells(repr, own.as_slice(), member.get(), volume, longest)
        }
    }
}

/// The cells of a tuple.
#[cycle(cells)]
#[tactic(auto, using(crate::proofs::TreeSteps::tuple_yes, crate::proofs::TreeSteps::tuple_no))]
pub(crate) fn tuple_cells(repr: &Repr, parts: &[Closed], volume: u128, longest: u128) -> u128
    ensures { result ≡ kept_of (counted (pure_repr repr.now) (tuples (pure_closeds parts.now)) volume longest) }
{
    if is_tuple_kind(repr.kind) {
        each_cells(repr.children.as_slice(), parts, volume, longest)
    } else {
        0
    }
}

/// The cells of a record.
#[cycle(cells)]
#[tactic(auto, using(crate::proofs::TreeForms::record_there, crate::proofs::TreeForms::record_other))]
fn record_cells(repr: &Repr, fields: &[FieldClosed], volume: u128, longest: u128) -> u128
    ensures { result ≡ kept_of (counted (pure_repr repr.now) (record_domain (map pure_field_closed fields.now)) volume longest) }
{
    if is_record_kind(repr.kind) {
        each_field_cells(repr.children.as_slice(), fields, volume, longest)
    } else {
        0
    }
}

/// The cells of a matrix.
#[cycle(cells)]
#[tactic(auto, using(crate::proofs::TreeSteps::matrix_yes, crate::proofs::TreeSteps::matrix_no))]
fn matrix_cells(repr: &Repr, axes: &[Closed], item: &Closed, volume: u128, longest: u128) -> u128
    ensures { result ≡ kept_of (counted (pure_repr repr.now) (matrices (pure_closeds axes.now) (pure_closed item.now)) volume longest) }
{
    if is_matrix_kind(repr.kind) {
        let places = product(volume, members_product(axes));
        let axis = greatest(longest, longest_members(axes));
        first_cells(repr.children.as_slice(), item, places, axis)
    } else {
        0
    }
}

/// The cells of children, each of its own domain.
#[cycle(cells)]
#[tactic(auto, using(crate::proofs::TreeLoops::each_none, crate::proofs::TreeLoops::each_more, crate::proofs::TreeLoops::each_short, crate::proofs::TreeLoops::each_all, crate::proofs::KeptNumbers::kept_twice))]
fn each_cells(reprs: &[Repr], parts: &[Closed], volume: u128, longest: u128) -> u128
    ensures { result ≡ kept_of (counted_children (reprs_of (map pure_repr reprs.now)) (domain_list (pure_closeds parts.now)) volume longest) }
{
    let mut total = 0;
    for (index, repr) in reprs.iter().enumerate() {
        if index >= parts.len() {
            return total;
        }
        total = sum(total, cells_behind(repr, &parts[index], volume, longest));
    }
    total
}

/// The same of the domains of fields.
#[cycle(cells)]
#[tactic(auto, using(crate::proofs::TreeLoops::fields_none, crate::proofs::TreeLoops::fields_more, crate::proofs::TreeLoops::fields_short, crate::proofs::TreeLoops::fields_all, crate::proofs::KeptNumbers::kept_twice))]
fn each_field_cells(reprs: &[Repr], fields: &[FieldClosed], volume: u128, longest: u128) -> u128
    ensures { result ≡ kept_of (counted_children (reprs_of (map pure_repr reprs.now)) (domain_list (domains_of (map (λ f. f.1) (map pure_field_closed fields.now)))) volume longest) }
{
    let mut total = 0;
    for (index, repr) in reprs.iter().enumerate() {
        if index >= fields.len() {
            return total;
        }
        total = sum(
            total,
            cells_behind(repr, &fields[index].domain, volume, longest),
        );
    }
    total
}

/// The cells of an only child.
#[cycle(cells)]
#[tactic(auto, using(crate::proofs::TreeSteps::kids_none, crate::proofs::TreeSteps::kids_first))]
pub(crate) fn first_cells(reprs: &[Repr], domain: &Closed, volume: u128, longest: u128) -> u128
    ensures { result ≡ kept_of (counted_children (reprs_of (map pure_repr reprs.now)) (pure_closed domain.now ∷ []) volume longest) }
{
    if reprs.len() == 0 {
        return 0;
    }
    cells_behind(&reprs[0], domain, volume, longest)
}
