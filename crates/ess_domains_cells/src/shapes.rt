ghost use Rattle.std.specs.Prelude.{◌≡◌, option_map};
ghost use Rattle.ess_semantics.specs.Lists.{or_default};
ghost use Rattle.ess_semantics.specs.Sizes.{slots_of_mset, bound as bound_of};
ghost use Rattle.ess_semantics.specs.declared.words.ReprKind.TheVariants.{Function1D, FunctionND};
ghost use Rattle.ess_eval_domains.specs.ClosedViews.{pure_attributes, pure_closed, pure_closeds};
ghost use Rattle.ess_domains_cells.specs.Kept.{kept as kept_of};
ghost use Rattle.ess_domains_cells.specs.LayerCounts.{longest_members as longest_of};
ghost use Rattle.ess_domains_cells.specs.KindCounts.{counted_atom, function_axes as function_axes_of, pair_size as pair_size_of, parts_size as parts_size_of, part_size as part_size_of};

use crate::attributes::{greatest_size, occurrences};
use crate::bounds::bound;
use crate::kept::{greatest, kept, product};
use crate::kinds::is_atom_kind;
use crate::layers::kept_size;
use crate::members::{member_count, members_product};
use ess_core::{Key, ReprKind};
use ess_eval_domains::{Attribute, Closed, attribute, has};

/// The cells of an atom, kept at the limit.
#[tactic(auto, using(crate::proofs::ShapeSteps::atom_there, crate::proofs::ShapeSteps::atom_other))]
pub fn atom_cells(kind: ReprKind, volume: u128, longest: u128) -> u128
    ensures { result ≡ kept_of (counted_atom kind volume longest) }
{
    if is_atom_kind(kind) {
        kept(greatest(volume, longest))
    } else {
        0
    }
}

/// How many members the longest of several axes has, kept at the limit.
#[tactic(auto, using(crate::proofs::ShapeSteps::longest_none, crate::proofs::ShapeSteps::longest_more, crate::proofs::ShapeSteps::longest_all))]
pub fn longest_members(domains: &[Closed]) -> u128
    ensures { result ≡ kept_of (longest_of (pure_closeds domains.now)) }
{
    let mut longest = 0;
    for domain in domains {
        longest = greatest(longest, member_count(domain));
    }
    longest
}

/// The axes over which a kind keeps the values of a function: how many cells, and how many members the longest has, both kept
/// at the limit. None where the kind isn't one for functions from such a domain.
pub fn function_axes(kind: ReprKind, from: &Closed) -> Option<(u128, u128)>
    ensures { result ≡ option_map (λ a. (kept_of a.0, kept_of a.1)) (function_axes_of kind (pure_closed from.now)) }
{
    match kind {
        ReprKind::Function1D => atom_axes(from),
        ReprKind::Function1DPartial => atom_axes(from),
        ReprKind::FunctionND => tuple_axes(from),
        ReprKind::FunctionNDPartial => tuple_axes(from),
        _ => None,
    }
}

/// One axis.
fn atom_axes(from: &Closed) -> Option<(u128, u128)>
    ensures { result ≡ option_map (λ a. (kept_of a.0, kept_of a.1)) (function_axes_of Function1D (pure_closed from.now)) }
{
    let members = member_count(from);
    Some((members, members))
}

/// One axis for each component of a tuple.
fn tuple_axes(from: &Closed) -> Option<(u128, u128)>
    ensures { result ≡ option_map (λ a. (kept_of a.0, kept_of a.1)) (function_axes_of FunctionND (pure_closed from.now)) }
{
    match from {
        Closed::Tuple(parts) => Some((
            members_product(parts.as_slice()),
            longest_members(parts.as_slice()),
        )),
        _ => None,
    }
}

/// The slots of a multiset, kept at the limit.
#[tactic(auto, using(crate::proofs::ShapeSteps::slots_sized, crate::proofs::ShapeSteps::slots_free))]
pub fn mset_slots(own: &[Attribute], member: &Closed) -> u128
    ensures { result ≡ kept_of (slots_of_mset (pure_attributes own.now) (pure_closed member.now)) }
{
    match greatest_size(own) {
        Some(size) => kept(size as u128),
        None => product(occurrences(own) as u128, bound(member)),
    }
}

/// The size of the relation of a function's pairs, kept at the limit.
#[tactic(auto, using(crate::proofs::ShapeSteps::pair_total, crate::proofs::ShapeSteps::pair_sized, crate::proofs::ShapeSteps::pair_unnumbered, crate::proofs::ShapeSteps::pair_free))]
pub fn pair_size(own: &[Attribute], from: &Closed) -> Option<u128>
    ensures { result ≡ option_map kept_of (pair_size_of (pure_attributes own.now) (pure_closed from.now)) }
{
    if has(Key::Total, own) {
        return Some(bound(from));
    }
    match attribute(Key::Size, own) {
        Some(size) => Some(kept(size as u128)),
        None => {
            let greatest = attribute(Key::MaxSize, own);
            if has(Key::Size, own) {
                kept_size(greatest)
            } else {
                Some(size_or_bound(greatest, from))
            }
        }
    }
}

/// The size of the set of a partition's parts, kept at the limit.
#[tactic(auto, using(crate::proofs::ShapeSteps::parts_sized, crate::proofs::ShapeSteps::parts_unnumbered, crate::proofs::ShapeSteps::parts_free))]
pub fn parts_size(own: &[Attribute], member: &Closed) -> Option<u128>
    ensures { result ≡ option_map kept_of (parts_size_of (pure_attributes own.now) (pure_closed member.now)) }
{
    match attribute(Key::NumParts, own) {
        Some(size) => Some(kept(size as u128)),
        None => {
            let greatest = attribute(Key::MaxNumParts, own);
            if has(Key::NumParts, own) {
                kept_size(greatest)
            } else {
                Some(size_or_bound(greatest, member))
            }
        }
    }
}

/// The size, or the bound of the domain where there is none, kept at the limit.
#[tactic(auto, using(crate::proofs::ShapeSteps::size_there, crate::proofs::ShapeSteps::size_none))]
fn size_or_bound(size: Option<u64>, domain: &Closed) -> u128
    ensures { result ≡ kept_of (or_default size (bound_of (pure_closed domain.now))) }
{
    match size {
        Some(size) => kept(size as u128),
        None => bound(domain),
    }
}

/// The size of each part of a partition, kept at the limit.
pub fn part_size(own: &[Attribute]) -> Option<u128>
    ensures { result ≡ option_map kept_of (part_size_of (pure_attributes own.now)) }
{
    match attribute(Key::PartSize, own) {
        Some(size) => Some(kept(size as u128)),
        None => kept_size(attribute(Key::MaxPartSize, own)),
    }
}
