ghost use Rattle.std.specs.Prelude.{◌≡◌, option_map};
ghost use Rattle.ess_semantics.specs.Lists.{or_default};
ghost use Rattle.ess_domains_cells.specs.Kept.{kept as kept_of};
ghost use Rattle.ess_domains_cells.specs.LayerCounts.{table as table_of, set_own as set_own_of, has_slots as has_slots_of, mset_own as mset_own_of, has_mset_slots as has_mset_slots_of};

use crate::kept::{greatest, kept, product};
use ess_core::ReprKind;

/// The cells of a table over one more axis with `count` members, kept at the limit, or those of its longest axis where these
/// are more.
#[tactic(auto, using(crate::proofs::LayerSteps::table_kept))]
pub fn table(volume: u128, longest: u128, count: u128) -> u128
    ensures { result ≡ kept_of (table_of volume longest count) }
{
    kept(greatest(product(volume, count), greatest(longest, count)))
}

/// The cells of a set's own tables, kept at the limit.
#[tactic(auto, using(crate::proofs::LayerSteps::one_cell_kept))]
pub fn set_own(kind: ReprKind, volume: u128, longest: u128, slots: u128, members: u128) -> u128
    ensures { result ≡ kept_of (set_own_of kind volume longest slots members) }
{
    match kind {
        ReprKind::Occurrence => table(volume, longest, members),
        ReprKind::ExplicitVarSizeWithMarker => kept(greatest(volume, longest)),
        ReprKind::ExplicitVarSizeWithFlags => table(volume, longest, slots),
        ReprKind::ExplicitVarSizeWithDummy => table(volume, longest, slots),
        _ => 0,
    }
}

/// Whether a kind keeps the members of a set in slots of a child.
pub fn has_slots(kind: ReprKind) -> bool
    ensures { result ≡ has_slots_of kind }
{
    matches!(
        kind,
        ReprKind::Explicit
            | ReprKind::ExplicitVarSizeWithMarker
            | ReprKind::ExplicitVarSizeWithFlags
    )
}

/// The cells of a multiset's own tables, kept at the limit.
pub fn mset_own(kind: ReprKind, volume: u128, longest: u128, slots: u128, members: u128) -> u128
    ensures { result ≡ kept_of (mset_own_of kind volume longest slots members) }
{
    match kind {
        ReprKind::MSetOccurrence => table(volume, longest, members),
        ReprKind::MSetExplicitWithRepetition => kept(greatest(volume, longest)),
        ReprKind::MSetExplicitWithFlags => table(volume, longest, slots),
        _ => 0,
    }
}

/// Whether a kind keeps the members of a multiset in slots of a child.
pub fn has_mset_slots(kind: ReprKind) -> bool
    ensures { result ≡ has_mset_slots_of kind }
{
    matches!(
        kind,
        ReprKind::MSetExplicitWithRepetition | ReprKind::MSetExplicitWithFlags
    )
}

/// The size, where there is one; else the bound.
pub fn slots_or(size: Option<u128>, bound: u128) -> u128
    ensures { result ≡ or_default size bound }
{
    match size {
        Some(size) => size,
        None => bound,
    }
}

/// An attribute's number, kept at the limit.
pub fn kept_size(size: Option<u64>) -> Option<u128>
    ensures { result ≡ option_map kept_of size }
{
    match size {
        Some(size) => Some(kept(size as u128)),
        None => None,
    }
}
