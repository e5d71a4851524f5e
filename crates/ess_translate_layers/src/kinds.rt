//! What a kind has whatever the domain: components, tables of its own, and which places are in use.
ghost use Rattle.std.specs.Prelude.{◌≡◌, map, IfOk};
ghost use Rattle.ess_semantics.specs.Choice.{reprs_of};
ghost use Rattle.ess_semantics.specs.Representations.{own_width as own_width_of, width as width_of, widths as widths_of};
ghost use Rattle.ess_core.specs.TreeViews.{pure_repr};
ghost use Rattle.ess_repr_laws.specs.CanonicalTables.{is_compound as has_components};
ghost use Rattle.ess_repr_layers_laws.specs.LayerParts.{use_of};
ghost use Rattle.ess_repr_tables.specs.UseViews.{pure_use};

use ess_core::{NoMemory, Repr, ReprKind};
use ess_repr_tables::SlotsInUse;

/// Whether a kind is one of components, each with a child of its own.
pub(crate) fn is_compound(kind: ReprKind) -> bool
    ensures { result ≡ has_components kind }
{
    matches!(kind, ReprKind::Tuple | ReprKind::Rec)
}

/// How many tables a kind has of its own.
pub(crate) fn own_width(kind: ReprKind) -> usize
    ensures { result ≡ own_width_of kind }
{
    match kind {
        ReprKind::Tuple => 0,
        ReprKind::Rec => 0,
        ReprKind::Matrix => 0,
        ReprKind::Explicit => 0,
        ReprKind::Function1D => 0,
        ReprKind::FunctionND => 0,
        ReprKind::FunctionAsRelation => 0,
        ReprKind::RelationAsSet => 0,
        ReprKind::PartitionAsSet => 0,
        ReprKind::PartitionOccurrence => 2,
        _ => 1,
    }
}

/// Which slots of a kind are in use.
pub(crate) fn slots_of(kind: ReprKind) -> SlotsInUse
    ensures { pure_use result ≡ use_of kind }
{
    match kind {
        ReprKind::ExplicitVarSizeWithMarker => SlotsInUse::UpToMarker,
        ReprKind::MSetExplicitWithRepetition => SlotsInUse::UpToMarker,
        ReprKind::ExplicitVarSizeWithFlags => SlotsInUse::Flagged,
        ReprKind::Function1DPartial => SlotsInUse::Flagged,
        ReprKind::FunctionNDPartial => SlotsInUse::Flagged,
        ReprKind::MSetExplicitWithFlags => SlotsInUse::Counted,
        _ => SlotsInUse::All,
    }
}

/// How many tables a representation has. `NoMemory` where they can't be counted.
#[cycle(width)]
#[tactic(auto, using(crate::proofs::Widths::width_made))]
pub(crate) fn width(repr: &Repr) -> Result<usize, NoMemory>
    ensures { IfOk result (λ n. n ≡ width_of (pure_repr repr.now)) }
{
    match own_width(repr.kind).checked_add(widths(repr.children.as_slice())?) {
        Some(width) => Ok(width),
        None => Err(NoMemory),
    }
}

/// How many tables the children have.
#[cycle(width)]
#[tactic(auto, using(crate::proofs::Widths::widths_none, crate::proofs::Widths::widths_more, crate::proofs::Widths::widths_all))]
fn widths(reprs: &[Repr]) -> Result<usize, NoMemory>
    ensures { IfOk result (λ n. n ≡ widths_of (reprs_of (map pure_repr reprs.now))) }
{
    let mut total: usize = 0;
    for repr in reprs {
        match total.checked_add(width(repr)?) {
            Some(sum) => total = sum,
            None => return Err(NoMemory),
        }
    }
    Ok(total)
}
