//! How many tables a representation has.
ghost use Rattle.std.specs.Prelude.{◌≡◌, map, IfOk};
ghost use Rattle.ess_semantics.specs.Choice.{reprs_of};
ghost use Rattle.ess_semantics.specs.Representations.{own_width as own_width_of, width as width_of, widths as widths_of};
ghost use Rattle.ess_core.specs.TreeViews.{pure_repr};

use ess_core::{Repr, ReprKind};
use ess_rows::NoMemory;

/// How many tables a kind has of its own.
pub(crate) fn own_width(kind: ReprKind) -> usize
    ensures { result ≡ own_width_of kind }
{
    match kind {
        ReprKind::Tuple => 0,
        ReprKind::Rec => 0,
        ReprKind::Matrix => 0,
        ReprKind::Explicit => 0,
        ReprKind::Function1D => 0,
        ReprKind::FunctionND => 0,
        ReprKind::FunctionAsRelation => 0,
        ReprKind::RelationAsSet => 0,
        ReprKind::PartitionAsSet => 0,
        ReprKind::PartitionOccurrence => 2,
        _ => 1,
    }
}

/// How many tables a representation has. `NoMemory` where they can't be counted.
#[cycle(width)]
#[tactic(auto, using(crate::proofs::WidthSums::width_made))]
pub(crate) fn width(repr: &Repr) -> Result<usize, NoMemory>
    ensures { IfOk result (λ n. n ≡ width_of (pure_repr repr.now)) }
{
    match own_width(repr.kind).checked_add(widths(repr.children.as_slice())?) {
        Some(width) => Ok(width),
        None => Err(NoMemory),
    }
}

/// How many tables the children have.
#[cycle(width)]
#[tactic(auto, using(crate::proofs::WidthSums::widths_none, crate::proofs::WidthSums::widths_more, crate::proofs::WidthSums::widths_all))]
fn widths(reprs: &[Repr]) -> Result<usize, NoMemory>
    ensures { IfOk result (λ n. n ≡ widths_of (reprs_of (map pure_repr reprs.now))) }
{
    let mut total: usize = 0;
    for repr in reprs {
        match total.checked_add(width(repr)?) {
            Some(sum) => total = sum,
            None => return Err(NoMemory),
        }
    }
    Ok(total)
}
