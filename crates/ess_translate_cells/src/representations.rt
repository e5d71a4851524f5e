//! The cells of all tables of a representation.
ghost use Rattle.std.specs.Prelude.{◌≡◌, ◌++◌, ◌||◌, map, IfOk};
ghost use Rattle.ess_semantics.specs.Choice.{reprs_of};
ghost use Rattle.ess_core.specs.TreeViews.{pure_repr};
ghost use Rattle.ess_eval_domains.specs.ClosedViews.{pure_closed};
ghost use Rattle.eprime_eval.specs.ClosedDomains.{pure_closed as pure_cells};
ghost use Rattle.ess_translate_members_laws.specs.LayerCells.{frees as frees_meant, cells_of as cells_meant, cells_of_children};

use crate::own_cells::own_cells;
use eprime_eval::Closed as CellDomain;
use ess_core::{NoMemory, Repr, ReprKind, Row};
use ess_eval_domains::Closed;
use ess_repr_closed::children;
use std::alloc::Global;

/// The cells of each table of a representation of a domain, in the order of their declarations, where they can be out of use or not.
/// `NoMemory` where there is no room for them, or a number is too large.
#[cycle(cells)]
#[tactic(auto, using(crate::proofs::AllCells::cells_made))]
pub(crate) fn cells_of(
    alloc: Global,
    out: bool,
    repr: &Repr,
    domain: &Closed,
) -> Result<Row<CellDomain>, NoMemory>
    ensures { IfOk result (λ r. map pure_cells r ≡ cells_meant out (pure_repr repr.now) (pure_closed domain.now)) }
{
    let own = own_cells(alloc, out, repr.kind, domain)?;
    let parts = children(alloc, repr.kind, domain)?;
    let kids = repr.children.as_slice();
    Ok(with_children(alloc, own, out || frees(repr.kind), kids, parts.as_slice())?)
}

/// Whether the cells of the children of a kind can be out of use.
fn frees(kind: ReprKind) -> bool
    ensures { result ≡ frees_meant kind }
{
    match kind {
        ReprKind::ExplicitVarSizeWithMarker => true,
        ReprKind::ExplicitVarSizeWithFlags => true,
        ReprKind::MSetExplicitWithRepetition => true,
        ReprKind::MSetExplicitWithFlags => true,
        ReprKind::Function1DPartial => true,
        ReprKind::FunctionNDPartial => true,
        _ => false,
    }
}

/// The cells of own tables, then those of the children's tables.
#[cycle(cells)]
#[tactic(auto, using(crate::proofs::AllCells::children_in_turn))]
fn with_children(
    alloc: Global,
    own: Row<CellDomain>,
    out: bool,
    reprs: &[Repr],
    parts: &[Closed],
) -> Result<Row<CellDomain>, NoMemory>
    ensures { IfOk result (λ r. map pure_cells r ≡ map pure_cells own
        ++ cells_of_children out (reprs_of (map pure_repr reprs.now)) (map pure_closed parts.now)) }
{
    let mut all = own;
    for (index, repr) in reprs.iter().enumerate() {
        if index >= parts.len() {
            return Ok(all);
        }
        let mut below = cells_of(alloc, out, repr, &parts[index])?;
        all.append(&mut below)?;
    }
    Ok(all)
}
