//! Representations with and without children, and views of their tables.
ghost use Rattle.std.specs.Prelude.{◌≡◌, IfOk};
ghost use Rattle.ess_semantics.specs.Trees.{repr, no_reprs, more_reprs};
ghost use Rattle.ess_core.specs.TreeViews.{pure_repr};
ghost use Rattle.ess_repr_laws.specs.CanonicalTables.{is_compound as has_components};

use ess_core::{Repr, ReprKind};
use ess_rows::{NoMemory, Row};
use std::alloc::Global;

/// Whether a kind is one of components, each with a child of its own.
pub fn is_compound(kind: ReprKind) -> bool
    ensures { result ≡ has_components kind }
{
    matches!(kind, ReprKind::Tuple | ReprKind::Rec)
}

/// A representation of this kind without children.
#[tactic(auto, using(crate::proofs::ChildForms::none_is))]
pub(crate) fn alone(alloc: Global, kind: ReprKind) -> Repr
    ensures { pure_repr result ≡ repr kind no_reprs }
{
    Repr {
        kind,
        children: Row::new(alloc),
    }
}

/// A representation of this kind with a copy of one child.
#[tactic(auto, using(crate::proofs::ChildForms::one_is))]
pub(crate) fn over_child(alloc: Global, kind: ReprKind, child: &Repr) -> Result<Repr, NoMemory>
    ensures { IfOk result (λ r. pure_repr r ≡ repr kind (more_reprs (pure_repr child.now) no_reprs)) }
{
    let child = child.copy(alloc)?;
    let children = Row::from_array(alloc, [child])?;
    Ok(Repr { kind, children })
}
