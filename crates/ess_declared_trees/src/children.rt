//! The domains of a layer's children.
ghost use Rattle.std.specs.Prelude.{◌≡◌, [], ◌∷◌, IfOk, map};
ghost use Rattle.ess_semantics.specs.declared.words.ReprKind.TheVariants.{Tuple, Rec, Matrix, Explicit, MSetExplicitWithFlags, Function1D, FunctionAsRelation, RelationAsSet, PartitionAsSet};
ghost use Rattle.ess_core_nodes.specs.NodeViews.{pure_dom};
ghost use Rattle.ess_repr_declare_laws.specs.ChildDomains.{child_doms as doms_of_children};

use ess_core::ReprKind;
use ess_core_nodes::NodeDom;
use ess_rows::{Boxed, NoMemory, Row};
use ess_structure_domains::{axes_over, pair_relation, part_sets, tuple_set};
use std::alloc::Global;

/// The domains of the children of a layer of this kind.
pub(crate) fn child_doms(
    alloc: Global,
    kind: ReprKind,
    dom: &NodeDom,
) -> Result<Row<NodeDom>, NoMemory>
    ensures { IfOk result (λ ds. map pure_dom ds ≡ doms_of_children kind (pure_dom dom.now)) }
{
    match kind {
        ReprKind::Tuple => components(alloc, dom),
        ReprKind::Rec => fields(alloc, dom),
        ReprKind::Matrix => items(alloc, dom),
        ReprKind::Explicit => members(alloc, dom),
        ReprKind::ExplicitVarSizeWithMarker => members(alloc, dom),
        ReprKind::ExplicitVarSizeWithFlags => members(alloc, dom),
        ReprKind::MSetExplicitWithRepetition => repeated_members(alloc, dom),
        ReprKind::MSetExplicitWithFlags => repeated_members(alloc, dom),
        ReprKind::Function1D => values(alloc, dom),
        ReprKind::Function1DPartial => values(alloc, dom),
        ReprKind::FunctionND => values(alloc, dom),
        ReprKind::FunctionNDPartial => values(alloc, dom),
        ReprKind::FunctionAsRelation => pairs(alloc, dom),
        ReprKind::RelationAsSet => tuples(alloc, dom),
        ReprKind::PartitionAsSet => parts(alloc, dom),
        _ => Ok(Row::new(alloc)),
    }
}

/// A domain alone in a row.
fn alone(alloc: Global, dom: Boxed<NodeDom>) -> Result<Row<NodeDom>, NoMemory>
    ensures { IfOk result (λ ds. map pure_dom ds ≡ pure_dom dom ∷ []) }
{
    Row::from_array(alloc, [dom.into_inner()])
}

/// A copy of a domain, alone in a row.
fn one(alloc: Global, dom: &NodeDom) -> Result<Row<NodeDom>, NoMemory>
    ensures { IfOk result (λ ds. map pure_dom ds ≡ pure_dom dom.now ∷ []) }
{
    let copy = dom.copy(alloc)?;
    alone(alloc, copy)
}

/// Those of tuples.
fn components(alloc: Global, dom: &NodeDom) -> Result<Row<NodeDom>, NoMemory>
    ensures { IfOk result (λ ds. map pure_dom ds ≡ doms_of_children Tuple (pure_dom dom.now)) }
{
    match dom {
        NodeDom::Tuple(parts) => axes_over(alloc, parts.as_slice()),
        _ => Ok(Row::new(alloc)),
    }
}

/// Those of records.
fn fields(alloc: Global, dom: &NodeDom) -> Result<Row<NodeDom>, NoMemory>
    ensures { IfOk result (λ ds. map pure_dom ds ≡ doms_of_children Rec (pure_dom dom.now)) }
{
    match dom {
        NodeDom::Record(_, parts) => axes_over(alloc, parts.as_slice()),
        _ => Ok(Row::new(alloc)),
    }
}

/// That of matrices.
fn items(alloc: Global, dom: &NodeDom) -> Result<Row<NodeDom>, NoMemory>
    ensures { IfOk result (λ ds. map pure_dom ds ≡ doms_of_children Matrix (pure_dom dom.now)) }
{
    match dom {
        NodeDom::Matrix(_, item) => one(alloc, item.get()),
        _ => Ok(Row::new(alloc)),
    }
}

/// That of sets in slots.
fn members(alloc: Global, dom: &NodeDom) -> Result<Row<NodeDom>, NoMemory>
    ensures { IfOk result (λ ds. map pure_dom ds ≡ doms_of_children Explicit (pure_dom dom.now)) }
{
    match dom {
        NodeDom::Set(_, _, member) => one(alloc, member.get()),
        _ => Ok(Row::new(alloc)),
    }
}

/// That of multisets in slots.
fn repeated_members(alloc: Global, dom: &NodeDom) -> Result<Row<NodeDom>, NoMemory>
    ensures { IfOk result (λ ds. map pure_dom ds ≡ doms_of_children MSetExplicitWithFlags (pure_dom dom.now)) }
{
    match dom {
        NodeDom::MSet(_, _, member) => one(alloc, member.get()),
        _ => Ok(Row::new(alloc)),
    }
}

/// That of functions by their values.
fn values(alloc: Global, dom: &NodeDom) -> Result<Row<NodeDom>, NoMemory>
    ensures { IfOk result (λ ds. map pure_dom ds ≡ doms_of_children Function1D (pure_dom dom.now)) }
{
    match dom {
        NodeDom::Function(_, _, _, to) => one(alloc, to.get()),
        _ => Ok(Row::new(alloc)),
    }
}

/// That of functions by their pairs.
fn pairs(alloc: Global, dom: &NodeDom) -> Result<Row<NodeDom>, NoMemory>
    ensures { IfOk result (λ ds. map pure_dom ds ≡ doms_of_children FunctionAsRelation (pure_dom dom.now)) }
{
    match dom {
        NodeDom::Function(marks, numbers, from, to) => {
            let dom = pair_relation(
                alloc,
                marks.as_slice(),
                numbers.as_slice(),
                from.get(),
                to.get(),
            )?;
            alone(alloc, dom)
        }
        _ => Ok(Row::new(alloc)),
    }
}

/// That of relations by their tuples.
fn tuples(alloc: Global, dom: &NodeDom) -> Result<Row<NodeDom>, NoMemory>
    ensures { IfOk result (λ ds. map pure_dom ds ≡ doms_of_children RelationAsSet (pure_dom dom.now)) }
{
    match dom {
        NodeDom::Relation(marks, numbers, parts) => {
            let dom = tuple_set(
                alloc,
                marks.as_slice(),
                numbers.as_slice(),
                parts.as_slice(),
            )?;
            alone(alloc, dom)
        }
        _ => Ok(Row::new(alloc)),
    }
}

/// That of partitions by their parts.
fn parts(alloc: Global, dom: &NodeDom) -> Result<Row<NodeDom>, NoMemory>
    ensures { IfOk result (λ ds. map pure_dom ds ≡ doms_of_children PartitionAsSet (pure_dom dom.now)) }
{
    match dom {
        NodeDom::Partition(marks, numbers, member) => {
            let dom = part_sets(alloc, marks.as_slice(), numbers.as_slice(), member.get())?;
            alone(alloc, dom)
        }
        _ => Ok(Row::new(alloc)),
    }
}
