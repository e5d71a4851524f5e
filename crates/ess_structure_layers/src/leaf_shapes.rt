//! The tables of a layer without a child.
ghost use Rattle.std.specs.Prelude.{◌≡◌, false, [], ◌∷◌, IfOk, drop};
ghost use Rattle.ess_semantics.specs.Trees.{repr, no_reprs};
ghost use Rattle.ess_core_nodes.specs.NodeViews.{pure_dom};
ghost use Rattle.ess_repr_laws.specs.CanonicalTables.{is_compound};
ghost use Rattle.ess_repr_laws.specs.StructureParts.{own_shape};
ghost use Rattle.ess_repr_laws.specs.Structure.{shapes};
ghost use Rattle.ess_repr_declare_laws.specs.SizeTerms.{size_terms};
ghost use Rattle.conjure_model_laws.specs.ToldApart.{reserved};
ghost use Rattle.ess_structure_terms.specs.ShapeViews.{pure_shapes};

use crate::names::behind;
use crate::tables::{behind_own, own_table};
use ess_core::ReprKind;
use ess_core_nodes::NodeDom;
use ess_rows::{NoMemory, Row, Text};
use ess_size_terms::slots;
use ess_structure_attributes::is_bool;
use ess_structure_domains::axes_over;
use ess_structure_terms::{Shape, only_axis, slot_axis};
use std::alloc::Global;

/// The tables of a layer without a child.
pub fn leaf_tables(
    alloc: Global,
    kind: ReprKind,
    dom: &NodeDom,
    names: &[Text],
) -> Result<Row<Shape>, NoMemory>
    requires { is_compound kind ≡ false }
    ensures { IfOk result (λ ss. pure_shapes ss ≡ shapes reserved size_terms (repr kind no_reprs) (pure_dom dom.now) names.now) }
{
    match kind {
        ReprKind::Atom => own_table(alloc, names, is_bool(dom), Row::new(alloc)),
        ReprKind::Occurrence => match dom {
            NodeDom::Set(_, _, member) => {
                own_table(alloc, names, true, only_axis(alloc, member.get())?)
            }
            _ => Ok(Row::new(alloc)),
        },
        ReprKind::ExplicitVarSizeWithDummy => match dom {
            NodeDom::Set(_, _, _) => {
                let size = slots(alloc, dom)?;
                own_table(alloc, names, false, slot_axis(alloc, size.get())?)
            }
            _ => Ok(Row::new(alloc)),
        },
        ReprKind::MSetOccurrence => match dom {
            NodeDom::MSet(_, _, member) => {
                own_table(alloc, names, false, only_axis(alloc, member.get())?)
            }
            _ => Ok(Row::new(alloc)),
        },
        ReprKind::RelationAsMatrix => match dom {
            NodeDom::Relation(_, _, parts) => {
                own_table(alloc, names, true, axes_over(alloc, parts.as_slice())?)
            }
            _ => Ok(Row::new(alloc)),
        },
        ReprKind::PartitionOccurrence => match dom {
            NodeDom::Partition(_, _, member) => part_tables(alloc, member.get(), names),
            _ => Ok(Row::new(alloc)),
        },
        _ => Ok(Row::new(alloc)),
    }
}

/// The number of parts, and that of each member's part.
fn part_tables(alloc: Global, member: &NodeDom, names: &[Text]) -> Result<Row<Shape>, NoMemory>
    ensures { IfOk result (λ ss. pure_shapes ss ≡ own_shape names.now false [] ∷ own_shape (drop 1 names.now) false (pure_dom
        member.now ∷ []) ∷ []) }
{
    let axes = only_axis(alloc, member)?;
    let count = own_table(alloc, names, false, Row::new(alloc))?;
    let parts = own_table(alloc, behind(names, 1), false, axes)?;
    behind_own(count, parts)
}
