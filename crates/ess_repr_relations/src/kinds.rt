ghost use Rattle.std.specs.Prelude.{◌≡◌, [], true, List, ℤ, map, option_map, IfOk};
ghost use Rattle.ess_semantics.specs.Trees.{Reprs, repr};
ghost use Rattle.ess_semantics.specs.Representations.{layer};
ghost use Rattle.ess_semantics.specs.Declarations.{axes_of};
ghost use Rattle.ess_semantics.specs.OneLayer.{inner_values, layer_tables, layer_value};
ghost use Rattle.ess_semantics.specs.Tidy.{over_axes};
ghost use Rattle.ess_core.specs.ValueViews.{pure_val};
ghost use Rattle.ess_eval_domains.specs.ClosedViews.{pure_closed};
ghost use Rattle.ess_repr_laws.specs.Rooms.{Covered};
ghost use Rattle.ess_repr_tables.specs.SlotViews.{pure_tables};
ghost use Rattle.ess_repr_sets.specs.PartTables.{PartsFit};
ghost use Rattle.ess_repr_relations.specs.PartNumbers.{over_relations};

use crate::partition_kinds::{partition_down, partition_parts, partition_up};
use crate::relation_kinds::{relation_down, relation_parts, relation_up};
use ess_core::{NoMemory, ReprKind, Row, Table, Val};
use ess_eval_domains::Closed;
use std::alloc::Global;

/// The inner values of a relation or partition, one for each slot in use; nothing where the domain is none of relations or partitions,
/// or the kind isn't one for it. `NoMemory` where there is no room for them.
pub fn parts(
    alloc: Global,
    kind: ReprKind,
    domain: &Closed,
    val: &Val,
) -> Result<Option<Row<Val>>, NoMemory>
    ensures { IfOk result (λ o. option_map (map pure_val) o ≡
        over_relations (pure_closed domain.now) (option_map (λ l. inner_values l (pure_val val.now)) (layer kind
        (pure_closed domain.now)))) }
{
    match domain {
        Closed::Relation(_, _) => relation_parts(alloc, kind, val),
        Closed::Partition(_, _) => partition_parts(alloc, kind, val),
        _ => Ok(None),
    }
}

/// The canonical tables of a relation or partition; `inner` are those of its parts in order. Nothing where the domain is none of
/// relations or partitions, or the kind isn't one for it. `NoMemory` where there is no room for them.
pub fn down(
    alloc: Global,
    kind: ReprKind,
    domain: &Closed,
    val: &Val,
    inner: Row<Row<Table>>,
) -> Result<Option<Row<Table>>, NoMemory>
    ensures { IfOk result (λ o. (ass : List (List (List ℤ))) (rs : Reprs) → Covered (repr kind rs) (pure_closed domain.now) →
        PartsFit kind rs (pure_closed domain.now) (pure_val val.now) ass (map pure_tables inner) →
        option_map pure_tables o ≡
        over_relations (pure_closed domain.now) (layer_tables (repr kind rs) (pure_closed domain.now) (pure_val val.now)
        (map pure_tables inner))) }
{
    match domain {
        Closed::Relation(_, components) => {
            relation_down(alloc, kind, components.as_slice(), val, inner)
        }
        Closed::Partition(_, member) => partition_down(alloc, kind, member.get(), val, inner),
        _ => Ok(None),
    }
}

/// The relation or partition that tables stand for, `vals` those of the slots in use. Nothing where they stand for none, where the
/// domain is none of relations or partitions, or the kind isn't one for it. `NoMemory` where there is no room for it.
pub fn up(
    alloc: Global,
    kind: ReprKind,
    domain: &Closed,
    tables: &[Table],
    vals: Row<Val>,
) -> Result<Option<Val>, NoMemory>
    ensures { IfOk result (λ o. (rs : Reprs) → Covered (repr kind rs) (pure_closed domain.now) →
        over_axes [] (axes_of (repr kind rs) (pure_closed domain.now)) (pure_tables tables.now) ≡ true →
        option_map pure_val o ≡
        over_relations (pure_closed domain.now) (layer_value kind (pure_closed domain.now) (pure_tables tables.now) (map pure_val vals))) }
{
    match domain {
        Closed::Relation(_, components) => {
            relation_up(alloc, kind, components.as_slice(), tables, vals)
        }
        Closed::Partition(_, member) => partition_up(alloc, kind, member.get(), tables, vals),
        _ => Ok(None),
    }
}
