ghost use Rattle.std.specs.Prelude.{◌≡◌, [], true, List, ℤ, map, option_map, IfOk};
ghost use Rattle.ess_semantics.specs.Trees.{Reprs, repr};
ghost use Rattle.ess_semantics.specs.Domains.{Attribute, Domain, partitions};
ghost use Rattle.ess_semantics.specs.Representations.{layer};
ghost use Rattle.ess_semantics.specs.Declarations.{axes_of};
ghost use Rattle.ess_semantics.specs.OneLayer.{inner_values, layer_tables, layer_value};
ghost use Rattle.ess_semantics.specs.Tidy.{over_axes};
ghost use Rattle.ess_core.specs.ValueViews.{pure_val};
ghost use Rattle.ess_eval_domains.specs.ClosedViews.{pure_closed};
ghost use Rattle.ess_repr_laws.specs.Rooms.{Covered};
ghost use Rattle.ess_repr_tables.specs.SlotViews.{pure_tables};
ghost use Rattle.ess_repr_sets.specs.PartTables.{PartsFit};

use crate::conversions::{as_set, only_tables, partition_value_of};
use crate::numbers::number_tables;
use crate::parting::numbered_partition;
use ess_core::{NoMemory, ReprKind, Row, Table, Val};
use ess_eval_domains::Closed;
use std::alloc::Global;

/// The inner values of a partition: the set of its parts where the kind keeps that, else none; nothing where the kind isn't one of
/// partitions. `NoMemory` where there is no room for them.
#[tactic(auto, using(crate::proofs::PartitionCalls::part_sets))]
pub fn partition_parts(
    alloc: Global,
    kind: ReprKind,
    val: &Val,
) -> Result<Option<Row<Val>>, NoMemory>
    ensures { IfOk result (λ o. (ks : List Attribute) (d : Domain) → option_map (map pure_val) o ≡
        option_map (λ l. inner_values l (pure_val val.now)) (layer kind (partitions ks d))) }
{
    match kind {
        ReprKind::PartitionOccurrence => Ok(Some(Row::new(alloc))),
        ReprKind::PartitionAsSet => Ok(Some(as_set(alloc, val)?)),
        _ => Ok(None),
    }
}

/// The canonical tables of a partition; `inner` are those of its parts, in order. Nothing where the kind isn't one of
/// partitions. `NoMemory` where there is no room for them.
#[tactic(auto, using(crate::proofs::PartitionCalls::numbers_called, crate::proofs::PartitionCalls::parts_called))]
pub fn partition_down(
    alloc: Global,
    kind: ReprKind,
    member: &Closed,
    val: &Val,
    inner: Row<Row<Table>>,
) -> Result<Option<Row<Table>>, NoMemory>
    ensures { IfOk result (λ o. (ks : List Attribute) (ass : List (List (List ℤ))) (rs : Reprs) →
        Covered (repr kind rs) (partitions ks (pure_closed member.now)) →
        PartsFit kind rs (partitions ks (pure_closed member.now)) (pure_val val.now) ass (map pure_tables inner) →
        option_map pure_tables o ≡
        layer_tables (repr kind rs) (partitions ks (pure_closed member.now)) (pure_val val.now) (map pure_tables inner)) }
{
    match kind {
        ReprKind::PartitionOccurrence => Ok(Some(number_tables(alloc, member, val)?)),
        ReprKind::PartitionAsSet => Ok(only_tables(inner)),
        _ => Ok(None),
    }
}

/// The partition that tables stand for, `vals` those of the slots in use; nothing where they stand for none, or where the kind isn't one
/// of partitions. `NoMemory` where there is no room for it.
#[tactic(auto, using(crate::proofs::PartitionCalls::numbers_meant, crate::proofs::PartitionCalls::parts_meant))]
pub fn partition_up(
    alloc: Global,
    kind: ReprKind,
    member: &Closed,
    tables: &[Table],
    vals: Row<Val>,
) -> Result<Option<Val>, NoMemory>
    ensures { IfOk result (λ o. (ks : List Attribute) (rs : Reprs) → Covered (repr kind rs) (partitions ks (pure_closed member.now)) →
        over_axes [] (axes_of (repr kind rs) (partitions ks (pure_closed member.now))) (pure_tables tables.now) ≡ true →
        option_map pure_val o ≡ layer_value kind (partitions ks (pure_closed member.now)) (pure_tables tables.now) (map pure_val vals)) }
{
    match kind {
        ReprKind::PartitionOccurrence => Ok(numbered_partition(alloc, member, tables)?),
        ReprKind::PartitionAsSet => Ok(partition_value_of(alloc, vals)?),
        _ => Ok(None),
    }
}
