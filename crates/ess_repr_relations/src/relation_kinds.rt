ghost use Rattle.std.specs.Prelude.{◌≡◌, [], true, List, ℤ, map, option_map, IfOk};
ghost use Rattle.ess_semantics.specs.Trees.{Reprs, repr};
ghost use Rattle.ess_semantics.specs.Domains.{Attribute, Domains, relations};
ghost use Rattle.ess_semantics.specs.Representations.{layer};
ghost use Rattle.ess_semantics.specs.Declarations.{axes_of};
ghost use Rattle.ess_semantics.specs.OneLayer.{inner_values, layer_tables, layer_value};
ghost use Rattle.ess_semantics.specs.Tidy.{over_axes};
ghost use Rattle.ess_core.specs.ValueViews.{pure_val};
ghost use Rattle.ess_eval_domains.specs.ClosedViews.{pure_closeds};
ghost use Rattle.ess_repr_laws.specs.Rooms.{Covered};
ghost use Rattle.ess_repr_tables.specs.SlotViews.{pure_tables};
ghost use Rattle.ess_repr_sets.specs.PartTables.{PartsFit};

use crate::conversions::{as_set, only_tables, relation_value_of};
use crate::tuples::{matrix_relation, matrix_tables};
use ess_core::{NoMemory, ReprKind, Row, Table, Val};
use ess_eval_domains::Closed;
use ess_repr_sets::first_items;
use std::alloc::Global;

/// The inner values of a relation: the set of its tuples where the kind keeps that, else none; nothing where the kind isn't one of
/// relations. `NoMemory` where there is no room for them.
#[tactic(auto, using(crate::proofs::RelationCalls::set_parts))]
pub fn relation_parts(
    alloc: Global,
    kind: ReprKind,
    val: &Val,
) -> Result<Option<Row<Val>>, NoMemory>
    ensures { IfOk result (λ o. (ks : List Attribute) (ds : Domains) → option_map (map pure_val) o ≡
        option_map (λ l. inner_values l (pure_val val.now)) (layer kind (relations ks ds))) }
{
    match kind {
        ReprKind::RelationAsMatrix => Ok(Some(Row::new(alloc))),
        ReprKind::RelationAsSet => Ok(Some(as_set(alloc, val)?)),
        _ => Ok(None),
    }
}

/// The canonical tables of a relation; `inner` are those of its parts, in order. Nothing where the kind isn't one of
/// relations. `NoMemory` where there is no room for them.
#[tactic(auto, using(crate::proofs::RelationCalls::matrix_called, crate::proofs::RelationCalls::set_called))]
pub fn relation_down(
    alloc: Global,
    kind: ReprKind,
    components: &[Closed],
    val: &Val,
    inner: Row<Row<Table>>,
) -> Result<Option<Row<Table>>, NoMemory>
    ensures { IfOk result (λ o. (ks : List Attribute) (ass : List (List (List ℤ))) (rs : Reprs) →
        Covered (repr kind rs) (relations ks (pure_closeds components.now)) →
        PartsFit kind rs (relations ks (pure_closeds components.now)) (pure_val val.now) ass (map pure_tables inner) →
        option_map pure_tables o ≡
        layer_tables (repr kind rs) (relations ks (pure_closeds components.now)) (pure_val val.now) (map pure_tables inner)) }
{
    match kind {
        ReprKind::RelationAsMatrix => Ok(Some(matrix_tables(alloc, components, val)?)),
        ReprKind::RelationAsSet => Ok(only_tables(inner)),
        _ => Ok(None),
    }
}

/// The relation that tables stand for, `vals` those of the slots in use; nothing where they stand for none, or where the kind isn't one
/// of relations. `NoMemory` where there is no room for it.
#[tactic(auto, using(crate::proofs::RelationCalls::matrix_meant, crate::proofs::RelationCalls::set_meant))]
pub fn relation_up(
    alloc: Global,
    kind: ReprKind,
    components: &[Closed],
    tables: &[Table],
    vals: Row<Val>,
) -> Result<Option<Val>, NoMemory>
    ensures { IfOk result (λ o. (ks : List Attribute) (rs : Reprs) → Covered (repr kind rs) (relations ks (pure_closeds components.now)) →
        over_axes [] (axes_of (repr kind rs) (relations ks (pure_closeds components.now))) (pure_tables tables.now) ≡ true →
        option_map pure_val o ≡
        layer_value kind (relations ks (pure_closeds components.now)) (pure_tables tables.now) (map pure_val vals)) }
{
    match kind {
        ReprKind::RelationAsMatrix => {
            Ok(matrix_relation(alloc, components, first_items(tables))?)
        }
        ReprKind::RelationAsSet => Ok(relation_value_of(vals)),
        _ => Ok(None),
    }
}
