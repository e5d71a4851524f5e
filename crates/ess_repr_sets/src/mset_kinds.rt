ghost use Rattle.std.specs.Prelude.{◌≡◌, [], true, List, map, option_map, IfOk};
ghost use Rattle.ess_semantics.specs.Trees.{Reprs, repr};
ghost use Rattle.ess_semantics.specs.Domains.{Attribute as PureAttribute, Domain, msets};
ghost use Rattle.ess_semantics.specs.Representations.{layer};
ghost use Rattle.ess_semantics.specs.Declarations.{axes_of};
ghost use Rattle.ess_semantics.specs.OneLayer.{inner_values, layer_tables, layer_value};
ghost use Rattle.ess_semantics.specs.Tidy.{over_axes};
ghost use Rattle.ess_core.specs.ValueViews.{pure_val};
ghost use Rattle.ess_eval_domains.specs.ClosedViews.{pure_attributes, pure_closed};
ghost use Rattle.ess_repr_laws.specs.Rooms.{Covered};
ghost use Rattle.ess_repr_tables.specs.SlotViews.{pure_tables};
ghost use Rattle.ess_repr_sets.specs.PartTables.{PartsFit};

use crate::built::{first_items, mset_in_slots};
use crate::msets::{count_tables, counted_mset, counts_mset, distinct, slots_with_times};
use ess_core::{NoMemory, ReprKind, Row, Table, Val};
use ess_eval_domains::{Attribute, Closed};
use ess_eval_operators::items_of;
use ess_repr_closed::mset_slots;
use ess_repr_slots::{counted_slots, marked_slots};
use ess_repr_tables::SlotsInUse;
use std::alloc::Global;

/// The inner values of a multiset: its members, or the different ones, where the kind has slots for them, else none; nothing where
/// the kind isn't one of multisets. `NoMemory` where there is no room for them.
#[tactic(auto, using(crate::proofs::MultisetCalls::repetition_parts, crate::proofs::MultisetCalls::counted_parts))]
pub fn mset_parts(alloc: Global, kind: ReprKind, val: &Val) -> Result<Option<Row<Val>>, NoMemory>
    ensures { IfOk result (λ o. (ks : List PureAttribute) (d : Domain) → option_map (map pure_val) o ≡ option_map (λ l. inner_values l (pure_val val.now)) (layer kind (msets ks d))) }
{
    match kind {
        ReprKind::MSetOccurrence => Ok(Some(Row::new(alloc))),
        ReprKind::MSetExplicitWithRepetition => Ok(Some(items_of(alloc, val)?)),
        ReprKind::MSetExplicitWithFlags => Ok(Some(distinct(alloc, val)?)),
        _ => Ok(None),
    }
}

/// The canonical tables of a multiset; `inner` are those of its parts, over the axes `axes`. Nothing where the kind isn't one of
/// multisets. `NoMemory` where there is no room for them.
#[tactic(auto, using(crate::proofs::MultisetCalls::counts_called, crate::proofs::MultisetCalls::repetition_called, crate::proofs::MultisetCalls::counted_called))]
pub fn mset_down(
    alloc: Global,
    kind: ReprKind,
    attributes: &[Attribute],
    member: &Closed,
    axes: &[Row<Row<i64>>],
    val: &Val,
    inner: Row<Row<Table>>,
) -> Result<Option<Row<Table>>, NoMemory>
    ensures { IfOk result (λ o. (rs : Reprs) → Covered (repr kind rs) (msets (pure_attributes attributes.now) (pure_closed member.now)) →
        PartsFit kind rs (msets (pure_attributes attributes.now) (pure_closed member.now)) (pure_val val.now) axes.now (map pure_tables inner) →
        option_map pure_tables o ≡ layer_tables (repr kind rs) (msets (pure_attributes attributes.now) (pure_closed member.now)) (pure_val val.now) (map pure_tables inner)) }
{
    match kind {
        ReprKind::MSetOccurrence => Ok(Some(count_tables(alloc, member, val)?)),
        ReprKind::MSetExplicitWithRepetition => {
            let slots = mset_slots(alloc, attributes, member)?;
            Ok(Some(marked_slots(alloc, slots, axes, inner)?))
        }
        ReprKind::MSetExplicitWithFlags => {
            let slots = mset_slots(alloc, attributes, member)?;
            let counted = slots_with_times(alloc, val, inner)?;
            Ok(Some(counted_slots(alloc, slots, axes, counted)?))
        }
        _ => Ok(None),
    }
}

/// The multiset that tables stand for, `vals` those of the slots in use; nothing where they stand for none, or where the kind isn't
/// one of multisets. `NoMemory` where there is no room for it.
#[tactic(auto, using(crate::proofs::MultisetCalls::counts_meant, crate::proofs::MultisetCalls::repetition_meant, crate::proofs::MultisetCalls::counted_meant))]
pub fn mset_up(
    alloc: Global,
    kind: ReprKind,
    attributes: &[Attribute],
    member: &Closed,
    tables: &[Table],
    vals: Row<Val>,
) -> Result<Option<Val>, NoMemory>
    ensures { IfOk result (λ o. (rs : Reprs) → Covered (repr kind rs) (msets (pure_attributes attributes.now) (pure_closed member.now)) →
        over_axes [] (axes_of (repr kind rs) (msets (pure_attributes attributes.now) (pure_closed member.now))) (pure_tables tables.now) ≡ true →
        option_map pure_val o ≡ layer_value kind (msets (pure_attributes attributes.now) (pure_closed member.now)) (pure_tables tables.now) (map pure_val vals)) }
{
    match kind {
        ReprKind::MSetOccurrence => Ok(counts_mset(alloc, member, first_items(tables))?),
        ReprKind::MSetExplicitWithRepetition => {
            let slots = mset_slots(alloc, attributes, member)?;
            Ok(mset_in_slots(alloc, SlotsInUse::UpToMarker, slots, tables, vals)?)
        }
        ReprKind::MSetExplicitWithFlags => { Ok(counted_mset(alloc, first_items(tables), vals)?) }
        _ => Ok(None),
    }
}
