ghost use Rattle.std.specs.Prelude.{◌≡◌, [], true, List, map, option_map, IfOk};
ghost use Rattle.ess_semantics.specs.Trees.{Reprs, repr};
ghost use Rattle.ess_semantics.specs.Domains.{Attribute as PureAttribute, Domain, sets};
ghost use Rattle.ess_semantics.specs.Representations.{layer};
ghost use Rattle.ess_semantics.specs.Declarations.{axes_of};
ghost use Rattle.ess_semantics.specs.OneLayer.{inner_values, layer_tables, layer_value};
ghost use Rattle.ess_semantics.specs.Tidy.{over_axes};
ghost use Rattle.ess_core.specs.ValueViews.{pure_val};
ghost use Rattle.ess_eval_domains.specs.ClosedViews.{pure_attributes, pure_closed};
ghost use Rattle.ess_repr_laws.specs.Rooms.{Covered};
ghost use Rattle.ess_repr_tables.specs.SlotViews.{pure_tables};
ghost use Rattle.ess_repr_sets.specs.PartTables.{PartsFit};

use crate::built::{first_items, set_in_slots};
use crate::dummies::{dummy_tables, dummy_value};
use crate::sets::{occurrence_set, occurrence_tables};
use ess_core::{NoMemory, ReprKind, Row, Table, Val};
use ess_eval_domains::{Attribute, Closed};
use ess_eval_operators::items_of;
use ess_repr_closed::set_slots;
use ess_repr_slots::{flagged_slots, marked_slots, slot_tables};
use ess_repr_tables::SlotsInUse;
use ess_values::set_of;
use std::alloc::Global;

/// The inner values of a set: its members where the kind has slots for them, else none; nothing where the kind isn't one of sets.
/// `NoMemory` where there is no room for them.
#[tactic(auto, using(crate::proofs::SetCalls::explicit_parts, crate::proofs::SetCalls::marker_parts, crate::proofs::SetCalls::flags_parts))]
pub fn set_parts(alloc: Global, kind: ReprKind, val: &Val) -> Result<Option<Row<Val>>, NoMemory>
    ensures { IfOk result (λ o. (ks : List PureAttribute) (d : Domain) → option_map (map pure_val) o ≡ option_map (λ l. inner_values l (pure_val val.now)) (layer kind (sets ks d))) }
{
    match kind {
        ReprKind::Occurrence => Ok(Some(Row::new(alloc))),
        ReprKind::ExplicitVarSizeWithDummy => Ok(Some(Row::new(alloc))),
        ReprKind::Explicit => Ok(Some(items_of(alloc, val)?)),
        ReprKind::ExplicitVarSizeWithMarker => Ok(Some(items_of(alloc, val)?)),
        ReprKind::ExplicitVarSizeWithFlags => Ok(Some(items_of(alloc, val)?)),
        _ => Ok(None),
    }
}

/// The canonical tables of a set; `inner` are those of its parts, over the axes `axes`. Nothing where the kind isn't one of sets.
/// `NoMemory` where there is no room for them.
#[tactic(auto, using(crate::proofs::SetCalls::occurrence_called, crate::proofs::SetCalls::dummy_called, crate::proofs::SetCalls::explicit_called, crate::proofs::SetCalls::marker_called, crate::proofs::SetCalls::flags_called))]
pub fn set_down(
    alloc: Global,
    kind: ReprKind,
    attributes: &[Attribute],
    member: &Closed,
    axes: &[Row<Row<i64>>],
    val: &Val,
    inner: Row<Row<Table>>,
) -> Result<Option<Row<Table>>, NoMemory>
    ensures { IfOk result (λ o. (rs : Reprs) → Covered (repr kind rs) (sets (pure_attributes attributes.now) (pure_closed member.now)) →
        PartsFit kind rs (sets (pure_attributes attributes.now) (pure_closed member.now)) (pure_val val.now) axes.now (map pure_tables inner) →
        option_map pure_tables o ≡ layer_tables (repr kind rs) (sets (pure_attributes attributes.now) (pure_closed member.now)) (pure_val val.now) (map pure_tables inner)) }
{
    match kind {
        ReprKind::Occurrence => Ok(Some(occurrence_tables(alloc, member, val)?)),
        ReprKind::ExplicitVarSizeWithDummy => {
            let slots = set_slots(alloc, attributes, member)?;
            Ok(Some(dummy_tables(alloc, slots, member, val)?))
        }
        ReprKind::Explicit => {
            let slots = set_slots(alloc, attributes, member)?;
            Ok(Some(slot_tables(alloc, slots, axes, inner)?))
        }
        ReprKind::ExplicitVarSizeWithMarker => {
            let slots = set_slots(alloc, attributes, member)?;
            Ok(Some(marked_slots(alloc, slots, axes, inner)?))
        }
        ReprKind::ExplicitVarSizeWithFlags => {
            let slots = set_slots(alloc, attributes, member)?;
            Ok(Some(flagged_slots(alloc, slots, axes, inner)?))
        }
        _ => Ok(None),
    }
}

/// The set that tables stand for, `vals` those of the slots in use; nothing where they stand for none, or where the kind isn't one
/// of sets. `NoMemory` where there is no room for it.
#[tactic(auto, using(crate::proofs::SetCalls::occurrence_meant, crate::proofs::SetCalls::dummy_meant, crate::proofs::SetCalls::explicit_meant, crate::proofs::SetCalls::marker_meant, crate::proofs::SetCalls::flags_meant))]
pub fn set_up(
    alloc: Global,
    kind: ReprKind,
    attributes: &[Attribute],
    member: &Closed,
    tables: &[Table],
    vals: Row<Val>,
) -> Result<Option<Val>, NoMemory>
    ensures { IfOk result (λ o. (rs : Reprs) → Covered (repr kind rs) (sets (pure_attributes attributes.now) (pure_closed member.now)) →
        over_axes [] (axes_of (repr kind rs) (sets (pure_attributes attributes.now) (pure_closed member.now))) (pure_tables tables.now) ≡ true →
        option_map pure_val o ≡ layer_value kind (sets (pure_attributes attributes.now) (pure_closed member.now)) (pure_tables tables.now) (map pure_val vals)) }
{
    match kind {
        ReprKind::Occurrence => Ok(occurrence_set(alloc, member, first_items(tables))?),
        ReprKind::ExplicitVarSizeWithDummy => {
            Ok(dummy_value(alloc, member, first_items(tables))?)
        }
        ReprKind::Explicit => Ok(Some(set_of(alloc, vals)?)),
        ReprKind::ExplicitVarSizeWithMarker => {
            let slots = set_slots(alloc, attributes, member)?;
            Ok(set_in_slots(alloc, SlotsInUse::UpToMarker, slots, tables, vals)?)
        }
        ReprKind::ExplicitVarSizeWithFlags => {
            let slots = set_slots(alloc, attributes, member)?;
            Ok(set_in_slots(alloc, SlotsInUse::Flagged, slots, tables, vals)?)
        }
        _ => Ok(None),
    }
}
