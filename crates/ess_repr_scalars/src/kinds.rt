//! The calls of one layer, for atoms and matrices.
ghost use Rattle.std.specs.Prelude.{◌≡◌, [], Some, true, map, option_map, IfOk};
ghost use Rattle.ess_semantics.specs.Trees.{Reprs, repr};
ghost use Rattle.ess_semantics.specs.Domains.{domain_list, member_list as list_of_members};
ghost use Rattle.ess_semantics.specs.Layers.{codes_of};
ghost use Rattle.ess_semantics.specs.ScalarLayers.{elements as elements_of};
ghost use Rattle.ess_semantics.specs.Declarations.{axes_of};
ghost use Rattle.ess_semantics.specs.Representations.{layer};
ghost use Rattle.ess_semantics.specs.OneLayer.{inner_values, layer_tables, layer_value};
ghost use Rattle.ess_semantics.specs.Tidy.{over_axes};
ghost use Rattle.ess_core.specs.ValueViews.{pure_val};
ghost use Rattle.ess_eval_domains.specs.ClosedViews.{pure_closed, pure_closeds};
ghost use Rattle.ess_repr_laws.specs.Rooms.{Covered};
ghost use Rattle.ess_repr_rows_laws.specs.RowLayers.{all_used as all_slots_used};
ghost use Rattle.ess_repr_rows_laws.specs.Stacking.{stacked as tables_stacked};
ghost use Rattle.ess_repr_layers_laws.specs.LayerCalls.{TablesReady};
ghost use Rattle.ess_repr_tables.specs.SlotViews.{pure_tables};
ghost use Rattle.ess_repr_scalars.specs.ScalarForms.{over_scalars, for_matrix};
ghost use Rattle.ess_repr_scalars.specs.NestedMatrices.{nested_in};

use crate::atoms::{atom_of, atom_parts, atom_tables};
use crate::elements::elements;
use crate::nesting::nested;
use ess_core::{NoMemory, ReprKind, Row, Table, Val};
use ess_eval_domains::Closed;
use ess_repr_closed::axes_of_each;
use ess_repr_sets::member_list;
use ess_repr_slots::all_used;
use ess_repr_tables::stacked;
use std::alloc::Global;

/// The parts of a member: none of an atom, the elements of a matrix row by row. Nothing where the domain is another one, or the kind
/// isn't one for it. `NoMemory` where there is no room for them.
#[tactic(auto, using(crate::proofs::ScalarParts::of_bool, crate::proofs::ScalarParts::of_int, crate::proofs::ScalarParts::of_named, crate::proofs::ScalarParts::of_matrix))]
pub fn parts(
    alloc: Global,
    kind: ReprKind,
    domain: &Closed,
    value: &Val,
) -> Result<Option<Row<Val>>, NoMemory>
    ensures { IfOk result (λ o. option_map (map pure_val) o ≡ over_scalars (pure_closed domain.now) (option_map (λ l. inner_values l (pure_val value.now)) (layer kind (pure_closed domain.now)))) }
{
    match domain {
        Closed::Bool => Ok(atom_parts(alloc, kind)),
        Closed::Int(_) => Ok(atom_parts(alloc, kind)),
        Closed::Named(_, _) => Ok(atom_parts(alloc, kind)),
        Closed::Matrix(index, _) => Ok(matrix_parts(alloc, kind, index.as_slice(), value)?),
        _ => Ok(None),
    }
}

/// The canonical tables of a member; `inner` are those of its parts in order, over the axes `axes` of the child's tables. Nothing where
/// the domain is another one, or the kind isn't one for it. `NoMemory` where there is no room for them.
#[tactic(auto, using(crate::proofs::ScalarDown::of_bool, crate::proofs::ScalarDown::of_int, crate::proofs::ScalarDown::of_named, crate::proofs::ScalarDown::of_matrix))]
pub fn down(
    alloc: Global,
    kind: ReprKind,
    domain: &Closed,
    axes: &[Row<Row<i64>>],
    value: &Val,
    inner: Row<Row<Table>>,
) -> Result<Option<Row<Table>>, NoMemory>
    ensures { IfOk result (λ o. (rs : Reprs) → Covered (repr kind rs) (pure_closed domain.now) →
        TablesReady kind rs (pure_closed domain.now) (pure_val value.now) axes.now (map pure_tables inner) →
        option_map pure_tables o ≡ over_scalars (pure_closed domain.now) (layer_tables (repr kind rs) (pure_closed domain.now) (pure_val value.now) (map pure_tables inner))) }
{
    match domain {
        Closed::Bool => Ok(atom_tables(alloc, kind, value)?),
        Closed::Int(_) => Ok(atom_tables(alloc, kind, value)?),
        Closed::Named(_, _) => Ok(atom_tables(alloc, kind, value)?),
        Closed::Matrix(index, _) => {
            Ok(matrix_tables(alloc, kind, index.as_slice(), axes, inner)?)
        }
        _ => Ok(None),
    }
}

/// The value that the tables stand for, `vals` those of the parts; nothing where they stand for none, where the domain is another one,
/// or the kind isn't one for it. `NoMemory` where there is no room for it.
#[tactic(auto, using(crate::proofs::ScalarUp::of_bool, crate::proofs::ScalarUp::of_int, crate::proofs::ScalarUp::of_named, crate::proofs::ScalarUp::of_matrix))]
pub fn up(
    alloc: Global,
    kind: ReprKind,
    domain: &Closed,
    tables: &[Table],
    vals: Row<Val>,
) -> Result<Option<Val>, NoMemory>
    ensures { IfOk result (λ o. (rs : Reprs) → Covered (repr kind rs) (pure_closed domain.now) →
        over_axes [] (axes_of (repr kind rs) (pure_closed domain.now)) (pure_tables tables.now) ≡ true →
        option_map pure_val o ≡ over_scalars (pure_closed domain.now) (layer_value kind (pure_closed domain.now) (pure_tables tables.now) (map pure_val vals))) }
{
    match domain {
        Closed::Bool => Ok(atom_of(alloc, kind, domain, tables)?),
        Closed::Int(_) => Ok(atom_of(alloc, kind, domain, tables)?),
        Closed::Named(_, _) => Ok(atom_of(alloc, kind, domain, tables)?),
        Closed::Matrix(index, _) => {
            Ok(matrix_of(alloc, kind, index.as_slice(), vals.as_slice())?)
        }
        _ => Ok(None),
    }
}

/// The elements of a matrix over these index domains.
#[tactic(auto, using(crate::proofs::ScalarParts::deep))]
fn matrix_parts(
    alloc: Global,
    kind: ReprKind,
    index: &[Closed],
    value: &Val,
) -> Result<Option<Row<Val>>, NoMemory>
    ensures { IfOk result (λ o. option_map (map pure_val) o ≡ for_matrix kind (Some (elements_of (pure_closeds index.now) (pure_val value.now)))) }
{
    match kind {
        ReprKind::Matrix => Ok(Some(elements(alloc, index.len(), value)?)),
        _ => Ok(None),
    }
}

/// The tables of the elements under the axes of the index domains.
fn matrix_tables(
    alloc: Global,
    kind: ReprKind,
    index: &[Closed],
    axes: &[Row<Row<i64>>],
    inner: Row<Row<Table>>,
) -> Result<Option<Row<Table>>, NoMemory>
    ensures { IfOk result (λ o. option_map pure_tables o ≡ for_matrix kind (Some (tables_stacked (map codes_of (domain_list (pure_closeds index.now))) axes.now (all_slots_used (map pure_tables inner))))) }
{
    match kind {
        ReprKind::Matrix => {
            let front = axes_of_each(alloc, index)?;
            let slots = all_used(alloc, inner)?;
            Ok(Some(stacked(alloc, front.as_slice(), axes, slots.as_slice())?))
        }
        _ => Ok(None),
    }
}

/// The nested matrix of the elements.
#[tactic(auto, using(crate::proofs::ScalarUp::matrix_found))]
fn matrix_of(
    alloc: Global,
    kind: ReprKind,
    index: &[Closed],
    vals: &[Val],
) -> Result<Option<Val>, NoMemory>
    ensures { IfOk result (λ o. option_map pure_val o ≡ for_matrix kind (nested_in (map list_of_members (domain_list (pure_closeds index.now))) (map pure_val vals.now))) }
{
    match kind {
        ReprKind::Matrix => {
            let members = member_lists(alloc, index)?;
            Ok(nested(alloc, members.as_slice(), vals)?)
        }
        _ => Ok(None),
    }
}

/// The members of each of the domains.
#[tactic(auto, using(crate::proofs::ScalarUp::lists_more, crate::proofs::ScalarUp::lists_all))]
fn member_lists(alloc: Global, domains: &[Closed]) -> Result<Row<Row<Val>>, NoMemory>
    ensures { IfOk result (λ r. map (map pure_val) r ≡ map list_of_members (domain_list (pure_closeds domains.now))) }
{
    let mut lists = Row::with_capacity(alloc, domains.len())?;
    for domain in domains {
        lists.push(member_list(alloc, domain)?)?;
    }
    Ok(lists)
}
