ghost use Rattle.std.specs.Prelude.{◌≡◌, map, is_some, option_map, IfOk};
ghost use Rattle.ess_semantics.specs.Trees.{Reprs, repr};
ghost use Rattle.ess_semantics.specs.Tables.{truth_number};
ghost use Rattle.ess_semantics.specs.OneLayer.{layer_tables};
ghost use Rattle.ess_core.specs.ValueViews.{pure_val};
ghost use Rattle.ess_core.specs.TableViews.{pure_table};
ghost use Rattle.ess_eval_domains.specs.ClosedViews.{pure_closed};
ghost use Rattle.ess_repr_laws.specs.Rooms.{Covered};
ghost use Rattle.ess_repr_rows_laws.specs.RowLayers.{spread as spread_over, flagged_tables};
ghost use Rattle.ess_repr_tables.specs.SlotViews.{pure_tables, pure_slots};
ghost use Rattle.ess_repr_functions.specs.FunctionForms.{form_of as form_for, over_functions};
ghost use Rattle.ess_repr_functions.specs.FunctionRows.{has_values as members_with_values, tables_by};
ghost use Rattle.ess_repr_functions.specs.FunctionPremises.{children_of, ChildOver};

use crate::forms::{Form, form_of};
use crate::lookup::has_values;
use ess_core::{NoMemory, ReprKind, Row, Table, Val};
use ess_eval_domains::Closed;
use ess_repr_slots::spread;
use ess_repr_tables::stacked;
use std::alloc::Global;

/// The canonical tables of a function of this domain, kept by this kind: `inner` are those of its parts in their order, each over
/// `axes`, the axes of the tables of the kind's child. Nothing where the domain is none of functions, or the kind none for it.
/// `NoMemory` where there is no room for them.
pub fn down(
    alloc: Global,
    kind: ReprKind,
    domain: &Closed,
    axes: &[Row<Row<i64>>],
    value: &Val,
    inner: Row<Row<Table>>,
) -> Result<Option<Row<Table>>, NoMemory>
    ensures { IfOk result (λ o. (rs : Reprs) → Covered (repr kind rs) (pure_closed domain.now) →
        ChildOver rs (children_of kind (pure_closed domain.now)) axes.now (map pure_tables inner) →
        option_map (map pure_table) o ≡
        over_functions (pure_closed domain.now)
        (layer_tables (repr kind rs) (pure_closed domain.now) (pure_val value.now) (map pure_tables inner))) }
{
    match domain {
        Closed::Function(_, from, _) => tables_from(alloc, kind, from.get(), axes, value, inner),
        _ => Ok(None),
    }
}

/// The same of a function from a domain.
fn tables_from(
    alloc: Global,
    kind: ReprKind,
    from: &Closed,
    axes: &[Row<Row<i64>>],
    value: &Val,
    inner: Row<Row<Table>>,
) -> Result<Option<Row<Table>>, NoMemory>
    ensures { IfOk result (λ o. option_map (map pure_table) o ≡
        option_map (λ f. tables_by f (pure_closed from.now) (pure_val value.now) axes.now (map pure_tables inner))
        (form_for kind (pure_closed from.now))) }
{
    match form_of(alloc, kind, from)? {
        Some(form) => Ok(Some(tables_in(alloc, form, from, axes, value, inner)?)),
        None => Ok(None),
    }
}

/// The same of a function that is kept in this form.
fn tables_in(
    alloc: Global,
    form: Form,
    from: &Closed,
    axes: &[Row<Row<i64>>],
    value: &Val,
    inner: Row<Row<Table>>,
) -> Result<Row<Table>, NoMemory>
    ensures { IfOk result (λ r. map pure_table r ≡
        tables_by form (pure_closed from.now) (pure_val value.now) axes.now (map pure_tables inner)) }
{
    match form {
        Form::ForEach(arguments) => {
            let slots = slots_by_argument(alloc, from, value, inner)?;
            stacked(alloc, arguments.as_slice(), axes, slots.as_slice())
        }
        Form::Flagged(arguments) => {
            let slots = slots_by_argument(alloc, from, value, inner)?;
            flagged(alloc, arguments, axes, slots.as_slice())
        }
        Form::AsRelation => {
            let slots = spread(alloc, &[true], inner)?;
            stacked(alloc, &[], axes, slots.as_slice())
        }
    }
}

/// The tables of the parts at the arguments where the function has a value. `NoMemory` where there is no room for them.
fn slots_by_argument(
    alloc: Global,
    from: &Closed,
    value: &Val,
    inner: Row<Row<Table>>,
) -> Result<Row<Option<Row<Table>>>, NoMemory>
    ensures { IfOk result (λ r. pure_slots r ≡
        spread_over (members_with_values (pure_closed from.now) (pure_val value.now)) (map pure_tables inner)) }
{
    let marks = has_values(alloc, from, value)?;
    spread(alloc, marks.as_slice(), inner)
}

/// The tables of the slots under the axes of the arguments, behind a table with a flag for each slot. `NoMemory` where there is no
/// room for them.
fn flagged(
    alloc: Global,
    arguments: Row<Row<i64>>,
    axes: &[Row<Row<i64>>],
    slots: &[Option<Row<Table>>],
) -> Result<Row<Table>, NoMemory>
    ensures { IfOk result (λ r. map pure_table r ≡ flagged_tables arguments axes.now (pure_slots slots.now)) }
{
    let mut under = stacked(alloc, arguments.as_slice(), axes, slots)?;
    let items = flags(alloc, slots)?;
    let mut tables = Row::new(alloc);
    tables.push(Table {
        axes: arguments,
        items,
    })?;
    tables.append(&mut under)?;
    Ok(tables)
}

/// 1 for each slot that is in use, 0 for each other one. `NoMemory` where there is no room for them.
fn flags(alloc: Global, slots: &[Option<Row<Table>>]) -> Result<Row<i64>, NoMemory>
    ensures { IfOk result (λ r. r ≡ map (λ s. truth_number (is_some s)) (pure_slots slots.now)) }
{
    let mut flags = Row::with_capacity(alloc, slots.len())?;
    for slot in slots {
        flags.push(flag(slot))?;
    }
    Ok(flags)
}

/// 1 for a slot that is in use, 0 for any other one.
fn flag(slot: &Option<Row<Table>>) -> i64
    ensures { result ≡ truth_number (is_some (option_map pure_tables slot.now)) }
{
    match slot {
        Some(_) => 1,
        None => 0,
    }
}
