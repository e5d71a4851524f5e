ghost use Rattle.std.specs.Prelude.{◌≡◌, true, [], map, option_map, IfOk};
ghost use Rattle.ess_semantics.specs.Lists.{and_then};
ghost use Rattle.ess_semantics.specs.Trees.{Reprs, repr};
ghost use Rattle.ess_semantics.specs.Domains.{member_list as list_of_members};
ghost use Rattle.ess_semantics.specs.FunctionLayers.{function_with as the_function_with};
ghost use Rattle.ess_semantics.specs.Declarations.{axes_of};
ghost use Rattle.ess_semantics.specs.Tidy.{over_axes};
ghost use Rattle.ess_semantics.specs.OneLayer.{layer_value};
ghost use Rattle.ess_core.specs.ValueViews.{pure_val};
ghost use Rattle.ess_eval_domains.specs.ClosedViews.{pure_closed};
ghost use Rattle.ess_repr_laws.specs.Rooms.{Covered};
ghost use Rattle.ess_repr_rows_laws.specs.Cutting.{first_items as items_of_first};
ghost use Rattle.ess_repr_rows_laws.specs.RowLayers.{picked as picked_of};
ghost use Rattle.ess_repr_tables.specs.SlotViews.{pure_tables};
ghost use Rattle.ess_repr_functions.specs.FunctionForms.{form_of as form_for, over_functions};
ghost use Rattle.ess_repr_functions.specs.FunctionRows.{value_by};

use crate::built::{function_of_relation, function_with};
use crate::forms::{Form, form_of};
use ess_core::{NoMemory, ReprKind, Row, Table, Val};
use ess_eval_domains::Closed;
use ess_repr_sets::{member_list, picked};
use std::alloc::Global;

/// The function of this domain that the tables stand for, kept by this kind, where `vals` are the values of its parts in use in
/// their order. Nothing where the flags are no truth values, where two pairs of the relation have one argument and differ, where
/// the domain is none of functions, or the kind none for it. `NoMemory` where there is no room for it, and where a relation holds a
/// tuple that is no pair.
pub fn up(
    alloc: Global,
    kind: ReprKind,
    domain: &Closed,
    tables: &[Table],
    vals: Row<Val>,
) -> Result<Option<Val>, NoMemory>
    ensures { IfOk result (λ o. (rs : Reprs) → Covered (repr kind rs) (pure_closed domain.now) →
        over_axes [] (axes_of (repr kind rs) (pure_closed domain.now)) (pure_tables tables.now) ≡ true →
        option_map pure_val o ≡
        over_functions (pure_closed domain.now) (layer_value kind (pure_closed domain.now) (pure_tables tables.now) (map pure_val vals))) }
{
    match domain {
        Closed::Function(_, from, _) => value_from(alloc, kind, from.get(), tables, vals),
        _ => Ok(None),
    }
}

/// The same of a function from a domain.
fn value_from(
    alloc: Global,
    kind: ReprKind,
    from: &Closed,
    tables: &[Table],
    vals: Row<Val>,
) -> Result<Option<Val>, NoMemory>
    ensures { IfOk result (λ o. option_map pure_val o ≡
        and_then (form_for kind (pure_closed from.now))
        (λ f. value_by f (pure_closed from.now) (pure_tables tables.now) (map pure_val vals))) }
{
    match form_of(alloc, kind, from)? {
        Some(form) => value_in(alloc, form, from, tables, vals.as_slice()),
        None => Ok(None),
    }
}

/// The same of a function that is kept in this form.
fn value_in(
    alloc: Global,
    form: Form,
    from: &Closed,
    tables: &[Table],
    vals: &[Val],
) -> Result<Option<Val>, NoMemory>
    ensures { IfOk result (λ o. option_map pure_val o ≡
        value_by form (pure_closed from.now) (pure_tables tables.now) (map pure_val vals.now)) }
{
    match form {
        Form::ForEach(_) => {
            let arguments = member_list(alloc, from)?;
            Ok(Some(function_with(alloc, arguments.as_slice(), vals)?))
        }
        Form::Flagged(_) => flagged_value(alloc, from, tables, vals),
        Form::AsRelation => function_of_relation(alloc, vals),
    }
}

/// The function with these values at the arguments whose flag is true; nothing where a flag is no truth value. `NoMemory` where
/// there is no room for it.
fn flagged_value(
    alloc: Global,
    from: &Closed,
    tables: &[Table],
    vals: &[Val],
) -> Result<Option<Val>, NoMemory>
    ensures { IfOk result (λ o. option_map pure_val o ≡
        option_map (λ xs. the_function_with xs (map pure_val vals.now))
        (picked_of (items_of_first (pure_tables tables.now)) (list_of_members (pure_closed from.now)))) }
{
    let members = member_list(alloc, from)?;
    match picked(alloc, first_items(tables), members.as_slice())? {
        Some(arguments) => Ok(Some(function_with(alloc, arguments.as_slice(), vals)?)),
        None => Ok(None),
    }
}

/// The items of the first table; none where there is no table.
fn first_items(tables: &[Table]) -> &[i64]
    ensures { result.now ≡ items_of_first (pure_tables tables.now) }
{
    if tables.len() == 0 {
        return &[];
    }
    tables[0].items.as_slice()
}
