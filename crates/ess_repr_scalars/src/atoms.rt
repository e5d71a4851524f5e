//! Atoms: one cell.
ghost use Rattle.std.specs.Prelude.{◌≡◌, [], ◌∷◌, Some, map, option_map, IfOk};
ghost use Rattle.ess_semantics.specs.Lists.{and_then, only_of};
ghost use Rattle.ess_semantics.specs.Tables.{code as code_of, atom_value as value_of_atom, one_cell as cell_alone};
ghost use Rattle.ess_core.specs.ValueViews.{pure_val};
ghost use Rattle.ess_eval_domains.specs.ClosedViews.{pure_closed};
ghost use Rattle.ess_repr_rows_laws.specs.Cutting.{first_items as items_of_first};
ghost use Rattle.ess_repr_tables.specs.SlotViews.{pure_tables};
ghost use Rattle.ess_repr_scalars.specs.ScalarForms.{for_atom, atom_in};

use ess_core::{NoMemory, ReprKind, Row, Table, Val};
use ess_eval_domains::Closed;
use ess_repr_sets::{atom_value, code};
use ess_repr_slots::one_cell;
use std::alloc::Global;

/// An atom has no parts.
pub(crate) fn atom_parts(alloc: Global, kind: ReprKind) -> Option<Row<Val>>
    ensures { option_map (map pure_val) result ≡ for_atom kind (Some []) }
{
    match kind {
        ReprKind::Atom => Some(Row::new(alloc)),
        _ => None,
    }
}

/// The number of an atom's value in one cell.
pub(crate) fn atom_tables(
    alloc: Global,
    kind: ReprKind,
    value: &Val,
) -> Result<Option<Row<Table>>, NoMemory>
    ensures { IfOk result (λ o. option_map pure_tables o ≡ for_atom kind (Some (cell_alone (code_of (pure_val value.now)) ∷ []))) }
{
    match kind {
        ReprKind::Atom => {
            let cell = one_cell(alloc, code(value)?)?;
            let mut tables = Row::with_capacity(alloc, 1)?;
            tables.push(cell)?;
            Ok(Some(tables))
        }
        _ => Ok(None),
    }
}

/// The value whose number stands in the only cell of the first table; nothing where it is none of the domain.
pub(crate) fn atom_of(
    alloc: Global,
    kind: ReprKind,
    domain: &Closed,
    tables: &[Table],
) -> Result<Option<Val>, NoMemory>
    ensures { IfOk result (λ o. option_map pure_val o ≡ for_atom kind (atom_in (pure_closed domain.now) (pure_tables tables.now))) }
{
    match kind {
        ReprKind::Atom => value_in(alloc, domain, first_items(tables)),
        _ => Ok(None),
    }
}

/// The value of the only number.
#[tactic(auto, using(crate::proofs::AtomCells::only_there, crate::proofs::AtomCells::only_not))]
fn value_in(alloc: Global, domain: &Closed, items: &[i64]) -> Result<Option<Val>, NoMemory>
    ensures { IfOk result (λ o. option_map pure_val o ≡ and_then (only_of items.now) (value_of_atom (pure_closed domain.now))) }
{
    if items.len() != 1 {
        return Ok(None);
    }
    atom_value(alloc, domain, items[0])
}

/// The items of the first table; none where there is no table.
fn first_items(tables: &[Table]) -> &[i64]
    ensures { result.now ≡ items_of_first (pure_tables tables.now) }
{
    if tables.len() == 0 {
        return &[];
    }
    tables[0].items.as_slice()
}
