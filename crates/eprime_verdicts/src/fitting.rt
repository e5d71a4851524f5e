ghost use Rattle.std.specs.Prelude.{◌≡◌, ◌^◌, ◌*◌, ◌≤◌, IfOk, Some, map, length, min};
ghost use Rattle.std.specs.List.{list_all};
ghost use Rattle.ess_semantics.specs.DeclaredTables.{axis_members};
ghost use Rattle.ess_semantics.specs.Lists.{is_some_and};
ghost use Rattle.ess_semantics.specs.Order.{same_ints};
ghost use Rattle.ess_semantics.specs.Tables.{is_cell, is_filled, volume};
ghost use Rattle.ess_core.specs.TableViews.{pure_table, pure_named_table};
ghost use Rattle.eprime_eval.specs.ClosedDomains.{pure_closed};
ghost use Rattle.eprime_verdicts.specs.ClosedDecls.{are_over, fits, outside_of};

use crate::axes::axes_fit;
use crate::domains::ClosedDecl;
use eprime_eval::Closed;
use ess_core::{NamedTable, Table};
use ess_rows::{NoMemory, Row, Text};
use std::alloc::Global;

/// The first declared name whose table isn't over its axes or has an item outside its domain, where the tables stand in order of
/// declaration. `NoMemory` where there is no room to tell.
#[tactic(auto, using(crate::proofs::TablesFit::outside))]
pub(crate) fn first_outside(
    alloc: Global,
    decls: &[ClosedDecl],
    tables: &[NamedTable],
) -> Result<Option<Text>, NoMemory>
    ensures { IfOk result (λ o. o ≡ outside_of decls.now (map pure_named_table tables.now)) }
{
    for (place, decl) in decls.iter().enumerate() {
        if place >= tables.len() {
            return Ok(Some(decl.name.copy(alloc)?));
        }
        if !table_fits(alloc, decl, &tables[place].table)? {
            return Ok(Some(decl.name.copy(alloc)?));
        }
    }
    Ok(None)
}

/// Whether a table is over the declared axes and has its items in the declared domain. `NoMemory` where there is no room to tell.
fn table_fits(alloc: Global, decl: &ClosedDecl, table: &Table) -> Result<bool, NoMemory>
    ensures { IfOk result (λ b. b ≡ fits decl.now (pure_table table.now)) }
{
    if !has_all_items(table) {
        return Ok(false);
    }
    if !axes_fit(alloc, decl.axes.as_slice(), table.axes.as_slice())? {
        return Ok(false);
    }
    Ok(are_inside(&decl.cell, table.items.as_slice()))
}

/// Whether each item is in a domain.
fn are_inside(domain: &Closed, items: &[i64]) -> bool
    ensures { result ≡ list_all (is_cell (pure_closed domain.now)) items.now }
{
    items.iter().all(|item| domain.holds(*item))
}

/// Whether a table has an item for each list of members of its axes.
#[tactic(auto, using(crate::proofs::Volumes::filled))]
fn has_all_items(table: &Table) -> bool
    ensures { result ≡ is_filled (pure_table table.now) }
{
    let count = table.items.len();
    room(table.axes.as_slice()) == count as u128
}

/// How many items a table over axes has, kept at 2^64.
#[tactic(auto, using(crate::proofs::Volumes::rooms))]
fn room(axes: &[Row<i64>]) -> u128
    ensures { result ≡ min (volume axes.now) (2 ^ 64) }
{
    let mut room: u128 = 1;
    for axis in axes {
        room = kept(axis.len(), room);
    }
    room
}

/// A product, kept at 2^64.
fn kept(length: usize, room: u128) -> u128
    requires small { room ≤ 2 ^ 64 }
    ensures { result ≡ min (length * room) (2 ^ 64) }
{
    (length as u128 * room).min(18446744073709551616)
}
