ghost use Rattle.std.specs.Prelude.{◌≡◌, map, IfOk};
ghost use Rattle.ess_semantics.specs.Cells.{order_rows};
ghost use Rattle.ess_repr_rows_laws.specs.SlotOrder.{rows_in, by_rows};
ghost use Rattle.ess_repr_tables.specs.SlotViews.{pure_tables};

use ess_core::{NoMemory, Row, Table};
use std::cmp::Ordering;

/// The tables of several slots in the order of their rows; those with the same rows keep their order. `NoMemory` where there is
/// no room to sort them.
pub fn in_order(slots: Row<Row<Table>>) -> Result<Row<Row<Table>>, NoMemory>
    ensures { IfOk result (λ r. map pure_tables r ≡ by_rows rows_in (map pure_tables slots)) }
{
    let mut slots = slots.into_vec();
    slots.sort_by(|a, b| order_tables(a.as_slice(), b.as_slice()))?;
    Ok(Row::from_vec(slots))
}

/// The order of two slots: lexicographic in the order of the tables, and row by row.
#[tactic(auto, using(crate::proofs::SortedTables::order_short))]
pub fn order_tables(a: &[Table], b: &[Table]) -> Ordering
    ensures { result ≡ order_rows (rows_in (pure_tables a.now)) (rows_in (pure_tables b.now)) }
{
    for (k, table) in a.iter().enumerate() {
        if k >= b.len() {
            return Ordering::Greater;
        }
        match table.items.cmp(&b[k].items) {
            Ordering::Less => return Ordering::Less,
            Ordering::Equal => {}
            Ordering::Greater => return Ordering::Greater,
        }
    }
    if a.len() < b.len() {
        Ordering::Less
    } else {
        Ordering::Equal
    }
}
