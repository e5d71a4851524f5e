ghost use Rattle.std.specs.Prelude.{◌≡◌, ◌∷◌, Bool, List, map, option_map, reverse, IfOk};
ghost use Rattle.ess_repr_rows_laws.specs.RowLayers.{spread as spread_over};
ghost use Rattle.ess_repr_tables.specs.SlotViews.{pure_tables, pure_slots};

use ess_core::{NoMemory, Row, Table};
use std::alloc::Global;

/// The slots in their places: the next one at each place whose mark is true, and none elsewhere. `NoMemory` where there is no room
/// for them.
#[tactic(auto, using(crate::proofs::PlaceLoops::spread_next))]
pub fn spread(
    alloc: Global,
    marks: &[bool],
    slots: Row<Row<Table>>,
) -> Result<Row<Option<Row<Table>>>, NoMemory>
    ensures { IfOk result (λ r. pure_slots r ≡ spread_over marks.now (map pure_tables slots)) }
{
    let mut rest = slots.into_vec();
    rest.reverse();
    let mut rest = Row::from_vec(rest);
    let mut places = Row::with_capacity(alloc, marks.len())?;
    for mark in marks {
        places.push(next_place(*mark, &mut rest))?;
    }
    Ok(places)
}

/// The next slot where the mark is true, which is then taken away; `rest` holds the slots in reverse. None elsewhere.
#[tactic(auto, using(crate::proofs::PlaceLoops::place_there, crate::proofs::PlaceLoops::place_none))]
fn next_place(mark: bool, rest: &mut Row<Row<Table>>) -> Option<Row<Table>>
    ensures { (ms : List Bool) → spread_over (mark ∷ ms) (map pure_tables (reverse rest.old)) ≡
        option_map pure_tables result ∷ spread_over ms (map pure_tables (reverse rest.new)) }
{
    if mark { rest.pop() } else { None }
}
