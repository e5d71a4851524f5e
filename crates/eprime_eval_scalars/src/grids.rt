ghost use Rattle.std.specs.Prelude.{◌≡◌, ◌∷◌, [], ◌<◌, ◌^◌, IfOk, true, map, length, pos, ◌+ℤ◌, slice_get};
ghost use Rattle.ess_semantics.specs.Lists.{and_then};
ghost use Rattle.ess_semantics.specs.Tables.{cell_at, code};
ghost use Rattle.eprime_eval_scalars.specs.ScalarViews.{pure_scalar};
ghost use Rattle.eprime_eval_scalars.specs.Grids.{numbers_from, axis_numbers, pure_grid, place_of, offset_from, in_memory};

use crate::{NoMemory, Row, Scalar};
use std::alloc::Global;

/// The members of an axis.
#[derive(Drop)]
pub enum Axis {
    /// So many numbers, from this one on.
    Run(i64, usize),
    /// These numbers.
    Numbers(Row<i64>),
}

/// A table in which an item is found by its place.
#[derive(Drop)]
pub struct Grid {
    pub axes: Row<Axis>,
    pub items: Row<i64>,
}

/// The grid of a table with these axes and items. `NoMemory` where there is no room for it.
pub fn grid_of(alloc: Global, axes: &[Row<i64>], items: &[i64]) -> Result<Grid, NoMemory>
    ensures { IfOk result (λ g. pure_grid g ≡ record { axes = axes.now; items = items.now }) }
{
    let items = Row::from_slice(alloc, items)?;
    let axes = axes_of(alloc, axes)?;
    Ok(Grid { axes, items })
}

/// The axes of a grid.
fn axes_of(alloc: Global, axes: &[Row<i64>]) -> Result<Row<Axis>, NoMemory>
    ensures { IfOk result (λ r. map axis_numbers r ≡ axes.now) }
{
    let mut found = Row::with_capacity(alloc, axes.len())?;
    for axis in axes {
        found.push(axis_of(alloc, axis.as_slice())?)?;
    }
    Ok(found)
}

/// An axis: a run of numbers where they are one.
fn axis_of(alloc: Global, numbers: &[i64]) -> Result<Axis, NoMemory>
    ensures { IfOk result (λ a. axis_numbers a ≡ numbers.now) }
{
    if numbers.len() > 0 {
        if is_run_from(numbers[0], numbers) {
            return Ok(Axis::Run(numbers[0], numbers.len()));
        }
    }
    Ok(Axis::Numbers(Row::from_slice(alloc, numbers)?))
}

/// Whether these are the numbers from the first on.
#[tactic(auto, using(crate::proofs::NumberPlaces::run_more, crate::proofs::NumberPlaces::run_all))]
fn is_run_from(first: i64, numbers: &[i64]) -> bool
    ensures { result ≡ true → numbers_from first (length numbers.now) ≡ numbers.now }
{
    for (k, number) in numbers.iter().enumerate() {
        if !is_next(first, k, *number) {
            return false;
        }
    }
    true
}

/// Whether a number is the one that many behind the first.
fn is_next(first: i64, count: usize, number: i64) -> bool
    ensures { result ≡ true → number ≡ first +ℤ pos count }
{
    number as i128 - first as i128 == count as i128
}

/// The item at an index list, where each index is one of its axis and they are as many.
#[tactic(auto, using(crate::proofs::GridPlaces::cells))]
pub fn item_at(grid: &Grid, index: &[Scalar]) -> Option<i64>
    ensures { result ≡ cell_at (pure_grid grid.now) (map code (map pure_scalar index.now)) }
{
    if grid.axes.len() == 0 {
        return only_item(grid.items.as_slice(), index);
    }
    let count = grid.items.len();
    let found = offset(grid.axes.as_slice(), index);
    item_there(grid.items.as_slice(), found, count)
}

/// The item at a place, where there is one.
fn item_there(items: &[i64], place: Option<usize>, count: usize) -> Option<i64>
    requires { count ≡ length items.now }
    ensures item { result ≡ and_then place (slice_get items.now) }
    ensures small { length items.now < 2 ^ 64 }
{
    match place {
        Some(at) => { if at < count { Some(items[at]) } else { None } }
        None => None,
    }
}

/// The item of a table without axes.
#[tactic(auto, using(crate::proofs::GridPlaces::only_cell))]
fn only_item(items: &[i64], index: &[Scalar]) -> Option<i64>
    ensures { result ≡ cell_at (record { axes = []; items = items.now }) (map code (map pure_scalar index.now)) }
{
    if index.len() == 0 {
        if items.len() == 1 {
            return Some(items[0]);
        }
    }
    None
}

/// The place of an index list among all those of the axes, row by row, where each index is one of its axis, they are as
/// many, and a list can have so many items.
#[tactic(auto, using(crate::proofs::GridPlaces::offsets))]
fn offset(axes: &[Axis], index: &[Scalar]) -> Option<usize>
    ensures { result ≡ in_memory (offset_from 0 (map axis_numbers axes.now) (map code (map pure_scalar index.now))) }
{
    if axes.len() != index.len() {
        return None;
    }
    let mut at: usize = 0;
    for (k, axis) in axes.iter().enumerate() {
        match further(at, axis, index[k]) {
            Some(next) => at = next,
            None => return None,
        }
    }
    Some(at)
}

/// The place by one more axis.
fn further(at: usize, axis: &Axis, index: Scalar) -> Option<usize>
    ensures { result ≡ in_memory (offset_from at (axis_numbers axis.now ∷ []) (code (pure_scalar index) ∷ [])) }
{
    match place(axis, number_of(index)) {
        Some(place) => match at.checked_mul(length(axis)) {
            Some(before) => before.checked_add(place),
            None => None,
        },
        None => None,
    }
}

/// How many members an axis has.
#[tactic(auto, using(crate::proofs::NumberPlaces::run_length))]
fn length(axis: &Axis) -> usize
    ensures { result ≡ length (axis_numbers axis.now) }
{
    match axis {
        Axis::Run(_, count) => *count,
        Axis::Numbers(numbers) => numbers.len(),
    }
}

/// The number that stands for a scalar.
fn number_of(scalar: Scalar) -> i64
    ensures { result ≡ code (pure_scalar scalar) }
{
    match scalar {
        Scalar::Num(number) => number,
        Scalar::Truth(true) => 1,
        Scalar::Truth(false) => 0,
    }
}

/// The place of a number on an axis, from 0.
#[tactic(auto, using(crate::proofs::NumberPlaces::run_places))]
fn place(axis: &Axis, number: i64) -> Option<usize>
    ensures { result ≡ place_of (axis_numbers axis.now) number }
{
    match axis {
        Axis::Run(first, count) => {
            let place = number as i128 - *first as i128;
            if place < 0 {
                return None;
            }
            if place >= *count as i128 {
                return None;
            }
            Some(place as usize)
        }
        Axis::Numbers(numbers) => place_in(numbers.as_slice(), number),
    }
}

/// The place of a number in a list: the first where it stands.
#[tactic(auto, using(crate::proofs::NumberPlaces::places))]
fn place_in(numbers: &[i64], number: i64) -> Option<usize>
    ensures { result ≡ place_of numbers.now number }
{
    for (k, other) in numbers.iter().enumerate() {
        if *other == number {
            return Some(k);
        }
    }
    None
}
