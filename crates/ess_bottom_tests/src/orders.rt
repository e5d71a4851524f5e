// The orders of rows and texts, and places.
use crate::rows::numbers;
use crate::shown::put;
use ess_rows::{NoMemory, Place, Text};
use std::alloc::Global;
use std::cmp::Ordering;

/// Puts an order, by both calls, and whether the two are equal.
fn put_order(
    out: &mut String,
    order: Ordering,
    partial: Option<Ordering>,
    equal: bool,
) -> Result<(), NoMemory> {
    put(out, &order)?;
    put(out, &partial)?;
    put(out, &equal)
}

/// The order of two rows of numbers, and whether they are equal.
pub(crate) fn rows(alloc: Global, out: &mut String, fields: &str) -> Result<(), NoMemory> {
    let (a, b) = fields.split_once('#').unwrap_or((fields, ""));
    let (a, b) = (numbers(alloc, a)?, numbers(alloc, b)?);
    put_order(out, a.cmp(&b), a.partial_cmp(&b), a == b)
}

/// The order of two texts, and whether they are equal.
pub(crate) fn texts(alloc: Global, out: &mut String, fields: &str) -> Result<(), NoMemory> {
    let (a, b) = fields.split_once('#').unwrap_or((fields, ""));
    let (a, b) = (Text::from_str(alloc, a)?, Text::from_str(alloc, b)?);
    put_order(out, a.cmp(&b), a.partial_cmp(&b), a == b)
}

/// The place of a line and a column.
pub(crate) fn place(out: &mut String, fields: &str) -> Result<(), NoMemory> {
    let (line, col) = fields.split_once('#').unwrap_or((fields, ""));
    let place = Place::new(line.parse().unwrap_or(0), col.parse().unwrap_or(0));
    put(out, &place)?;
    put(out, &(place == Place::new(3, 17)))
}
