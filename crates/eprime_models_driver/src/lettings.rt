use crate::numbers::put_number;
use crate::refusals::put_read_no;
use eprime_cells_machine::{CellLetting, CellList, CellRange, CellValue, Number};
use eprime_read_cells::read_lettings;
use ess_rows::NoMemory;
use std::alloc::Global;

/// Puts the lettings that a text of cells has, with `; ` between each two, or why none are read.
pub fn put_lettings(alloc: Global, out: &mut String, text: &str) -> Result<(), NoMemory> {
    match read_lettings(alloc, text.as_bytes()) {
        Ok(lettings) => put_all(out, lettings.as_slice()),
        Err(why) => put_read_no(out, why),
    }
}

/// Puts lettings with `; ` between each two.
fn put_all(out: &mut String, lettings: &[CellLetting]) -> Result<(), NoMemory> {
    for (index, letting) in lettings.iter().enumerate() {
        out.push_str(if index > 0 { "; " } else { "" })?;
        out.push_str(letting.name.as_str())?;
        out.push_str(" = ")?;
        put_value(out, &letting.value)?;
    }
    Ok(())
}

/// Puts a value as it is written.
#[cycle(put_value)]
fn put_value(out: &mut String, value: &CellValue) -> Result<(), NoMemory> {
    match value {
        CellValue::Number(number) => put_signed(out, *number),
        CellValue::Truth(true) => Ok(out.push_str("true")?),
        CellValue::Truth(false) => Ok(out.push_str("false")?),
        CellValue::List(list) => put_list(out, list.get()),
    }
}

/// Puts a list as it is written.
#[cycle(put_value)]
fn put_list(out: &mut String, list: &CellList) -> Result<(), NoMemory> {
    out.push_str("[")?;
    for (index, item) in list.items.as_slice().iter().enumerate() {
        out.push_str(if index > 0 { ", " } else { "" })?;
        put_value(out, item)?;
    }
    if let Some(ranges) = &list.ranges {
        put_ranges(out, ranges.as_slice())?;
    }
    Ok(out.push_str("]")?)
}

/// Puts an index domain as it is written.
fn put_ranges(out: &mut String, ranges: &[CellRange]) -> Result<(), NoMemory> {
    out.push_str("; int(")?;
    for (index, range) in ranges.iter().enumerate() {
        out.push_str(if index > 0 { ", " } else { "" })?;
        put_range(out, *range)?;
    }
    Ok(out.push_str(")")?)
}

/// Puts a range as it is written.
fn put_range(out: &mut String, range: CellRange) -> Result<(), NoMemory> {
    match range {
        CellRange::One(number) => put_signed(out, number),
        CellRange::Span(low, high) => {
            put_signed(out, low)?;
            out.push_str("..")?;
            put_signed(out, high)
        }
    }
}

/// Puts a number as it is written.
fn put_signed(out: &mut String, number: Number) -> Result<(), NoMemory> {
    match number {
        Number::Plain(number) => put_number(out, number),
        Number::Minus(0) => Ok(out.push_str("-0")?),
        Number::Minus(number) => put_number(out, number),
    }
}
