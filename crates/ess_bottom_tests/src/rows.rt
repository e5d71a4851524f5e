// Rows of numbers.
use crate::shown::put;
use ess_rows::{NoMemory, Row};
use std::alloc::Global;

/// The numbers of a field, with a space between each two.
pub(crate) fn numbers(alloc: Global, field: &str) -> Result<Row<u64>, NoMemory> {
    let mut numbers = Row::new(alloc);
    for word in field.split_whitespace() {
        numbers.push(word.parse().unwrap_or(0))?;
    }
    Ok(numbers)
}

/// A call that wants memory; the row, and what is appended, stay as they were where there is none.
fn grow(call: &str, row: &mut Row<u64>, more: &mut Row<u64>) -> Result<(), NoMemory> {
    let first = more.first().copied().unwrap_or(0);
    let second = more.get(1).copied().unwrap_or(0);
    let at = first.min(row.len() as u64) as usize;
    match call {
        "push" => row.push(first),
        "insert" => row.insert(at, second),
        _ => row.append(more),
    }
}

/// A call that wants no memory, and what it answers.
fn change(out: &mut String, call: &str, row: &mut Row<u64>, at: usize) -> Result<(), NoMemory> {
    match call {
        "remove" if at < row.len() => put(out, &row.remove(at)),
        "pop" => put(out, &row.pop()),
        "get" => put(out, &row.get(at)),
        "first" => put(out, &row.first()),
        "last" => put(out, &row.last()),
        "truncate" => {
            row.truncate(at);
            Ok(())
        }
        _ => put(out, &set(row, at)),
    }
}

/// Puts 7 at an index, and answers whether there is an item.
fn set(row: &mut Row<u64>, at: usize) -> bool {
    match row.get_mut(at) {
        Some(item) => {
            *item = 7;
            true
        }
        None => false,
    }
}

/// A call that wants memory, and what it answers.
fn grown(
    alloc: Global,
    out: &mut String,
    row: &mut Row<u64>,
    call: &str,
    more: &mut Row<u64>,
) -> Result<(), NoMemory> {
    let before = Row::from_slice(alloc, row.as_slice())?;
    let count = more.len();
    let answer = grow(call, row, more);
    if answer.is_err() && *row == before && more.len() == count {
        return Err(NoMemory);
    }
    put(out, &answer)?;
    put(out, &more.len())
}

/// One call on the row, what it answers, and the row then.
fn called(alloc: Global, out: &mut String, row: &mut Row<u64>, call: &str) -> Result<(), NoMemory> {
    let (name, given) = call.split_once(' ').unwrap_or((call, ""));
    let mut given = numbers(alloc, given)?;
    if name == "push" || name == "insert" || name == "append" {
        grown(alloc, out, row, name, &mut given)?;
    } else {
        change(out, name, row, given.first().copied().unwrap_or(0) as usize)?;
    }
    put(out, &row.as_slice())
}

/// The first field is a row, and each other one a call on it: what each answers, and the row then.
pub(crate) fn changed(alloc: Global, out: &mut String, fields: &str) -> Result<(), NoMemory> {
    let (first, calls) = fields.split_once('#').unwrap_or((fields, ""));
    let mut row = numbers(alloc, first)?;
    for call in calls.split('#') {
        called(alloc, out, &mut row, call)?;
    }
    Ok(())
}

/// The ways to make a row.
pub(crate) fn made(alloc: Global, out: &mut String) -> Result<(), NoMemory> {
    let none: Row<u64> = Row::new(alloc);
    let room: Row<u64> = Row::with_capacity(alloc, 3)?;
    put(out, &none.is_empty())?;
    put(out, &room.len())?;
    let array = Row::from_array(alloc, [3, 1, 2])?;
    put(out, &array.as_slice())?;
    let slice = Row::from_slice(alloc, &[3, 1])?;
    put(out, &slice.as_slice())?;
    through_vec(alloc, out)
}

/// A row from a `Vec`, and that `Vec` again.
fn through_vec(alloc: Global, out: &mut String) -> Result<(), NoMemory> {
    let row = Row::from_vec(vec![in alloc; 4, 5]?);
    put(out, &row.is_empty())?;
    put(out, &row.into_vec())
}

/// Whether there is memory for so many numbers.
pub(crate) fn room(alloc: Global, out: &mut String, field: &str) -> Result<(), NoMemory> {
    let row: Result<Row<u64>, NoMemory> = Row::with_capacity(alloc, field.parse().unwrap_or(0));
    put(out, &row.is_ok())
}
