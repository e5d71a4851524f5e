// A box that is changed.
use crate::shown::put;
use ess_rows::{Boxed, NoMemory};
use std::alloc::Global;

/// The order of a box and of one that holds a number, and whether they are equal, alone and as options.
fn put_order(
    alloc: Global,
    out: &mut String,
    boxed: &Boxed<u64>,
    number: u64,
) -> Result<(), NoMemory> {
    let other = Boxed::new(alloc, number)?;
    put(out, &boxed.cmp(&other))?;
    put(out, &(*boxed < other))?;
    put(out, &(*boxed == other))?;
    let copy = Boxed::new(alloc, *boxed.get())?;
    put(out, &(Some(copy) == Some(other)))
}

/// What a box holds before and after each change, and its order.
pub(crate) fn changed(alloc: Global, out: &mut String) -> Result<(), NoMemory> {
    let mut boxed = Boxed::new(alloc, 1)?;
    put(out, boxed.get())?;
    *boxed.get_mut() = 2;
    put(out, &boxed.replace(3))?;
    put_order(alloc, out, &boxed, 2)?;
    put_order(alloc, out, &boxed, 3)?;
    put_order(alloc, out, &boxed, 4)?;
    put(out, &boxed.into_inner())?;
    let some = Some(Boxed::new(alloc, 3)?);
    put(out, &(some == None))
}
