// What came out, as text.
use ess_rows::NoMemory;
use std::fmt::{Debug, Write};

/// Puts a value as `Debug` shows it, and a space behind it.
pub(crate) fn put<T: Debug>(out: &mut String, value: &T) -> Result<(), NoMemory> {
    write!(out, "{value:?} ")?;
    Ok(())
}
