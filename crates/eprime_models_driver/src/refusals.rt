use crate::numbers::put_number;
use eprime_eval::EvalNo;
use eprime_read::ReadNo;
use ess_rows::{NoMemory, Place, Text};

/// Puts why a text isn't read: the name of the cause, and its place.
pub fn put_read_no(out: &mut String, why: ReadNo) -> Result<(), NoMemory> {
    match why {
        ReadNo::BadByte(place) => put_place(out, "BadByte ", place),
        ReadNo::WideNumber(place) => put_place(out, "WideNumber ", place),
        ReadNo::Unsupported(place) => put_place(out, "Unsupported ", place),
        ReadNo::TooDeep(place) => put_place(out, "TooDeep ", place),
        ReadNo::Syntax(place) => put_place(out, "Syntax ", place),
        ReadNo::NoMemory => Err(NoMemory),
    }
}

/// Puts the name of a cause, and a place.
fn put_place(out: &mut String, cause: &str, place: Place) -> Result<(), NoMemory> {
    out.push_str(cause)?;
    put_number(out, place.line as i64)?;
    out.push_str(":")?;
    put_number(out, place.col as i64)
}

/// Puts the name of a cause, and the name that it speaks of.
pub fn put_named(out: &mut String, cause: &str, name: Text) -> Result<(), NoMemory> {
    out.push_str(cause)?;
    Ok(out.push_str(name.as_str())?)
}

/// Puts why there is no value.
pub fn put_eval_no(out: &mut String, why: EvalNo) -> Result<(), NoMemory> {
    match why {
        EvalNo::Undefined => Ok(out.push_str("undefined")?),
        EvalNo::Big => Ok(out.push_str("big")?),
        EvalNo::TooManyCells(_) => Ok(out.push_str("too many cells")?),
        EvalNo::NoMemory => Err(NoMemory),
    }
}
