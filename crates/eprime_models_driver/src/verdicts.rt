use crate::numbers::put_number;
use crate::refusals::{put_eval_no, put_named};
use crate::tables::tables_of;
use eprime_tree::PModel;
use eprime_verdicts::{PVerdict, satisfies};
use ess_core::Cells;
use ess_rows::NoMemory;
use std::alloc::Global;

/// Puts the verdict on the tables of finds that a text has, under tables of givens.
pub fn put_verdict(
    alloc: Global,
    out: &mut String,
    model: &PModel,
    givens: &Cells,
    finds: &str,
) -> Result<(), NoMemory> {
    let finds = tables_of(alloc, finds)?;
    match satisfies(alloc, model, givens, &finds) {
        Ok(verdict) => put_kind(out, verdict),
        Err(why) => put_eval_no(out, why),
    }
}

/// Puts a verdict, with the name or the number that it speaks of.
fn put_kind(out: &mut String, verdict: PVerdict) -> Result<(), NoMemory> {
    match verdict {
        PVerdict::Yes => Ok(out.push_str("Yes")?),
        PVerdict::OutOfDomain(name) => put_named(out, "OutOfDomain ", name),
        PVerdict::Missing(name) => put_named(out, "Missing ", name),
        PVerdict::Extra(name) => put_named(out, "Extra ", name),
        PVerdict::False(number) => {
            out.push_str("False ")?;
            put_number(out, number as i64)
        }
    }
}
