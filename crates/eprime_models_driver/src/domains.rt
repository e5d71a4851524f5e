use crate::numbers::{number_of, put_number, put_numbers};
use crate::refusals::put_eval_no;
use eprime_eval::{EvalNo, Run, axis, inside, runs};
use eprime_tree::{PDom, PModel};
use ess_core::Cells;
use ess_rows::{NoMemory, Row};
use std::alloc::Global;

/// Puts what a word asks of the domain of the items of the last find of a model.
pub fn put_domain(
    alloc: Global,
    out: &mut String,
    word: &str,
    model: &PModel,
    givens: &Cells,
    number: &str,
) -> Result<(), NoMemory> {
    let Some(dom) = domain(model) else {
        return Ok(out.push_str("no domain")?);
    };
    match word {
        "axis" => put_members(out, axis(alloc, dom, &model.givens, givens)),
        "inside" => {
            let number = number_of(number).unwrap_or(0);
            put_truth(out, inside(alloc, dom, &model.givens, givens, number))
        }
        "runs" => put_runs(out, runs(alloc, dom, &model.givens, givens)),
        _ => Ok(out.push_str("no such case")?),
    }
}

/// The domain of the items of the last find, if there is one.
fn domain(model: &PModel) -> Option<&PDom> {
    match model.finds.last() {
        Some(decl) => Some(&decl.cell),
        None => None,
    }
}

/// Puts members between brackets.
fn put_members(out: &mut String, members: Result<Row<i64>, EvalNo>) -> Result<(), NoMemory> {
    match members {
        Ok(members) => {
            out.push_str("[")?;
            put_numbers(out, members.as_slice())?;
            Ok(out.push_str("]")?)
        }
        Err(why) => put_eval_no(out, why),
    }
}

/// Puts a truth value.
fn put_truth(out: &mut String, truth: Result<bool, EvalNo>) -> Result<(), NoMemory> {
    match truth {
        Ok(true) => Ok(out.push_str("true")?),
        Ok(false) => Ok(out.push_str("false")?),
        Err(why) => put_eval_no(out, why),
    }
}

/// Puts runs between brackets.
fn put_runs(out: &mut String, runs: Result<Row<Run>, EvalNo>) -> Result<(), NoMemory> {
    match runs {
        Ok(runs) => {
            out.push_str("[")?;
            put_all_runs(out, runs.as_slice())?;
            Ok(out.push_str("]")?)
        }
        Err(why) => put_eval_no(out, why),
    }
}

/// Puts runs with `,` between each two.
fn put_all_runs(out: &mut String, runs: &[Run]) -> Result<(), NoMemory> {
    for (index, run) in runs.iter().enumerate() {
        if index > 0 {
            out.push_str(",")?;
        }
        put_end(out, run.from)?;
        out.push_str("..")?;
        put_end(out, run.to)?;
    }
    Ok(())
}

/// Puts an end of a run, where it has one.
fn put_end(out: &mut String, end: Option<i64>) -> Result<(), NoMemory> {
    match end {
        Some(number) => put_number(out, number),
        None => Ok(()),
    }
}
