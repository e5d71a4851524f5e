use crate::cells::{put_printed, put_read};
use crate::domains::put_domain;
use crate::refusals::put_read_no;
use crate::tables::tables_of;
use crate::verdicts::put_verdict;
use eprime_read::{ReadNo, read_model};
use eprime_tree::PModel;
use ess_core::Cells;
use ess_rows::NoMemory;
use std::alloc::Global;

/// Puts the answer to a word that asks of a model and tables, and perhaps of a third text, with ` ## ` between each two.
pub fn put_of_model(
    alloc: Global,
    out: &mut String,
    word: &str,
    text: &str,
) -> Result<(), NoMemory> {
    let (parts, rest) = text.split_once(" ## ").unwrap_or((text, ""));
    let (tables, third) = rest.split_once(" ## ").unwrap_or((rest, ""));
    let tables = tables_of(alloc, tables)?;
    match model_of(alloc, parts) {
        Ok(model) => {
            let put = put_asked(alloc, out, word, &model, &tables, third);
            drop(model);
            put
        }
        Err(why) => put_read_no(out, why),
    }
}

/// Puts what a word asks of a model, tables and a third text.
fn put_asked(
    alloc: Global,
    out: &mut String,
    word: &str,
    model: &PModel,
    tables: &Cells,
    third: &str,
) -> Result<(), NoMemory> {
    match word {
        "cells" => put_read(alloc, out, model, tables, third),
        "print" => put_printed(alloc, out, tables, &model.finds),
        "satisfies" => put_verdict(alloc, out, model, tables, third),
        _ => put_domain(alloc, out, word, model, tables, third),
    }
}

/// The model with these parts behind its language line.
fn model_of(alloc: Global, parts: &str) -> Result<PModel, ReadNo> {
    let text = with_language(alloc, parts)?;
    read_model(alloc, text.as_bytes())
}

/// The text of a model with these parts.
fn with_language(alloc: Global, parts: &str) -> Result<String, NoMemory> {
    let mut text = String::from_str(alloc, "language ESSENCE' 1.0\n")?;
    text.push_str(parts)?;
    Ok(text)
}
