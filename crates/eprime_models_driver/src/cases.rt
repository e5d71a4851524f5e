use crate::lettings::put_lettings;
use crate::models::put_of_model;
use crate::texts::{put_in_line, with_line_feeds};
use ess_rows::NoMemory;
use std::alloc::Global;

/// The answer to a case. A model stands without its language line, tables as `tables` reads them. A domain is that of the items of
/// the last name that the model declares as a find.
///
/// - `axis MODEL ## TABLES`: the members of the domain, where the tables are those of the givens;
/// - `inside MODEL ## TABLES ## NUMBER`: whether the number is a member of the domain;
/// - `runs MODEL ## TABLES`: the maximal runs of the domain;
/// - `cells MODEL ## TABLES ## TEXT`: the tables that the text of cells is for the finds, and these printed, or why there are none;
/// - `print MODEL ## TABLES`: the tables printed as those of the finds of the model;
/// - `satisfies MODEL ## TABLES ## TABLES`: whether tables of the finds satisfy the model under those of the givens, or what they fail
///   first;
/// - `lettings TEXT`: the lettings that the text of cells has, or why none are read.
pub fn answer(alloc: Global, line: &str) -> Result<String, NoMemory> {
    let (word, rest) = line.split_once(' ').unwrap_or((line, ""));
    let text = with_line_feeds(alloc, rest)?;
    let mut out = String::new(alloc);
    match word {
        "lettings" => put_lettings(alloc, &mut out, &text)?,
        _ => put_of_model(alloc, &mut out, word, &text)?,
    }
    let mut line = String::new(alloc);
    put_in_line(&mut line, &out)?;
    Ok(line)
}
