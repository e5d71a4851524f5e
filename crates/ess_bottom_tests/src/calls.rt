// The calls over memory, by their names.
use crate::{boxes, files, lexing, orders, rows, sinks, streams, texts, trees, words};
use ess_io::{MemFiles, SureFiles};
use ess_rows::NoMemory;
use std::alloc::Global;

/// Puts what comes out of a case of these fields.
pub(crate) fn put_answer(
    alloc: Global,
    out: &mut String,
    call: &str,
    fields: &str,
) -> Result<(), NoMemory> {
    match call {
        "kinds" => lexing::kinds(out, fields.as_bytes()),
        "tokens" => lexing::tokens(alloc, out, fields.as_bytes()),
        "load" => lexing::load_of(alloc, out, fields),
        "outside" => lexing::outside(out, fields.as_bytes()),
        "kind_text" => words::kind_text(out, fields.as_bytes()),
        "words" => words::told_apart(out),
        "row" => rows::changed(alloc, out, fields),
        "rows" => rows::made(alloc, out),
        "room" => rows::room(alloc, out, fields),
        "order_rows" => orders::rows(alloc, out, fields),
        "order_texts" => orders::texts(alloc, out, fields),
        "place" => orders::place(out, fields),
        "text" => texts::changed(alloc, out, fields),
        "box" => boxes::changed(alloc, out),
        "tree" => trees::copied(alloc, out),
        "put_all" => sinks::put_whole(alloc, out, fields),
        "pieces" => sinks::pieces(alloc, out, fields),
        "sure_sink" => sinks::sure(out),
        "halting_read" => streams::read(alloc, out, fields),
        "halting_write" => streams::write(out, fields),
        "files" => mem_files(alloc, out, fields),
        "sure_files" => files::called(alloc, out, &mut SureFiles::new(alloc), fields),
        _ => Ok(()),
    }
}

/// Calls of files in memory: the numbers of those that fail, how many bytes a failing write leaves, and the calls.
fn mem_files(alloc: Global, out: &mut String, fields: &str) -> Result<(), NoMemory> {
    let (fails, rest) = fields.split_once('#').unwrap_or((fields, ""));
    let (cut, calls) = rest.split_once('#').unwrap_or((rest, ""));
    let fails = rows::numbers(alloc, fails)?.into_vec();
    let mut files = MemFiles::new(alloc, fails, cut.parse().unwrap_or(0));
    files::called(alloc, out, &mut files, calls)
}
