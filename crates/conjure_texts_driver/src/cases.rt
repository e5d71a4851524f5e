use crate::{specifications, values};
use ess_core::{NoMemory, Text};
use std::alloc::{AllocError, Global};

/// The answer to a case:
///
/// - `specification TEXT`, `domain TEXT`, `representation TEXT`: what is read, printed again, or why nothing is read;
/// - `representations TEXT`: the name of a header's line and its representations, or why they aren't read;
/// - `reads TEXT`: whether it is a specification, or why not;
/// - `lettings TEXT`: how many lettings the file has, or why it isn't read;
/// - `trees TEXT ~ TEXT`: whether two specifications are one tree;
/// - `value TEXT`: what is printed of the value that a literal has;
/// - `value_at TYPE ~ TEXT`: the same at a type;
/// - `order [VALUE, VALUE]`: the order of two values, and that of the two turned round;
/// - `set_of [VALUE, ..]`, `mset_of [VALUE, ..]`, `partition_of [SET, ..]`: what is printed of the collection of these values;
/// - `function_of [FUNCTION, ..]`: what is printed of the function that has the pairs of all these.
pub fn answer(alloc: Global, case: &str) -> Result<Text, NoMemory> {
    let Some((word, text)) = case.split_once(' ') else {
        return Text::from_str(alloc, "no case");
    };
    match word {
        "specification" => specifications::specification(alloc, text),
        "reads" => specifications::reads(alloc, text),
        "domain" => specifications::domain(alloc, text),
        "representation" => specifications::representation(alloc, text),
        "representations" => specifications::representations(alloc, text),
        "lettings" => specifications::lettings(alloc, text),
        "trees" => specifications::trees(alloc, text),
        "value" => values::value(alloc, text),
        "value_at" => values::value_at(alloc, text),
        "order" => values::order_of_two(alloc, text),
        "set_of" => values::set(alloc, text),
        "mset_of" => values::mset(alloc, text),
        "function_of" => values::function(alloc, text),
        "partition_of" => values::partition(alloc, text),
        _ => Text::from_str(alloc, "no such case"),
    }
}

/// An answer as a line.
pub fn said(alloc: Global, answer: Result<Text, NoMemory>) -> Result<String, AllocError> {
    match answer {
        Ok(text) => Ok(text.into_string()),
        Err(NoMemory) => String::from_str(alloc, "no memory"),
    }
}
