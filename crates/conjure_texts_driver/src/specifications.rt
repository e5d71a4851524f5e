use ess_core::{Boxed, NoMemory, Spec, Stm, Text};
use ess_parse::{
    ReadNo, print_repr, print_stm, read_dom, read_lettings, read_named_reprs, read_repr, read_spec,
};
use ess_rows::Place;
use std::alloc::Global;

/// A refusal, by its name and its place.
fn at(alloc: Global, name: &str, place: Place) -> Result<Text, NoMemory> {
    let mut out = Text::from_str(alloc, name)?;
    out.push_str(" ")?;
    out.push_u64(place.line as u64)?;
    out.push_str(":")?;
    out.push_u64(place.col as u64)?;
    Ok(out)
}

/// Why a text isn't read.
pub fn refusal(alloc: Global, why: ReadNo) -> Result<Text, NoMemory> {
    match why {
        ReadNo::BadByte(place) => at(alloc, "BadByte", place),
        ReadNo::WideNumber(place) => at(alloc, "WideNumber", place),
        ReadNo::Unsupported(place) => at(alloc, "Unsupported", place),
        ReadNo::TooDeep(place) => at(alloc, "TooDeep", place),
        ReadNo::Syntax(place) => at(alloc, "Syntax", place),
        ReadNo::NoMemory => Err(NoMemory),
    }
}

/// The texts of statements, with spaces between.
fn statements(alloc: Global, stms: &[Stm]) -> Result<Text, NoMemory> {
    let mut out = Text::new(alloc);
    for (index, stm) in stms.iter().enumerate() {
        if index > 0 {
            out.push_str(" ")?;
        }
        out.push_str(print_stm(alloc, stm)?.as_str())?;
    }
    Ok(out)
}

/// The statements of a text, printed again.
pub fn specification(alloc: Global, text: &str) -> Result<Text, NoMemory> {
    match read_spec(alloc, text.as_bytes()) {
        Ok(spec) => statements(alloc, spec.stms.as_slice()),
        Err(why) => refusal(alloc, why),
    }
}

/// Whether a text is a specification, or why not.
pub fn reads(alloc: Global, text: &str) -> Result<Text, NoMemory> {
    match read_spec(alloc, text.as_bytes()) {
        Ok(_) => Text::from_str(alloc, "read"),
        Err(why) => refusal(alloc, why),
    }
}

/// Whether two specifications are one tree.
pub fn trees(alloc: Global, texts: &str) -> Result<Text, NoMemory> {
    match texts.split_once(" ~ ") {
        Some((a, b)) => Text::from_str(alloc, trees_of(alloc, a, b)),
        None => Text::from_str(alloc, "no two texts"),
    }
}

/// How many trees two texts have.
fn trees_of(alloc: Global, a: &str, b: &str) -> &'static str {
    match (
        read_spec(alloc, a.as_bytes()),
        read_spec(alloc, b.as_bytes()),
    ) {
        (Ok(a), Ok(b)) => count(&a, &b),
        _ => "not read",
    }
}

/// How many trees these are.
fn count(a: &Spec, b: &Spec) -> &'static str {
    if *a == *b { "one tree" } else { "two trees" }
}

/// The domain of a text, printed as that of a find.
pub fn domain(alloc: Global, text: &str) -> Result<Text, NoMemory> {
    let name = Text::from_str(alloc, "x")?;
    match read_dom(alloc, text.as_bytes()) {
        Ok(dom) => {
            let find = Stm::Find(name, Boxed::new(alloc, dom)?);
            let out = print_stm(alloc, &find);
            drop(find);
            out
        }
        Err(why) => refusal(alloc, why),
    }
}

/// A representation, printed again.
pub fn representation(alloc: Global, text: &str) -> Result<Text, NoMemory> {
    match read_repr(alloc, text.as_bytes()) {
        Ok(repr) => print_repr(alloc, &repr),
        Err(why) => refusal(alloc, why),
    }
}

/// The name of a line of representations, and behind it these, printed again.
pub fn representations(alloc: Global, text: &str) -> Result<Text, NoMemory> {
    match read_named_reprs(alloc, text.as_bytes()) {
        Ok(named) => {
            let mut out = named.name.copy(alloc)?;
            for tree in named.trees.as_slice() {
                out.push_str(" ")?;
                out.push_str(print_repr(alloc, tree)?.as_str())?;
            }
            Ok(out)
        }
        Err(why) => refusal(alloc, why),
    }
}

/// How many lettings a file has.
pub fn lettings(alloc: Global, text: &str) -> Result<Text, NoMemory> {
    match read_lettings(alloc, text.as_bytes()) {
        Ok(file) => {
            let mut out = Text::new(alloc);
            out.push_u64(file.list.len() as u64)?;
            Ok(out)
        }
        Err(why) => refusal(alloc, why),
    }
}
