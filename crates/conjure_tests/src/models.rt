use eprime_read::read_model;
use eprime_tree::{PDecl, PDom, PEx, PGoal, PModel, POp1};
use ess_rows::{Boxed, NoMemory, Row, Text};
use std::alloc::Global;

/// `find x : matrix indexed by [bool] of bool`
fn declaration(alloc: Global) -> Result<PDecl, NoMemory> {
    let name = Text::from_str(alloc, "x")?;
    let axes = Row::from_array(alloc, [PDom::Bool])?;
    Ok(PDecl {
        name,
        axes,
        cell: PDom::Bool,
    })
}

/// `!x[true]`
fn rule(alloc: Global) -> Result<PEx, NoMemory> {
    let name = Text::from_str(alloc, "x")?;
    let at = Row::from_array(alloc, [PEx::Truth(true)])?;
    let cell = Boxed::new(alloc, PEx::Cell(name, at))?;
    Ok(PEx::One(POp1::Not, cell))
}

/// The model of this declaration and this constraint, with one line in its header.
fn model(alloc: Global) -> Result<PModel, NoMemory> {
    let head = Row::from_array(alloc, [Text::from_str(alloc, "a line")?])?;
    let finds = Row::from_array(alloc, [declaration(alloc)?])?;
    let rules = Row::from_array(alloc, [rule(alloc)?])?;
    Ok(PModel {
        head,
        givens: Row::new(alloc),
        finds,
        goal: PGoal::Free,
        rules,
    })
}

/// Is a model read as its tree?
pub fn is_model(alloc: Global) -> Result<bool, NoMemory> {
    let want = model(alloc)?;
    let text =
        "language ESSENCE' 1.0\n$ a line\nfind x : matrix indexed by [bool] of bool\nsuch that !x[true]";
    match read_model(alloc, text.as_bytes()) {
        Ok(found) => Ok(found == want),
        Err(_) => Ok(false),
    }
}
