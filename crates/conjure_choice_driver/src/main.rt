//! Cases of representations, as lines of the standard input: a domain, or a representation and a domain with ` ## ` between them.
//! Of a domain the answer is the representation that is chosen for it. Of both it is whether the representation fits, and where it
//! does the domains of its children, as statements on x, and behind `#` the tables that it declares for x where `x_1` is taken.
#![tactic(auto)]

use ess_core::{Boxed, CellDecl, Dom, NoMemory, Repr, Row, Stm, Text};
use ess_parse::{read_dom, read_repr};
use ess_print::{print_repr, print_stm};
use ess_repr::{children, choose, declare, fits};
use std::alloc::Global;
use std::fmt::Write;
use std::io;

/// Puts the text of a domain, behind a comma where it isn't the first.
fn put_dom(alloc: Global, out: &mut String, dom: &Dom) -> Result<(), NoMemory> {
    let name = Text::from_str(alloc, "x")?;
    let stm = match dom.copy(alloc) {
        Ok(copy) => Stm::Find(name, Boxed::new(alloc, copy)?),
        Err(no) => return Err(no),
    };
    let text = print_stm(alloc, &stm);
    drop(stm);
    let text = text?;
    write!(out, " ## {}", text.as_str())?;
    Ok(())
}

/// Puts the domains of the children.
fn put_children(alloc: Global, out: &mut String, repr: &Repr, dom: &Dom) -> Result<(), NoMemory> {
    let doms = children(alloc, repr, dom)?;
    for child in doms.as_slice() {
        put_dom(alloc, out, child)?;
    }
    Ok(())
}

/// The domain of all cells of a table: a matrix where it has axes.
fn whole_domain(alloc: Global, table: &CellDecl) -> Result<Boxed<Dom>, NoMemory> {
    let mut axes = Row::new(alloc);
    for axis in table.axes.as_slice() {
        match axis.copy(alloc) {
            Ok(copy) => axes.push(copy)?,
            Err(no) => return Err(no),
        }
    }
    let cell = match table.cell.copy(alloc) {
        Ok(copy) => Boxed::new(alloc, copy)?,
        Err(no) => return Err(no),
    };
    if axes.is_empty() {
        return Ok(cell);
    }
    Boxed::new(alloc, Dom::Matrix(axes, cell))
}

/// Puts a declared table.
fn put_table(alloc: Global, out: &mut String, table: &CellDecl) -> Result<(), NoMemory> {
    let dom = whole_domain(alloc, table)?;
    let stm = Stm::Find(table.name.copy(alloc)?, dom);
    let text = print_stm(alloc, &stm);
    drop(stm);
    let text = text?;
    write!(out, " # {}", text.as_str())?;
    Ok(())
}

/// Puts the tables that the representation declares for x.
fn put_tables(alloc: Global, out: &mut String, repr: &Repr, dom: &Dom) -> Result<(), NoMemory> {
    let name = Text::from_str(alloc, "x")?;
    let taken = Row::from_array(alloc, [Text::from_str(alloc, "x_1")?])?;
    let tables = declare(alloc, repr, dom, &name, taken.as_slice())?;
    for table in tables.as_slice() {
        put_table(alloc, out, table)?;
    }
    Ok(())
}

/// Puts the answer to a representation and a domain.
fn put_fitting(alloc: Global, out: &mut String, repr: &str, dom: &str) -> Result<(), NoMemory> {
    let Ok(repr) = read_repr(alloc, repr.as_bytes()) else {
        return Ok(write!(out, "not read")?);
    };
    let Ok(dom) = read_dom(alloc, dom.as_bytes()) else {
        return Ok(write!(out, "not read")?);
    };
    if !fits(&repr, &dom) {
        drop(dom);
        return Ok(write!(out, "no")?);
    }
    write!(out, "yes")?;
    let children = put_children(alloc, out, &repr, &dom);
    let tables = put_tables(alloc, out, &repr, &dom);
    drop(dom);
    children?;
    tables
}

/// Puts the representation that is chosen for a domain.
fn put_choice(alloc: Global, out: &mut String, dom: &str) -> Result<(), NoMemory> {
    let Ok(dom) = read_dom(alloc, dom.as_bytes()) else {
        return Ok(write!(out, "not read")?);
    };
    let repr = choose(alloc, &dom);
    drop(dom);
    let text = print_repr(alloc, &repr?)?;
    Ok(write!(out, "{}", text.as_str())?)
}

/// The answer to a line.
fn answer(alloc: Global, line: &str) -> Result<String, NoMemory> {
    let mut out = String::new(alloc);
    match line.split_once(" ## ") {
        Some((repr, dom)) => put_fitting(alloc, &mut out, repr, dom)?,
        None => put_choice(alloc, &mut out, line)?,
    }
    Ok(out)
}

fn main(rt: HostRuntime) -> io::Result<()> {
    for line in rt.lines(rt.alloc()) {
        match answer(rt.alloc(), line?.as_str()) {
            Ok(text) => println!(rt; "{text}")?,
            Err(NoMemory) => return Err(io::ErrorKind::OutOfMemory.into()),
        }
    }
    Ok(())
}
