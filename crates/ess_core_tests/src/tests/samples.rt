//! Small trees.
use ess_core::{
    Attr, Boxed, Dom, Ex, Gen, Key, NoMemory, Op2, Pat, Range, Repr, ReprKind, Row, Text, View,
};
use std::alloc::Global;

pub fn name(alloc: Global, text: &str) -> Result<Ex, NoMemory> {
    Text::from_str(alloc, text).map(Ex::Name)
}

fn boxed_name(alloc: Global, text: &str) -> Result<Boxed<Ex>, NoMemory> {
    Boxed::new(alloc, name(alloc, text)?)
}

/// An operator between two names.
pub fn two(alloc: Global, op: Op2, a: &str, b: &str) -> Result<Boxed<Ex>, NoMemory> {
    let a = boxed_name(alloc, a)?;
    let b = boxed_name(alloc, b)?;
    Boxed::new(alloc, Ex::Two(op, a, b))
}

/// `a + b * c`
pub fn sum(alloc: Global) -> Result<Boxed<Ex>, NoMemory> {
    let a = boxed_name(alloc, "a")?;
    let product = two(alloc, Op2::Times, "b", "c")?;
    Boxed::new(alloc, Ex::Two(Op2::Plus, a, product))
}

/// A set of two names.
pub fn set(alloc: Global, a: &str, b: &str) -> Result<Boxed<Ex>, NoMemory> {
    let mut members = Row::with_capacity(alloc, 2)?;
    members.push(name(alloc, a)?)?;
    members.push(name(alloc, b)?)?;
    Boxed::new(alloc, Ex::Set(members))
}

/// `(size SIZE)`
fn size(alloc: Global, size: &str) -> Result<Row<Attr>, NoMemory> {
    let value = Some(name(alloc, size)?);
    Row::from_array(
        alloc,
        [Attr {
            key: Key::Size,
            value,
        }],
    )
}

/// `int(low..high)`
fn numbers(alloc: Global) -> Result<Row<Range>, NoMemory> {
    let low = name(alloc, "low")?;
    match name(alloc, "high") {
        Ok(high) => Row::from_array(alloc, [Range::Span(Some(low), Some(high))]),
        Err(no) => {
            drop(low);
            Err(no)
        }
    }
}

/// `set (size n) of int(low..high)`
pub fn sets(alloc: Global) -> Result<Dom, NoMemory> {
    let size = size(alloc, "n")?;
    let numbers = Boxed::new(alloc, Dom::Int(numbers(alloc)?))?;
    Ok(Dom::Set(size, numbers))
}

/// `x : set (size n) of int(low..high), test`
fn generators(alloc: Global) -> Result<Row<Gen>, NoMemory> {
    let mut gens = Row::with_capacity(alloc, 2)?;
    let x = Text::from_str(alloc, "x")?;
    let dom = sets(alloc)?;
    gens.push(Gen::Over(Pat::Name(x), dom))?;
    gens.push(Gen::If(name(alloc, "test")?))?;
    Ok(gens)
}

/// `[x | x : set (size n) of int(low..high), test]`
pub fn comprehension(alloc: Global) -> Result<Boxed<Ex>, NoMemory> {
    let body = boxed_name(alloc, "x")?;
    let gens = generators(alloc)?;
    Boxed::new(alloc, Ex::Comp(body, gens))
}

/// `Explicit[Occurrence]`
pub fn explicit(alloc: Global) -> Result<Repr, NoMemory> {
    let child = Repr {
        kind: ReprKind::Occurrence,
        children: Row::new(alloc),
    };
    Ok(Repr {
        kind: ReprKind::Explicit,
        children: Row::from_array(alloc, [child])?,
    })
}

/// A view of `set (size n) of int(low..high)` at the index `i`.
pub fn view(alloc: Global) -> Result<Boxed<Ex>, NoMemory> {
    let repr = explicit(alloc)?;
    let cells = Row::from_array(alloc, [Text::from_str(alloc, "s_Explicit")?])?;
    let at = Row::from_array(alloc, [name(alloc, "i")?])?;
    let dom = sets(alloc)?;
    let view = Boxed::new(
        alloc,
        View {
            repr,
            dom,
            cells,
            at,
        },
    )?;
    Boxed::new(alloc, Ex::Seen(view))
}
