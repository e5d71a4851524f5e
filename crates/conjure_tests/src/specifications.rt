use ess_core::{
    Attr, Boxed, Dom, Ex, Fun, Key, NoMemory, Op2, Range, Repr, ReprKind, Row, Spec, Stm, Text,
};
use ess_parse::{Letting, Lettings, print_stm, read_dom, read_lettings, read_repr, read_spec};
use std::alloc::Global;

/// `image(x, 1)`
fn image(alloc: Global) -> Result<Boxed<Ex>, NoMemory> {
    let name = Text::from_str(alloc, "x")?;
    let args = Row::from_array(alloc, [Ex::Name(name), Ex::Num(1)])?;
    Boxed::new(alloc, Ex::Call(false, Fun::Image, args))
}

/// `find x : bool such that image(x, 1)`
fn specification(alloc: Global) -> Result<Spec, NoMemory> {
    let rule = image(alloc)?;
    let name = Text::from_str(alloc, "x")?;
    let dom = Boxed::new(alloc, Dom::Bool)?;
    let stms = Row::from_array(alloc, [Stm::Find(name, dom), Stm::SuchThat(rule)])?;
    Ok(Spec { stms })
}

/// Is a specification read as its tree?
pub fn is_specification(alloc: Global) -> Result<bool, NoMemory> {
    let want = specification(alloc)?;
    match read_spec(alloc, b"find x : bool such that image(x, 1)") {
        Ok(found) => Ok(found == want),
        Err(_) => Ok(false),
    }
}

/// `set (size 2) of int(1..3)`
fn domain(alloc: Global) -> Result<Boxed<Dom>, NoMemory> {
    let size = Attr {
        key: Key::Size,
        value: Some(Ex::Num(2)),
    };
    let sizes = Row::from_array(alloc, [size])?;
    let span = Range::Span(Some(Ex::Num(1)), Some(Ex::Num(3)));
    let ranges = Row::from_array(alloc, [span])?;
    let member = Boxed::new(alloc, Dom::Int(ranges))?;
    Boxed::new(alloc, Dom::Set(sizes, member))
}

/// Is a domain read as its tree?
pub fn is_domain(alloc: Global) -> Result<bool, NoMemory> {
    let want = domain(alloc)?;
    match read_dom(alloc, b"set (size 2) of int(1..3)") {
        Ok(found) => {
            let same = found == *want.get();
            drop(found);
            Ok(same)
        }
        Err(_) => Ok(false),
    }
}

/// `Explicit[Occurrence]`
fn representation(alloc: Global) -> Result<Repr, NoMemory> {
    let inner = Repr {
        kind: ReprKind::Occurrence,
        children: Row::new(alloc),
    };
    let children = Row::from_array(alloc, [inner])?;
    Ok(Repr {
        kind: ReprKind::Explicit,
        children,
    })
}

/// Is a representation read as its tree?
pub fn is_representation(alloc: Global) -> Result<bool, NoMemory> {
    let want = representation(alloc)?;
    match read_repr(alloc, b"Explicit[Occurrence]") {
        Ok(found) => Ok(found == want),
        Err(_) => Ok(false),
    }
}

/// `letting n be 3, E be new type enum {a}`
fn lettings(alloc: Global) -> Result<Lettings, NoMemory> {
    let number = Text::from_str(alloc, "n")?;
    let name = Text::from_str(alloc, "E")?;
    let values = Row::from_array(alloc, [Text::from_str(alloc, "a")?])?;
    let first = Letting::Value(number, Ex::Num(3));
    let list = Row::from_array(alloc, [first, Letting::Enum(name, values)])?;
    Ok(Lettings { list })
}

/// Are lettings read as their trees?
pub fn are_lettings(alloc: Global) -> Result<bool, NoMemory> {
    let want = lettings(alloc)?;
    match read_lettings(alloc, b"letting n be 3, E be new type enum {a}") {
        Ok(found) => Ok(found == want),
        Err(_) => Ok(false),
    }
}

/// `(a - b) < -4`, where -4 is a number and no operator's.
fn below(alloc: Global) -> Result<Stm, NoMemory> {
    let a = Boxed::new(alloc, Ex::Name(Text::from_str(alloc, "a")?))?;
    let b = Boxed::new(alloc, Ex::Name(Text::from_str(alloc, "b")?))?;
    let difference = Boxed::new(alloc, Ex::Two(Op2::Minus, a, b))?;
    let number = Boxed::new(alloc, Ex::Num(-4))?;
    let less = Boxed::new(alloc, Ex::Two(Op2::Lt, difference, number))?;
    Ok(Stm::SuchThat(less))
}

/// Is a number below 0, which no text has as an expression, printed without brackets?
pub fn is_printed(alloc: Global) -> Result<bool, NoMemory> {
    let stm = below(alloc)?;
    let text = print_stm(alloc, &stm)?;
    Ok(text.as_str() == "such that (a - b) < -4")
}
