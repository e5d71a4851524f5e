//! That trees are copied where there is memory, and equal their copies.
use super::samples::{comprehension, explicit, sets, sum, two, view};
use ess_core::{Boxed, Dom, Ex, NoMemory, Op2, Repr, Row, Spec, Stm, Text, Ty, Val};
use std::alloc::Global;
use std::test::Fail;

fn copied_ex(alloc: Global, ex: Boxed<Ex>) -> Result<bool, NoMemory> {
    let copy = Boxed::new(alloc, ex.get().copy(alloc)?)?;
    Ok(copy == ex)
}

fn copied_dom(alloc: Global) -> Result<bool, NoMemory> {
    let dom = Boxed::new(alloc, sets(alloc)?)?;
    let copy = Boxed::new(alloc, dom.get().copy(alloc)?)?;
    Ok(copy == dom)
}

fn copied_repr(alloc: Global) -> Result<bool, NoMemory> {
    let repr = explicit(alloc)?;
    Ok(repr.copy(alloc)? == repr)
}

/// The matrix of `true` and `false` at 1 and 2.
fn copied_val(alloc: Global) -> Result<bool, NoMemory> {
    let indices = Row::from_array(alloc, [Val::Num(1), Val::Num(2)])?;
    let items = Row::from_array(alloc, [Val::Truth(true), Val::Truth(false)])?;
    let matrix = Boxed::new(alloc, Val::Matrix(indices, items))?;
    let copy = Boxed::new(alloc, matrix.get().copy(alloc)?)?;
    Ok(copy == matrix)
}

fn copied_text(alloc: Global) -> Result<bool, NoMemory> {
    let text = Text::from_str(alloc, "s")?;
    Ok(text.copy(alloc)? == text)
}

/// Functions from the type `E` to whole numbers.
fn copied_ty(alloc: Global) -> Result<bool, NoMemory> {
    let from = Boxed::new(alloc, Ty::Named(Text::from_str(alloc, "E")?))?;
    let to = Boxed::new(alloc, Ty::Int)?;
    let ty = Boxed::new(alloc, Ty::Function(from, to))?;
    let copy = Boxed::new(alloc, ty.get().copy(alloc)?)?;
    Ok(copy == ty)
}

/// `find s : set (size n) of int(low..high)` and `such that a < b`.
fn copied_spec(alloc: Global) -> Result<bool, NoMemory> {
    let mut stms = Row::with_capacity(alloc, 2)?;
    let s = Text::from_str(alloc, "s")?;
    let dom = Boxed::new(alloc, sets(alloc)?)?;
    stms.push(Stm::Find(s, dom))?;
    stms.push(Stm::SuchThat(two(alloc, Op2::Lt, "a", "b")?))?;
    let spec = Spec { stms };
    Ok(spec.copy(alloc)? == spec)
}

#[test]
fn copies_equal_their_sources(rt: HostRuntime) -> Result<(), Fail> {
    let alloc = rt.alloc();
    for (tree, same) in [
        ("a sum", copied_ex(alloc, sum(alloc)?)?),
        ("a comprehension", copied_ex(alloc, comprehension(alloc)?)?),
        ("a view", copied_ex(alloc, view(alloc)?)?),
        ("a domain", copied_dom(alloc)?),
        ("a representation", copied_repr(alloc)?),
        ("a matrix", copied_val(alloc)?),
        ("a text", copied_text(alloc)?),
        ("a type", copied_ty(alloc)?),
        ("a specification", copied_spec(alloc)?),
    ] {
        assert!(rt; same, "{tree}");
    }
    Ok(())
}
