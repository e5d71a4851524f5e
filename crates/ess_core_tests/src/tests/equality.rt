//! Which trees are equal, at a few pairs.
use super::samples::{set, two};
use ess_core::{Attr, Boxed, Dom, Key, NoMemory, Op2, Row, Ty, Val};
use ess_core_equality::{same_dom, same_ex, same_ty, same_val};
use std::alloc::Global;
use std::test::Fail;

/// Whether `a + b` equals an operator between two names.
fn is_a_plus_b(alloc: Global, op: Op2, a: &str, b: &str) -> Result<bool, NoMemory> {
    let left = two(alloc, Op2::Plus, "a", "b")?;
    let right = two(alloc, op, a, b)?;
    Ok(same_ex(left.get(), right.get()))
}

/// Whether `{a, b}` equals a set of two names.
fn is_set_of_a_b(alloc: Global, a: &str, b: &str) -> Result<bool, NoMemory> {
    let left = set(alloc, "a", "b")?;
    let right = set(alloc, a, b)?;
    Ok(same_ex(left.get(), right.get()))
}

/// `set (FIRST, SECOND) of bool`
fn sets(alloc: Global, first: Key, second: Key) -> Result<Boxed<Dom>, NoMemory> {
    let mut attrs = Row::with_capacity(alloc, 2)?;
    for key in [first, second] {
        attrs.push(Attr { key, value: None })?;
    }
    let member = Boxed::new(alloc, Dom::Bool)?;
    Boxed::new(alloc, Dom::Set(attrs, member))
}

/// Whether the attributes `injective, total` and two attributes make one domain.
fn is_injective_total(alloc: Global, first: Key, second: Key) -> Result<bool, NoMemory> {
    let left = sets(alloc, Key::Injective, Key::Total)?;
    let right = sets(alloc, first, second)?;
    Ok(same_dom(left.get(), right.get()))
}

#[test]
fn trees_are_equal_by_kind_and_by_parts_in_order(rt: HostRuntime) -> Result<(), Fail> {
    let alloc = rt.alloc();
    for (pair, same, want) in [
        ("a + b", is_a_plus_b(alloc, Op2::Plus, "a", "b")?, true),
        ("a - b", is_a_plus_b(alloc, Op2::Minus, "a", "b")?, false),
        ("a + c", is_a_plus_b(alloc, Op2::Plus, "a", "c")?, false),
        ("b + a", is_a_plus_b(alloc, Op2::Plus, "b", "a")?, false),
        ("{a, b}", is_set_of_a_b(alloc, "a", "b")?, true),
        ("{a, a}", is_set_of_a_b(alloc, "a", "a")?, false),
        ("{b, a}", is_set_of_a_b(alloc, "b", "a")?, false),
        (
            "injective, total",
            is_injective_total(alloc, Key::Injective, Key::Total)?,
            true,
        ),
        (
            "total, injective",
            is_injective_total(alloc, Key::Total, Key::Injective)?,
            false,
        ),
        ("1 and 1", same_val(&Val::Num(1), &Val::Num(1)), true),
        ("1 and -1", same_val(&Val::Num(1), &Val::Num(-1)), false),
        (
            "1 and true",
            same_val(&Val::Num(1), &Val::Truth(true)),
            false,
        ),
        ("int and int", same_ty(&Ty::Int, &Ty::Int), true),
        ("int and any", same_ty(&Ty::Int, &Ty::Any), false),
    ] {
        assert!(rt; same == want, "{pair}");
    }
    Ok(())
}
