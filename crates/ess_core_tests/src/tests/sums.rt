//! How a clause over the pure tree of a node is met, where the node is built and where it is matched on, and how a caller
//! concludes from equality. None of these functions has a proof file or names a lemma.
ghost use Rattle.std.specs.Prelude.{◌≡◌, IfOk, false, true};
ghost use Rattle.ess_core.specs.TreeViews.{pure_ex};
ghost use Rattle.ess_semantics.specs.Trees.{ex2};
ghost use Rattle.ess_semantics.specs.declared.words.Op2.{Op2 as op2};
ghost use Rattle.ess_core_tests.specs.Sums.{is_sum_ex, is_double_ex};

use super::samples::two;
use ess_core::{Boxed, Ex, NoMemory, Op2};
use ess_core_equality::same_ex;
use std::alloc::Global;
use std::test::Fail;

/// The sum of two expressions.
fn sum_of(alloc: Global, a: Ex, b: Ex) -> Result<Ex, NoMemory>
    ensures { IfOk result (λ e. pure_ex e ≡ ex2 false op2.Plus (pure_ex a) (pure_ex b)) }
{
    let a = Boxed::new(alloc, a);
    let b = Boxed::new(alloc, b);
    Ok(Ex::Two(Op2::Plus, a?, b?))
}

/// Whether an expression is a sum of two.
fn is_sum(e: &Ex) -> bool
    ensures { result ≡ is_sum_ex (pure_ex e.now) }
{
    match e {
        Ex::Two(Op2::Plus, _, _) => true,
        _ => false,
    }
}

/// Whether an expression adds something to itself.
fn is_double(e: &Ex) -> bool
    ensures { result ≡ true → is_double_ex (pure_ex e.now) }
{
    match e {
        Ex::Two(Op2::Plus, a, b) => same_ex(a.get(), b.get()),
        _ => false,
    }
}

/// What is found of an expression: whether it is a sum, and whether it is a double.
fn found(ex: &Boxed<Ex>) -> (bool, bool) {
    (is_sum(ex.get()), is_double(ex.get()))
}

#[test]
fn a_sum_is_known_by_its_operator_and_a_double_by_its_operands(
    rt: HostRuntime,
) -> Result<(), Fail> {
    let alloc = rt.alloc();
    let sum = Boxed::new(alloc, sum_of(alloc, Ex::Num(1), Ex::Truth(true))?)?;
    for (tree, found, want) in [
        ("1 + true", found(&sum), (true, false)),
        (
            "a - b",
            found(&two(alloc, Op2::Minus, "a", "b")?),
            (false, false),
        ),
        (
            "a + a",
            found(&two(alloc, Op2::Plus, "a", "a")?),
            (true, true),
        ),
    ] {
        assert!(rt; found == want, "{tree}");
    }
    Ok(())
}
