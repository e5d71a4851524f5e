//! Connectives, comparisons, and what is asked at all bindings of generators.
ghost use Rattle.std.specs.Prelude.{◌≡◌, true, false, IfOk};
ghost use Rattle.ess_semantics.specs.Trees.{comp_ex, ex1, ex2, fun1};
ghost use Rattle.ess_core_nodes.specs.NodeViews.{pure_node, pure_gens};
ghost use Rattle.ess_repr_laws.specs.StructureParts.{and_ex, or_ex, implies_ex, le_ex, all_ex};

use ess_core::{Fun, Op1, Op2};
use ess_core_nodes::{Gen, Node};
use ess_node_building::{binary, comprehension, unary, word};
use ess_rows::{Boxed, NoMemory, Row};
use std::alloc::Global;

/// Both hold. `NoMemory` where there is no room for it.
pub fn both(alloc: Global, first: Boxed<Node>, second: Boxed<Node>) -> Result<Boxed<Node>, NoMemory>
    ensures { IfOk result (λ n. pure_node n ≡ and_ex (pure_node first) (pure_node second)) }
{
    binary(alloc, true, Op2::And, first, second)
}

/// One of both holds.
pub fn either(
    alloc: Global,
    first: Boxed<Node>,
    second: Boxed<Node>,
) -> Result<Boxed<Node>, NoMemory>
    ensures { IfOk result (λ n. pure_node n ≡ or_ex (pure_node first) (pure_node second)) }
{
    binary(alloc, true, Op2::Or, first, second)
}

/// If the one holds, so does the other one.
pub fn implies(
    alloc: Global,
    first: Boxed<Node>,
    second: Boxed<Node>,
) -> Result<Boxed<Node>, NoMemory>
    ensures { IfOk result (λ n. pure_node n ≡ implies_ex (pure_node first) (pure_node second)) }
{
    binary(alloc, true, Op2::Implies, first, second)
}

/// The one number is at most the other one.
pub fn at_most(alloc: Global, low: Boxed<Node>, high: Boxed<Node>) -> Result<Boxed<Node>, NoMemory>
    ensures { IfOk result (λ n. pure_node n ≡ le_ex (pure_node low) (pure_node high)) }
{
    binary(alloc, true, Op2::Le, low, high)
}

/// Both are equal.
pub fn equal(
    alloc: Global,
    first: Boxed<Node>,
    second: Boxed<Node>,
) -> Result<Boxed<Node>, NoMemory>
    ensures { IfOk result (λ n. pure_node n ≡ ex2 true Op2.Eq (pure_node first) (pure_node second)) }
{
    binary(alloc, true, Op2::Eq, first, second)
}

/// It doesn't hold.
pub fn negated(alloc: Global, test: Boxed<Node>) -> Result<Boxed<Node>, NoMemory>
    ensures { IfOk result (λ n. pure_node n ≡ ex1 true Op1.Not (pure_node test)) }
{
    unary(alloc, true, Op1::Not, test)
}

/// The size of a set, as a term.
pub fn size_of(alloc: Global, set: Boxed<Node>) -> Result<Boxed<Node>, NoMemory>
    ensures { IfOk result (λ n. pure_node n ≡ ex1 false Op1.Bar (pure_node set)) }
{
    unary(alloc, false, Op1::Bar, set)
}

/// The test holds at each binding.
pub fn all_over(alloc: Global, test: Boxed<Node>, gens: Row<Gen>) -> Result<Boxed<Node>, NoMemory>
    ensures { IfOk result (λ n. pure_node n ≡ all_ex (pure_node test) (pure_gens gens)) }
{
    let list = comprehension(alloc, test, gens)?;
    word(alloc, true, Fun::And, list)
}

/// The test holds at some binding.
pub fn some_over(alloc: Global, test: Boxed<Node>, gens: Row<Gen>) -> Result<Boxed<Node>, NoMemory>
    ensures { IfOk result (λ n. pure_node n ≡ fun1 true Fun.Or (comp_ex (pure_node test) (pure_gens gens))) }
{
    let list = comprehension(alloc, test, gens)?;
    word(alloc, true, Fun::Or, list)
}

/// The sum of the terms at all bindings.
pub fn sum_over(alloc: Global, term: Boxed<Node>, gens: Row<Gen>) -> Result<Boxed<Node>, NoMemory>
    ensures { IfOk result (λ n. pure_node n ≡ fun1 false Fun.Sum (comp_ex (pure_node term) (pure_gens gens))) }
{
    let list = comprehension(alloc, term, gens)?;
    word(alloc, false, Fun::Sum, list)
}

/// At how many bindings the test holds.
pub fn count_over(alloc: Global, test: Boxed<Node>, gens: Row<Gen>) -> Result<Boxed<Node>, NoMemory>
    ensures { IfOk result (λ n. pure_node n ≡ fun1 false Fun.Sum (comp_ex (fun1 false Fun.ToInt (pure_node test)) (pure_gens gens))) }
{
    let one = word(alloc, false, Fun::ToInt, test)?;
    sum_over(alloc, one, gens)
}

/// The terms at all bindings differ.
pub fn differ_over(
    alloc: Global,
    term: Boxed<Node>,
    gens: Row<Gen>,
) -> Result<Boxed<Node>, NoMemory>
    ensures { IfOk result (λ n. pure_node n ≡ fun1 true Fun.AllDiff (comp_ex (pure_node term) (pure_gens gens))) }
{
    let list = comprehension(alloc, term, gens)?;
    word(alloc, true, Fun::AllDiff, list)
}
