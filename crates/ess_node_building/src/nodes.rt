//! Numbers, names, operators with their operands, and comprehensions.
ghost use Rattle.std.specs.Prelude.{◌≡◌, [], ◌∷◌, false, IfOk};
ghost use Rattle.ess_semantics.specs.Trees.{number_ex, truth_ex, name_ex, node_ex, comp_ex, ex1, ex2, fun1, index, to_component, tuple_literal, no_exs, more_exs};
ghost use Rattle.ess_core_nodes.specs.NodeViews.{pure_node, pure_nodes, pure_gens, pure_op};

use crate::rows::{only, two};
use ess_core::{Fun, Op1, Op2};
use ess_core_nodes::{Gen, Node, Op, Step};
use ess_rows::{Boxed, NoMemory, Row, Text};
use std::alloc::Global;

/// A number.
pub fn number(alloc: Global, number: i64) -> Result<Boxed<Node>, NoMemory>
    ensures { IfOk result (λ n. pure_node n ≡ number_ex number) }
{
    Boxed::new(alloc, Node::Number(number))
}

/// A truth value.
pub fn truth(alloc: Global, value: bool) -> Result<Boxed<Node>, NoMemory>
    ensures { IfOk result (λ n. pure_node n ≡ truth_ex value) }
{
    Boxed::new(alloc, Node::Truth(value))
}

/// A name.
pub fn name(alloc: Global, name: &Text) -> Result<Boxed<Node>, NoMemory>
    ensures { IfOk result (λ n. pure_node n ≡ name_ex name.now) }
{
    let name = name.copy(alloc)?;
    Boxed::new(alloc, Node::Name(name))
}

/// An operator on one operand, Boolean where the mark says so.
pub fn unary(
    alloc: Global,
    mark: bool,
    op: Op1,
    operand: Boxed<Node>,
) -> Result<Boxed<Node>, NoMemory>
    ensures { IfOk result (λ n. pure_node n ≡ ex1 mark op (pure_node operand)) }
{
    let operands = only(alloc, operand)?;
    Boxed::new(alloc, Node::Op(mark, Op::Unary(op), operands))
}

/// An operator on two operands, Boolean where the mark says so.
pub fn binary(
    alloc: Global,
    mark: bool,
    op: Op2,
    first: Boxed<Node>,
    second: Boxed<Node>,
) -> Result<Boxed<Node>, NoMemory>
    ensures { IfOk result (λ n. pure_node n ≡ ex2 mark op (pure_node first) (pure_node second)) }
{
    let operands = two(alloc, first, second)?;
    Boxed::new(alloc, Node::Op(mark, Op::Binary(op), operands))
}

/// A function word on one operand, Boolean where the mark says so.
pub fn word(
    alloc: Global,
    mark: bool,
    fun: Fun,
    operand: Boxed<Node>,
) -> Result<Boxed<Node>, NoMemory>
    ensures { IfOk result (λ n. pure_node n ≡ fun1 mark fun (pure_node operand)) }
{
    let operands = only(alloc, operand)?;
    Boxed::new(alloc, Node::Op(mark, Op::Word(fun), operands))
}

/// A literal, or any other operator, with these operands: it isn't Boolean.
pub fn literal(alloc: Global, op: Op, operands: Row<Node>) -> Result<Boxed<Node>, NoMemory>
    ensures { IfOk result (λ n. pure_node n ≡ node_ex false (pure_op op) (pure_nodes operands)) }
{
    Boxed::new(alloc, Node::Op(false, op, operands))
}

/// A tuple of two.
pub fn pair(alloc: Global, first: Boxed<Node>, second: Boxed<Node>) -> Result<Boxed<Node>, NoMemory>
    ensures { IfOk result (λ n. pure_node n ≡
        node_ex false tuple_literal (more_exs (pure_node first) (more_exs (pure_node second) no_exs))) }
{
    let operands = two(alloc, first, second)?;
    Boxed::new(alloc, Node::Op(false, Op::Tuple, operands))
}

/// A component of a tuple, from 1, Boolean where the mark says so.
pub fn component(
    alloc: Global,
    mark: bool,
    at: u64,
    tuple: Boxed<Node>,
) -> Result<Boxed<Node>, NoMemory>
    ensures { IfOk result (λ n. pure_node n ≡ node_ex mark (index (to_component at ∷ [])) (more_exs (pure_node tuple) no_exs)) }
{
    let operands = only(alloc, tuple)?;
    let mut steps = Row::new(alloc);
    steps.push(Step::Component(at))?;
    Boxed::new(alloc, Node::Op(mark, Op::Index(steps), operands))
}

/// A comprehension with these generators and conditions.
pub fn comprehension(
    alloc: Global,
    body: Boxed<Node>,
    gens: Row<Gen>,
) -> Result<Boxed<Node>, NoMemory>
    ensures { IfOk result (λ n. pure_node n ≡ comp_ex (pure_node body) (pure_gens gens)) }
{
    Boxed::new(alloc, Node::Comp(body, gens))
}
