//! Numbers in the place of those that partial operators read: no divisor is 0, no exponent is below 0.
ghost use Rattle.std.specs.Prelude.{◌≡◌, true, false, IfOk};
ghost use Rattle.ess_semantics.specs.Trees.{truth_ex, comp_ex, cond as cond_gen, no_gens, ex2, fun1};
ghost use Rattle.ess_core_nodes.specs.NodeViews.{pure_node, pure_gens};
ghost use Rattle.ess_refine_laws.specs.Everywhere.{is_nonzero as isnt_zero, is_positive as is_above_zero, chosen as as_chosen, nil_number};
ghost use Rattle.ess_refine_laws.specs.Everywhere.{divisor as divides, base as is_raised, exponent as raises, raised as power, extreme as extreme_of};

use ess_core::{Fun, Op2};
use ess_core_nodes::{Gen, Node, Op, copy_gens};
use ess_node_building::{binary, comprehension, condition, literal, number, truth, two, word};
use ess_rows::{Boxed, NoMemory, Row};
use std::alloc::Global;

/// Whether the tree is a numeral other than 0.
#[tactic(auto, using(ess_core_nodes::proofs::NodeEquations::pure_seen_is, crate::proofs::Numerals::other_than_zero))]
fn is_nonzero(node: &Node) -> bool
    ensures { result ≡ isnt_zero (pure_node node.now) }
{
    match node {
        Node::Number(number) => *number != 0,
        _ => false,
    }
}

/// Whether the tree is a numeral above 0.
#[tactic(auto, using(ess_core_nodes::proofs::NodeEquations::pure_seen_is, crate::proofs::Numerals::above_zero))]
fn is_positive(node: &Node) -> bool
    ensures { result ≡ is_above_zero (pure_node node.now) }
{
    match node {
        Node::Number(number) => *number > 0,
        _ => false,
    }
}

/// A condition as a number: 1 where it is true, else 0. `NoMemory` where there is no room for it.
pub fn chosen(alloc: Global, condition: Boxed<Node>) -> Result<Boxed<Node>, NoMemory>
    ensures { IfOk result (λ n. pure_node n ≡ as_chosen (pure_node condition)) }
{
    word(alloc, false, Fun::ToInt, condition)
}

/// That a number is so to 0.
fn beside_zero(alloc: Global, sign: Op2, node: &Node) -> Result<Boxed<Node>, NoMemory>
    ensures { IfOk result (λ n. pure_node n ≡ ex2 true sign (pure_node node.now) nil_number) }
{
    let node = node.copy(alloc)?;
    let zero = number(alloc, 0)?;
    binary(alloc, true, sign, node, zero)
}

/// `b + toInt(b = 0)`, which isn't 0; b itself where that is a numeral other than 0. `NoMemory` where there is no room for it.
pub(crate) fn divisor(alloc: Global, node: Boxed<Node>) -> Result<Boxed<Node>, NoMemory>
    ensures { IfOk result (λ n. pure_node n ≡ divides (pure_node node)) }
{
    if is_nonzero(node.get()) {
        return Ok(node);
    }
    let is_zero = beside_zero(alloc, Op2::Eq, node.get())?;
    let one = chosen(alloc, is_zero)?;
    binary(alloc, false, Op2::Plus, node, one)
}

/// `a + toInt(a = 0 /\ b <= 0)`, which isn't 0 where b isn't above 0; a itself where that is a numeral other than 0.
fn base(alloc: Global, node: Boxed<Node>, exponent: &Node) -> Result<Boxed<Node>, NoMemory>
    ensures { IfOk result (λ n. pure_node n ≡ is_raised (pure_node node) (pure_node exponent.now)) }
{
    if is_nonzero(node.get()) {
        return Ok(node);
    }
    let is_zero = beside_zero(alloc, Op2::Eq, node.get())?;
    let is_low = beside_zero(alloc, Op2::Le, exponent)?;
    let both = binary(alloc, true, Op2::And, is_zero, is_low)?;
    let one = chosen(alloc, both)?;
    binary(alloc, false, Op2::Plus, node, one)
}

/// `max([b, 0])`
fn exponent(alloc: Global, node: Boxed<Node>) -> Result<Boxed<Node>, NoMemory>
    ensures { IfOk result (λ n. pure_node n ≡ raises (pure_node node)) }
{
    let zero = number(alloc, 0)?;
    let operands = two(alloc, node, zero)?;
    let list = literal(alloc, Op::Matrix, operands)?;
    word(alloc, false, Fun::Max, list)
}

/// `(a + toInt(a = 0 /\ b <= 0)) ** max([b, 0])`; `a ** b` where b is a numeral above 0. `NoMemory` where there is no room for it.
pub(crate) fn raised(
    alloc: Global,
    first: Boxed<Node>,
    second: Boxed<Node>,
) -> Result<Boxed<Node>, NoMemory>
    ensures { IfOk result (λ n. pure_node n ≡ power (pure_node first) (pure_node second)) }
{
    if is_positive(second.get()) {
        return binary(alloc, false, Op2::Pow, first, second);
    }
    let first = base(alloc, first, second.get())?;
    let second = exponent(alloc, second)?;
    binary(alloc, false, Op2::Pow, first, second)
}

/// `sum([min(l) | or([true | gs])])`, where gs are the generators of l, and so with `max`. Of the empty list it is 0. `NoMemory` where
/// there is no room for it.
#[tactic(auto, using(ess_core_nodes::proofs::NodeEquations::pure_seen_is))]
pub(crate) fn extreme(alloc: Global, fun: Fun, list: &Node) -> Result<Boxed<Node>, NoMemory>
    ensures { IfOk result (λ n. pure_node n ≡ extreme_of fun (pure_node list.now)) }
{
    match list {
        Node::Comp(body, gens) => extreme_under(alloc, fun, body.get(), gens.as_slice()),
        Node::Op(false, Op::Matrix, items) => match items.as_slice().split_first() {
            None => number(alloc, 0),
            Some(_) => word(alloc, false, fun, list.copy(alloc)?),
        },
        _ => word(alloc, false, fun, list.copy(alloc)?),
    }
}

/// `sum([min([e | gs]) | or([true | gs])])`
fn extreme_under(
    alloc: Global,
    fun: Fun,
    body: &Node,
    gens: &[Gen],
) -> Result<Boxed<Node>, NoMemory>
    ensures { IfOk result (λ n. pure_node n ≡ fun1 false Fun.Sum (comp_ex (fun1 false fun (comp_ex (pure_node body.now) (pure_gens gens.now)))
        (cond_gen (fun1 true Fun.Or (comp_ex (truth_ex true) (pure_gens gens.now))) no_gens))) }
{
    let list = comprehension(alloc, body.copy(alloc)?, copy_gens(alloc, gens)?)?;
    let least = word(alloc, false, fun, list)?;
    let mut conditions = Row::new(alloc);
    conditions.push(condition(some_binding(alloc, gens)?))?;
    let item = comprehension(alloc, least, conditions)?;
    word(alloc, false, Fun::Sum, item)
}

/// `or([true | gs])`
fn some_binding(alloc: Global, gens: &[Gen]) -> Result<Boxed<Node>, NoMemory>
    ensures { IfOk result (λ n. pure_node n ≡ fun1 true Fun.Or (comp_ex (truth_ex true) (pure_gens gens.now))) }
{
    let gens = copy_gens(alloc, gens)?;
    let item = truth(alloc, true)?;
    let list = comprehension(alloc, item, gens)?;
    word(alloc, true, Fun::Or, list)
}
