//! Shorter forms of numbers that a condition chooses.
ghost use Rattle.std.specs.Prelude.{◌≡◌, true, false, option_map, IfOk};
ghost use Rattle.ess_semantics.specs.Trees.{ex2, fun1};
ghost use Rattle.ess_core_nodes.specs.NodeViews.{pure_node};
ghost use Rattle.ess_rules_laws.specs.ChoiceRules.{choice_shorter as shortened};

use ess_core::{Fun, Op2};
use ess_core_nodes::{Node, Op};
use ess_node_building::{binary, word};
use ess_node_operands::{Operands, by_number};
use ess_rows::{Boxed, NoMemory};
use std::alloc::Global;

/// `toInt(c) * toInt(d)` is `toInt(c /\ d)`, and `toInt(c) * 1` is `toInt(c)`. `NoMemory` where there is no room for it.
#[tactic(auto, using(ess_core_nodes::proofs::NodeEquations::pure_seen_is))]
pub fn choice_shorter(alloc: Global, node: &Node) -> Result<Option<Boxed<Node>>, NoMemory>
    ensures { IfOk result (λ o. option_map pure_node o ≡ shortened (pure_node node.now)) }
{
    match node {
        Node::Op(false, Op::Binary(Op2::Times), operands) => match by_number(operands.as_slice()) {
            Operands::Two(first, second) => shorter_product(alloc, first, second),
            _ => Ok(None),
        },
        _ => Ok(None),
    }
}

/// The same of the product of two numbers.
#[tactic(auto, using(ess_core_nodes::proofs::NodeEquations::pure_seen_is))]
fn shorter_product(
    alloc: Global,
    first: &Node,
    second: &Node,
) -> Result<Option<Boxed<Node>>, NoMemory>
    ensures { IfOk result (λ o. option_map pure_node o ≡ shortened (ex2 false Op2.Times (pure_node first.now) (pure_node second.now))) }
{
    match first {
        Node::Op(false, Op::Word(Fun::ToInt), operands) => match by_number(operands.as_slice()) {
            Operands::One(condition) => shorter_chosen(alloc, condition, second),
            _ => Ok(None),
        },
        _ => Ok(None),
    }
}

/// The same where a condition chooses the first.
#[tactic(auto, using(ess_core_nodes::proofs::NodeEquations::pure_seen_is, crate::proofs::ChoiceForms::times_one))]
fn shorter_chosen(
    alloc: Global,
    condition: &Node,
    second: &Node,
) -> Result<Option<Boxed<Node>>, NoMemory>
    ensures { IfOk result (λ o. option_map pure_node o
        ≡ shortened (ex2 false Op2.Times (fun1 false Fun.ToInt (pure_node condition.now)) (pure_node second.now))) }
{
    match second {
        Node::Number(number) => {
            if *number == 1 {
                let condition = condition.copy(alloc)?;
                Ok(Some(word(alloc, false, Fun::ToInt, condition)?))
            } else {
                Ok(None)
            }
        }
        Node::Op(false, Op::Word(Fun::ToInt), operands) => match by_number(operands.as_slice()) {
            Operands::One(other) => Ok(Some(chosen_by_both(alloc, condition, other)?)),
            _ => Ok(None),
        },
        _ => Ok(None),
    }
}

/// `toInt(c /\ d)`
fn chosen_by_both(alloc: Global, condition: &Node, other: &Node) -> Result<Boxed<Node>, NoMemory>
    ensures { IfOk result (λ n. pure_node n ≡ fun1 false Fun.ToInt (ex2 true Op2.And (pure_node condition.now) (pure_node other.now))) }
{
    let condition = condition.copy(alloc)?;
    let other = other.copy(alloc)?;
    let both = binary(alloc, true, Op2::And, condition, other)?;
    word(alloc, false, Fun::ToInt, both)
}
