//! An index of several steps, step by step.
ghost use Rattle.std.specs.Prelude.{◌≡◌, false, map, [], ◌∷◌, option_map, IfOk};
ghost use Rattle.ess_semantics.specs.Trees.{by_value, index, node_ex, more_exs};
ghost use Rattle.ess_core_nodes.specs.NodeViews.{pure_node, pure_nodes, pure_step};
ghost use Rattle.ess_rules_laws.specs.IndexSteps.{step_apart};
ghost use Rattle.ess_rules_picked.specs.Paths.{first_apart};

use ess_core_nodes::{Node, Op, Step, copy_nodes};
use ess_node_building::{joined, literal, only, two};
use ess_rows::{Boxed, NoMemory, Row};
use std::alloc::Global;

/// An index of several steps becomes one by the other steps of an index by the first one. Nothing for another root; `NoMemory` where
/// there is no room for it.
#[tactic(auto, using(ess_core_nodes::proofs::NodeEquations::pure_seen_is))]
pub fn step_apart(alloc: Global, node: &Node) -> Result<Option<Boxed<Node>>, NoMemory>
    ensures { IfOk result (λ o. option_map pure_node o ≡ step_apart (pure_node node.now)) }
{
    match node {
        Node::Op(mark, Op::Index(steps), operands) => {
            steps_apart(alloc, *mark, steps.as_slice(), operands.as_slice())
        }
        _ => Ok(None),
    }
}

/// The same by the steps and the operands.
#[tactic(auto, using(crate::proofs::PathForms::apart_at_two, crate::proofs::PathForms::apart_at_one))]
fn steps_apart(
    alloc: Global,
    mark: bool,
    steps: &[Step],
    operands: &[Node],
) -> Result<Option<Boxed<Node>>, NoMemory>
    ensures { IfOk result (λ o. option_map pure_node o
        ≡ step_apart (node_ex mark (index (map pure_step steps.now)) (pure_nodes operands.now))) }
{
    match steps.split_first() {
        None => Ok(None),
        Some((step, rest)) => match rest.split_first() {
            None => Ok(None),
            Some(_) => first_apart(alloc, mark, step, rest, operands),
        },
    }
}

/// The other steps, of which there are some, of an index by the first one.
fn first_apart(
    alloc: Global,
    mark: bool,
    step: &Step,
    rest: &[Step],
    operands: &[Node],
) -> Result<Option<Boxed<Node>>, NoMemory>
    ensures { IfOk result (λ o. option_map pure_node o
        ≡ first_apart mark (pure_step step.now) (map pure_step rest.now) (pure_nodes operands.now)) }
{
    match operands.split_first() {
        None => Ok(None),
        Some((term, behind)) => match step {
            Step::Value => value_apart(alloc, mark, rest, term, behind),
            _ => {
                let operands = only(alloc, term.copy(alloc)?)?;
                let inner = picked(alloc, step, operands)?;
                Ok(Some(outer(alloc, mark, rest, inner, behind)?))
            }
        },
    }
}

/// The same where the first step is by a value.
fn value_apart(
    alloc: Global,
    mark: bool,
    rest: &[Step],
    term: &Node,
    behind: &[Node],
) -> Result<Option<Boxed<Node>>, NoMemory>
    ensures { IfOk result (λ o. option_map pure_node o
        ≡ first_apart mark by_value (map pure_step rest.now) (more_exs (pure_node term.now) (pure_nodes behind.now))) }
{
    match behind.split_first() {
        None => Ok(None),
        Some((at, behind)) => {
            let operands = two(alloc, term.copy(alloc)?, at.copy(alloc)?)?;
            let inner = picked(alloc, &Step::Value, operands)?;
            Ok(Some(outer(alloc, mark, rest, inner, behind)?))
        }
    }
}

/// An index by one step.
fn picked(alloc: Global, step: &Step, operands: Row<Node>) -> Result<Boxed<Node>, NoMemory>
    ensures { IfOk result (λ n. pure_node n ≡ node_ex false (index (pure_step step.now ∷ [])) (pure_nodes operands)) }
{
    let mut steps = Row::new(alloc);
    match step.copy(alloc) {
        Ok(step) => steps.push(step)?,
        Err(no) => return Err(no),
    }
    literal(alloc, Op::Index(steps), operands)
}

/// An index of a term by these steps.
fn outer(
    alloc: Global,
    mark: bool,
    rest: &[Step],
    inner: Boxed<Node>,
    behind: &[Node],
) -> Result<Boxed<Node>, NoMemory>
    ensures { IfOk result (λ n. pure_node n
        ≡ node_ex mark (index (map pure_step rest.now)) (more_exs (pure_node inner) (pure_nodes behind.now))) }
{
    let first = only(alloc, inner)?;
    let operands = joined(first, copy_nodes(alloc, behind)?)?;
    let steps = copy_steps(alloc, rest)?;
    Boxed::new(alloc, Node::Op(mark, Op::Index(steps), operands))
}

/// A copy of steps.
fn copy_steps(alloc: Global, steps: &[Step]) -> Result<Row<Step>, NoMemory>
    ensures { IfOk result (λ ss. ss ≡ steps.now) }
{
    let mut copies = Row::with_capacity(alloc, steps.len())?;
    for step in steps {
        match step.copy(alloc) {
            Ok(copy) => copies.push(copy)?,
            Err(no) => return Err(no),
        }
    }
    Ok(copies)
}
