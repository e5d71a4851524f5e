//! Expressions of the tool's trees as nodes.
ghost use Rattle.std.specs.Prelude.{◌≡◌, false, IfOk, map};
ghost use Rattle.ess_semantics.specs.Trees.{node_ex, is_truth_op1 as is_true_op1, is_truth_op2 as is_true_op2, more_exs, no_exs};
ghost use Rattle.ess_core.specs.TreeViews.{pure_ex, call_mark as mark_of_call};
ghost use Rattle.ess_core_nodes.specs.NodeViews.{pure_node, pure_nodes, pure_op};

use crate::converting_domains::dom_of;
use crate::converting_generators::{gens_of, seen_of};
use crate::converting_literals::{
    field_nodes, matrix_node, pair_nodes, path_node, record_node, steps_of,
};
use crate::nodes::Node;
use crate::words::Op;
use ess_core::{Ex, Fun, Op1, Op2};
use ess_rows::{Boxed, NoMemory, Row};
use std::alloc::Global;

/// The node of an expression. `NoMemory` where there is no room for it.
#[cycle(convert)]
pub fn node_of(alloc: Global, ex: &Ex) -> Result<Boxed<Node>, NoMemory>
    ensures { IfOk result (λ n. pure_node n ≡ pure_ex ex.now) }
{
    match ex {
        Ex::Num(number) => Boxed::new(alloc, Node::Number(*number)),
        Ex::Truth(truth) => Boxed::new(alloc, Node::Truth(*truth)),
        Ex::Name(name) => {
            let name = name.copy(alloc)?;
            Boxed::new(alloc, Node::Name(name))
        }
        Ex::One(op, a) => one_node(alloc, *op, node_of(alloc, a.get())?),
        Ex::Two(op, a, b) => {
            let a = node_of(alloc, a.get())?;
            let b = node_of(alloc, b.get())?;
            two_node(alloc, *op, a, b)
        }
        Ex::Call(mark, fun, operands) => {
            let operands = nodes_of(alloc, operands.as_slice())?;
            Boxed::new(
                alloc,
                Node::Op(call_mark(*mark, *fun), Op::Word(*fun), operands),
            )
        }
        Ex::At(mark, place, steps) => {
            let place = node_of(alloc, place.get())?;
            let (path, values) = steps_of(alloc, steps.as_slice())?;
            path_node(alloc, *mark, place, path, values)
        }
        Ex::Apply(mark, applied, arguments) => {
            let applied = node_of(alloc, applied.get())?;
            let arguments = nodes_of(alloc, arguments.as_slice())?;
            apply_node(alloc, *mark, applied, arguments)
        }
        Ex::Tuple(items) => literal(alloc, Op::Tuple, nodes_of(alloc, items.as_slice())?),
        Ex::Rec(fields) => {
            let values = field_nodes(alloc, fields.as_slice())?;
            record_node(alloc, fields.as_slice(), values)
        }
        Ex::Set(members) => literal(alloc, Op::Set, nodes_of(alloc, members.as_slice())?),
        Ex::MSet(members) => literal(alloc, Op::MSet, nodes_of(alloc, members.as_slice())?),
        Ex::Function(pairs) => literal(alloc, Op::Function, pair_nodes(alloc, pairs.as_slice())?),
        Ex::Relation(tuples) => literal(alloc, Op::Relation, nodes_of(alloc, tuples.as_slice())?),
        Ex::Partition(parts) => literal(alloc, Op::Partition, nodes_of(alloc, parts.as_slice())?),
        Ex::Matrix(items, None) => literal(alloc, Op::Matrix, nodes_of(alloc, items.as_slice())?),
        Ex::Matrix(items, Some(axis)) => {
            let items = nodes_of(alloc, items.as_slice())?;
            let axis = dom_of(alloc, axis.get())?;
            matrix_node(alloc, items, axis)
        }
        Ex::Comp(body, gens) => {
            let body = node_of(alloc, body.get())?;
            let gens = gens_of(alloc, gens.as_slice())?;
            Boxed::new(alloc, Node::Comp(body, gens))
        }
        Ex::Cell(is_bool, name, at) => {
            let at = nodes_of(alloc, at.as_slice())?;
            let name = name.copy(alloc)?;
            Boxed::new(alloc, Node::Cell(*is_bool, name, at))
        }
        Ex::Seen(view) => seen_of(alloc, view.get()),
    }
}

/// The nodes of several expressions.
#[cycle(convert)]
pub(crate) fn nodes_of(alloc: Global, exs: &[Ex]) -> Result<Row<Node>, NoMemory>
    ensures { IfOk result (λ ns. map pure_node ns ≡ map pure_ex exs.now) }
{
    let mut nodes = Row::with_capacity(alloc, exs.len())?;
    for ex in exs {
        let node = node_of(alloc, ex)?;
        nodes.push(node.into_inner())?;
    }
    Ok(nodes)
}

/// A prefix operator, or bars.
fn one_node(alloc: Global, op: Op1, a: Boxed<Node>) -> Result<Boxed<Node>, NoMemory>
    ensures { IfOk result (λ n. pure_node n ≡ node_ex (is_true_op1 op) (pure_op (Op.Unary op)) (more_exs (pure_node a) no_exs)) }
{
    let mut operands = Row::new(alloc);
    operands.push(a.into_inner())?;
    Boxed::new(alloc, Node::Op(is_truth_op1(op), Op::Unary(op), operands))
}

/// An operator between two operands.
fn two_node(alloc: Global, op: Op2, a: Boxed<Node>, b: Boxed<Node>) -> Result<Boxed<Node>, NoMemory>
    ensures { IfOk result (λ n. pure_node n
        ≡ node_ex (is_true_op2 op) (pure_op (Op.Binary op)) (more_exs (pure_node a) (more_exs (pure_node b) no_exs))) }
{
    let mut operands = Row::new(alloc);
    operands.push(a.into_inner())?;
    operands.push(b.into_inner())?;
    Boxed::new(alloc, Node::Op(is_truth_op2(op), Op::Binary(op), operands))
}

/// An application.
fn apply_node(
    alloc: Global,
    mark: bool,
    applied: Boxed<Node>,
    mut arguments: Row<Node>,
) -> Result<Boxed<Node>, NoMemory>
    ensures { IfOk result (λ n. pure_node n
        ≡ node_ex mark (pure_op Op.Apply) (more_exs (pure_node applied) (pure_nodes arguments))) }
{
    arguments.insert(0, applied.into_inner())?;
    Boxed::new(alloc, Node::Op(mark, Op::Apply, arguments))
}

/// A literal.
fn literal(alloc: Global, op: Op, parts: Row<Node>) -> Result<Boxed<Node>, NoMemory>
    ensures { IfOk result (λ n. pure_node n ≡ node_ex false (pure_op op) (pure_nodes parts)) }
{
    Boxed::new(alloc, Node::Op(false, op, parts))
}

/// Whether a call of a word is Boolean: the mark of a call turns what the word says.
fn call_mark(mark: bool, fun: Fun) -> bool
    ensures { result ≡ mark_of_call mark fun }
{
    match fun {
        Fun::And | Fun::Or | Fun::AllDiff | Fun::Together => !mark,
        _ => mark,
    }
}

/// Whether a prefix operator gives a truth value.
fn is_truth_op1(op: Op1) -> bool
    ensures { result ≡ is_true_op1 op }
{
    match op {
        Op1::Not => true,
        _ => false,
    }
}

/// Whether an operator between two operands gives one.
fn is_truth_op2(op: Op2) -> bool
    ensures { result ≡ is_true_op2 op }
{
    match op {
        Op2::Pow | Op2::Times | Op2::Div | Op2::Mod => false,
        Op2::Intersect | Op2::Plus | Op2::Minus | Op2::Union => false,
        _ => true,
    }
}
