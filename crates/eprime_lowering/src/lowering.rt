//! Expressions of models for refined trees.
ghost use Rattle.std.specs.Prelude.{◌≡◌, [], ◌∷◌, IfOk, length, map, option_map};
ghost use Rattle.ess_semantics.specs.Lists.{each_of};
ghost use Rattle.ess_semantics.specs.Trees.{cell_ex, node_ex};
ghost use Rattle.ess_grammar.specs.Models.{is_truth_table, same_truth};
ghost use Rattle.ess_core_nodes.specs.NodeViews.{pure_node, pure_nodes, pure_op};
ghost use Rattle.eprime_tree.specs.Views.{pure_ex};
ghost use Rattle.eprime_read_convert.specs.Lines.{scope_of};
ghost use Rattle.eprime_lowering.specs.Lowered.{lowered, lowered_node, lowered_two, lowered_fold, lowered_lex};

use crate::building::{cell, fold, lex, one, two};
use crate::lists::lower_list;
use crate::operators;
use crate::operators::is_truth_op;
use eprime_read_convert::Lines;
use eprime_read_convert::lines::truth_of;
use eprime_tree::PEx;
use ess_core_nodes::{Node, Op};
use ess_rows::{Boxed, NoMemory, Row, Text};
use std::alloc::Global;

/// The expression of a model that stands for the tree, where these lines declare names: the answer is None where none does, as where
/// an abstract operator or a view is left, an operator lacks an operand, or a cell is a truth value and its table has numbers.
/// `NoMemory` where there is no room for it.
#[cycle(lower)]
#[tactic(auto, using(crate::proofs::Nodes::node_is, crate::proofs::Nodes::cell_is, ess_core_nodes::proofs::NodeEquations::pure_seen_is))]
pub fn lower(alloc: Global, lines: &Lines, node: &Node) -> Result<Option<Boxed<PEx>>, NoMemory>
    ensures { IfOk result (λ o. option_map (pure_ex (scope_of lines.now)) o ≡ lowered (scope_of lines.now) (pure_node node.now)) }
{
    match node {
        Node::Number(number) => Ok(Some(Boxed::new(alloc, PEx::Num(*number))?)),
        Node::Truth(truth) => Ok(Some(Boxed::new(alloc, PEx::Truth(*truth))?)),
        Node::Name(name) => Ok(Some(Boxed::new(alloc, PEx::Name(name.copy(alloc)?))?)),
        Node::Cell(is_bool, name, at) => lower_cell(alloc, lines, at.as_slice(), *is_bool, name),
        Node::Op(mark, op, operands) => lower_op(alloc, lines, operands.as_slice(), *mark, op),
        _ => Ok(None),
    }
}

/// A cell at its indices.
#[cycle(lower)]
fn lower_cell(
    alloc: Global,
    lines: &Lines,
    at: &[Node],
    is_bool: bool,
    name: &Text,
) -> Result<Option<Boxed<PEx>>, NoMemory>
    ensures { IfOk result (λ o. option_map (pure_ex (scope_of lines.now)) o
        ≡ lowered (scope_of lines.now) (cell_ex is_bool name.now (pure_nodes at.now))) }
{
    if !are_same(is_bool, is_truth(lines, name)) {
        return Ok(None);
    }
    let indices = lower_all(alloc, lines, at)?;
    cell(alloc, name, indices)
}

/// Whether the cells of a table are truth values.
fn is_truth(lines: &Lines, name: &Text) -> bool
    ensures { result ≡ is_truth_table (scope_of lines.now) name.now }
{
    match truth_of(lines, name) {
        Some(truth) => truth,
        None => false,
    }
}

/// Whether two truth values are the same.
fn are_same(a: bool, b: bool) -> bool
    ensures { result ≡ same_truth a b }
{
    if a { b } else { !b }
}

/// An operator with its operands.
#[cycle(lower)]
fn lower_op(
    alloc: Global,
    lines: &Lines,
    operands: &[Node],
    mark: bool,
    op: &Op,
) -> Result<Option<Boxed<PEx>>, NoMemory>
    ensures { IfOk result (λ o. option_map (pure_ex (scope_of lines.now)) o
        ≡ lowered (scope_of lines.now) (node_ex mark (pure_op op.now) (pure_nodes operands.now))) }
{
    if !are_same(mark, is_truth_op(op)) {
        return Ok(None);
    }
    lower_operands(alloc, lines, operands, op)
}

/// An operator with its operands, which is Boolean where it gives truth values.
#[cycle(lower)]
fn lower_operands(
    alloc: Global,
    lines: &Lines,
    operands: &[Node],
    op: &Op,
) -> Result<Option<Boxed<PEx>>, NoMemory>
    ensures { IfOk result (λ o. option_map (pure_ex (scope_of lines.now)) o
        ≡ lowered_node (scope_of lines.now) (pure_op op.now) (map pure_node operands.now)) }
{
    if operands.len() != 1 {
        return lower_two(alloc, lines, operands, op);
    }
    lower_one(alloc, lines, &operands[0], op)
}

/// An operator with one operand.
#[cycle(lower)]
fn lower_one(
    alloc: Global,
    lines: &Lines,
    operand: &Node,
    op: &Op,
) -> Result<Option<Boxed<PEx>>, NoMemory>
    ensures { IfOk result (λ o. option_map (pure_ex (scope_of lines.now)) o
        ≡ lowered_node (scope_of lines.now) (pure_op op.now) (pure_node operand.now ∷ [])) }
{
    match operators::prefix(op) {
        Some(sign) => one(alloc, sign, lower(alloc, lines, operand)?),
        None => lower_fold(alloc, lines, operand, op),
    }
}

/// A word over a list.
#[cycle(lower)]
fn lower_fold(
    alloc: Global,
    lines: &Lines,
    operand: &Node,
    op: &Op,
) -> Result<Option<Boxed<PEx>>, NoMemory>
    ensures { IfOk result (λ o. option_map (pure_ex (scope_of lines.now)) o
        ≡ lowered_fold (scope_of lines.now) (pure_op op.now) (pure_node operand.now)) }
{
    match operators::over_list(op) {
        Some(word) => fold(alloc, word, lower_list(alloc, lines, operand)?),
        None => Ok(None),
    }
}

/// An operator with two operands: with others the answer is None.
#[cycle(lower)]
fn lower_two(
    alloc: Global,
    lines: &Lines,
    operands: &[Node],
    op: &Op,
) -> Result<Option<Boxed<PEx>>, NoMemory>
    ensures { IfOk result (λ o. option_map (pure_ex (scope_of lines.now)) o
        ≡ lowered_two (scope_of lines.now) (pure_op op.now) (map pure_node operands.now)) }
{
    if operands.len() != 2 {
        return Ok(None);
    }
    match operators::infix(op) {
        Some(sign) => {
            let left = lower(alloc, lines, &operands[0])?;
            let right = lower(alloc, lines, &operands[1])?;
            two(alloc, sign, left, right)
        }
        None => lower_lex(alloc, lines, operands, op),
    }
}

/// A sign between two lists.
#[cycle(lower)]
fn lower_lex(
    alloc: Global,
    lines: &Lines,
    operands: &[Node],
    op: &Op,
) -> Result<Option<Boxed<PEx>>, NoMemory>
    requires { length operands.now ≡ 2 }
    ensures { IfOk result (λ o. option_map (pure_ex (scope_of lines.now)) o
        ≡ lowered_lex (scope_of lines.now) (pure_op op.now) (map pure_node operands.now)) }
{
    match operators::lex(op) {
        Some(sign) => {
            let left = lower_list(alloc, lines, &operands[0])?;
            let right = lower_list(alloc, lines, &operands[1])?;
            lex(alloc, sign, left, right)
        }
        None => Ok(None),
    }
}

/// Several expressions, where all are those of a model.
#[cycle(lower)]
pub(crate) fn lower_all(
    alloc: Global,
    lines: &Lines,
    nodes: &[Node],
) -> Result<Option<Row<PEx>>, NoMemory>
    ensures { IfOk result (λ o. option_map (map (pure_ex (scope_of lines.now))) o
        ≡ each_of (map pure_node nodes.now) (lowered (scope_of lines.now))) }
{
    let mut items = Row::with_capacity(alloc, nodes.len())?;
    for node in nodes {
        match lower(alloc, lines, node)? {
            Some(item) => items.push(item.into_inner())?,
            None => return Ok(None),
        }
    }
    Ok(Some(items))
}
