//! The index domain of a matrix term, as its form tells it.
ghost use Rattle.std.specs.Prelude.{◌≡◌, pos, false, IfOk, map, option_map};
ghost use Rattle.std.specs.Option.{option_copied};
ghost use Rattle.ess_semantics.specs.Trees.{node_ex, number_ex, comp_ex, fun1, index};
ghost use Rattle.ess_semantics.specs.Constants.{operand_count};
ghost use Rattle.ess_core_nodes.specs.NodeViews.{pure_node, pure_nodes, pure_dom, pure_doms, pure_gens, pure_op, pure_step};
ghost use Rattle.ess_guard_laws.specs.IndexDomains.{one_up_to as from_one_to, dom_followed, is_plain_bound as is_plain_one};
ghost use Rattle.ess_guard_laws.specs.IndexDomains.{are_plain_bounds as are_plain, plain_axis as the_plain_axis};
ghost use Rattle.ess_guard_laws.specs.IndexDomains.{index_dom as the_index_dom};
ghost use Rattle.ess_guard_forms.specs.PartForms.{axes_of, axes_behind as axes_left, first_axis as the_first_axis};
ghost use Rattle.ess_guard_forms.specs.PartForms.{inner_axes as the_inner_axes, is_plain_operator};

use ess_core::{Fun, Op1, Op2};
use ess_core_nodes::{Ends, Gen, Node, NodeDom, Op, Step, copy_gens};
use ess_node_building::{number, word};
use ess_rows::{Boxed, NoMemory, Row};
use std::alloc::Global;

/// `int(1..n)`. `NoMemory` where there is no room for it.
pub fn one_up_to(alloc: Global, count: Boxed<Node>) -> Result<Boxed<NodeDom>, NoMemory>
    ensures { IfOk result (λ d. pure_dom d ≡ from_one_to (pure_node count)) }
{
    let one = number(alloc, 1)?;
    let mut bounds = Row::new(alloc);
    bounds.push(one.into_inner())?;
    bounds.push(count.into_inner())?;
    let mut ends = Row::new(alloc);
    ends.push(Ends::Both)?;
    Boxed::new(alloc, NodeDom::Int(ends, bounds))
}

/// The index domains of the domain that the values of a term follow, where it is one of matrices.
#[cycle(followed)]
#[tactic(auto, using(ess_core_nodes::proofs::NodeEquations::pure_seen_is))]
fn axes_followed(node: &Node) -> Option<&[NodeDom]>
    ensures { option_map pure_doms (option_copied result) ≡ axes_of (dom_followed (pure_node node.now)) }
{
    match node {
        Node::Seen(view) => match view.get().dom.get() {
            NodeDom::Matrix(axes, _) => Some(axes.as_slice()),
            _ => None,
        },
        Node::Op(true, _, _) => None,
        Node::Op(false, Op::Index(path), operands) => {
            axes_at(path.as_slice(), operands.as_slice())
        }
        _ => None,
    }
}

/// The same of an index.
#[cycle(followed)]
#[tactic(auto, using(crate::proofs::AxesFollowed::followed_split, crate::proofs::AxesFollowed::axes_after))]
fn axes_at<'a>(path: &[Step], operands: &'a [Node]) -> Option<&'a [NodeDom]>
    ensures { option_map pure_doms (option_copied result)
        ≡ axes_of (dom_followed (node_ex false (index (map pure_step path.now)) (pure_nodes operands.now))) }
{
    match operands.split_first() {
        None => None,
        Some((matrix, at)) => axes_behind(axes_followed(matrix), path, at),
    }
}

/// The index domains behind several steps by the values of these operands.
fn axes_behind<'a>(axes: Option<&'a [NodeDom]>, path: &[Step], at: &[Node]) -> Option<&'a [NodeDom]>
    ensures { option_map pure_doms (option_copied result)
        ≡ axes_left (option_map pure_doms (option_copied axes.entry)) (map pure_step path.now) (pure_nodes at.now) }
{
    match path.split_first() {
        None => match at.split_first() {
            None => axes,
            Some(_) => None,
        },
        Some((Step::Value, rest)) => match at.split_first() {
            None => None,
            Some((_, more)) => axes_behind(inner_axes(axes), rest, more),
        },
        Some(_) => None,
    }
}

/// The index domains behind the first one, where there are some.
fn inner_axes(axes: Option<&[NodeDom]>) -> Option<&[NodeDom]>
    ensures { option_map pure_doms (option_copied result) ≡ the_inner_axes (option_map pure_doms (option_copied axes.entry)) }
{
    match axes {
        None => None,
        Some(axes) => match axes.split_first() {
            None => None,
            Some((_, rest)) => match rest.split_first() {
                None => None,
                Some(_) => Some(rest),
            },
        },
    }
}

/// The first of index domains.
fn first_axis(axes: Option<&[NodeDom]>) -> Option<&NodeDom>
    ensures { option_map pure_dom (option_copied result) ≡ the_first_axis (option_map pure_doms (option_copied axes.entry)) }
{
    match axes {
        None => None,
        Some(axes) => match axes.split_first() {
            None => None,
            Some((axis, _)) => Some(axis),
        },
    }
}

/// Whether it is a number, a name, a cell, or a sum, difference or product of these.
#[cycle(plain)]
#[tactic(auto, using(ess_core_nodes::proofs::NodeEquations::pure_seen_is))]
fn is_plain_bound(node: &Node) -> bool
    ensures { result ≡ is_plain_one (pure_node node.now) }
{
    match node {
        Node::Number(_) => true,
        Node::Name(_) => true,
        Node::Cell(_, _, at) => are_plain_bounds(at.as_slice()),
        Node::Op(true, _, _) => false,
        Node::Op(false, op, operands) => is_plain_op(op) && are_plain_bounds(operands.as_slice()),
        _ => false,
    }
}

/// The same of several.
#[cycle(plain)]
fn are_plain_bounds(nodes: &[Node]) -> bool
    ensures { result ≡ are_plain (pure_nodes nodes.now) }
{
    for node in nodes {
        if !is_plain_bound(node) {
            return false;
        }
    }
    true
}

/// Whether the operator is one of sums, differences and products.
fn is_plain_op(op: &Op) -> bool
    ensures { result ≡ is_plain_operator (pure_op op.now) }
{
    match op {
        Op::Unary(Op1::Minus) => true,
        Op::Binary(Op2::Plus | Op2::Minus | Op2::Times) => true,
        _ => false,
    }
}

/// An index domain with such bounds, which binds no names.
pub fn plain_axis(axis: Option<&NodeDom>) -> Option<&NodeDom>
    ensures { option_map pure_dom (option_copied result) ≡ the_plain_axis (option_map pure_dom (option_copied axis.entry)) }
{
    match axis {
        None => None,
        Some(dom) => match dom {
            NodeDom::Bool => Some(dom),
            NodeDom::Name(_) => Some(dom),
            NodeDom::Int(_, bounds) => {
                if are_plain_bounds(bounds.as_slice()) {
                    Some(dom)
                } else {
                    None
                }
            }
            _ => None,
        },
    }
}

/// The index domain of a matrix term, if its form tells one. Lists are numbered from 1. `NoMemory` where there is no room for it.
#[tactic(auto, using(crate::proofs::AxesFollowed::first_followed, ess_core_nodes::proofs::NodeEquations::pure_seen_is))]
pub fn index_dom(alloc: Global, node: &Node) -> Result<Option<Boxed<NodeDom>>, NoMemory>
    ensures { IfOk result (λ o. option_map pure_dom o ≡ the_index_dom (pure_node node.now)) }
{
    match node {
        Node::Op(false, Op::Matrix, operands) => {
            let count = counted(alloc, operands.as_slice())?;
            Ok(Some(one_up_to(alloc, count)?))
        }
        Node::MatrixOn(_, axis) => Ok(Some(axis.get().copy(alloc)?)),
        Node::Comp(_, gens) => {
            let count = items_counted(alloc, gens.as_slice())?;
            Ok(Some(one_up_to(alloc, count)?))
        }
        _ => match plain_axis(first_axis(axes_followed(node))) {
            Some(axis) => Ok(Some(axis.copy(alloc)?)),
            None => Ok(None),
        },
    }
}

/// How many operands there are, as a tree. `NoMemory` where there is no room for it.
#[tactic(auto, using(crate::proofs::OperandCounts::count_number))]
pub fn counted(alloc: Global, operands: &[Node]) -> Result<Boxed<Node>, NoMemory>
    ensures { IfOk result (λ n. pure_node n ≡ number_ex (pos (operand_count (pure_nodes operands.now)))) }
{
    let count = operands.len();
    let counted = number_of(alloc, count)?;
    Ok(counted)
}

/// A number of things, as a tree.
fn number_of(alloc: Global, count: usize) -> Result<Boxed<Node>, NoMemory>
    ensures { IfOk result (λ n. pure_node n ≡ number_ex (pos count)) }
{
    match i64::try_from(count) {
        Ok(count) => number(alloc, count),
        Err(_) => Err(NoMemory),
    }
}

/// How many items a comprehension with these generators has: `sum([1 | gens])`. `NoMemory` where there is no room for it.
pub fn items_counted(alloc: Global, gens: &[Gen]) -> Result<Boxed<Node>, NoMemory>
    ensures { IfOk result (λ n. pure_node n ≡ fun1 false Fun.Sum (comp_ex (number_ex (pos 1)) (pure_gens gens.now))) }
{
    let gens = copy_gens(alloc, gens)?;
    let one = number(alloc, 1)?;
    let ones = Boxed::new(alloc, Node::Comp(one, gens))?;
    word(alloc, false, Fun::Sum, ones)
}
