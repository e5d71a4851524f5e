//! What the form of a term tells: whether it is a truth value, what it is as an index, and which conditions hold.
ghost use Rattle.std.specs.Prelude.{◌≡◌, ◌++◌, IfOk, map};
ghost use Rattle.ess_core.specs.TreeViews.{cond_item};
ghost use Rattle.ess_core_nodes.specs.NodeViews.{pure_node, pure_nodes, pure_gen};
ghost use Rattle.ess_semantics.specs.Trees.{bool_dom};
ghost use Rattle.ess_guard_laws.specs.Origins.{is_sure};
ghost use Rattle.ess_guard_laws.specs.Conditions.{unless};
ghost use Rattle.ess_guard_forms.specs.KnownNames.{pure_known};
ghost use Rattle.ess_keys_laws.specs.KeyForms.{is_truth, as_index, is_scalar, same_key, is_settled};
ghost use Rattle.ess_keys_laws.specs.Keyed.{conjuncts, all_conjuncts};

use crate::around::same_name;
use crate::chains::{items_under_and, sides};
use ess_core::{Fun, Op2};
use ess_core_nodes::{Gen, Node, NodeDom, Op};
use ess_guard_forms::{KnownName, is_number, is_sure, pair_in};
use ess_node_building::{number, word};
use ess_rows::{Boxed, NoMemory, Row};
use std::alloc::Global;

/// Whether the term is a truth value.
#[tactic(auto, using(ess_core_nodes::proofs::NodeEquations::pure_seen_is))]
pub(crate) fn is_truth(known: &[KnownName], node: &Node) -> bool
    ensures { result ≡ is_truth (pure_known known.now) (pure_node node.now) }
{
    match node {
        Node::Truth(_) => true,
        Node::Name(_) => runs_over_truths(known, node),
        Node::Op(mark, _, _) => *mark,
        Node::Cell(mark, _, _) => *mark,
        _ => false,
    }
}

/// Whether the term is sure to be a member of `bool`.
fn runs_over_truths(known: &[KnownName], node: &Node) -> bool
    ensures { result ≡ is_sure (pure_known known.now) (pure_node node.now) bool_dom }
{
    let truths = NodeDom::Bool;
    let sure = is_sure(known, node, &truths);
    drop(truths);
    sure
}

/// An index as a number.
#[tactic(auto, using(ess_core_nodes::proofs::NodeEquations::pure_seen_is))]
pub(crate) fn as_index(
    alloc: Global,
    known: &[KnownName],
    node: Boxed<Node>,
) -> Result<Boxed<Node>, NoMemory>
    ensures { IfOk result (λ n. pure_node n ≡ as_index (pure_known known.now) (pure_node node)) }
{
    match node.get() {
        Node::Truth(true) => number(alloc, 1),
        Node::Truth(false) => number(alloc, 0),
        _ => {
            if is_truth(known, node.get()) {
                word(alloc, false, Fun::ToInt, node)
            } else {
                Ok(node)
            }
        }
    }
}

/// Whether the term is a number or a truth value.
fn is_scalar(known: &[KnownName], node: &Node) -> bool
    ensures { result ≡ is_scalar (pure_known known.now) (pure_node node.now) }
{
    is_number(known, node) || is_truth(known, node)
}

/// Whether both are one number, or one name of a number or truth value.
#[tactic(auto, using(ess_core_nodes::proofs::NodeEquations::pure_seen_is))]
fn same_key(known: &[KnownName], a: &Node, b: &Node) -> bool
    ensures { result ≡ same_key (pure_known known.now) (pure_node a.now) (pure_node b.now) }
{
    match a {
        Node::Number(first) => match b {
            Node::Number(second) => *first == *second,
            _ => false,
        },
        Node::Name(first) => match b {
            Node::Name(second) => same_name(first, second) && is_scalar(known, a),
            _ => false,
        },
        _ => false,
    }
}

/// Whether the condition holds by its form.
#[tactic(auto, using(ess_core_nodes::proofs::NodeEquations::pure_seen_is, crate::proofs::Pairs::not_settled))]
fn is_settled(known: &[KnownName], node: &Node) -> bool
    ensures { result ≡ is_settled (pure_known known.now) (pure_node node.now) }
{
    match node {
        Node::Truth(value) => *value,
        Node::Op(true, Op::Binary(Op2::Eq), operands) => match pair_in(operands.as_slice()) {
            Some((first, second)) => same_key(known, first, second),
            None => false,
        },
        _ => false,
    }
}

/// A condition as its conjuncts, without those that hold by their form.
#[cycle(conjuncts)]
#[tactic(auto, using(crate::proofs::Pairs::two_conjuncts))]
pub(crate) fn conjuncts(
    alloc: Global,
    known: &[KnownName],
    node: &Node,
) -> Result<Row<Gen>, NoMemory>
    ensures { IfOk result (λ gs. map pure_gen gs ≡ map cond_item (conjuncts (pure_known known.now) (pure_node node.now))) }
{
    match items_under_and(node) {
        Some(items) => all_conjuncts(alloc, known, items),
        None => match sides(node) {
            Some((first, second)) => {
                let first = conjuncts(alloc, known, first)?;
                let second = conjuncts(alloc, known, second)?;
                joined_gens(first, second)
            }
            None => unless_settled(alloc, known, node),
        },
    }
}

/// The conjuncts of several conditions.
#[cycle(conjuncts)]
#[tactic(auto, using(crate::proofs::Pairs::more_conjuncts, crate::proofs::Pairs::all_the_conjuncts))]
fn all_conjuncts(alloc: Global, known: &[KnownName], nodes: &[Node]) -> Result<Row<Gen>, NoMemory>
    ensures { IfOk result (λ gs. map pure_gen gs ≡ map cond_item (all_conjuncts (pure_known known.now) (pure_nodes nodes.now))) }
{
    let mut all = Row::new(alloc);
    for node in nodes {
        let mut more = conjuncts(alloc, known, node)?;
        all.append(&mut more)?;
    }
    Ok(all)
}

/// The condition, unless it holds by its form.
#[tactic(auto, using(ess_core_nodes::proofs::NodeEquations::pure_gen_if))]
fn unless_settled(alloc: Global, known: &[KnownName], node: &Node) -> Result<Row<Gen>, NoMemory>
    ensures { IfOk result (λ gs. map pure_gen gs
        ≡ map cond_item (unless (is_settled (pure_known known.now) (pure_node node.now)) (pure_node node.now))) }
{
    let mut conditions = Row::new(alloc);
    if !is_settled(known, node) {
        let condition = node.copy(alloc)?;
        conditions.push(Gen::If(condition))?;
    }
    Ok(conditions)
}

/// Generators behind others.
fn joined_gens(mut first: Row<Gen>, mut second: Row<Gen>) -> Result<Row<Gen>, NoMemory>
    ensures { IfOk result (λ gs. map pure_gen gs ≡ map pure_gen first ++ map pure_gen second) }
{
    first.append(&mut second)?;
    Ok(first)
}
