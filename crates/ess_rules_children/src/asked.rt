//! Operators on values that are kept as another value: they ask the child.
ghost use Rattle.std.specs.Prelude.{◌≡◌, option_map, IfOk, true, false};
ghost use Rattle.ess_semantics.specs.Trees as pure;
ghost use Rattle.ess_semantics.specs.Trees.{ex1, ex2, node_ex};
ghost use Rattle.ess_core_nodes.specs.NodeViews.{pure_node, pure_nodes};
ghost use Rattle.ess_views_laws.specs.ChildViews.{asked_of_child};
ghost use Rattle.ess_rules_children.specs.Kept.{behind_relation, behind_parts};

use crate::kept::kept_as;
use ess_core::{Fun, Op1, Op2};
use ess_core_nodes::{Node, Op};
use ess_node_building::{binary, unary};
use ess_rows::{Boxed, NoMemory};
use ess_rules_forms::{only_in, pair_in, plain_word};
use std::alloc::Global;

/// `a in v` and `|v|`, where v is a view of a value that is kept as another value, become the same of the child; so does `a in
/// toRelation(v)`, and `|parts(v)|`. Nothing for another root; `NoMemory` where there is no room for it.
#[tactic(auto, using(ess_core_nodes::proofs::NodeEquations::pure_seen_is))]
pub fn asked_of_child(alloc: Global, node: &Node) -> Result<Option<Boxed<Node>>, NoMemory>
    ensures { IfOk result (λ o. option_map pure_node o ≡ asked_of_child (pure_node node.now)) }
{
    match node {
        Node::Op(true, Op::Binary(Op2::Member), operands) => member_in(alloc, operands.as_slice()),
        Node::Op(false, Op::Unary(Op1::Bar), operands) => size_in(alloc, operands.as_slice()),
        _ => Ok(None),
    }
}

/// `in`, by its operands.
#[tactic(auto, using(crate::proofs::AskedForms::member_by_operands))]
fn member_in(alloc: Global, operands: &[Node]) -> Result<Option<Boxed<Node>>, NoMemory>
    ensures { IfOk result (λ o. option_map pure_node o
        ≡ asked_of_child (node_ex true (pure.binary Op2.Member) (pure_nodes operands.now))) }
{
    match pair_in(operands) {
        Some((member, container)) => member_asked(alloc, member, container),
        None => Ok(None),
    }
}

/// A size, by its operands.
#[tactic(auto, using(crate::proofs::AskedForms::size_by_operand))]
fn size_in(alloc: Global, operands: &[Node]) -> Result<Option<Boxed<Node>>, NoMemory>
    ensures { IfOk result (λ o. option_map pure_node o
        ≡ asked_of_child (node_ex false (pure.unary Op1.Bar) (pure_nodes operands.now))) }
{
    match only_in(operands) {
        Some(container) => size_asked(alloc, container),
        None => Ok(None),
    }
}

/// That a member is in the child.
#[tactic(auto, using(crate::proofs::AskedForms::member_by_child))]
fn member_asked(
    alloc: Global,
    member: &Node,
    container: &Node,
) -> Result<Option<Boxed<Node>>, NoMemory>
    ensures { IfOk result (λ o. option_map pure_node o
        ≡ asked_of_child (ex2 true Op2.Member (pure_node member.now) (pure_node container.now))) }
{
    match kept_as(alloc, behind_relation(container))? {
        Some(child) => {
            let member = member.copy(alloc)?;
            Ok(Some(binary(alloc, true, Op2::Member, member, child)?))
        }
        None => Ok(None),
    }
}

/// The size of the child.
#[tactic(auto, using(crate::proofs::AskedForms::size_by_child))]
fn size_asked(alloc: Global, container: &Node) -> Result<Option<Boxed<Node>>, NoMemory>
    ensures { IfOk result (λ o. option_map pure_node o ≡ asked_of_child (ex1 false Op1.Bar (pure_node container.now))) }
{
    match kept_as(alloc, behind_parts(container))? {
        Some(child) => Ok(Some(unary(alloc, false, Op1::Bar, child)?)),
        None => Ok(None),
    }
}

/// What stands behind `toRelation`, or the term itself.
#[tactic(auto, using(crate::proofs::AskedForms::relation_by_word))]
fn behind_relation(node: &Node) -> &Node
    ensures { pure_node result.now ≡ behind_relation (pure_node node.now) }
{
    match plain_word(node) {
        Some((Fun::ToRelation, operand)) => operand,
        _ => node,
    }
}

/// What stands behind `parts`, or the term itself.
#[tactic(auto, using(crate::proofs::AskedForms::parts_by_word))]
fn behind_parts(node: &Node) -> &Node
    ensures { pure_node result.now ≡ behind_parts (pure_node node.now) }
{
    match plain_word(node) {
        Some((Fun::Parts, operand)) => operand,
        _ => node,
    }
}
