//! What a node on simplified operands becomes. The rows that it has are used again, so nothing is allocated.
ghost use Rattle.std.specs.Prelude.{◌≡◌, is_some};
ghost use Rattle.ess_semantics.specs.Trees.{binary};
ghost use Rattle.ess_semantics.specs.Operators.{connective};
ghost use Rattle.ess_core_nodes.specs.NodeViews.{pure_node, pure_nodes, pure_op};
ghost use Rattle.ess_simplify_laws.specs.Simplifying.{said, outcome, simpler_unary, simpler_binary, simpler_node};
ghost use Rattle.ess_simplify.specs.Roots.{only, inner, denial, denial_by};

use ess_core::{Op1, Op2};
use ess_core_nodes::{Node, Op};
use ess_rows::Row;
use ess_simplify_laws::Outcome;

/// What `!` makes of an operand.
#[derive(Clone, Copy, Debug, PartialEq, Eq)]
pub enum Denial {
    /// A truth value.
    Says(bool),
    /// What stands under the `!` that the operand is.
    Undone,
    /// The operand under `!`.
    Stays,
}

/// The node of an operator on these operands, simplified.
pub(crate) fn simpler(mark: bool, op: Op, operands: Row<Node>) -> Node
    ensures { pure_node result ≡ simpler_node mark (pure_op op) (pure_nodes operands) }
{
    match op {
        Op::Unary(op) => simpler_on_one(mark, op, operands),
        Op::Binary(op) => simpler_on_two(mark, op, operands),
        other => Node::Op(mark, other, operands),
    }
}

/// An operator on one operand.
fn simpler_on_one(mark: bool, op: Op1, operands: Row<Node>) -> Node
    ensures { pure_node result ≡ simpler_unary mark op (pure_nodes operands) }
{
    match op {
        Op1::Not => denied(mark, operands),
        Op1::Minus => Node::Op(mark, Op::Unary(Op1::Minus), operands),
        Op1::Bar => Node::Op(mark, Op::Unary(Op1::Bar), operands),
    }
}

/// `!` of the only operand. On any other number of operands it is false.
#[tactic(auto, using(crate::proofs::RootRows::not_one, crate::proofs::RootRows::one_says, crate::proofs::RootRows::one_undone, crate::proofs::RootRows::one_stays))]
fn denied(mark: bool, operands: Row<Node>) -> Node
    ensures { pure_node result ≡ simpler_unary mark Op1.Not (pure_nodes operands) }
{
    if operands.len() != 1 {
        drop(operands);
        return Node::Truth(false);
    }
    match denial_of(&operands.as_slice()[0]) {
        Denial::Says(value) => {
            drop(operands);
            Node::Truth(value)
        }
        Denial::Undone => undone(only_of(operands)),
        Denial::Stays => Node::Op(mark, Op::Unary(Op1::Not), operands),
    }
}

/// What `!` makes of an operand.
#[tactic(auto, using(ess_core_nodes::proofs::NodeEquations::pure_seen_is))]
fn denial_of(node: &Node) -> Denial
    ensures { result ≡ denial (pure_node node.now) }
{
    match node {
        Node::Truth(value) => Denial::Says(!*value),
        Node::Op(_, op, _) => denial_of_op(op),
        _ => Denial::Stays,
    }
}

/// What `!` makes of an operator's node.
fn denial_of_op(op: &Op) -> Denial
    ensures { result ≡ denial_by (pure_op op.now) }
{
    match op {
        Op::Unary(Op1::Not) => Denial::Undone,
        _ => Denial::Stays,
    }
}

/// The only operand of a node, or `true` where it hasn't one.
#[tactic(auto, using(ess_core_nodes::proofs::NodeEquations::pure_seen_is))]
fn undone(node: Node) -> Node
    ensures { pure_node result ≡ inner (pure_node node) }
{
    match node {
        Node::Op(_, op, operands) => {
            drop(op);
            only_of(operands)
        }
        other => {
            drop(other);
            Node::Truth(true)
        }
    }
}

/// The only one of the nodes, or `true` where there isn't just one.
#[tactic(auto, using(crate::proofs::RootRows::only_none, crate::proofs::RootRows::only_one))]
fn only_of(mut nodes: Row<Node>) -> Node
    ensures { pure_node result ≡ only (pure_nodes nodes) }
{
    if nodes.len() != 1 {
        drop(nodes);
        return Node::Truth(true);
    }
    match nodes.pop() {
        Some(node) => {
            drop(nodes);
            node
        }
        None => Node::Truth(true),
    }
}

/// An operator on two operands. A connective on any other number of operands is false.
#[tactic(auto, using(crate::proofs::RootRows::not_two_connected, crate::proofs::RootRows::not_two_stays, crate::proofs::RootRows::two_stay, crate::proofs::RootRows::two_first, crate::proofs::RootRows::two_second, crate::proofs::RootRows::two_first_denied, crate::proofs::RootRows::two_second_denied, crate::proofs::RootRows::two_say))]
fn simpler_on_two(mark: bool, op: Op2, mut operands: Row<Node>) -> Node
    ensures { pure_node result ≡ simpler_binary mark op (pure_nodes operands) }
{
    if operands.len() != 2 {
        if is_connective(op) {
            drop(operands);
            return Node::Truth(false);
        }
        return Node::Op(mark, Op::Binary(op), operands);
    }
    match outcome_of(
        op,
        truth_of(&operands.as_slice()[0]),
        truth_of(&operands.as_slice()[1]),
    ) {
        Outcome::Stays => Node::Op(mark, Op::Binary(op), operands),
        Outcome::First => {
            operands.truncate(1);
            only_of(operands)
        }
        Outcome::Second => {
            drop(operands.remove(0));
            only_of(operands)
        }
        Outcome::FirstDenied => {
            operands.truncate(1);
            denied(mark, operands)
        }
        Outcome::SecondDenied => {
            drop(operands.remove(0));
            denied(mark, operands)
        }
        Outcome::Says(value) => {
            drop(operands);
            Node::Truth(value)
        }
    }
}

/// Whether the operator is a connective.
fn is_connective(op: Op2) -> bool
    ensures { result ≡ is_some (connective (binary op)) }
{
    match op {
        Op2::And => true,
        Op2::Or => true,
        Op2::Implies => true,
        Op2::Iff => true,
        _ => false,
    }
}

/// The truth value that the node is, if it is one.
#[tactic(auto, using(ess_core_nodes::proofs::NodeEquations::pure_seen_is))]
fn truth_of(node: &Node) -> Option<bool>
    ensures { result ≡ said (pure_node node.now) }
{
    match node {
        Node::Truth(value) => Some(*value),
        _ => None,
    }
}

/// What becomes of an operator on two operands, from the truth values that they are.
fn outcome_of(op: Op2, first: Option<bool>, second: Option<bool>) -> Outcome
    ensures { result ≡ outcome op first second }
{
    match op {
        Op2::And => outcome_of_and(first, second),
        Op2::Or => outcome_of_or(first, second),
        Op2::Implies => outcome_of_implies(first, second),
        Op2::Iff => outcome_of_iff(first, second),
        _ => Outcome::Stays,
    }
}

/// The same of `/\`.
fn outcome_of_and(first: Option<bool>, second: Option<bool>) -> Outcome
    ensures { result ≡ outcome Op2.And first second }
{
    match first {
        Some(value) => {
            if value {
                Outcome::Second
            } else {
                Outcome::Says(false)
            }
        }
        None => match second {
            Some(value) => {
                if value {
                    Outcome::First
                } else {
                    Outcome::Says(false)
                }
            }
            None => Outcome::Stays,
        },
    }
}

/// The same of `\/`.
fn outcome_of_or(first: Option<bool>, second: Option<bool>) -> Outcome
    ensures { result ≡ outcome Op2.Or first second }
{
    match first {
        Some(value) => {
            if value {
                Outcome::Says(true)
            } else {
                Outcome::Second
            }
        }
        None => match second {
            Some(value) => {
                if value {
                    Outcome::Says(true)
                } else {
                    Outcome::First
                }
            }
            None => Outcome::Stays,
        },
    }
}

/// The same of `->`.
fn outcome_of_implies(first: Option<bool>, second: Option<bool>) -> Outcome
    ensures { result ≡ outcome Op2.Implies first second }
{
    match first {
        Some(value) => {
            if value {
                Outcome::Second
            } else {
                Outcome::Says(true)
            }
        }
        None => match second {
            Some(value) => {
                if value {
                    Outcome::Says(true)
                } else {
                    Outcome::FirstDenied
                }
            }
            None => Outcome::Stays,
        },
    }
}

/// The same of `<->`.
fn outcome_of_iff(first: Option<bool>, second: Option<bool>) -> Outcome
    ensures { result ≡ outcome Op2.Iff first second }
{
    match first {
        Some(value) => {
            if value {
                Outcome::Second
            } else {
                Outcome::SecondDenied
            }
        }
        None => match second {
            Some(value) => {
                if value {
                    Outcome::First
                } else {
                    Outcome::FirstDenied
                }
            }
            None => Outcome::Stays,
        },
    }
}
