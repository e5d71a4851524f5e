//! Which terms are numbers, as their form tells.
ghost use Rattle.std.specs.Prelude.{◌≡◌, false, option_map};
ghost use Rattle.std.specs.Option.{option_copied};
ghost use Rattle.ess_semantics.specs.Trees.{node_ex};
ghost use Rattle.ess_core_nodes.specs.NodeViews.{pure_node, pure_nodes, pure_op};
ghost use Rattle.ess_guard_laws.specs.Origins.{is_number as tells_number, is_number_first as tells_number_first};
ghost use Rattle.ess_guard_laws.specs.Origins.{runs_over_numbers as tells_numbers};
ghost use Rattle.ess_guard_forms.specs.KnownNames.{pure_origin, pure_known};

use crate::known::{KnownName, known_of};
use crate::operands::{are_two, is_one};
use ess_core::{Fun, Op1, Op2};
use ess_core_nodes::{Node, NodeDom, Op};

/// Whether the term is a number wherever it has a value.
#[cycle(number)]
#[tactic(auto, using(ess_core_nodes::proofs::NodeEquations::pure_seen_is))]
pub fn is_number(known: &[KnownName], node: &Node) -> bool
    ensures { result ≡ tells_number (pure_known known.now) (pure_node node.now) }
{
    match node {
        Node::Number(_) => true,
        Node::Name(name) => runs_over_numbers(known_of(known, name)),
        Node::Cell(mark, _, _) => !*mark,
        Node::Op(true, _, _) => false,
        Node::Op(false, op, operands) => is_number_op(known, op, operands.as_slice()),
        _ => false,
    }
}

/// The same of an operator that isn't Boolean.
#[cycle(number)]
fn is_number_op(known: &[KnownName], op: &Op, operands: &[Node]) -> bool
    ensures { result ≡ tells_number (pure_known known.now) (node_ex false (pure_op op.now) (pure_nodes operands.now)) }
{
    match op {
        Op::Unary(Op1::Minus | Op1::Bar) => is_one(operands),
        Op::Binary(Op2::Plus | Op2::Times | Op2::Div | Op2::Mod | Op2::Pow) => are_two(operands),
        Op::Binary(Op2::Minus) => are_two(operands) && is_number_first(known, operands),
        Op::Word(Fun::Sum | Fun::Product | Fun::ToInt) => is_one(operands),
        Op::Word(Fun::Freq) => are_two(operands),
        _ => false,
    }
}

/// The same of the first operand.
#[cycle(number)]
fn is_number_first(known: &[KnownName], operands: &[Node]) -> bool
    ensures { result ≡ tells_number_first (pure_known known.now) (pure_nodes operands.now) }
{
    match operands.split_first() {
        None => false,
        Some((first, _)) => is_number(known, first),
    }
}

/// Whether a name of which this is known is a number.
fn runs_over_numbers(known: Option<&KnownName>) -> bool
    ensures { result ≡ tells_numbers (option_map (λ b. pure_origin b.dom) (option_copied known.entry)) }
{
    match known {
        None => false,
        Some(entry) => match &entry.dom {
            None => false,
            Some(dom) => match dom.get() {
                NodeDom::Int(_, _) => true,
                _ => false,
            },
        },
    }
}
