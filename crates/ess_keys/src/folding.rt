//! Comprehensions and folds whose generators are gone.
ghost use Rattle.std.specs.Prelude.{◌≡◌, ◌∷◌, [], IfOk, IfSome, option_map};
ghost use Rattle.std.specs.Option.{option_copied};
ghost use Rattle.ess_semantics.specs.Lists.{and_then, when};
ghost use Rattle.ess_core_nodes.specs.NodeViews.{pure_node, pure_nodes, pure_gens, pure_op};
ghost use Rattle.ess_guard_forms.specs.KnownNames.{pure_known};
ghost use Rattle.ess_keys_laws.specs.Keyed.{laid, one_operand, is_bare, are_conditions};
ghost use Rattle.ess_keys_laws.specs.Keyed.{connective_of, condition_fold, is_folded, fold_of, fold_left, folded};

use crate::chains::conjunction_fold;
use crate::forms::is_truth;
use crate::joining::joined;
use ess_core::{Fun, Op2};
use ess_core_nodes::{Gen, Node, Op};
use ess_guard_forms::{KnownName, is_number, pair_in};
use ess_node_building::{comprehension, literal, only};
use ess_node_remaking::operator;
use ess_rows::{Boxed, NoMemory, Row};
use std::alloc::Global;

/// A comprehension: a literal of one item where no generator or condition is left.
pub(crate) fn laid(
    alloc: Global,
    body: Boxed<Node>,
    gens: Row<Gen>,
) -> Result<Boxed<Node>, NoMemory>
    ensures { IfOk result (λ n. pure_node n ≡ laid (pure_node body) (pure_gens gens)) }
{
    if is_bare(gens.as_slice()) {
        let items = only(alloc, body)?;
        literal(alloc, Op::Matrix, items)
    } else {
        comprehension(alloc, body, gens)
    }
}

/// Whether nothing is there.
#[tactic(auto, using(ess_core_nodes::proofs::NodeEquations::pure_gen_over, ess_core_nodes::proofs::NodeEquations::pure_gen_from, ess_core_nodes::proofs::NodeEquations::pure_gen_if))]
fn is_bare(gens: &[Gen]) -> bool
    ensures { result ≡ is_bare (pure_gens gens.now) }
{
    match gens.split_first() {
        None => true,
        Some((Gen::Over(_, _), _)) => false,
        Some((Gen::From(_, _), _)) => false,
        Some((Gen::If(_), _)) => false,
    }
}

/// The only operand.
pub(crate) fn one_operand(operands: &[Node]) -> Option<&Node>
    ensures part { option_map pure_node (option_copied result) ≡ one_operand (pure_nodes operands.now) }
    ensures whole { IfSome result (λ p. operands.now ≡ p.now ∷ []) }
{
    match operands.split_first() {
        None => None,
        Some((operand, rest)) => match rest.split_first() {
            None => Some(operand),
            Some(_) => None,
        },
    }
}

/// Whether there are conditions alone.
#[tactic(auto, using(ess_core_nodes::proofs::NodeEquations::pure_gen_over, ess_core_nodes::proofs::NodeEquations::pure_gen_from, ess_core_nodes::proofs::NodeEquations::pure_gen_if))]
fn are_conditions(gens: &[Gen]) -> bool
    ensures { result ≡ are_conditions (pure_gens gens.now) }
{
    match gens.split_first() {
        None => true,
        Some((Gen::If(_), rest)) => are_conditions(rest),
        Some(_) => false,
    }
}

/// What a condition is to the body of a fold.
fn connective_of(mark: bool, fun: Fun) -> Option<Op2>
    ensures { result ≡ connective_of mark fun }
{
    match (mark, fun) {
        (true, Fun::And) => Some(Op2::Implies),
        (true, Fun::Or) => Some(Op2::And),
        _ => None,
    }
}

/// What is left of a fold over a comprehension that has conditions alone.
fn condition_fold(
    alloc: Global,
    mark: bool,
    fun: Fun,
    body: &Node,
    gens: &[Gen],
) -> Result<Option<Boxed<Node>>, NoMemory>
    ensures { IfOk result (λ o. option_map pure_node o ≡ condition_fold mark fun (pure_node body.now) (pure_gens gens.now)) }
{
    match connective_of(mark, fun) {
        None => Ok(None),
        Some(op) => {
            if !is_bare(gens) && are_conditions(gens) {
                Ok(Some(joined(alloc, op, gens, body)?))
            } else {
                Ok(None)
            }
        }
    }
}

/// Whether the fold of one item is the item.
fn is_folded(known: &[KnownName], mark: bool, fun: Fun, item: &Node) -> bool
    ensures { result ≡ is_folded (pure_known known.now) mark fun (pure_node item.now) }
{
    match (mark, fun) {
        (true, Fun::And | Fun::Or) => is_truth(known, item),
        (false, Fun::Sum | Fun::Product) => is_number(known, item),
        _ => false,
    }
}

/// The item of a literal, where the fold of it is left.
fn item_fold(
    alloc: Global,
    known: &[KnownName],
    mark: bool,
    fun: Fun,
    items: &[Node],
) -> Result<Option<Boxed<Node>>, NoMemory>
    ensures { IfOk result (λ o. option_map pure_node o
        ≡ and_then (one_operand (pure_nodes items.now)) (λ e. when (is_folded (pure_known known.now) mark fun e) e)) }
{
    match one_operand(items) {
        None => Ok(None),
        Some(item) => {
            if is_folded(known, mark, fun, item) {
                Ok(Some(item.copy(alloc)?))
            } else {
                Ok(None)
            }
        }
    }
}

/// What is left of a fold over a list.
#[tactic(auto, using(ess_core_nodes::proofs::NodeEquations::pure_seen_is))]
fn fold_of(
    alloc: Global,
    known: &[KnownName],
    mark: bool,
    fun: Fun,
    list: &Node,
) -> Result<Option<Boxed<Node>>, NoMemory>
    ensures { IfOk result (λ o. option_map pure_node o ≡ fold_of (pure_known known.now) mark fun (pure_node list.now)) }
{
    match list {
        Node::Comp(body, gens) => condition_fold(alloc, mark, fun, body.get(), gens.as_slice()),
        Node::Op(false, Op::Matrix, items) => item_fold(alloc, known, mark, fun, items.as_slice()),
        _ => Ok(None),
    }
}

/// What is left of an operator.
#[tactic(auto, using(crate::proofs::Conjunctions::no_conjunction))]
fn fold_left(
    alloc: Global,
    known: &[KnownName],
    mark: bool,
    op: &Op,
    operands: &[Node],
) -> Result<Option<Boxed<Node>>, NoMemory>
    ensures { IfOk result (λ o. option_map pure_node o
        ≡ fold_left (pure_known known.now) mark (pure_op op.now) (pure_nodes operands.now)) }
{
    match op {
        Op::Word(fun) => match one_operand(operands) {
            None => Ok(None),
            Some(list) => fold_of(alloc, known, mark, *fun, list),
        },
        Op::Binary(Op2::And) => match pair_in(operands) {
            None => Ok(None),
            Some((first, second)) => {
                if mark {
                    conjunction_fold(alloc, first, second)
                } else {
                    Ok(None)
                }
            }
        },
        _ => Ok(None),
    }
}

/// An operator's node, if nothing else is left of it.
pub(crate) fn folded(
    alloc: Global,
    known: &[KnownName],
    mark: bool,
    op: &Op,
    operands: Row<Node>,
) -> Result<Boxed<Node>, NoMemory>
    ensures { IfOk result (λ n. pure_node n ≡ folded (pure_known known.now) mark (pure_op op.now) (pure_nodes operands)) }
{
    match fold_left(alloc, known, mark, op, operands.as_slice())? {
        Some(node) => Ok(node),
        None => operator(alloc, mark, op, operands),
    }
}
