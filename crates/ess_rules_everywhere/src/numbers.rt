//! Operators on numbers that are there everywhere: each is there everywhere itself.
ghost use Rattle.std.specs.Prelude.{◌≡◌, false, IfOk};
ghost use Rattle.ess_semantics.specs.Trees.{node_ex};
ghost use Rattle.ess_core_nodes.specs.NodeViews.{pure_node, pure_nodes, pure_op};
ghost use Rattle.ess_rules_everywhere.specs.NumberNodes.{has_one as one_alone, has_two as two_alone, is_number_sign as gives_number};
ghost use Rattle.ess_rules_everywhere.specs.NumberNodes.{is_number_fold as folds_numbers, is_number_op as of_numbers, is_fold_op as of_a_list};
ghost use Rattle.ess_rules_everywhere.specs.NumberNodes.{quotient as quotient_of, power as power_of, guarded_op};
ghost use Rattle.ess_rules_everywhere.specs.NumberNodes.{extreme_item as extreme_of, folded_op};

use crate::guarded::{divisor, extreme, raised};
use ess_core::{Fun, Op1, Op2};
use ess_core_nodes::{Node, Op, copy_nodes};
use ess_node_building::{binary, literal};
use ess_node_operands::{Operands, by_number};
use ess_rows::{Boxed, NoMemory, Row};
use std::alloc::Global;

/// Whether there is one operand.
fn has_one(operands: &[Node]) -> bool
    ensures { result ≡ one_alone (pure_nodes operands.now) }
{
    match by_number(operands) {
        Operands::One(_) => true,
        _ => false,
    }
}

/// Whether there are two.
fn has_two(operands: &[Node]) -> bool
    ensures { result ≡ two_alone (pure_nodes operands.now) }
{
    match by_number(operands) {
        Operands::Two(_, _) => true,
        _ => false,
    }
}

/// Whether the sign is between numbers and gives a number.
fn is_number_sign(sign: Op2) -> bool
    ensures { result ≡ gives_number sign }
{
    match sign {
        Op2::Plus | Op2::Minus | Op2::Times | Op2::Div | Op2::Mod | Op2::Pow => true,
        _ => false,
    }
}

/// Whether the word folds numbers, or picks the least or the greatest.
fn is_number_fold(word: Fun) -> bool
    ensures { result ≡ folds_numbers word }
{
    match word {
        Fun::Sum | Fun::Product | Fun::Min | Fun::Max => true,
        _ => false,
    }
}

/// Whether the operator gives a number of as many numbers as it has operands.
pub(crate) fn is_number_op(op: &Op, operands: &[Node]) -> bool
    ensures { result ≡ of_numbers (pure_op op.now) (pure_nodes operands.now) }
{
    match op {
        Op::Unary(Op1::Minus | Op1::Bar) => has_one(operands),
        Op::Binary(sign) => is_number_sign(*sign) && has_two(operands),
        _ => false,
    }
}

/// Whether it gives a number of one list of numbers.
pub(crate) fn is_fold_op(op: &Op, operands: &[Node]) -> bool
    ensures { result ≡ of_a_list (pure_op op.now) (pure_nodes operands.now) }
{
    match op {
        Op::Word(word) => is_number_fold(*word) && has_one(operands),
        _ => false,
    }
}

/// The operator on numbers that are there everywhere. `NoMemory` where there is no room for it.
pub(crate) fn number_node(
    alloc: Global,
    op: &Op,
    numbers: Row<Node>,
) -> Result<Boxed<Node>, NoMemory>
    ensures { IfOk result (λ n. pure_node n ≡ guarded_op (pure_op op.now) (pure_nodes numbers)) }
{
    match op {
        Op::Binary(Op2::Div) => quotient(alloc, Op2::Div, numbers.as_slice()),
        Op::Binary(Op2::Mod) => quotient(alloc, Op2::Mod, numbers.as_slice()),
        Op::Binary(Op2::Pow) => power(alloc, numbers.as_slice()),
        _ => {
            let op = op.copy(alloc)?;
            literal(alloc, op, numbers)
        }
    }
}

/// A quotient whose divisor isn't 0.
fn quotient(alloc: Global, sign: Op2, numbers: &[Node]) -> Result<Boxed<Node>, NoMemory>
    ensures { IfOk result (λ n. pure_node n ≡ quotient_of sign (pure_nodes numbers.now)) }
{
    match by_number(numbers) {
        Operands::Two(first, second) => {
            let first = first.copy(alloc)?;
            let second = divisor(alloc, second.copy(alloc)?)?;
            binary(alloc, false, sign, first, second)
        }
        _ => kept(alloc, Op::Binary(sign), numbers),
    }
}

/// A power that is there.
fn power(alloc: Global, numbers: &[Node]) -> Result<Boxed<Node>, NoMemory>
    ensures { IfOk result (λ n. pure_node n ≡ power_of (pure_nodes numbers.now)) }
{
    match by_number(numbers) {
        Operands::Two(first, second) => {
            let first = first.copy(alloc)?;
            let second = second.copy(alloc)?;
            raised(alloc, first, second)
        }
        _ => kept(alloc, Op::Binary(Op2::Pow), numbers),
    }
}

/// An operator on copies of operands.
fn kept(alloc: Global, op: Op, operands: &[Node]) -> Result<Boxed<Node>, NoMemory>
    ensures { IfOk result (λ n. pure_node n ≡ node_ex false (pure_op op) (pure_nodes operands.now)) }
{
    match copy_nodes(alloc, operands) {
        Ok(operands) => literal(alloc, op, operands),
        Err(no) => {
            drop(op);
            Err(no)
        }
    }
}

/// The word of a list of numbers that are there everywhere. `NoMemory` where there is no room for it.
pub(crate) fn fold_node(alloc: Global, op: &Op, lists: Row<Node>) -> Result<Boxed<Node>, NoMemory>
    ensures { IfOk result (λ n. pure_node n ≡ folded_op (pure_op op.now) (pure_nodes lists)) }
{
    match op {
        Op::Word(Fun::Min) => extreme_item(alloc, Fun::Min, lists.as_slice()),
        Op::Word(Fun::Max) => extreme_item(alloc, Fun::Max, lists.as_slice()),
        _ => {
            let op = op.copy(alloc)?;
            literal(alloc, op, lists)
        }
    }
}

/// The least or the greatest of a list that may be empty.
fn extreme_item(alloc: Global, fun: Fun, lists: &[Node]) -> Result<Boxed<Node>, NoMemory>
    ensures { IfOk result (λ n. pure_node n ≡ extreme_of fun (pure_nodes lists.now)) }
{
    match by_number(lists) {
        Operands::One(list) => extreme(alloc, fun, list),
        _ => kept(alloc, Op::Word(fun), lists),
    }
}
