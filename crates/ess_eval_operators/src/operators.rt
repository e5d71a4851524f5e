ghost use Rattle.std.specs.Prelude.{◌≡◌, IfOk, [], ◌∷◌, Some, None, true, option_map};
ghost use Rattle.std.specs.Option.{option_copied};
ghost use Rattle.ess_semantics.specs.Trees.{unary, binary};
ghost use Rattle.ess_semantics.specs.Values.{number};
ghost use Rattle.ess_semantics.specs.Large.{is_big};
ghost use Rattle.ess_semantics.specs.Operators.{value_of_node, value_of_unary as of_unary, value_of_binary as of_binary};
ghost use Rattle.ess_semantics.specs.declared.words.Op1.{Op1 as UnaryOp};
ghost use Rattle.ess_core.specs.ValueViews.{pure_val};
ghost use Rattle.ess_eval_operators.specs.declared.OperateNo.TheVariants.{Big};

use crate::OperateNo;
use crate::collections::{difference, included, intersection, member, union};
use crate::comparisons::{below, lex_below, same};
use crate::connectives::{connected, is_connective, is_true};
use crate::folds::truth_in;
use crate::numbers::{
    absolute, kept, negative, number_in, plus, power, quotient, remainder, times,
};
use ess_core::Val;
use ess_semantics::words::{Op1, Op2};
use std::alloc::Global;

/// The value of a node of an operator on one operand, which may have no value: `!` reads that as false, and any other
/// operator has no value there. `Big` where the answer is a number outside 64 bits.
#[tactic(auto, using(crate::proofs::PartCounts::sizes))]
pub fn value_of_unary(_alloc: Global, op: Op1, a: Option<&Val>) -> Result<Option<Val>, OperateNo>
    ensures ok { IfOk result (λ o. option_map pure_val o ≡ value_of_node (unary op) (option_map pure_val (option_copied a.entry) ∷ [])) }
    ensures big { result ≡ Err Big → is_big (value_of_node (unary op) (option_map pure_val (option_copied a.entry) ∷ [])) ≡ true }
{
    match op {
        Op1::Not => Ok(Some(Val::Truth(!is_true(a)))),
        Op1::Minus => match a {
            Some(val) => Ok(Some(Val::Num(negative(number_in(val))?))),
            None => Ok(None),
        },
        Op1::Bar => match a {
            Some(val) => Ok(Some(Val::Num(size(val)?))),
            None => Ok(None),
        },
    }
}

/// The absolute value of a number, or how many parts a compound value has.
#[tactic(auto, using(crate::proofs::PartCounts::sizes))]
fn size(val: &Val) -> Result<i64, OperateNo>
    ensures ok { IfOk result (λ n. Some (number n) ≡ of_unary UnaryOp.Bar (pure_val val.now)) }
    ensures big { result ≡ Err Big → is_big (of_unary UnaryOp.Bar (pure_val val.now)) ≡ true }
{
    match val {
        Val::Num(number) => absolute(*number),
        Val::Truth(_) => Ok(0),
        Val::Item(_, _) => Ok(0),
        Val::Tuple(parts) => kept(parts.len() as i128),
        Val::Rec(fields) => kept(fields.len() as i128),
        Val::Matrix(_, _) => Ok(2),
        Val::Set(members) => kept(members.len() as i128),
        Val::MSet(members) => kept(members.len() as i128),
        Val::Function(pairs) => kept(pairs.len() as i128),
        Val::Relation(tuples) => kept(tuples.len() as i128),
        Val::Partition(parts) => kept(parts.len() as i128),
    }
}

/// The value of a node of an operator on two operands, each of which may have no value: a connective reads that as false,
/// and any other operator has no value there. `Big` where the answer is a number outside 64 bits. `NoMemory` where there is
/// no room for it, and for a union, an intersection or a difference whose first operand is a matrix, a record or a
/// function, which no well-typed tree has.
#[tactic(auto, using(crate::proofs::TwoOperands::connectives_read))]
pub fn value_of_binary(
    alloc: Global,
    op: Op2,
    a: Option<&Val>,
    b: Option<&Val>,
) -> Result<Option<Val>, OperateNo>
    ensures ok { IfOk result (λ o. option_map pure_val o
        ≡ value_of_node (binary op) (option_map pure_val (option_copied a.entry) ∷ option_map pure_val (option_copied b.entry) ∷ [])) }
    ensures big { result ≡ Err Big
        → is_big (value_of_node (binary op)
        (option_map pure_val (option_copied a.entry) ∷ option_map pure_val (option_copied b.entry) ∷ [])) ≡ true }
{
    if is_connective(op) {
        return Ok(Some(Val::Truth(connected(op, is_true(a), is_true(b)))));
    }
    match a {
        Some(left) => match b {
            Some(right) => of_two(alloc, op, left, right),
            None => Ok(None),
        },
        None => Ok(None),
    }
}

/// The value of an operator on two values.
fn of_two(alloc: Global, op: Op2, a: &Val, b: &Val) -> Result<Option<Val>, OperateNo>
    ensures ok { IfOk result (λ o. option_map pure_val o ≡ of_binary op (pure_val a.now) (pure_val b.now)) }
    ensures big { result ≡ Err Big → is_big (of_binary op (pure_val a.now) (pure_val b.now)) ≡ true }
{
    match op {
        Op2::Pow => Ok(power(number_in(a), number_in(b))?.map(Val::Num)),
        Op2::Times => Ok(Some(Val::Num(times(number_in(a), number_in(b))?))),
        Op2::Div => Ok(quotient(number_in(a), number_in(b))?.map(Val::Num)),
        Op2::Mod => Ok(remainder(number_in(a), number_in(b)).map(Val::Num)),
        Op2::Plus => Ok(Some(Val::Num(plus(number_in(a), number_in(b))?))),
        Op2::Minus => difference(alloc, a, b),
        Op2::Intersect => Ok(Some(intersection(alloc, a, b)?)),
        Op2::Union => Ok(Some(union(alloc, a, b)?)),
        Op2::Eq => Ok(Some(Val::Truth(same(a, b)))),
        Op2::Ne => Ok(Some(Val::Truth(!same(a, b)))),
        Op2::Lt => Ok(Some(Val::Truth(below(a, b)))),
        Op2::Le => Ok(Some(Val::Truth(!below(b, a)))),
        Op2::Gt => Ok(Some(Val::Truth(below(b, a)))),
        Op2::Ge => Ok(Some(Val::Truth(!below(a, b)))),
        Op2::LexLt => Ok(Some(Val::Truth(lex_below(alloc, a, b)?))),
        Op2::LexLe => Ok(Some(Val::Truth(!lex_below(alloc, b, a)?))),
        Op2::LexGt => Ok(Some(Val::Truth(lex_below(alloc, b, a)?))),
        Op2::LexGe => Ok(Some(Val::Truth(!lex_below(alloc, a, b)?))),
        Op2::Member => Ok(Some(Val::Truth(member(alloc, a, b)?))),
        Op2::SubsetEq => Ok(Some(Val::Truth(included(alloc, a, b)?))),
        Op2::Subset => Ok(Some(Val::Truth(included(alloc, a, b)? && !same(a, b)))),
        Op2::SupsetEq => Ok(Some(Val::Truth(included(alloc, b, a)?))),
        Op2::Supset => Ok(Some(Val::Truth(included(alloc, b, a)? && !same(a, b)))),
        Op2::And => Ok(Some(Val::Truth(truth_in(a) && truth_in(b)))),
        Op2::Or => Ok(Some(Val::Truth(truth_in(a) || truth_in(b)))),
        Op2::Implies => Ok(Some(Val::Truth(!truth_in(a) || truth_in(b)))),
        Op2::Iff => Ok(Some(Val::Truth(truth_in(a) == truth_in(b)))),
    }
}
