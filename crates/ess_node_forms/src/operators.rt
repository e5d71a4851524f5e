//! Which operators models have, and which give truth values.
ghost use Rattle.std.specs.Prelude.{◌≡◌};
ghost use Rattle.ess_semantics.specs.Trees.{binary, word, is_truth_op, is_truth_op2, is_truth_word};
ghost use Rattle.ess_semantics.specs.Refined.{is_scalar_op, is_list_op};
ghost use Rattle.ess_core_nodes.specs.NodeViews.{pure_op};

use ess_core::{Fun, Op1, Op2};
use ess_core_nodes::Op;

/// Whether the operator gives truth values, whatever its operands are.
pub fn is_truth_op(op: &Op) -> bool
    ensures { result ≡ is_truth_op (pure_op op.now) }
{
    match op {
        Op::Unary(Op1::Not) => true,
        Op::Binary(op) => is_truth_between(*op),
        Op::Word(fun) => is_truth_fold(*fun),
        _ => false,
    }
}

/// The same of an operator between two operands.
fn is_truth_between(op: Op2) -> bool
    ensures { result ≡ is_truth_op2 op }
{
    match op {
        Op2::Pow => false,
        Op2::Times => false,
        Op2::Div => false,
        Op2::Mod => false,
        Op2::Intersect => false,
        Op2::Plus => false,
        Op2::Minus => false,
        Op2::Union => false,
        _ => true,
    }
}

/// The same of a function word.
fn is_truth_fold(fun: Fun) -> bool
    ensures { result ≡ is_truth_word fun }
{
    match fun {
        Fun::And => true,
        Fun::Or => true,
        Fun::AllDiff => true,
        Fun::Together => true,
        _ => false,
    }
}

/// Whether the operator is one of models on numbers and truth values.
pub fn is_scalar_op(op: &Op) -> bool
    ensures { result ≡ is_scalar_op (pure_op op.now) }
{
    match op {
        Op::Unary(_) => true,
        Op::Binary(op) => is_between_scalars(*op),
        Op::Word(Fun::ToInt) => true,
        _ => false,
    }
}

/// The same of an operator between two operands.
fn is_between_scalars(op: Op2) -> bool
    ensures { result ≡ is_scalar_op (binary op) }
{
    match op {
        Op2::Pow => true,
        Op2::Times => true,
        Op2::Div => true,
        Op2::Mod => true,
        Op2::Plus => true,
        Op2::Minus => true,
        Op2::Eq => true,
        Op2::Ne => true,
        Op2::Lt => true,
        Op2::Le => true,
        Op2::Gt => true,
        Op2::Ge => true,
        Op2::And => true,
        Op2::Or => true,
        Op2::Implies => true,
        Op2::Iff => true,
        _ => false,
    }
}

/// Whether the operator is one of models on lists.
pub fn is_list_op(op: &Op) -> bool
    ensures { result ≡ is_list_op (pure_op op.now) }
{
    match op {
        Op::Binary(op) => is_between_lists(*op),
        Op::Word(fun) => is_fold(*fun),
        _ => false,
    }
}

/// The same of an operator between two operands.
fn is_between_lists(op: Op2) -> bool
    ensures { result ≡ is_list_op (binary op) }
{
    match op {
        Op2::LexLt => true,
        Op2::LexLe => true,
        Op2::LexGt => true,
        Op2::LexGe => true,
        _ => false,
    }
}

/// The same of a function word.
fn is_fold(fun: Fun) -> bool
    ensures { result ≡ is_list_op (word fun) }
{
    match fun {
        Fun::And => true,
        Fun::Or => true,
        Fun::Sum => true,
        Fun::Product => true,
        Fun::Min => true,
        Fun::Max => true,
        Fun::AllDiff => true,
        _ => false,
    }
}
