//! The operators of models that stand for those of nodes.
ghost use Rattle.std.specs.Prelude.{◌≡◌, option_map};
ghost use Rattle.ess_semantics.specs.Lists.{when};
ghost use Rattle.ess_semantics.specs.Trees.{binary, word, is_truth_op as gives_truth};
ghost use Rattle.ess_grammar.specs.Models.{is_plain_operator, is_lex_operator, is_fold};
ghost use Rattle.ess_core_nodes.specs.NodeViews.{pure_op};
ghost use Rattle.eprime_tree.specs.Views.{pure_op1, pure_op2, pure_fun};
ghost use Rattle.eprime_lowering_laws.specs.Lowerable.{is_prefix, is_over_list, is_infix, is_lex};

use eprime_tree::{PFun, POp1, POp2};
use ess_core::{Fun, Op1, Op2};
use ess_core_nodes::Op;

/// The operator of models over one expression, where this is one.
pub(crate) fn prefix(op: &Op) -> Option<POp1>
    ensures { option_map pure_op1 result ≡ when (is_prefix (pure_op op.now)) (pure_op op.now) }
{
    match op {
        Op::Unary(Op1::Minus) => Some(POp1::Minus),
        Op::Unary(Op1::Not) => Some(POp1::Not),
        Op::Unary(Op1::Bar) => Some(POp1::Bar),
        Op::Word(Fun::ToInt) => Some(POp1::ToInt),
        _ => None,
    }
}

/// The word over one list, where this is one.
pub(crate) fn over_list(op: &Op) -> Option<PFun>
    ensures { option_map (λ f. word (pure_fun f)) result ≡ when (is_over_list (pure_op op.now)) (pure_op op.now) }
{
    match op {
        Op::Word(fun) => fold(*fun),
        _ => None,
    }
}

/// The operator between two expressions, where this is one.
pub(crate) fn infix(op: &Op) -> Option<POp2>
    ensures { option_map (λ o. binary (pure_op2 o)) result ≡ when (is_infix (pure_op op.now)) (pure_op op.now) }
{
    match op {
        Op::Binary(op) => plain(*op),
        _ => None,
    }
}

/// The sign between two lists, where this is one.
pub(crate) fn lex(op: &Op) -> Option<POp2>
    ensures { option_map (λ o. binary (pure_op2 o)) result ≡ when (is_lex (pure_op op.now)) (pure_op op.now) }
{
    match op {
        Op::Binary(op) => lex_sign(*op),
        _ => None,
    }
}

/// A word over a list.
fn fold(fun: Fun) -> Option<PFun>
    ensures { option_map (λ f. word (pure_fun f)) result ≡ when (is_fold fun) (word fun) }
{
    match fun {
        Fun::And => Some(PFun::And),
        Fun::Or => Some(PFun::Or),
        Fun::Sum => Some(PFun::Sum),
        Fun::Product => Some(PFun::Product),
        Fun::Min => Some(PFun::Min),
        Fun::Max => Some(PFun::Max),
        Fun::AllDiff => Some(PFun::AllDiff),
        _ => None,
    }
}

/// An operator between two expressions.
fn plain(op: Op2) -> Option<POp2>
    ensures { option_map (λ o. binary (pure_op2 o)) result ≡ when (is_plain_operator op) (binary op) }
{
    match op {
        Op2::Pow => Some(POp2::Pow),
        Op2::Times => Some(POp2::Times),
        Op2::Div => Some(POp2::Div),
        Op2::Mod => Some(POp2::Mod),
        Op2::Plus => Some(POp2::Plus),
        Op2::Minus => Some(POp2::Minus),
        Op2::Eq => Some(POp2::Eq),
        Op2::Ne => Some(POp2::Ne),
        Op2::Lt => Some(POp2::Lt),
        Op2::Le => Some(POp2::Le),
        Op2::Gt => Some(POp2::Gt),
        Op2::Ge => Some(POp2::Ge),
        Op2::And => Some(POp2::And),
        Op2::Or => Some(POp2::Or),
        Op2::Implies => Some(POp2::Implies),
        Op2::Iff => Some(POp2::Iff),
        _ => None,
    }
}

/// A sign between two lists.
fn lex_sign(op: Op2) -> Option<POp2>
    ensures { option_map (λ o. binary (pure_op2 o)) result ≡ when (is_lex_operator op) (binary op) }
{
    match op {
        Op2::LexLt => Some(POp2::LexLt),
        Op2::LexLe => Some(POp2::LexLe),
        Op2::LexGt => Some(POp2::LexGt),
        Op2::LexGe => Some(POp2::LexGe),
        _ => None,
    }
}

/// Whether an operator gives a truth value, whatever its operands are.
pub(crate) fn is_truth_op(op: &Op) -> bool
    ensures { result ≡ gives_truth (pure_op op.now) }
{
    match op {
        Op::Unary(Op1::Not) => true,
        Op::Binary(op) => is_truth_op2(*op),
        Op::Word(Fun::And | Fun::Or | Fun::AllDiff | Fun::Together) => true,
        _ => false,
    }
}

/// Whether an operator between two operands gives a truth value.
fn is_truth_op2(op: Op2) -> bool
    ensures { result ≡ gives_truth (binary op) }
{
    match op {
        Op2::Pow | Op2::Times | Op2::Div | Op2::Mod => false,
        Op2::Intersect | Op2::Plus | Op2::Minus | Op2::Union => false,
        _ => true,
    }
}
