ghost use Rattle.std.specs.Prelude.{◌≡◌, ◌||◌, option_map};
ghost use Rattle.ess_semantics.specs.Lists.{when};
ghost use Rattle.ess_semantics.specs.Trees.{unary};
ghost use Rattle.ess_grammar.specs.Models.{is_plain_operator, is_lex_operator, is_fold};
ghost use Rattle.eprime_tree.specs.Views.{pure_op1, pure_op2, pure_fun};

use eprime_tree::{PFun, POp1, POp2};
use ess_core::{Fun, Op1, Op2};

/// The operator of models over one operand.
pub fn prefix(op: Op1) -> POp1
    ensures { pure_op1 result ≡ unary op }
{
    match op {
        Op1::Minus => POp1::Minus,
        Op1::Not => POp1::Not,
        Op1::Bar => POp1::Bar,
    }
}

/// Whether the operator is a lex sign.
pub fn is_lex(op: Op2) -> bool
    ensures { result ≡ is_lex_operator op }
{
    matches!(op, Op2::LexLt | Op2::LexLe | Op2::LexGt | Op2::LexGe)
}

/// The operator of models between two operands, where there is one.
pub fn infix(op: Op2) -> Option<POp2>
    ensures { option_map pure_op2 result ≡ when (is_lex_operator op || is_plain_operator op) op }
{
    match op {
        Op2::Pow => Some(POp2::Pow),
        Op2::Times => Some(POp2::Times),
        Op2::Div => Some(POp2::Div),
        Op2::Mod => Some(POp2::Mod),
        Op2::Plus => Some(POp2::Plus),
        Op2::Minus => Some(POp2::Minus),
        Op2::Eq => Some(POp2::Eq),
        Op2::Ne => Some(POp2::Ne),
        Op2::Lt => Some(POp2::Lt),
        Op2::Le => Some(POp2::Le),
        Op2::Gt => Some(POp2::Gt),
        Op2::Ge => Some(POp2::Ge),
        Op2::LexLt => Some(POp2::LexLt),
        Op2::LexLe => Some(POp2::LexLe),
        Op2::LexGt => Some(POp2::LexGt),
        Op2::LexGe => Some(POp2::LexGe),
        Op2::And => Some(POp2::And),
        Op2::Or => Some(POp2::Or),
        Op2::Implies => Some(POp2::Implies),
        Op2::Iff => Some(POp2::Iff),
        _ => None,
    }
}

/// The word of models over a list, where there is one.
pub fn fold_word(fun: Fun) -> Option<PFun>
    ensures { option_map pure_fun result ≡ when (is_fold fun) fun }
{
    match fun {
        Fun::And => Some(PFun::And),
        Fun::Or => Some(PFun::Or),
        Fun::Sum => Some(PFun::Sum),
        Fun::Product => Some(PFun::Product),
        Fun::Min => Some(PFun::Min),
        Fun::Max => Some(PFun::Max),
        Fun::AllDiff => Some(PFun::AllDiff),
        _ => None,
    }
}
