//! Natural places: where quotients, remainders and powers may have nothing, as a model's checker reads them.
ghost use Rattle.std.specs.Prelude.{◌≡◌};
ghost use Rattle.ess_core_nodes.specs.NodeViews.{pure_op};
ghost use Rattle.ess_guard_laws.specs.Guard.{compares as is_comparing, counts as is_counting, is_plain as is_plain_op};
ghost use Rattle.ess_guard_laws.specs.Guard.{connects as is_connecting};

use ess_core::{Op1, Op2};
use ess_core_nodes::Op;

/// Whether the operator compares: its operands are natural places.
pub fn compares(op: &Op) -> bool
    ensures { result ≡ is_comparing (pure_op op.now) }
{
    match op {
        Op::Binary(Op2::Eq | Op2::Ne | Op2::Lt | Op2::Le | Op2::Gt | Op2::Ge) => true,
        _ => false,
    }
}

/// Whether the operator is one on numbers, whose operands stand in natural places where it does.
pub fn counts(op: &Op) -> bool
    ensures { result ≡ is_counting (pure_op op.now) }
{
    match op {
        Op::Unary(Op1::Minus | Op1::Bar) => true,
        Op::Binary(Op2::Plus | Op2::Minus | Op2::Times) => true,
        Op::Binary(Op2::Div | Op2::Mod | Op2::Pow) => true,
        _ => false,
    }
}

/// Whether an operator treats its operands one by one.
pub fn connects(op: &Op) -> bool
    ensures { result ≡ is_connecting (pure_op op.now) }
{
    match op {
        Op::Unary(Op1::Not) => true,
        Op::Binary(Op2::And | Op2::Or | Op2::Implies | Op2::Iff) => true,
        _ => false,
    }
}

/// Whether the operator may have nothing in a natural place: a quotient, a remainder, a power.
pub fn is_plain(op: &Op) -> bool
    ensures { result ≡ is_plain_op (pure_op op.now) }
{
    match op {
        Op::Binary(Op2::Div | Op2::Mod | Op2::Pow) => true,
        _ => false,
    }
}
