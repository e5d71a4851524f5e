ghost use Rattle.std.specs.Prelude.{◌≡◌, option_map};
ghost use Rattle.std.specs.Option.{option_copied};
ghost use Rattle.ess_semantics.specs.Operators.{as_truth, false_where_undefined};
ghost use Rattle.ess_core.specs.ValueViews.{pure_val};
ghost use Rattle.ess_eval_operators.specs.Connectives.{connects, connected as connected_of};

use ess_core::Val;
use ess_semantics::words::Op2;

/// The truth value of a Boolean node is always there: false where its operands have none. Any other node has what was found.
pub fn settle(mark: bool, found: Option<Val>) -> Option<Val>
    ensures { option_map pure_val result ≡ false_where_undefined mark (option_map pure_val found) }
{
    if mark {
        match found {
            Some(Val::Truth(truth)) => Some(Val::Truth(truth)),
            other => {
                drop(other);
                Some(Val::Truth(false))
            }
        }
    } else {
        found
    }
}

/// The truth value, and false for nothing.
pub(crate) fn is_true(found: Option<&Val>) -> bool
    ensures { result ≡ as_truth (option_map pure_val (option_copied found.entry)) }
{
    match found {
        Some(Val::Truth(truth)) => *truth,
        _ => false,
    }
}

/// Whether the operator connects two truth values.
pub(crate) fn is_connective(op: Op2) -> bool
    ensures { result ≡ connects op }
{
    match op {
        Op2::And => true,
        Op2::Or => true,
        Op2::Implies => true,
        Op2::Iff => true,
        _ => false,
    }
}

/// What the connective makes of two truth values; false for any other operator.
pub(crate) fn connected(op: Op2, a: bool, b: bool) -> bool
    ensures { result ≡ connected_of op a b }
{
    match op {
        Op2::And => a && b,
        Op2::Or => a || b,
        Op2::Implies => !a || b,
        Op2::Iff => a == b,
        _ => false,
    }
}
