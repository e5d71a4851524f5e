ghost use Rattle.std.specs.Prelude.{◌≡◌, false, option_map, IfOk};
ghost use Rattle.ess_core.specs.TreeViews.{pure_ex};
ghost use Rattle.ess_semantics.specs.Values.{number as a_number};
ghost use Rattle.ess_semantics.specs.Types.{int_ty};
ghost use Rattle.ess_semantics.specs.Trees.{number_ex, ex1};
ghost use Rattle.ess_values.specs.Literals.{pure_literal};
ghost use Rattle.ess_values.specs.TypedLiterals.{literal_number};

use super::parts::Literal;
use crate::shapes::Shape;
use ess_core::{Boxed, Ex, NoMemory, Op1, Val};
use std::alloc::Global;

/// The literal of a number, where the expression is one.
pub fn number(alloc: Global, ex: &Ex) -> Result<Option<Literal>, NoMemory>
    ensures { IfOk result (λ o. option_map pure_literal o ≡ option_map (λ n. (int_ty, a_number n)) (literal_number (pure_ex ex.now))) }
{
    match number_of(ex) {
        Some(number) => Ok(Some(Literal {
            shape: Boxed::new(alloc, Shape::Int)?,
            val: Boxed::new(alloc, Val::Num(number))?,
        })),
        None => Ok(None),
    }
}

/// The number of a literal of a number: one without a sign, or `-` before one.
pub fn number_of(ex: &Ex) -> Option<i64>
    ensures { result ≡ literal_number (pure_ex ex.now) }
{
    match ex {
        Ex::Num(number) => plain(*number),
        Ex::One(Op1::Minus, operand) => negated(operand.get()),
        _ => None,
    }
}

/// A number that isn't below 0.
fn plain(number: i64) -> Option<i64>
    ensures { result ≡ literal_number (number_ex number) }
{
    if number >= 0 { Some(number) } else { None }
}

/// The negative of a number without a sign.
fn negated(operand: &Ex) -> Option<i64>
    ensures { result ≡ literal_number (ex1 false Op1.Minus (pure_ex operand.now)) }
{
    match operand {
        Ex::Num(number) => { if *number >= 0 { Some(-*number) } else { None } }
        _ => None,
    }
}
