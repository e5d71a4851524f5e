ghost use Rattle.std.specs.Prelude.{◌≡◌, ◌∷◌, [], IfOk, IfErr, Some, true, option_map};
ghost use Rattle.ess_semantics.specs.Large.{is_big};
ghost use Rattle.ess_semantics.specs.Trees.{binary};
ghost use Rattle.ess_semantics.specs.Operators.{value_of_node};
ghost use Rattle.ess_core.specs.ValueViews.{pure_val};
ghost use Rattle.eprime_eval_scalars.specs.ScalarViews.{pure_scalar};
ghost use Rattle.eprime_eval_scalars.specs.declared.Stop.TheVariants.{Big, NoMemory};

use crate::{Scalar, Stop};
use ess_core::{Op2, Val};
use ess_eval_operators::{OperateNo, value_of_binary};
use std::alloc::Global;

/// A quotient, a remainder or a power, where there is one. `Big` where it is outside 64 bits.
pub(crate) fn divided(alloc: Global, op: Op2, a: Scalar, b: Scalar) -> Result<Option<Scalar>, Stop>
    ensures ok { IfOk result (λ o. option_map pure_scalar o ≡ value_of_node (binary op) (Some (pure_scalar a) ∷ Some (pure_scalar b) ∷ [])) }
    ensures big { result ≡ Err Big → is_big (value_of_node (binary op) (Some (pure_scalar a) ∷ Some (pure_scalar b) ∷ [])) ≡ true }
{
    let a = val_of(a);
    let b = val_of(b);
    match value_of_binary(alloc, op, Some(&a), Some(&b)) {
        Ok(found) => scalar_of(found),
        Err(OperateNo::Big) => Err(Stop::Big),
        Err(OperateNo::NoMemory) => Err(Stop::NoMemory),
    }
}

/// A scalar as a value.
fn val_of(scalar: Scalar) -> Val
    ensures { pure_val result ≡ pure_scalar scalar }
{
    match scalar {
        Scalar::Num(number) => Val::Num(number),
        Scalar::Truth(truth) => Val::Truth(truth),
    }
}

/// A value as a scalar. `NoMemory` where it is no number and no truth value.
fn scalar_of(found: Option<Val>) -> Result<Option<Scalar>, Stop>
    ensures ok { IfOk result (λ o. option_map pure_scalar o ≡ option_map pure_val found) }
    ensures never { IfErr result (λ no. no ≡ NoMemory) }
{
    let scalar = match &found {
        Some(Val::Num(number)) => Ok(Some(Scalar::Num(*number))),
        Some(Val::Truth(truth)) => Ok(Some(Scalar::Truth(*truth))),
        Some(_) => Err(Stop::NoMemory),
        None => Ok(None),
    };
    drop(found);
    scalar
}
