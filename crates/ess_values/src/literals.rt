ghost use Rattle.std.specs.Prelude.{◌≡◌, option_map, is_some, IfOk};
ghost use Rattle.ess_semantics.specs.Lists.{when};
ghost use Rattle.ess_semantics.specs.Types.{join as join_of};
ghost use Rattle.ess_values.specs.Shapes.{pure_shape};
ghost use Rattle.ess_semantics.specs.Literals.{literal_value};
ghost use Rattle.ess_core.specs.ValueViews.{pure_val};
ghost use Rattle.ess_core.specs.TypeViews.{pure_ty};
ghost use Rattle.ess_core.specs.TreeViews.{pure_ex};
ghost use Rattle.ess_core.specs.TableViews.{pure_env};
ghost use Rattle.ess_values.specs.declared.literals.ValNo.TheVariants.{NotAValue};

mod fields;
mod index;
mod kinds;
mod numbers;
mod parts;
mod reading;

use crate::joining::join;
use crate::shapes::{Shape, shape_of};
use ess_core::{Boxed, Env, Ex, NoMemory, Ty, Val};
pub use parts::Literal;
use reading::literal;
use std::alloc::Global;

/// Why an expression has no value of a type.
#[derive(Clone, Copy, Debug, PartialEq, Eq)]
pub enum ValNo {
    /// It is no literal of that type, or one without a value.
    NotAValue,
    /// There is no room for the value.
    NoMemory,
}

impl From<NoMemory> for ValNo {
    ghost use Rattle.std.specs.Prelude.{◌≡◌};
    ghost use Rattle.ess_values.specs.declared.literals.ValNo.TheVariants.{NoMemory};

    ghost from_gives = { λ _ e. e ≡ NoMemory };

    fn from(_: NoMemory) -> ValNo {
        ValNo::NoMemory
    }
}

/// The value of a literal of a type, in canonical form. A literal has no operator but `-` before a number; a name in it is
/// that of a value of an enumerated type, or `T_k` for the k-th value of the unnamed type T. `NotAValue` where the
/// expression is no literal of the type, or has no value, as `function(1 --> 2, 1 --> 3)`; `NoMemory` where there is no
/// room.
pub fn val_of(alloc: Global, ex: &Ex, ty: &Ty, env: &Env) -> Result<Val, ValNo>
    ensures ok { IfOk result (λ v. literal_value (pure_ex ex.now) (pure_ty ty.now) (pure_env env.now) ≡ Some (pure_val v)) }
    ensures not_a_value { result ≡ Err NotAValue → literal_value (pure_ex ex.now) (pure_ty ty.now) (pure_env env.now) ≡ None }
{
    match typed(alloc, ex, ty, env)? {
        Some(val) => Ok(val.into_inner()),
        None => Err(ValNo::NotAValue),
    }
}

/// The value of a literal of a type, where it has one.
fn typed(alloc: Global, ex: &Ex, ty: &Ty, env: &Env) -> Result<Option<Boxed<Val>>, NoMemory>
    ensures { IfOk result (λ o. option_map pure_val o ≡ literal_value (pure_ex ex.now) (pure_ty ty.now) (pure_env env.now)) }
{
    let shape = Boxed::new(alloc, shape_of(alloc, ty)?)?;
    match literal(alloc, ex, env)? {
        Some(found) => of_shape(alloc, found, shape.get()),
        None => Ok(None),
    }
}

/// The value of a literal, where it agrees with a type.
fn of_shape(alloc: Global, found: Literal, shape: &Shape) -> Result<Option<Boxed<Val>>, NoMemory>
    ensures { IfOk result (λ o. option_map pure_val o ≡ when (is_some (join_of (pure_shape found.shape) (pure_shape shape.now))) (pure_val found.val)) }
{
    match join(alloc, found.shape.get(), shape)? {
        Some(_) => Ok(Some(found.val)),
        None => Ok(None),
    }
}
