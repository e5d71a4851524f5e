//! Which value of a step stays as it is, where the others have lettings put in, and what a step by a value reaches.
ghost use Rattle.std.specs.Prelude.{◌≡◌, true, Option, None, option_map, IfOk};
ghost use Rattle.ess_semantics.specs.Lists.{is_some_and};
ghost use Rattle.ess_semantics.specs.Types.{Ty as PureTy};
ghost use Rattle.ess_semantics.specs.Typing.{static, type_behind};
ghost use Rattle.ess_semantics.specs.Lettings.{is_record_or_tuple};
ghost use Rattle.ess_core.specs.TypeViews.{pure_ty};
ghost use Rattle.ess_core.specs.TreeViews.{pure_ex};

use ess_core::{Boxed, Ex, NoMemory, Ty};
use ess_types_entering::is_record_or_tuple;
use ess_types_operators::step_type;
use std::alloc::Global;

/// Whether a place is a record or a tuple: the value of a step from it stays as it is.
pub(crate) fn is_kept(place: &Option<Boxed<Ty>>) -> bool
    ensures { result ≡ is_some_and (option_map pure_ty place.now) is_record_or_tuple }
{
    match place {
        Some(ty) => is_record_or_tuple(ty.get()),
        None => false,
    }
}

/// The value of a step from a place that is a record or a tuple, as it is, and the type that the step reaches: that doesn't
/// depend on the value's type.
#[tactic(auto, using(crate::proofs::Paths::behind_kept))]
pub(crate) fn kept_value(
    alloc: Global,
    ex: &Ex,
    place: &Option<Boxed<Ty>>,
) -> Result<(Boxed<Ex>, Option<Boxed<Ty>>), NoMemory>
    requires { is_some_and (option_map pure_ty place.now) is_record_or_tuple ≡ true }
    ensures value { IfOk result (λ r. pure_ex r.0 ≡ pure_ex ex.now) }
    ensures behind { IfOk result (λ r. (u : Option PureTy)
        → option_map pure_ty r.1 ≡ type_behind (option_map pure_ty place.now) (static (pure_ex r.0)) u) }
{
    let behind = value_behind(alloc, place, ex, None)?;
    let value = Boxed::new(alloc, ex.copy(alloc)?)?;
    Ok((value, behind))
}

/// The type that a step by a value of this type reaches.
pub(crate) fn value_behind(
    alloc: Global,
    place: &Option<Boxed<Ty>>,
    value: &Ex,
    ty: Option<Boxed<Ty>>,
) -> Result<Option<Boxed<Ty>>, NoMemory>
    ensures { IfOk result (λ o. option_map pure_ty o
        ≡ type_behind (option_map pure_ty place.now) (static (pure_ex value.now)) (option_map pure_ty ty)) }
{
    match place {
        Some(place) => match ty {
            Some(ty) => step_type(alloc, place.get(), value, Some(ty.get())),
            None => step_type(alloc, place.get(), value, None),
        },
        None => Ok(None),
    }
}
