//! Types that may be there.
ghost use Rattle.std.specs.Prelude.{◌≡◌, Some};
ghost use Rattle.std.specs.Option.{option_copied};
ghost use Rattle.ess_semantics.specs.Types.{is_bool};
ghost use Rattle.ess_core.specs.TypeViews.{pure_ty};

use ess_core::Ty;
use ess_rows::Boxed;

/// A type that may be there, to be looked at.
pub fn seen_type(ty: &Option<Boxed<Ty>>) -> Option<&Ty>
    ensures { option_copied result ≡ ty.now }
{
    match ty {
        Some(ty) => Some(ty.get()),
        None => None,
    }
}

/// Whether the type is that of truth values.
pub fn is_truth(ty: &Ty) -> bool
    ensures { result ≡ is_bool (Some (pure_ty ty.now)) }
{
    match ty {
        Ty::Bool => true,
        _ => false,
    }
}
