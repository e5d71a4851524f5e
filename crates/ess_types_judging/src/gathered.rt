//! What is gathered of generators, and of the numbers of a domain, one after another.
ghost use Rattle.std.specs.Prelude.{◌≡◌, option_map, is_some};
ghost use Rattle.ess_semantics.specs.Lists.{is_some_and};
ghost use Rattle.ess_semantics.specs.Types.{bool_ty, int_ty, join};
ghost use Rattle.ess_core.specs.TypeViews.{pure_ty};
ghost use Rattle.ess_types_judging_laws.specs.Accumulated.{no_number as is_no_number, with_number as is_with_number};
ghost use Rattle.ess_types_judging.specs.Findings.{pure_judged};
ghost use Rattle.ess_types_judging.specs.Judging.{pure_numbers};

use crate::found::{Found, all_well, both};
use crate::judged::Judged;
use ess_core::{Boxed, Ty};

/// What is found of generators: whether their own types fit, whether each has an order, and the rest.
#[derive(Clone, Copy, Debug)]
pub struct Gathered {
    pub typed: bool,
    pub ordered: bool,
    pub found: Found,
}

/// What is found of the numbers of a domain: whether each is an int, and the rest.
#[derive(Clone, Copy, Debug)]
pub struct Numbers {
    pub ints: bool,
    pub found: Found,
}

/// Whether there is a type, and it agrees with that of truth values.
pub(crate) fn is_truth(ty: &Option<Boxed<Ty>>) -> bool
    ensures { result ≡ is_some_and (option_map pure_ty ty.now) (λ t. is_some (join t bool_ty)) }
{
    match ty {
        Some(ty) => fits_bool(ty.get()),
        None => false,
    }
}

/// Before the first number.
pub(crate) fn no_number() -> Numbers
    ensures { pure_numbers result ≡ is_no_number }
{
    Numbers {
        ints: true,
        found: all_well(),
    }
}

/// Whether there is a type, and it agrees with that of numbers.
fn is_int(ty: &Option<Boxed<Ty>>) -> bool
    ensures { result ≡ is_some_and (option_map pure_ty ty.now) (λ t. is_some (join t int_ty)) }
{
    match ty {
        Some(ty) => fits_int(ty.get()),
        None => false,
    }
}

/// With one number more.
pub(crate) fn with_number(numbers: Numbers, judged: &Judged) -> Numbers
    ensures { pure_numbers result ≡ is_with_number (pure_numbers numbers) (pure_judged judged.now) }
{
    Numbers {
        ints: numbers.ints & is_int(&judged.ty),
        found: both(numbers.found, judged.found),
    }
}

/// Whether the type agrees with that of truth values.
fn fits_bool(ty: &Ty) -> bool
    ensures { result ≡ is_some (join (pure_ty ty.now) bool_ty) }
{
    match ty {
        Ty::Any => true,
        Ty::Bool => true,
        _ => false,
    }
}

/// Whether the type agrees with that of numbers.
fn fits_int(ty: &Ty) -> bool
    ensures { result ≡ is_some (join (pure_ty ty.now) int_ty) }
{
    match ty {
        Ty::Any => true,
        Ty::Int => true,
        _ => false,
    }
}
