//! Generators and conditions, and whether their types fit.
ghost use Rattle.std.specs.Prelude.{◌≡◌, option_map, if◌then◌else◌, IfOk};
ghost use Rattle.ess_semantics.specs.Lists.{and_then};
ghost use Rattle.ess_semantics.specs.OperatorTypes.{member_ty};
ghost use Rattle.ess_semantics.specs.Types.{join, bool_ty, or_any};
ghost use Rattle.ess_core.specs.TypeViews.{pure_ty};
ghost use Rattle.ess_core.specs.TreeViews.{pure_ex, pure_dom, pure_pat, pure_gen, over_item, from_item, cond_item};
ghost use Rattle.ess_types_names.specs.declared.under.Under.TheVariants.{Fits, Misfits};
ghost use Rattle.ess_types_nodes.specs.Parts.{fits_of, both_fit};

use ess_core::{Boxed, Dom, Ex, Gen, NoMemory, Pat, Ty};
use ess_types_names::Under;
use ess_types_operators::{fits_bool, member_type};
use std::alloc::Global;

/// A generator over a domain. `NoMemory` where there is no room for it.
#[tactic(auto, using(ess_core::proofs::PartEquations::pure_gen_over))]
pub fn over_node(alloc: Global, pat: &Pat, dom: Boxed<Dom>) -> Result<Boxed<Gen>, NoMemory>
    ensures { IfOk result (λ x. pure_gen x ≡ over_item (pure_pat pat.now) (pure_dom dom)) }
{
    let pat = pat.copy(alloc)?;
    Boxed::new(alloc, Gen::Over(pat, dom.into_inner()))
}

/// A generator over the members of a value. `NoMemory` where there is no room for it.
#[tactic(auto, using(ess_core::proofs::PartEquations::pure_gen_from))]
pub fn from_node(alloc: Global, pat: &Pat, source: Boxed<Ex>) -> Result<Boxed<Gen>, NoMemory>
    ensures { IfOk result (λ x. pure_gen x ≡ from_item (pure_pat pat.now) (pure_ex source)) }
{
    let pat = pat.copy(alloc)?;
    Boxed::new(alloc, Gen::From(pat, source.into_inner()))
}

/// A condition. `NoMemory` where there is no room for it.
#[tactic(auto, using(ess_core::proofs::PartEquations::pure_gen_if))]
pub fn if_node(alloc: Global, condition: Boxed<Ex>) -> Result<Boxed<Gen>, NoMemory>
    ensures { IfOk result (λ x. pure_gen x ≡ cond_item (pure_ex condition)) }
{
    Boxed::new(alloc, Gen::If(condition.into_inner()))
}

/// The type of the members of a type, where there is one. `NoMemory` where there is no room for it.
pub fn member_of(alloc: Global, ty: Option<Boxed<Ty>>) -> Result<Option<Boxed<Ty>>, NoMemory>
    ensures { IfOk result (λ o. option_map pure_ty o ≡ and_then (option_map pure_ty ty) member_ty) }
{
    match ty {
        Some(ty) => member_type(alloc, ty.get()),
        None => Ok(None),
    }
}

/// Whether there is a type of members: whether a source fits.
pub fn fits_where(member: &Option<Boxed<Ty>>) -> Under
    ensures { result ≡ fits_of (option_map pure_ty member.now) }
{
    match member {
        Some(_) => Under::Fits,
        None => Under::Misfits,
    }
}

/// The type, or that of the members of an empty literal where there is none. `NoMemory` where there is no room for it.
pub fn or_any(alloc: Global, ty: Option<Boxed<Ty>>) -> Result<Boxed<Ty>, NoMemory>
    ensures { IfOk result (λ t. pure_ty t ≡ or_any (option_map pure_ty ty)) }
{
    match ty {
        Some(ty) => Ok(ty),
        None => Boxed::new(alloc, Ty::Any),
    }
}

/// Whether a condition of this type is a truth value.
#[tactic(auto, using(crate::proofs::Fitting::fits_some))]
pub fn condition_fits(ty: &Option<Boxed<Ty>>) -> Under
    ensures { result ≡ fits_of (and_then (option_map pure_ty ty.now) (λ t. join t bool_ty)) }
{
    match ty {
        Some(ty) => fitting(fits_bool(ty.get())),
        None => Under::Misfits,
    }
}

/// The answer of a test.
fn fitting(fits: bool) -> Under
    ensures { result ≡ if fits then Fits else Misfits }
{
    if fits { Under::Fits } else { Under::Misfits }
}

/// Whether the types of the first and of the second fit.
pub fn both_fit(first: Under, second: Under) -> Under
    ensures { result ≡ both_fit first second }
{
    match first {
        Under::Fits => second,
        Under::Misfits => Under::Misfits,
    }
}
