ghost use Rattle.std.specs.Prelude.{◌≡◌, [], ◌∷◌, List, map, IfOk};
ghost use Rattle.std.specs.List.{list_any};
ghost use Rattle.ess_semantics.specs.Values as values;
ghost use Rattle.ess_semantics.specs.Types.{bool_ty};
ghost use Rattle.ess_semantics.specs.Trees.{truth_ex};
ghost use Rattle.ess_semantics.specs.ModelMeaning.{broken as broken_as, nothing as nothing_as, kinded_name, is_nothing as has_nothing, as_bound as bound_as};
ghost use Rattle.ess_semantics.specs.Names.{look};
ghost use Rattle.eprime_eval_kinds.specs.BoundNames.{scope_kinds};
ghost use Rattle.eprime_eval_kinds.specs.KindedViews.{pure_kex, pure_kind, pure_kinded};

use crate::scope::{BoundName, kind_of};
use crate::tree::{KEx, Kind};
use ess_rows::{Boxed, NoMemory, Row, Text};
use std::alloc::Global;

/// An expression as it is evaluated, with its kind.
#[derive(Drop)]
pub struct KindedEx {
    pub ex: Boxed<KEx>,
    pub kind: Kind,
}

/// A truth value.
pub(crate) fn truth(alloc: Global, truth: bool) -> Result<KindedEx, NoMemory>
    ensures { IfOk result (λ k. (names : List values.Text) → pure_kinded names k ≡ (truth_ex truth, bool_ty)) }
{
    Ok(KindedEx {
        ex: Boxed::new(alloc, KEx::Truth(truth))?,
        kind: Kind::Bool,
    })
}

/// What has nothing.
pub(crate) fn nothing(alloc: Global) -> Result<KindedEx, NoMemory>
    ensures { IfOk result (λ k. (names : List values.Text) → pure_kinded names k ≡ nothing_as) }
{
    Ok(KindedEx {
        ex: Boxed::new(alloc, KEx::Nothing)?,
        kind: Kind::Any,
    })
}

/// What stands for an operator or a cell of this kind that has an operand of another kind.
pub(crate) fn broken(alloc: Global, kind: Kind) -> Result<KindedEx, NoMemory>
    ensures { IfOk result (λ k. (names : List values.Text) → pure_kinded names k ≡ broken_as (pure_kind kind)) }
{
    let ex = match kind {
        Kind::Bool => Boxed::new(alloc, KEx::Truth(false))?,
        Kind::Any | Kind::Int => Boxed::new(alloc, KEx::Nothing)?,
    };
    Ok(KindedEx { ex, kind })
}

/// A name: one that is bound, or what has nothing.
pub(crate) fn named(alloc: Global, name: &Text, scope: &[BoundName]) -> Result<KindedEx, NoMemory>
    ensures { IfOk result (λ k. (names : List values.Text) → pure_kinded names k ≡ kinded_name name.now (look (scope_kinds scope.now) name.now)) }
{
    match kind_of(scope, name) {
        Some(kind) => {
            let name = name.copy(alloc)?;
            Ok(KindedEx {
                ex: Boxed::new(alloc, KEx::Name(name))?,
                kind,
            })
        }
        None => nothing(alloc),
    }
}

/// Whether an expression is the one that has nothing.
pub(crate) fn is_nothing(ex: &KEx) -> bool
    ensures { result ≡ has_nothing (pure_kex [] ex.now) }
{
    match ex {
        KEx::Nothing => true,
        KEx::Name(name) => name.is_empty(),
        _ => false,
    }
}

/// Whether one of the operands is.
pub(crate) fn some_nothing(exs: &[KEx]) -> bool
    ensures { result ≡ list_any (λ e. has_nothing (pure_kex [] e)) exs.now }
{
    exs.iter().any(|ex| is_nothing(ex))
}

/// A bound: one of another kind has nothing.
pub(crate) fn as_bound(alloc: Global, bound: KindedEx) -> Result<Boxed<KEx>, NoMemory>
    ensures { IfOk result (λ e. (names : List values.Text) → pure_kex names e ≡ bound_as (pure_kinded names bound)) }
{
    if bound.kind.fits_int() {
        Ok(bound.ex)
    } else {
        drop(bound);
        Ok(Boxed::new(alloc, KEx::Nothing)?)
    }
}
