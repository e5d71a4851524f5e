ghost use Rattle.std.specs.Prelude.{IfOk};
ghost use Rattle.eprime_eval_kinds.specs.BoundNames.{scope_kinds};
ghost use Rattle.eprime_eval_kinds.specs.Kinding.{IsKinded, AreKinded, IsKindedList};

use crate::cells::cell;
use crate::declared::Declared;
use crate::generators::kinded_gens;
use crate::lists::{KindedList, KindedRow, comprehension, items};
use crate::nodes::{KindedEx, named, truth};
use crate::operators::{fold, lex, one, two};
use crate::scope::{BoundName, copy_names};
use crate::tree::{KEx, Kind};
use eprime_tree::{PEx, PList};
use ess_rows::{Boxed, NoMemory};
use std::alloc::Global;

/// An expression with its kind, inside generators that bind the names of the scope.
#[cycle(kinded)]
#[tactic(auto, using(crate::proofs::Kindings::number_kinded, crate::proofs::Kindings::truth_kinded, crate::proofs::Kindings::name_kinded, crate::proofs::Kindings::cell_kinded, crate::proofs::Kindings::one_kinded, crate::proofs::Kindings::two_kinded, crate::proofs::Kindings::fold_kinded, crate::proofs::Kindings::lex_kinded))]
pub(crate) fn kinded_ex(
    alloc: Global,
    ex: &PEx,
    declared: &Declared,
    scope: &[BoundName],
) -> Result<KindedEx, NoMemory>
    ensures { IfOk result (λ k. IsKinded declared.now (scope_kinds scope.now) ex.now k) }
{
    match ex {
        PEx::Num(value) => Ok(KindedEx {
            ex: Boxed::new(alloc, KEx::Num(*value))?,
            kind: Kind::Int,
        }),
        PEx::Truth(value) => truth(alloc, *value),
        PEx::Name(name) => named(alloc, name, scope),
        PEx::Cell(name, at) => {
            let at = kinded_exs(alloc, at.as_slice(), declared, scope)?;
            cell(alloc, declared, name, at)
        }
        PEx::One(op, a) => one(alloc, *op, kinded_ex(alloc, a.get(), declared, scope)?),
        PEx::Two(op, a, b) => {
            let first = kinded_ex(alloc, a.get(), declared, scope)?;
            let second = kinded_ex(alloc, b.get(), declared, scope)?;
            two(alloc, *op, first, second)
        }
        PEx::Fold(fun, list) => fold(alloc, *fun, kinded_list(alloc, list, declared, scope)?),
        PEx::Lex(op, a, b) => {
            let first = kinded_list(alloc, a, declared, scope)?;
            let second = kinded_list(alloc, b, declared, scope)?;
            lex(alloc, *op, first, second)
        }
    }
}

/// Several expressions with their kinds.
#[cycle(kinded)]
#[tactic(auto, using(crate::proofs::Rows::row_none, crate::proofs::Rows::row_more, crate::proofs::Rows::row_all))]
fn kinded_exs(
    alloc: Global,
    exs: &[PEx],
    declared: &Declared,
    scope: &[BoundName],
) -> Result<KindedRow, NoMemory>
    ensures { IfOk result (λ r. AreKinded declared.now (scope_kinds scope.now) exs.now r) }
{
    let mut row = KindedRow::new(alloc);
    for ex in exs {
        row.push(kinded_ex(alloc, ex, declared, scope)?)?;
    }
    Ok(row)
}

/// A list with its kind, or what has nothing.
#[cycle(kinded)]
#[tactic(auto, using(crate::proofs::Kindings::items_kinded, crate::proofs::Comprehensions::comp_kinded))]
fn kinded_list(
    alloc: Global,
    list: &PList,
    declared: &Declared,
    scope: &[BoundName],
) -> Result<Option<KindedList>, NoMemory>
    ensures { IfOk result (λ o. IsKindedList declared.now (scope_kinds scope.now) list.now o) }
{
    match list {
        PList::Items(exs) => {
            let row = kinded_exs(alloc, exs.as_slice(), declared, scope)?;
            items(alloc, row)
        }
        PList::Comp(body, gens) => {
            let mut inner = copy_names(alloc, scope)?;
            let gens = kinded_gens(alloc, gens.as_slice(), declared, &mut inner)?;
            let body = kinded_ex(alloc, body.get(), declared, inner.as_slice())?;
            Ok(Some(comprehension(alloc, body, gens)?))
        }
    }
}
