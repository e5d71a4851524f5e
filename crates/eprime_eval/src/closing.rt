ghost use Rattle.std.specs.Prelude.{◌≡◌, IfOk, Some, None, map};
ghost use Rattle.eprime_eval_scalars.specs.Runs.{pure_run};
ghost use Rattle.eprime_eval.specs.DomainsOf.{Denotes, HasMembers, HasLargeBound, IsItem, AreRunsOf};
ghost use Rattle.eprime_eval.specs.ClosedDomains.{pure_closed};
ghost use Rattle.eprime_eval.specs.declared.closing.EvalNo.TheVariants.{Undefined, Big};

use crate::members::{Closed, numbers_of, runs_in};
use crate::under::{closed_in, with_tables};
use crate::{NoMemory, Row, Run};
use eprime_tree::{PDecl, PDom};
use ess_core::Cells;
use std::alloc::Global;

/// Why there is no answer: the same words as those of the evaluation of specifications.
#[derive(Clone, Copy, Debug, PartialEq, Eq)]
pub enum EvalNo {
    /// A bound of a declared domain has no meaning.
    Undefined,
    /// A number on the way to the answer lies below -(2^63 - 1) or above 2^63 - 1.
    Big,
    /// Tables would have this many cells, which is more than may be made. The calls on models answer this never.
    TooManyCells(u128),
    /// There is no room for the answer.
    NoMemory,
}

impl From<NoMemory> for EvalNo {
    ghost use Rattle.std.specs.Prelude.{◌≡◌};
    ghost use Rattle.eprime_eval.specs.declared.closing.EvalNo.TheVariants.{NoMemory};

    ghost from_gives = { λ _ e. e ≡ NoMemory };

    fn from(_: NoMemory) -> EvalNo {
        EvalNo::NoMemory
    }
}

/// The domain that a declared domain denotes under given tables, where `known` are the declarations of the givens.
/// `Undefined` where a bound has no meaning, `Big` where a number on the way lies outside 64 bits, `NoMemory` where there is
/// no room for it.
#[tactic(auto, using(crate::proofs::Denoting::denotings))]
pub fn closed(
    alloc: Global,
    dom: &PDom,
    known: &Row<PDecl>,
    givens: &Cells,
) -> Result<Closed, EvalNo>
    ensures ok { IfOk result (λ r. Denotes known.now givens.now dom.now (Some (pure_closed r))) }
    ensures undefined { result ≡ Err Undefined → Denotes known.now givens.now dom.now None }
    ensures big { result ≡ Err Big → HasLargeBound known.now givens.now dom.now }
{
    match with_tables(alloc, known.as_slice(), &[], givens.list.as_slice(), &[]) {
        Ok(under) => closed_in(alloc, dom, &under),
        Err(_) => Err(EvalNo::NoMemory),
    }
}

/// The members of a declared axis, rising; truth values are 0 and 1. The errors are those of `closed`, and `NoMemory` comes
/// also where the domain has no list of members: without a range, or with one that lacks a bound.
#[tactic(auto, using(crate::proofs::Denoting::members_there))]
pub fn axis(
    alloc: Global,
    dom: &PDom,
    known: &Row<PDecl>,
    givens: &Cells,
) -> Result<Row<i64>, EvalNo>
    ensures ok { IfOk result (λ r. HasMembers known.now givens.now dom.now (Some r)) }
    ensures undefined { result ≡ Err Undefined → Denotes known.now givens.now dom.now None }
    ensures big { result ≡ Err Big → HasLargeBound known.now givens.now dom.now }
{
    let domain = closed(alloc, dom, known, givens)?;
    match numbers_of(alloc, &domain) {
        Ok(Some(numbers)) => Ok(numbers),
        Ok(None) => Err(EvalNo::NoMemory),
        Err(_) => Err(EvalNo::NoMemory),
    }
}

/// Whether a number is a member of a declared domain; truth values are 0 and 1. The errors are those of `closed`.
#[tactic(auto, using(crate::proofs::Denoting::item_there))]
pub fn inside(
    alloc: Global,
    dom: &PDom,
    known: &Row<PDecl>,
    givens: &Cells,
    n: i64,
) -> Result<bool, EvalNo>
    ensures ok { IfOk result (λ b. IsItem known.now givens.now dom.now n b) }
    ensures undefined { result ≡ Err Undefined → Denotes known.now givens.now dom.now None }
    ensures big { result ≡ Err Big → HasLargeBound known.now givens.now dom.now }
{
    let domain = closed(alloc, dom, known, givens)?;
    Ok(domain.holds(n))
}

/// The maximal runs of the members of a declared domain, rising. The errors are those of `closed`.
#[tactic(auto, using(crate::proofs::Denoting::runs_there))]
pub fn runs(
    alloc: Global,
    dom: &PDom,
    known: &Row<PDecl>,
    givens: &Cells,
) -> Result<Row<Run>, EvalNo>
    ensures ok { IfOk result (λ r. AreRunsOf known.now givens.now dom.now (map pure_run r)) }
    ensures undefined { result ≡ Err Undefined → Denotes known.now givens.now dom.now None }
    ensures big { result ≡ Err Big → HasLargeBound known.now givens.now dom.now }
{
    let domain = closed(alloc, dom, known, givens)?;
    match runs_in(alloc, &domain) {
        Ok(runs) => Ok(runs),
        Err(_) => Err(EvalNo::NoMemory),
    }
}
