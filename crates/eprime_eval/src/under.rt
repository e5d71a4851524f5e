ghost use Rattle.std.specs.Prelude.{◌≡◌, ◌≢◌, ◌++◌, IfOk, IfErr, List, map, Some, None, true};
ghost use Rattle.ess_semantics.specs.Names.{Names};
ghost use Rattle.ess_semantics.specs.Tables as pure;
ghost use Rattle.ess_semantics.specs.DeclaredTables.{TableDecl};
ghost use Rattle.ess_semantics.specs.Meaning.{is_true};
ghost use Rattle.ess_semantics.specs.ModelMeaning.{model_domain, model_value};
ghost use Rattle.ess_semantics.specs.LargeModels.{dom_is_large, ex_is_large};
ghost use Rattle.ess_grammar.specs.Models.{Scope};
ghost use Rattle.ess_core.specs.TableViews.{pure_named_table};
ghost use Rattle.eprime_tree.specs.Views.{pure_dom, pure_ex};
ghost use Rattle.eprime_eval_kinds.specs.Shapes.{decl_shape, shape_of};
ghost use Rattle.eprime_eval.specs.ClosedDomains.{pure_closed};
ghost use Rattle.eprime_eval.specs.UnderTables.{IsUnder};
ghost use Rattle.eprime_eval.specs.KnownTables.{IsKnown};
ghost use Rattle.eprime_eval.specs.declared.closing.EvalNo.TheVariants.{Undefined, Big};

use crate::closing::EvalNo;
use crate::evaluating::value_at;
use crate::knowing::known_of;
use crate::known::Known;
use crate::members::Closed;
use crate::operators::truth_of;
use crate::ranging::closed_at;
use crate::{NoMemory, Row, Stop};
use eprime_eval_kinds::{Declared, kinded, kinded_dom};
use eprime_tree::{PDecl, PDom, PEx};
use ess_core::NamedTable;
use std::alloc::Global;

/// Declarations, and tables for them.
#[derive(Drop)]
pub struct Under {
    pub(crate) shapes: Declared,
    pub(crate) known: Known,
}

/// Declarations of a model with given and found tables. `NoMemory` where there is no room for them.
#[tactic(auto, using(crate::proofs::Unders::is_under))]
pub fn with_tables(
    alloc: Global,
    givens: &[PDecl],
    finds: &[PDecl],
    given: &[NamedTable],
    found: &[NamedTable],
) -> Result<Under, NoMemory>
    ensures { IfOk result (λ u. IsUnder u (map decl_shape (givens.now ++ finds.now)) (map pure_named_table (given.now ++ found.now))) }
{
    let known = known_of(alloc, givens, finds, given, found)?;
    let shapes = Declared::of(alloc, givens, finds)?;
    Ok(Under { shapes, known })
}

/// The domain that a declared domain denotes. `Undefined` where a bound has no meaning, `Big` where a number on the way lies
/// outside 64 bits, `NoMemory` where there is no room for it.
#[tactic(auto, using(crate::proofs::Unders::closings))]
pub fn closed_in(alloc: Global, dom: &PDom, under: &Under) -> Result<Closed, EvalNo>
    requires known { IsKnown under.now.known }
    ensures ok { IfOk result (λ r. (ds : List TableDecl) (s : Scope) (c : Names pure.Table) → IsUnder under.now (map shape_of ds) c → model_domain ds c (pure_dom s dom.now) ≡ Some (pure_closed r)) }
    ensures undefined { result ≡ Err Undefined → (ds : List TableDecl) (s : Scope) (c : Names pure.Table) → IsUnder under.now (map shape_of ds) c → model_domain ds c (pure_dom s dom.now) ≡ None }
    ensures big { result ≡ Err Big → (ds : List TableDecl) (s : Scope) (c : Names pure.Table) → IsUnder under.now (map shape_of ds) c → dom_is_large ds c (pure_dom s dom.now) ≡ true }
{
    match kinded_dom(alloc, dom, &under.shapes) {
        Ok(tree) => {
            let mut bound = Row::new(alloc);
            match closed_at(alloc, tree.get(), &under.known, &mut bound) {
                Ok(Some(domain)) => Ok(domain),
                Ok(None) => Err(EvalNo::Undefined),
                Err(Stop::Big) => Err(EvalNo::Big),
                Err(Stop::NoMemory) => Err(EvalNo::NoMemory),
            }
        }
        Err(_) => Err(EvalNo::NoMemory),
    }
}

/// Whether an expression is true: false where it is false, no truth value, or without a value. `Big` where a number on the
/// way lies outside 64 bits, `NoMemory` where there is no room to tell.
#[tactic(auto, using(crate::proofs::Unders::truths))]
pub fn truth_in(alloc: Global, ex: &PEx, under: &Under) -> Result<bool, EvalNo>
    requires known { IsKnown under.now.known }
    ensures ok { IfOk result (λ b. (ds : List TableDecl) (s : Scope) (c : Names pure.Table) → IsUnder under.now (map shape_of ds) c → is_true (model_value ds c (pure_ex s ex.now)) ≡ b) }
    ensures big { result ≡ Err Big → (ds : List TableDecl) (s : Scope) (c : Names pure.Table) → IsUnder under.now (map shape_of ds) c → ex_is_large ds c (pure_ex s ex.now) ≡ true }
    ensures defined { IfErr result (λ no. no ≢ Undefined) }
{
    match kinded(alloc, ex, &under.shapes) {
        Ok(tree) => {
            let mut bound = Row::new(alloc);
            match value_at(alloc, tree.ex.get(), &under.known, &mut bound) {
                Ok(found) => Ok(truth_of(found)),
                Err(Stop::Big) => Err(EvalNo::Big),
                Err(Stop::NoMemory) => Err(EvalNo::NoMemory),
            }
        }
        Err(_) => Err(EvalNo::NoMemory),
    }
}
