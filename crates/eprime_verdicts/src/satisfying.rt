ghost use Rattle.std.specs.Prelude.{◌≡◌, ◌≢◌, ◌++◌, ◌↔◌, IfOk, IfErr, map, min, option_map, true, false};
ghost use Rattle.std.specs.List.{list_all, list_any};
ghost use Rattle.ess_semantics.specs.Names.{Names};
ghost use Rattle.ess_semantics.specs.Tables as pure;
ghost use Rattle.ess_semantics.specs.ModelTrees.{all_decls};
ghost use Rattle.ess_semantics.specs.LargeModels.{declares_large, ex_is_large, model_is_large};
ghost use Rattle.ess_semantics.specs.Satisfaction.{domain_has_meaning, first_false as first_false_of, model_verdict, undefined as has_no_meaning, Sat};
ghost use Rattle.ess_core.specs.TableViews.{pure_cells};
ghost use Rattle.eprime_tree.specs.Views.{pure_model};
ghost use Rattle.eprime_eval_kinds.specs.Shapes.{shape_of};
ghost use Rattle.eprime_eval.specs.KnownTables.{IsKnown};
ghost use Rattle.eprime_eval.specs.UnderTables.{IsUnder};
ghost use Rattle.eprime_eval.specs.declared.closing.EvalNo.TheVariants.{Undefined, Big};
ghost use Rattle.eprime_verdicts.specs.ModelVerdicts.{AreFound, IsVerdict};
ghost use Rattle.eprime_verdicts.specs.declared.satisfying.PVerdict.TheVariants.{Yes};

use crate::domains::{ClosedDecl, closed_decls};
use crate::fitting::first_outside;
use crate::names::{first_extra, first_missing};
use crate::ruling::first_false;
use eprime_eval::{EvalNo, Under, with_tables};
use eprime_tree::{PModel, Text};
use ess_core::Cells;
use ess_rows::Row;
use std::alloc::Global;

/// What tables fail first.
#[derive(Debug, Drop, PartialEq)]
pub enum PVerdict {
    /// Nothing: they satisfy the model.
    Yes,
    /// The table isn't over the declared axes, or has an item outside the declared domain.
    OutOfDomain(Text),
    /// No table has this name.
    Missing(Text),
    /// This table doesn't stand in the place of its declaration, or has none.
    Extra(Text),
    /// The constraint with this number is false. They count from 1, and the number is kept at 2^32 - 1.
    False(u32),
}

/// Whether found tables satisfy a model under given tables, or what they fail first: of several failures the first in the order
/// missing, extra, outside, false, and of each kind the first. A constraint that has no value is false. `Undefined` exactly where a
/// declared domain has no meaning under the given tables, `Big` only where a number on the way to a declared domain or a
/// constraint lies outside 64 bits, `NoMemory` where there is no room to tell.
pub fn satisfies(
    alloc: Global,
    model: &PModel,
    givens: &Cells,
    finds: &Cells,
) -> Result<PVerdict, EvalNo>
    ensures ok { IfOk result (λ v. IsVerdict v (model_verdict (pure_model model.now) (pure_cells givens.now) (pure_cells finds.now))) }
    ensures undefined { result ≡ Err Undefined → model_verdict (pure_model model.now) (pure_cells givens.now) (pure_cells finds.now) ≡ has_no_meaning }
    ensures big { result ≡ Err Big → model_is_large (pure_model model.now) (pure_cells givens.now) (pure_cells finds.now) ≡ true }
    ensures sat { IfOk result (λ v. (v ≡ Yes) ↔ Sat (pure_model model.now) (pure_cells givens.now) (pure_cells finds.now)) }
{
    let decls = found_decls(alloc, model, givens)?;
    let tables = finds.list.as_slice();
    if let Some(name) = first_missing(model.finds.as_slice(), tables) {
        return Ok(PVerdict::Missing(name.copy(alloc)?));
    }
    if let Some(name) = first_extra(model.finds.as_slice(), tables) {
        return Ok(PVerdict::Extra(name.copy(alloc)?));
    }
    if let Some(name) = first_outside(alloc, decls.as_slice(), tables)? {
        return Ok(PVerdict::OutOfDomain(name));
    }
    match false_rule(alloc, model, givens, finds)? {
        Some(number) => Ok(PVerdict::False(number)),
        None => Ok(PVerdict::Yes),
    }
}

/// What is to be found, with the domains that it is declared over. Each declared domain has its meaning under the given tables; else
/// the errors are those of `satisfies`.
fn found_decls(alloc: Global, model: &PModel, givens: &Cells) -> Result<Row<ClosedDecl>, EvalNo>
    ensures ok { IfOk result (λ rs. AreFound (pure_model model.now) (pure_cells givens.now) rs) }
    ensures undefined { result ≡ Err Undefined
        → list_all (domain_has_meaning (pure_model model.now) (pure_cells givens.now)) (all_decls (pure_model model.now)) ≡ false }
    ensures big { result ≡ Err Big → declares_large (pure_model model.now) (pure_cells givens.now) ≡ true }
{
    let under = with_tables(
        alloc,
        model.givens.as_slice(),
        model.finds.as_slice(),
        givens.list.as_slice(),
        &[],
    )?;
    let found = all_closed(alloc, model, &under);
    drop(under);
    found
}

/// The same, where declarations and given tables are held.
fn all_closed(alloc: Global, model: &PModel, under: &Under) -> Result<Row<ClosedDecl>, EvalNo>
    requires known { IsKnown under.now.known }
    ensures ok { IfOk result (λ rs. (q : Names pure.Table) → IsUnder under.now (map shape_of (all_decls (pure_model model.now))) q → AreFound (pure_model model.now) q rs) }
    ensures undefined { result ≡ Err Undefined → (q : Names pure.Table) → IsUnder under.now (map shape_of (all_decls (pure_model model.now))) q
        → list_all (domain_has_meaning (pure_model model.now) q) (all_decls (pure_model model.now)) ≡ false }
    ensures big { result ≡ Err Big → (q : Names pure.Table) → IsUnder under.now (map shape_of (all_decls (pure_model model.now))) q
        → declares_large (pure_model model.now) q ≡ true }
{
    let given = closed_decls(alloc, model.givens.as_slice(), under)?;
    drop(given);
    closed_decls(alloc, model.finds.as_slice(), under)
}

/// The number of the first constraint that isn't true over given and found tables, as `first_false` has it. It never answers
/// `Undefined`.
fn false_rule(
    alloc: Global,
    model: &PModel,
    givens: &Cells,
    finds: &Cells,
) -> Result<Option<u32>, EvalNo>
    ensures ok { IfOk result (λ o. option_map (λ k. min k 4294967295)
        (first_false_of (pure_model model.now) (pure_cells givens.now) (pure_cells finds.now) 1 (pure_model model.now).rules) ≡ o) }
    ensures big { result ≡ Err Big
        → list_any (ex_is_large (all_decls (pure_model model.now)) (pure_cells givens.now ++ pure_cells finds.now)) (pure_model model.now).rules ≡ true }
    ensures defined { IfErr result (λ no. no ≢ Undefined) }
{
    let under = with_tables(
        alloc,
        model.givens.as_slice(),
        model.finds.as_slice(),
        givens.list.as_slice(),
        finds.list.as_slice(),
    )?;
    let found = first_false(alloc, model.rules.as_slice(), &under);
    drop(under);
    found
}
