//! Whether a model declares the members of both sides.
ghost use Rattle.std.specs.Prelude.{◌≡◌, ◌++◌, IfOk, map, option_map, true};
ghost use Rattle.std.specs.List.{list_any};
ghost use Rattle.ess_semantics.specs.Names.{Names};
ghost use Rattle.ess_semantics.specs.Tables as pure;
ghost use Rattle.ess_semantics.specs.Assignments.{Assignment, nothing_given, env_of};
ghost use Rattle.ess_semantics.specs.DeclaredTables.{TableDecl, DeclaredAs};
ghost use Rattle.ess_semantics.specs.ModelTrees.{Header, all_decls};
ghost use Rattle.ess_semantics.specs.ModelMeaning.{model_domain};
ghost use Rattle.ess_semantics.specs.LargeModels.{declares_large, decl_is_large};
ghost use Rattle.ess_semantics.specs.Plans as pure_plans;
ghost use Rattle.ess_grammar.specs.Models.{Scope};
ghost use Rattle.ess_core.specs.TableViews.{pure_named_table};
ghost use Rattle.ess_eval_domains.specs.ClosedViews.{pure_closed};
ghost use Rattle.eprime_tree.specs.Views.{pure_decls, pure_model};
ghost use Rattle.eprime_eval_kinds.specs.Shapes.{shape_of};
ghost use Rattle.eprime_eval_scalars.specs.declared.Stop.TheVariants.{Big};
ghost use Rattle.eprime_eval.specs.KnownTables.{IsKnown};
ghost use Rattle.eprime_eval.specs.UnderTables.{IsUnder};
ghost use Rattle.eprime_verdicts.specs.Denoting.{InModels};
ghost use Rattle.ess_translate_plans.specs.Views.{pure_side, pure_plan};
ghost use Rattle.ess_translate_members_laws.specs.PlanDomains.{plan_closed, tables_of_side};
ghost use Rattle.ess_translate_members_laws.specs.DeclaresMembers.{DeclaresMembers};
ghost use Rattle.ess_translate_cells.specs.ClosedTables.{Decides};
ghost use Rattle.ess_translate_members.specs.Sides.{SidesDeclared};

use crate::sides::are_declared;
use eprime_eval::{EvalNo, Under, with_tables};
use eprime_eval_scalars::Stop;
use eprime_tree::{PDecl, PModel};
use ess_core::{Boxed, NamedTable};
use ess_eval_domains::Closed;
use ess_translate_cells::closed_tables;
use ess_translate_plans::{Plan, Side};
use std::alloc::Global;

/// Whether a model declares, over given tables, the members of the tables of the header whose plans these are, under the parameter
/// under which these are the domains of the plans. A declared domain without a meaning has no members. `Big` where a number outside 64
/// bits stands in a declared domain, `NoMemory` where there is no room to tell, or a size of the header's can't be counted.
#[tactic(auto, using(crate::proofs::DeclaredSides::by_sides, crate::proofs::DeclaredSides::with_given_alone))]
pub fn declares_members(
    alloc: Global,
    plans: &[Plan],
    closed: &[Option<Boxed<Closed>>],
    model: &PModel,
    given: &[NamedTable],
) -> Result<bool, Stop>
    ensures ok { (H : Header) (p : Assignment) → map pure_plan plans.now ≡ pure_plans.plans H.statements H.reprs →
        map (option_map pure_closed) closed.now
        ≡ map (plan_closed (env_of H.statements p nothing_given)) (pure_plans.plans H.statements H.reprs) →
        IfOk result (λ b. Decides b (DeclaresMembers H (pure_model model.now) p (map pure_named_table given.now))) }
    ensures big { result ≡ Err Big → declares_large (pure_model model.now) (map pure_named_table given.now) ≡ true }
{
    let under = with_tables(
        alloc,
        model.givens.as_slice(),
        model.finds.as_slice(),
        given,
        &[],
    )?;
    let declared = declares_both(alloc, plans, closed, model, &under);
    drop(under);
    match declared {
        Ok(declared) => Ok(declared),
        Err(no) => Err(no),
    }
}

/// Whether a model declares the members of the tables of plans over these domains, of givens and of finds. The errors are those of
/// `declares_members`.
fn declares_both(
    alloc: Global,
    plans: &[Plan],
    closed: &[Option<Boxed<Closed>>],
    model: &PModel,
    under: &Under,
) -> Result<bool, Stop>
    requires known { IsKnown under.now.known }
    ensures ok { IfOk result (λ b. (q : Names pure.Table) → IsUnder under.now (map shape_of (all_decls (pure_model model.now))) q →
        Decides b (SidesDeclared (pure_model model.now) q (map pure_plan plans.now) (map (option_map pure_closed) closed.now))) }
    ensures big { result ≡ Err Big → (q : Names pure.Table) → IsUnder under.now (map shape_of (all_decls (pure_model model.now))) q →
        declares_large (pure_model model.now) q ≡ true }
{
    if !declares_side(
        alloc,
        plans,
        closed,
        Side::Givens,
        model.givens.as_slice(),
        under,
    )? {
        return Ok(false);
    }
    let found = declares_side(
        alloc,
        plans,
        closed,
        Side::Finds,
        model.finds.as_slice(),
        under,
    )?;
    Ok(found)
}

/// Whether declarations have the members of the tables of the plans of one side. The errors are those of `declares_members`.
fn declares_side(
    alloc: Global,
    plans: &[Plan],
    closed: &[Option<Boxed<Closed>>],
    side: Side,
    decls: &[PDecl],
    under: &Under,
) -> Result<bool, Stop>
    requires known { IsKnown under.now.known }
    ensures ok { IfOk result (λ b. InModels under.now (λ E q s. (add : Scope → TableDecl → Scope) →
        Decides b (DeclaredAs (model_domain (all_decls E) q) (pure_decls add s decls.now)
        (tables_of_side (pure_side side) (map pure_plan plans.now) (map (option_map pure_closed) closed.now))))) }
    ensures big { result ≡ Err Big → InModels under.now (λ E q s. (add : Scope → TableDecl → Scope) →
        list_any (decl_is_large (all_decls E) q) (pure_decls add s decls.now) ≡ true) }
{
    match closed_tables(alloc, decls, under) {
        Ok(tables) => match are_declared(alloc, plans, closed, side, tables.as_slice()) {
            Ok(declared) => Ok(declared),
            Err(_) => Err(Stop::NoMemory),
        },
        Err(EvalNo::Undefined) => Ok(false),
        Err(EvalNo::Big) => Err(Stop::Big),
        Err(_) => Err(Stop::NoMemory),
    }
}
