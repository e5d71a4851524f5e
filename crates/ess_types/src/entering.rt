//! What is in scope behind a statement that meets all judgements, with lettings put in.
ghost use Rattle.std.specs.Prelude.{◌≡◌, ◌++◌, ◌∷◌, [], OnOk};
ghost use Rattle.ess_semantics.specs.Names.{keys};
ghost use Rattle.ess_semantics.specs.Lettings.{types_after as tys_after, lettings_after as lets_after};
ghost use Rattle.ess_semantics.specs.Scopes.{names_in_scope};
ghost use Rattle.ess_semantics.specs.Judgements.{declares, scope_after, enums_by, unnamed_by};
ghost use Rattle.ess_core.specs.StatementViews.{pure_stm};
ghost use Rattle.ess_types_names.specs.Tables.{pure_table};
ghost use Rattle.ess_types_scopes.specs.Kept.{pure_lettings};
ghost use Rattle.ess_types_judging.specs.ScopeViews.{pure_scope};
ghost use Rattle.ess_types_judging_laws.specs.Verdicts.{findings};
ghost use Rattle.ess_types.specs.Entering.{AreNew, AreTyped, depending};
ghost use Rattle.ess_types.specs.Progress.{IsOutside};

use crate::fresh::is_objective;
use ess_core::{NoMemory, Stm, Text};
use ess_types_entering::types_after;
use ess_types_judging::Scope;
use ess_types_lettings::lettings_after;
use ess_types_names::TypeTable;
use ess_types_scopes::{Lettings, NameSet};
use std::alloc::Global;

/// Brings into scope what a statement declares, with lettings put in. `fixed` says whether its expression or domain mentions no
/// find. `NoMemory` where there is no room for it; some of it may then be in scope.
#[tactic(auto, using(crate::proofs::Declaring::scope_entered))]
pub(crate) fn enter_statement(
    alloc: Global,
    put: &Stm,
    fixed: bool,
    scope: &mut Scope,
) -> Result<(), NoMemory>
    requires outside { IsOutside scope.old }
    requires typed { AreTyped (pure_scope scope.old) }
    requires new { AreNew (names_in_scope (pure_scope scope.old)) (declares (pure_stm put.now)) }
    requires fixed { fixed ≡ (findings (pure_stm put.now) (pure_scope scope.old)).found.fixed }
    ensures ok { OnOk result (pure_scope scope.new ≡ scope_after (pure_stm put.now) (pure_scope scope.old)) }
    ensures outside { OnOk result (IsOutside scope.new) }
{
    enter_types(alloc, put, &mut scope.table)?;
    enter_lettings(alloc, put, &mut scope.lettings)?;
    enter_enums(alloc, put, &mut scope.enums)?;
    enter_unnamed(alloc, put, &mut scope.unnamed)?;
    enter_depending(alloc, put, fixed, &mut scope.finds)?;
    scope.objective = is_objective(put) | scope.objective;
    Ok(())
}

/// Declares the types of the names that a statement declares.
fn enter_types(alloc: Global, put: &Stm, table: &mut TypeTable) -> Result<(), NoMemory>
    requires outside { table.old.bound ≡ [] }
    requires new { AreNew (keys (pure_table table.old)) (declares (pure_stm put.now)) }
    ensures ok { OnOk result (pure_table table.new ≡ tys_after (pure_stm put.now) (pure_table table.old)) }
    ensures outside { OnOk result (table.new.bound ≡ []) }
{
    types_after(alloc, put, table)?;
    Ok(())
}

/// Keeps the letting of a statement.
#[tactic(auto, using(crate::proofs::Declaring::letting_kept))]
fn enter_lettings(alloc: Global, put: &Stm, lettings: &mut Lettings) -> Result<(), NoMemory>
    requires exs { AreNew (keys (pure_lettings lettings.old).exs) (declares (pure_stm put.now)) }
    requires doms { AreNew (keys (pure_lettings lettings.old).doms) (declares (pure_stm put.now)) }
    ensures { OnOk result (pure_lettings lettings.new ≡ lets_after (pure_stm put.now) (pure_lettings lettings.old)) }
{
    lettings_after(alloc, put, lettings)?;
    Ok(())
}

/// Adds the enumerated type that a statement declares.
fn enter_enums(alloc: Global, put: &Stm, enums: &mut NameSet) -> Result<(), NoMemory>
    requires { AreNew enums.old (declares (pure_stm put.now)) }
    ensures { OnOk result (enums.new ≡ enums_by (pure_stm put.now) ++ enums.old) }
{
    match put {
        Stm::GivenEnum(name) => add_first(alloc, name, &[], enums),
        Stm::LetEnum(name, values) => add_first(alloc, name, values.as_slice(), enums),
        _ => Ok(()),
    }
}

/// Adds the unnamed type that a statement declares.
fn enter_unnamed(alloc: Global, put: &Stm, unnamed: &mut NameSet) -> Result<(), NoMemory>
    requires { AreNew unnamed.old (declares (pure_stm put.now)) }
    ensures { OnOk result (unnamed.new ≡ unnamed_by (pure_stm put.now) ++ unnamed.old) }
{
    match put {
        Stm::LetUnnamed(name, _) => add_first(alloc, name, &[], unnamed),
        _ => Ok(()),
    }
}

/// Adds the name that a statement declares for what depends on finds.
fn enter_depending(
    alloc: Global,
    put: &Stm,
    fixed: bool,
    finds: &mut NameSet,
) -> Result<(), NoMemory>
    requires { AreNew finds.old (declares (pure_stm put.now)) }
    ensures { OnOk result (finds.new ≡ depending (pure_stm put.now) fixed ++ finds.old) }
{
    match put {
        Stm::Find(name, _) => add_first(alloc, name, &[], finds),
        Stm::LetEx(name, _) => {
            if fixed {
                return Ok(());
            }
            add_first(alloc, name, &[], finds)
        }
        _ => Ok(()),
    }
}

/// Adds the first of new names.
#[tactic(auto, using(crate::proofs::Declaring::name_added_new))]
fn add_first(
    alloc: Global,
    name: &Text,
    others: &[Text],
    names: &mut NameSet,
) -> Result<(), NoMemory>
    requires { AreNew names.old (name.now ∷ others.now) }
    ensures { OnOk result (names.new ≡ name.now ∷ names.old) }
{
    names.add(alloc, name)?;
    Ok(())
}
