//! Whether the names that a statement declares are new.
ghost use Rattle.std.specs.Prelude.{◌≡◌, not, ◌&&◌, IfOk};
ghost use Rattle.std.specs.List.{list_any};
ghost use Rattle.ess_semantics.specs.Lists.{is_some_and};
ghost use Rattle.ess_semantics.specs.Names.{is_among, all_distinct};
ghost use Rattle.ess_semantics.specs.Scopes.{names_in_scope};
ghost use Rattle.ess_semantics.specs.Judgements.{declares, is_value_name, is_objective as is_an_objective, no_value_name, unnamed_by};
ghost use Rattle.ess_core.specs.StatementViews.{pure_stm};
ghost use Rattle.ess_types_judging.specs.ScopeViews.{pure_scope};
ghost use Rattle.ess_types_judging_laws.specs.Verdicts.{declares_new as are_declared_new};
ghost use Rattle.ess_types.specs.Entering.{AreStems};
ghost use Rattle.ess_types.specs.ValueNames.{stem_of};

use crate::declared::declared;
use crate::value_names::stem;
use ess_core::{NoMemory, Row, Stm, Text};
use ess_types_judging::{Scope, knows_name};
use ess_types_scopes::{Added, NameSet};
use std::alloc::Global;

/// Whether the names that a statement declares are new, and it is no second objective. `stems` are the names T for which a name
/// in scope is `T_` with digits. `NoMemory` where there is no room for the names.
pub(crate) fn declares_new(
    alloc: Global,
    stm: &Stm,
    scope: &Scope,
    stems: &NameSet,
) -> Result<bool, NoMemory>
    requires { AreStems stems.now (pure_scope scope.now) }
    ensures { IfOk result (λ b. b ≡ are_declared_new (pure_stm stm.now) (pure_scope scope.now)) }
{
    let names = declared(alloc, stm)?;
    let once = stand_once(alloc, names.as_slice())?;
    let apart = are_unknown(names.as_slice(), scope);
    let values = is_no_value(alloc, stm, names.as_slice(), scope, stems)?;
    Ok(((once & apart) & values) & !(is_objective(stm) & scope.objective))
}

/// Whether no name stands twice.
#[tactic(auto, using(crate::proofs::NameLemmas::names_stand_once))]
fn stand_once(alloc: Global, names: &[Text]) -> Result<bool, NoMemory>
    ensures { IfOk result (λ b. b ≡ all_distinct names.now) }
{
    let mut seen = NameSet::new(alloc);
    for name in names {
        match seen.add(alloc, name)? {
            Added::New => {}
            Added::Standing => return Ok(false),
        }
    }
    Ok(true)
}

/// Whether none of the names is in scope.
#[tactic(auto, using(crate::proofs::NameLemmas::any_of_names))]
fn are_unknown(names: &[Text], scope: &Scope) -> bool
    ensures { result ≡ not (list_any (is_among (names_in_scope (pure_scope scope.now))) names.now) }
{
    for name in names {
        if knows_name(scope, name) {
            return false;
        }
    }
    true
}

/// Whether no name is one of a value of an unnamed type that is declared before, or by the statement.
fn is_no_value(
    alloc: Global,
    stm: &Stm,
    names: &[Text],
    scope: &Scope,
    stems: &NameSet,
) -> Result<bool, NoMemory>
    requires stems { AreStems stems.now (pure_scope scope.now) }
    requires names { names.now ≡ declares (pure_stm stm.now) }
    ensures { IfOk result (λ b. b ≡ no_value_name (pure_stm stm.now) (pure_scope scope.now)) }
{
    let before = are_no_values(alloc, names, &scope.unnamed)?;
    Ok(before & has_no_values(stm, scope, stems))
}

/// Whether none of the names is one of a value of these types.
fn are_no_values(alloc: Global, names: &[Text], unnamed: &NameSet) -> Result<bool, NoMemory>
    ensures { IfOk result (λ b. b ≡ not (list_any (λ u. list_any (is_value_name u) names.now) unnamed.now)) }
{
    Ok(!has_value(alloc, names, unnamed)?)
}

/// Whether one of the names is one of a value of these types.
#[tactic(auto, using(crate::proofs::NameLemmas::any_of_names))]
fn has_value(alloc: Global, names: &[Text], unnamed: &NameSet) -> Result<bool, NoMemory>
    ensures { IfOk result (λ b. b ≡ list_any (λ a. is_some_and (stem_of a) (is_among unnamed.now)) names.now) }
{
    for name in names {
        if is_value(alloc, name, unnamed)? {
            return Ok(true);
        }
    }
    Ok(false)
}

/// Whether the name is one of a value of these types.
fn is_value(alloc: Global, name: &Text, unnamed: &NameSet) -> Result<bool, NoMemory>
    ensures { IfOk result (λ b. b ≡ is_some_and (stem_of name.now) (is_among unnamed.now)) }
{
    match stem(alloc, name)? {
        Some(stem) => Ok(unnamed.has(&stem)),
        None => Ok(false),
    }
}

/// Whether no name in scope is one of a value of the unnamed type that the statement declares.
fn has_no_values(stm: &Stm, scope: &Scope, stems: &NameSet) -> bool
    requires { AreStems stems.now (pure_scope scope.now) }
    ensures { result ≡ not (list_any (λ u. list_any (is_value_name u) (names_in_scope (pure_scope scope.now)))
        (unnamed_by (pure_stm stm.now))) }
{
    match stm {
        Stm::LetUnnamed(name, _) => !stems.has(name),
        _ => true,
    }
}

/// Whether the statement is an objective.
pub(crate) fn is_objective(stm: &Stm) -> bool
    ensures { result ≡ is_an_objective (pure_stm stm.now) }
{
    match stm {
        Stm::Minimise(_) => true,
        Stm::Maximise(_) => true,
        _ => false,
    }
}
