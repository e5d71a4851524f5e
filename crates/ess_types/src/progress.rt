//! What is reached of a specification, one statement after another.
ghost use Rattle.std.specs.Prelude.{◌≡◌, ◌++◌, ◌∷◌, [], map, IfOk, OnOk, None};
ghost use Rattle.ess_semantics.specs.Prepared.{resolve_stm as resolved};
ghost use Rattle.ess_semantics.specs.Scopes.{names_in_scope, empty_scope};
ghost use Rattle.ess_semantics.specs.Judgements.{put_in_scope, scope_after, declares};
ghost use Rattle.ess_core.specs.StatementViews.{pure_stm};
ghost use Rattle.ess_types_judging.specs.ScopeViews.{pure_scope};
ghost use Rattle.ess_types_judging_laws.specs.Verdicts.{findings};
ghost use Rattle.ess_types.specs.Entering.{AreNew};
ghost use Rattle.ess_types.specs.Progress.{pure_findings, IsBetween, IsBehind};
ghost use Rattle.ess_types.specs.Judging.{IsJudged};

use crate::declared::{NamedTy, add_names, declared};
use crate::entering::enter_statement;
use crate::findings::{Findings, findings_of};
use crate::refusal::Judgement;
use crate::value_names::add_stems;
use crate::verdicts::first_failed;
use ess_core::{Boxed, NoMemory, Row, Stm};
use ess_types_judging::Scope;
use ess_types_lettings::put_stm;
use ess_types_names::TypeTable;
use ess_types_resolving::resolve_stm;
use ess_types_scopes::{Lettings, NameSet};
use std::alloc::Global;

/// What is in scope; the names T for which a name in scope is `T_` with digits; the declared names with their types; and the
/// statements so far, with lettings put in and resolved.
#[derive(Drop)]
pub(crate) struct Progress {
    pub scope: Scope,
    pub stems: NameSet,
    pub names: Row<NamedTy>,
    pub prepared: Row<Stm>,
}

/// Before the first statement.
#[tactic(auto, using(crate::proofs::Steps::between_none))]
pub(crate) fn no_progress(alloc: Global) -> Progress
    ensures scope { pure_scope result.scope ≡ empty_scope }
    ensures names { result.names ≡ [] }
    ensures prepared { result.prepared ≡ [] }
    ensures between { IsBetween result.scope result.stems }
{
    Progress {
        scope: Scope {
            table: TypeTable::new(alloc),
            lettings: Lettings::new(alloc),
            enums: NameSet::new(alloc),
            unnamed: NameSet::new(alloc),
            finds: NameSet::new(alloc),
            bound: Row::new(alloc),
            objective: false,
        },
        stems: NameSet::new(alloc),
        names: Row::new(alloc),
        prepared: Row::new(alloc),
    }
}

/// Judges the next statement, and brings it in where it meets all judgements. `NoMemory` where there is no room for it.
pub(crate) fn step(
    alloc: Global,
    written: &Stm,
    progress: &mut Progress,
) -> Result<Option<Judgement>, NoMemory>
    requires { IsBetween progress.old.scope progress.old.stems }
    ensures judged { IfOk result (IsJudged (pure_stm written.now) (pure_scope progress.old.scope)) }
    ensures behind { IfOk result (λ o. o ≡ None
        → IsBehind (put_in_scope (pure_stm written.now) (pure_scope progress.old.scope)) progress.old progress.new) }
    ensures between { IfOk result (λ o. o ≡ None → IsBetween progress.new.scope progress.new.stems) }
{
    let put = put_in(alloc, written, &mut progress.scope)?;
    let fresh = findings_of(alloc, written, &mut progress.scope)?
        .found
        .fresh;
    let found = findings_of(alloc, put.get(), &mut progress.scope)?;
    match first_failed(
        alloc,
        written,
        put.get(),
        fresh,
        &found,
        &progress.scope,
        &progress.stems,
    )? {
        Some(judgement) => Ok(Some(judgement)),
        None => {
            bring_in(alloc, put, found, progress)?;
            Ok(None)
        }
    }
}

/// The statement with the lettings in scope put in.
fn put_in(alloc: Global, written: &Stm, scope: &mut Scope) -> Result<Boxed<Stm>, NoMemory>
    ensures ok { IfOk result (λ t. pure_stm t ≡ put_in_scope (pure_stm written.now) (pure_scope scope.old)) }
    ensures kept { OnOk result (scope.new ≡ scope.old) }
{
    put_stm(alloc, written, &scope.lettings, &mut scope.table)
}

/// Brings in a statement that meets all judgements, with lettings put in.
fn bring_in(
    alloc: Global,
    put: Boxed<Stm>,
    found: Findings,
    progress: &mut Progress,
) -> Result<(), NoMemory>
    requires between { IsBetween progress.old.scope progress.old.stems }
    requires new { AreNew (names_in_scope (pure_scope progress.old.scope)) (declares (pure_stm put)) }
    requires found { pure_findings found ≡ findings (pure_stm put) (pure_scope progress.old.scope) }
    ensures behind { OnOk result (IsBehind (pure_stm put) progress.old progress.new) }
    ensures between { OnOk result (IsBetween progress.new.scope progress.new.stems) }
{
    let Findings { ty, found } = found;
    add_names(alloc, put.get(), ty, &mut progress.names)?;
    add_prepared(
        alloc,
        put.get(),
        &mut progress.scope,
        &mut progress.prepared,
    )?;
    enter(
        alloc,
        put.get(),
        found.fixed,
        &mut progress.scope,
        &mut progress.stems,
    )
}

/// Adds a statement, resolved.
#[tactic(auto, using(crate::proofs::Steps::stms_behind))]
fn add_prepared(
    alloc: Global,
    put: &Stm,
    scope: &mut Scope,
    prepared: &mut Row<Stm>,
) -> Result<(), NoMemory>
    ensures added { OnOk result (map pure_stm prepared.new
        ≡ map pure_stm prepared.old ++ resolved (pure_stm put.now) (pure_scope scope.old).tys ∷ []) }
    ensures kept { OnOk result (scope.new ≡ scope.old) }
{
    let resolved = resolve_stm(alloc, put, &mut scope.table)?;
    prepared.push(resolved.into_inner())
}

/// Brings into scope what a statement declares.
fn enter(
    alloc: Global,
    put: &Stm,
    fixed: bool,
    scope: &mut Scope,
    stems: &mut NameSet,
) -> Result<(), NoMemory>
    requires between { IsBetween scope.old stems.old }
    requires new { AreNew (names_in_scope (pure_scope scope.old)) (declares (pure_stm put.now)) }
    requires fixed { fixed ≡ (findings (pure_stm put.now) (pure_scope scope.old)).found.fixed }
    ensures scope { OnOk result (pure_scope scope.new ≡ scope_after (pure_stm put.now) (pure_scope scope.old)) }
    ensures between { OnOk result (IsBetween scope.new stems.new) }
{
    let names = declared(alloc, put)?;
    add_stems(alloc, names.as_slice(), stems)?;
    enter_statement(alloc, put, fixed, scope)?;
    Ok(())
}
