//! What is found of generators, from left to right.
ghost use Rattle.std.specs.Prelude.{◌≡◌, option_map, IfOk, OnOk};
ghost use Rattle.ess_semantics.specs.Lists.{and_then};
ghost use Rattle.ess_semantics.specs.OperatorTypes.{member_ty};
ghost use Rattle.ess_semantics.specs.Types.{or_any as type_or_any};
ghost use Rattle.ess_core.specs.TypeViews.{pure_ty};
ghost use Rattle.ess_core.specs.TreeViews.{over_item, from_item, cond_item, pure_ex, pure_dom, pure_pat, pure_gen, pure_gens};
ghost use Rattle.ess_types_judging_laws.specs.Combined.{gathered as is_gathered, nothing_gathered as is_nothing_gathered, over_gathered, from_gathered};
ghost use Rattle.ess_types_judging.specs.Findings.{pure_found, pure_judged};
ghost use Rattle.ess_types_judging.specs.Judging.{pure_gathered, gathered_one};
ghost use Rattle.ess_types_judging.specs.ScopeViews.{pure_scope, Deeper};

use crate::domains::judge_dom;
use crate::expressions::judge;
use crate::found::{Found, all_well, at_place, both};
use crate::gathered::{Gathered, is_truth};
use crate::generators::{over_found, pattern_found};
use crate::judged::Judged;
use crate::scope::{Scope, enter};
use ess_core::{Boxed, Dom, Ex, Gen, NoMemory, Pat, Ty};
use ess_types_operators::{member_type, type_of_dom};
use std::alloc::Global;

/// The type of the members of a source of this type, where there is one.
fn member_of(alloc: Global, ty: &Option<Boxed<Ty>>) -> Result<Option<Boxed<Ty>>, NoMemory>
    ensures { IfOk result (λ o. option_map pure_ty o ≡ and_then (option_map pure_ty ty.now) member_ty) }
{
    match ty {
        Some(ty) => member_type(alloc, ty.get()),
        None => Ok(None),
    }
}

/// The type, or that of what has none.
fn or_any(alloc: Global, ty: Option<Boxed<Ty>>) -> Result<Boxed<Ty>, NoMemory>
    ensures { IfOk result (λ t. pure_ty t ≡ type_or_any (option_map pure_ty ty)) }
{
    match ty {
        Some(ty) => Ok(ty),
        None => Boxed::new(alloc, Ty::Any),
    }
}

/// Behind a generator over a domain, of which `found` is found. `NoMemory` where there is no room for the names that it binds.
fn behind_domain(
    alloc: Global,
    pat: &Pat,
    dom: &Dom,
    found: Found,
    gathered: Gathered,
    scope: &mut Scope,
) -> Result<Gathered, NoMemory>
    ensures ok { IfOk result (λ g. pure_gathered g (pure_scope scope.new) ≡ over_gathered (pure_pat pat.now) (pure_dom dom.now) (pure_found found) (pure_gathered gathered (pure_scope scope.old))) }
    ensures kept { OnOk result (Deeper scope.old scope.new) }
{
    let ty = type_of_dom(alloc, dom)?;
    let own = over_found(alloc, pat, ty.get(), dom, scope)?;
    enter(alloc, pat, ty.get(), false, scope)?;
    Ok(Gathered {
        found: both(gathered.found, both(found, own)),
        ..gathered
    })
}

/// Behind a generator from a source, of which `judged` is found. `NoMemory` where there is no room for the names that it binds.
fn behind_source(
    alloc: Global,
    pat: &Pat,
    judged: &Judged,
    gathered: Gathered,
    scope: &mut Scope,
) -> Result<Gathered, NoMemory>
    ensures ok { IfOk result (λ g. pure_gathered g (pure_scope scope.new) ≡ from_gathered (pure_pat pat.now) (pure_judged judged.now) (pure_gathered gathered (pure_scope scope.old))) }
    ensures kept { OnOk result (Deeper scope.old scope.new) }
{
    let member = member_of(alloc, &judged.ty)?;
    let typed = member.is_some();
    let ty = or_any(alloc, member)?;
    let own = pattern_found(alloc, pat, ty.get(), scope)?;
    enter(alloc, pat, ty.get(), !judged.found.fixed, scope)?;
    Ok(Gathered {
        typed: gathered.typed & typed,
        ordered: gathered.ordered & judged.ordered,
        found: both(gathered.found, both(judged.found, own)),
    })
}

/// Behind a generator over a domain.
#[cycle(judge)]
#[tactic(auto, using(crate::proofs::GeneratorLemmas::over_by))]
fn judge_over(
    alloc: Global,
    dom: &Dom,
    pat: &Pat,
    gathered: Gathered,
    scope: &mut Scope,
) -> Result<Gathered, NoMemory>
    ensures ok { IfOk result (λ g. pure_gathered g (pure_scope scope.new) ≡ gathered_one (over_item (pure_pat pat.now) (pure_dom dom.now)) (pure_gathered gathered (pure_scope scope.old))) }
    ensures kept { OnOk result (Deeper scope.old scope.new) }
{
    let found = judge_dom(alloc, dom, scope)?;
    behind_domain(alloc, pat, dom, found, gathered, scope)
}

/// Behind a generator from a source.
#[cycle(judge)]
#[tactic(auto, using(crate::proofs::GeneratorLemmas::from_by))]
fn judge_from(
    alloc: Global,
    source: &Ex,
    pat: &Pat,
    gathered: Gathered,
    scope: &mut Scope,
) -> Result<Gathered, NoMemory>
    ensures ok { IfOk result (λ g. pure_gathered g (pure_scope scope.new) ≡ gathered_one (from_item (pure_pat pat.now) (pure_ex source.now)) (pure_gathered gathered (pure_scope scope.old))) }
    ensures kept { OnOk result (Deeper scope.old scope.new) }
{
    let judged = judge(alloc, source, scope)?;
    behind_source(alloc, pat, &judged, gathered, scope)
}

/// Behind a condition.
#[cycle(judge)]
#[tactic(auto, using(crate::proofs::DeeperLemmas::deeper_itself))]
fn judge_condition(
    alloc: Global,
    condition: &Ex,
    gathered: Gathered,
    scope: &mut Scope,
) -> Result<Gathered, NoMemory>
    ensures ok { IfOk result (λ g. pure_gathered g (pure_scope scope.new) ≡ gathered_one (cond_item (pure_ex condition.now)) (pure_gathered gathered (pure_scope scope.old))) }
    ensures kept { OnOk result (Deeper scope.old scope.new) }
{
    let judged = judge(alloc, condition, scope)?;
    Ok(Gathered {
        typed: gathered.typed & is_truth(&judged.ty),
        ordered: gathered.ordered & judged.found.fixed,
        found: both(gathered.found, at_place(true, judged.found)),
    })
}

/// Behind one generator or condition more. The names that it binds stay in scope.
#[cycle(judge)]
#[tactic(auto, using(ess_core::proofs::PartEquations::pure_gen_over, ess_core::proofs::PartEquations::pure_gen_from, ess_core::proofs::PartEquations::pure_gen_if))]
fn judge_gen(
    alloc: Global,
    item: &Gen,
    gathered: Gathered,
    scope: &mut Scope,
) -> Result<Gathered, NoMemory>
    ensures ok { IfOk result (λ g. pure_gathered g (pure_scope scope.new) ≡ gathered_one (pure_gen item.now) (pure_gathered gathered (pure_scope scope.old))) }
    ensures kept { OnOk result (Deeper scope.old scope.new) }
{
    match item {
        Gen::Over(pat, dom) => judge_over(alloc, dom, pat, gathered, scope),
        Gen::From(pat, source) => judge_from(alloc, source, pat, gathered, scope),
        Gen::If(condition) => judge_condition(alloc, condition, gathered, scope),
    }
}

/// Generators, from left to right. The names that they bind stay in scope.
#[cycle(judge)]
#[tactic(auto, using(crate::proofs::DeeperLemmas::deeper_itself, crate::proofs::DeeperLemmas::deeper_on, crate::proofs::DeeperLemmas::gens_more, crate::proofs::DeeperLemmas::gens_all))]
pub(crate) fn judge_gens(
    alloc: Global,
    gens: &[Gen],
    scope: &mut Scope,
) -> Result<Gathered, NoMemory>
    ensures ok { IfOk result (λ g. pure_gathered g (pure_scope scope.new) ≡ is_gathered (pure_gens gens.now) (is_nothing_gathered (pure_scope scope.old))) }
    ensures kept { OnOk result (Deeper scope.old scope.new) }
{
    let mut gathered = Gathered {
        typed: true,
        ordered: true,
        found: all_well(),
    };
    for (i, item) in gens.iter().enumerate() {
        gathered = judge_gen(alloc, item, gathered, scope)?;
    }
    Ok(gathered)
}
