//! What is found of a statement.
ghost use Rattle.std.specs.Prelude.{◌≡◌, None, IfOk, OnOk};
ghost use Rattle.ess_core.specs.TreeViews.{pure_ex, pure_dom};
ghost use Rattle.ess_core.specs.StatementViews.{pure_stm};
ghost use Rattle.ess_types_judging.specs.ScopeViews.{pure_scope};
ghost use Rattle.ess_types_judging_laws.specs.Verdicts.{findings, expression_findings};
ghost use Rattle.ess_types_judging_laws.specs.Judged.{judged_dom};
ghost use Rattle.ess_types_judging_laws.specs.Found.{all_well as are_all_well};
ghost use Rattle.ess_types.specs.Progress.{pure_findings};

use ess_core::{Boxed, Dom, Ex, NoMemory, Stm, Ty};
use ess_types_judging::{Found, Judged, Scope, all_well, judge, judge_dom};
use std::alloc::Global;

/// What is found of a statement: of its expression, with its type where it has one, or of its domain.
#[derive(Drop)]
pub(crate) struct Findings {
    pub ty: Option<Boxed<Ty>>,
    pub found: Found,
}

/// What is found of a statement in its scope. The scope is as it was. `NoMemory` where there is no room for it; the scope may
/// then hold further bound names.
pub(crate) fn findings_of(alloc: Global, stm: &Stm, scope: &mut Scope) -> Result<Findings, NoMemory>
    ensures ok { IfOk result (λ f. pure_findings f ≡ findings (pure_stm stm.now) (pure_scope scope.old)) }
    ensures kept { OnOk result (scope.new ≡ scope.old) }
{
    match stm {
        Stm::Given(_, dom) => of_domain(alloc, dom.get(), scope),
        Stm::LetEx(_, ex) => of_expression(alloc, ex.get(), scope),
        Stm::LetDom(_, dom) => of_domain(alloc, dom.get(), scope),
        Stm::LetUnnamed(_, size) => of_expression(alloc, size.get(), scope),
        Stm::Needs(ex) => of_expression(alloc, ex.get(), scope),
        Stm::Find(_, dom) => of_domain(alloc, dom.get(), scope),
        Stm::SuchThat(ex) => of_expression(alloc, ex.get(), scope),
        Stm::Minimise(ex) => of_expression(alloc, ex.get(), scope),
        Stm::Maximise(ex) => of_expression(alloc, ex.get(), scope),
        _ => Ok(nothing()),
    }
}

/// What is found of a statement's expression.
fn of_expression(alloc: Global, ex: &Ex, scope: &mut Scope) -> Result<Findings, NoMemory>
    ensures ok { IfOk result (λ f. pure_findings f ≡ expression_findings (pure_ex ex.now) (pure_scope scope.old)) }
    ensures kept { OnOk result (scope.new ≡ scope.old) }
{
    let Judged {
        ty,
        ordered: _,
        found,
    } = judge(alloc, ex, scope)?;
    Ok(Findings { ty, found })
}

/// What is found of a statement's domain.
fn of_domain(alloc: Global, dom: &Dom, scope: &mut Scope) -> Result<Findings, NoMemory>
    ensures ok { IfOk result (λ f. pure_findings f ≡ record { ty = None; found = judged_dom (pure_dom dom.now) (pure_scope scope.old) }) }
    ensures kept { OnOk result (scope.new ≡ scope.old) }
{
    let found = judge_dom(alloc, dom, scope)?;
    Ok(Findings { ty: None, found })
}

/// What is found of a statement that has neither.
fn nothing() -> Findings
    ensures { pure_findings result ≡ record { ty = None; found = are_all_well } }
{
    Findings {
        ty: None,
        found: all_well(),
    }
}
