//! Bound names of generators told apart.
ghost use Rattle.std.specs.Prelude.{◌≡◌, IfOk, OnOk, map};
ghost use Rattle.ess_core_nodes.specs.NodeViews.{pure_gen, pure_gens};
ghost use Rattle.conjure_model_laws.specs.ToldApart.{told_gens};
ghost use Rattle.ess_model_names.specs.Renames.{pure_scope, Extends};
ghost use Rattle.ess_model_names.specs.ToldItems.{told_item, told_items};

use crate::scopes::Renamed;
use crate::telling::told;
use crate::told_domains::told_dom;
use crate::told_patterns::{told_from, told_over};
use ess_core_nodes::Gen;
use ess_node_remaking::condition_on;
use ess_rows::{Boxed, NoMemory, Row};
use std::alloc::Global;

/// Generators and conditions with their bound names told apart, and what these have become bound behind the others.
#[cycle(told)]
pub(crate) fn told_gens(
    alloc: Global,
    gens: &[Gen],
    scope: &mut Row<Renamed>,
    next: &mut u64,
) -> Result<Row<Gen>, NoMemory>
    ensures tree { IfOk result (λ gs. pure_gens gs ≡ (told_gens (pure_gens gens.now) (pure_scope scope.old) next.old).0) }
    ensures names { OnOk result (pure_scope scope.new ≡ (told_gens (pure_gens gens.now) (pure_scope scope.old) next.old).1) }
    ensures next { OnOk result (next.new ≡ (told_gens (pure_gens gens.now) (pure_scope scope.old) next.old).2) }
    ensures kept { OnOk result (Extends scope.old scope.new) }
{
    Ok(each_gen(alloc, gens, scope, next)?)
}

/// Generators and conditions with their bound names told apart, one by one.
#[cycle(told)]
#[tactic(auto, using(crate::proofs::ScopeLaws::extends_itself, crate::proofs::ScopeLaws::extends_on))]
fn each_gen(
    alloc: Global,
    gens: &[Gen],
    scope: &mut Row<Renamed>,
    next: &mut u64,
) -> Result<Row<Gen>, NoMemory>
    ensures tree { IfOk result (λ gs. map pure_gen gs ≡ (told_items (map pure_gen gens.now) (pure_scope scope.old) next.old).0) }
    ensures names { OnOk result (pure_scope scope.new ≡ (told_items (map pure_gen gens.now) (pure_scope scope.old) next.old).1) }
    ensures next { OnOk result (next.new ≡ (told_items (map pure_gen gens.now) (pure_scope scope.old) next.old).2) }
    ensures kept { OnOk result (Extends scope.old scope.new) }
{
    let mut all = Row::with_capacity(alloc, gens.len())?;
    for item in gens {
        let told = told_gen(alloc, item, scope, next)?;
        all.push(told.into_inner())?;
    }
    Ok(all)
}

/// A generator or condition with its bound names told apart, and what these have become bound behind the others.
#[cycle(told)]
#[tactic(auto, using(crate::proofs::ScopeLaws::extends_itself, crate::proofs::ScopeLaws::extends_same, ess_core_nodes::proofs::NodeEquations::pure_gen_over, ess_core_nodes::proofs::NodeEquations::pure_gen_from, ess_core_nodes::proofs::NodeEquations::pure_gen_if))]
fn told_gen(
    alloc: Global,
    item: &Gen,
    scope: &mut Row<Renamed>,
    next: &mut u64,
) -> Result<Boxed<Gen>, NoMemory>
    ensures tree { IfOk result (λ g. pure_gen g ≡ (told_item (pure_gen item.now) (pure_scope scope.old) next.old).0) }
    ensures names { OnOk result (pure_scope scope.new ≡ (told_item (pure_gen item.now) (pure_scope scope.old) next.old).1) }
    ensures next { OnOk result (next.new ≡ (told_item (pure_gen item.now) (pure_scope scope.old) next.old).2) }
    ensures kept { OnOk result (Extends scope.old scope.new) }
{
    match item {
        Gen::Over(pat, dom) => {
            let dom = told_dom(alloc, dom.get(), scope, next)?;
            told_over(alloc, pat, dom, scope, next)
        }
        Gen::From(pat, source) => {
            let source = told(alloc, source.get(), scope, next)?;
            told_from(alloc, pat, source, scope, next)
        }
        Gen::If(condition) => {
            let condition = told(alloc, condition.get(), scope, next)?;
            condition_on(alloc, condition)
        }
    }
}
