//! Bound names of the generators of refined trees printed.
ghost use Rattle.std.specs.Prelude.{◌≡◌, IfOk, OnOk, map};
ghost use Rattle.ess_core_nodes.specs.NodeViews.{pure_gen, pure_gens};
ghost use Rattle.conjure_model_laws.specs.Printed.{printed_behind, printed_gens};
ghost use Rattle.ess_model_names.specs.Renames.{pure_scope, Extends};
ghost use Rattle.ess_model_printed.specs.PrintedItems.{printed_item, item_behind, printed_items, items_behind};

use crate::printed_patterns::printed_over;
use crate::printing::{printed_dom, printed_under};
use crate::taken::Taken;
use ess_core_nodes::Gen;
use ess_model_names::Renamed;
use ess_node_remaking::{condition_on, over_value};
use ess_rows::{Boxed, NoMemory, Row};
use std::alloc::Global;

/// Generators and conditions with printed names, and these bound behind the others.
#[cycle(printed)]
pub(crate) fn printed_gens(
    alloc: Global,
    taken: &Taken,
    gens: &[Gen],
    scope: &mut Row<Renamed>,
) -> Result<Row<Gen>, NoMemory>
    ensures tree { IfOk result (λ gs. pure_gens gs ≡ printed_gens taken.now (pure_gens gens.now) (pure_scope scope.old)) }
    ensures names { OnOk result (pure_scope scope.new ≡ printed_behind taken.now (pure_gens gens.now) (pure_scope scope.old)) }
    ensures kept { OnOk result (Extends scope.old scope.new) }
{
    Ok(each_gen(alloc, taken, gens, scope)?)
}

/// Generators and conditions with printed names, one by one.
#[cycle(printed)]
#[tactic(auto, using(ess_model_names::proofs::ScopeLaws::extends_itself, ess_model_names::proofs::ScopeLaws::extends_on))]
fn each_gen(
    alloc: Global,
    taken: &Taken,
    gens: &[Gen],
    scope: &mut Row<Renamed>,
) -> Result<Row<Gen>, NoMemory>
    ensures tree { IfOk result (λ gs. map pure_gen gs ≡ printed_items taken.now (map pure_gen gens.now) (pure_scope scope.old)) }
    ensures names { OnOk result (pure_scope scope.new ≡ items_behind taken.now (map pure_gen gens.now) (pure_scope scope.old)) }
    ensures kept { OnOk result (Extends scope.old scope.new) }
{
    let mut all = Row::with_capacity(alloc, gens.len())?;
    for item in gens {
        let printed = printed_gen(alloc, taken, item, scope)?;
        all.push(printed.into_inner())?;
    }
    Ok(all)
}

/// A generator or condition with printed names, and these bound behind the others.
#[cycle(printed)]
#[tactic(auto, using(ess_model_names::proofs::ScopeLaws::extends_itself, ess_model_names::proofs::ScopeLaws::extends_same, ess_core_nodes::proofs::NodeEquations::pure_gen_over, ess_core_nodes::proofs::NodeEquations::pure_gen_from, ess_core_nodes::proofs::NodeEquations::pure_gen_if))]
fn printed_gen(
    alloc: Global,
    taken: &Taken,
    item: &Gen,
    scope: &mut Row<Renamed>,
) -> Result<Boxed<Gen>, NoMemory>
    ensures tree { IfOk result (λ g. pure_gen g ≡ printed_item taken.now (pure_gen item.now) (pure_scope scope.old)) }
    ensures names { OnOk result (pure_scope scope.new ≡ item_behind taken.now (pure_gen item.now) (pure_scope scope.old)) }
    ensures kept { OnOk result (Extends scope.old scope.new) }
{
    match item {
        Gen::Over(pat, dom) => {
            let dom = printed_dom(alloc, taken, dom.get(), scope)?;
            printed_over(alloc, taken, pat, dom, scope)
        }
        Gen::From(pat, source) => {
            let source = printed_under(alloc, taken, source.get(), scope)?;
            over_value(alloc, pat, source)
        }
        Gen::If(condition) => {
            let condition = printed_under(alloc, taken, condition.get(), scope)?;
            condition_on(alloc, condition)
        }
    }
}
