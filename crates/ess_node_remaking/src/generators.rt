//! Generators and conditions with other domains and values.
ghost use Rattle.std.specs.Prelude.{◌≡◌, IfOk};
ghost use Rattle.ess_core.specs.TreeViews.{pure_pat, over_item, from_item, cond_item};
ghost use Rattle.ess_core_nodes.specs.NodeViews.{pure_node, pure_gen, pure_dom};

use ess_core::Pat;
use ess_core_nodes::{Gen, Node, NodeDom};
use ess_rows::{Boxed, NoMemory};
use std::alloc::Global;

/// A copy of a pattern over a domain. `NoMemory` where there is no room for it.
#[tactic(auto, using(ess_core_nodes::proofs::NodeEquations::pure_gen_over))]
pub fn over_domain(alloc: Global, pat: &Pat, dom: Boxed<NodeDom>) -> Result<Boxed<Gen>, NoMemory>
    ensures { IfOk result (λ g. pure_gen g ≡ over_item (pure_pat pat.now) (pure_dom dom)) }
{
    match pat.copy(alloc) {
        Ok(pat) => Boxed::new(alloc, Gen::Over(pat, dom)),
        Err(no) => Err(no),
    }
}

/// A copy of a pattern over a value. `NoMemory` where there is no room for it.
#[tactic(auto, using(ess_core_nodes::proofs::NodeEquations::pure_gen_from))]
pub fn over_value(alloc: Global, pat: &Pat, value: Boxed<Node>) -> Result<Boxed<Gen>, NoMemory>
    ensures { IfOk result (λ g. pure_gen g ≡ from_item (pure_pat pat.now) (pure_node value)) }
{
    match pat.copy(alloc) {
        Ok(pat) => Boxed::new(alloc, Gen::From(pat, value)),
        Err(no) => Err(no),
    }
}

/// A condition. `NoMemory` where there is no room for it.
#[tactic(auto, using(ess_core_nodes::proofs::NodeEquations::pure_gen_if))]
pub fn condition_on(alloc: Global, condition: Boxed<Node>) -> Result<Boxed<Gen>, NoMemory>
    ensures { IfOk result (λ g. pure_gen g ≡ cond_item (pure_node condition)) }
{
    Boxed::new(alloc, Gen::If(condition))
}
