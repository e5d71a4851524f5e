//! Passes over a tree until no rule fires.
ghost use Rattle.std.specs.Prelude.{◌≡◌, [], IfOk, OnOk};
ghost use Rattle.ess_core_nodes.specs.NodeViews.{pure_node};
ghost use Rattle.ess_rules.specs.Ruled.{IsRuled};
ghost use Rattle.ess_refine.specs.Chains.{Leads};
ghost use Rattle.ess_refine.specs.Refinements.{Says, IsEnded};

use crate::passing::{Turns, pass};
use crate::resting::rests;
use ess_core_nodes::Node;
use ess_node_forms::is_refined;
use ess_node_types::NameTypes;
use ess_rows::NoMemory;
use std::alloc::Global;
use std::mem;

/// What came of refining.
#[derive(Clone, Copy, Debug, PartialEq, Eq)]
pub enum Refinement {
    /// Nothing abstract is left.
    Refined,
    /// Something abstract is left, and none of the rules that are asked fires at any part.
    Stuck,
}

/// Refines a tree in place, under no names: rules are used at its root and at its parts until none fires. `Refined` where nothing
/// abstract is left. `Stuck` where something abstract is left, and none of the rules that are asked fires at any part. Reserved names are
/// taken from `next` on, and the number of the one behind them is left there. `NoMemory` where there is no room for the tree, the reserved
/// names can't be counted, or rules still fire after 2^64 - 1 passes; the tree is then any.
#[tactic(auto, using(crate::proofs::Endings::ended_leads))]
pub fn refine(alloc: Global, node: &mut Node, next: &mut u64) -> Result<Refinement, NoMemory>
    ensures led { OnOk result (Leads IsRuled next.old [] (pure_node node.old) (pure_node node.new) next.new) }
    ensures says { IfOk result (Says (pure_node node.new) next.new) }
{
    passed(alloc, node, next)?;
    if is_refined(node) {
        Ok(Refinement::Refined)
    } else {
        Ok(Refinement::Stuck)
    }
}

/// Passes over a tree until no rule fires. Where a pass fires none, the next one goes through the parts of views and of domains of compound
/// values, too. `NoMemory` as above.
fn passed(alloc: Global, node: &mut Node, next: &mut u64) -> Result<(), NoMemory>
    ensures { OnOk result (IsEnded next.old (pure_node node.old) (pure_node node.new) next.new) }
{
    let names = NameTypes::new(alloc);
    let mut turns = Turns {
        next: *next,
        fired: false,
        everywhere: false,
    };
    for _pass in 0..u64::MAX {
        turns.fired = false;
        let old = mem::replace(node, Node::Truth(false));
        let new = pass(alloc, old, &names, &mut turns)?;
        drop(mem::replace(node, new));
        if !turns.fired && rests(alloc, node, &names, turns.next)? {
            *next = turns.next;
            return Ok(());
        }
        turns.everywhere = !turns.fired;
    }
    Err(NoMemory)
}
