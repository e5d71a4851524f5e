//! The results at an argument that views kept by argument offer, whatever the kind.
ghost use Rattle.std.specs.Prelude.{◌≡◌, true, IfOk};
ghost use Rattle.ess_semantics.specs.Trees.{ex2};
ghost use Rattle.ess_core.specs.TreeViews.{pure_repr};
ghost use Rattle.ess_core_nodes.specs.NodeViews.{pure_node, pure_nodes, pure_dom};
ghost use Rattle.ess_rules_laws.specs.FunctionViews.{total_result, flagged_result};
ghost use Rattle.ess_rules_pairs.specs.CodeRuns.{pure_run};

use crate::offers::{flag_at, result_at, run_where};
use crate::runs::Run;
use ess_core::{Op2, Repr};
use ess_core_nodes::{Node, NodeDom};
use ess_node_building::{binary, comprehension, condition};
use ess_rows::{Boxed, NoMemory, Text};
use std::alloc::Global;

/// That the argument of a run is this one.
fn is_argument(alloc: Global, run: &Run, argument: &Node) -> Result<Boxed<Node>, NoMemory>
    ensures { IfOk result (λ n. pure_node n ≡ ex2 true Op2.Eq (pure_node run.now.argument) (pure_node argument.now)) }
{
    let argument = argument.copy(alloc)?;
    let bound = run.argument.get().copy(alloc)?;
    binary(alloc, true, Op2::Eq, bound, argument)
}

/// Of a total function: the result at each argument which is this one.
pub(crate) fn total_result(
    alloc: Global,
    run: &Run,
    child: &Repr,
    first: &NodeDom,
    last: &NodeDom,
    cells: &[Text],
    at: &[Node],
    argument: &Node,
) -> Result<Boxed<Node>, NoMemory>
    ensures { IfOk result (λ n. pure_node n ≡ total_result (pure_run run.now) (pure_repr child.now) (pure_dom first.now)
        (pure_dom last.now) cells.now (pure_nodes at.now) (pure_node argument.now)) }
{
    let there = result_at(alloc, child, last, cells, at, run.keys.as_slice())?;
    let equal = is_argument(alloc, run, argument)?;
    let gens = run_where(alloc, &run.pattern, first, equal)?;
    comprehension(alloc, there, gens)
}

/// Of a function with flags, which the table holds: the result at each argument which is this one, where its flag is true.
pub(crate) fn flagged_result(
    alloc: Global,
    run: &Run,
    child: &Repr,
    first: &NodeDom,
    last: &NodeDom,
    flags: &Text,
    cells: &[Text],
    at: &[Node],
    argument: &Node,
) -> Result<Boxed<Node>, NoMemory>
    ensures { IfOk result (λ n. pure_node n ≡ flagged_result (pure_run run.now) (pure_repr child.now) (pure_dom first.now)
        (pure_dom last.now) flags.now cells.now (pure_nodes at.now) (pure_node argument.now)) }
{
    let there = result_at(alloc, child, last, cells, at, run.keys.as_slice())?;
    let equal = is_argument(alloc, run, argument)?;
    let flag = flag_at(alloc, flags, at, run.keys.as_slice())?;
    let mut gens = run_where(alloc, &run.pattern, first, equal)?;
    gens.push(condition(flag))?;
    comprehension(alloc, there, gens)
}
