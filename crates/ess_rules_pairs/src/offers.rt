//! What views kept by argument offer, whatever the kind.
ghost use Rattle.std.specs.Prelude.{◌≡◌, ◌∷◌, [], IfOk, map};
ghost use Rattle.ess_core.specs.TreeViews.{pure_repr, over_item, cond_item, pure_pat};
ghost use Rattle.ess_core_nodes.specs.NodeViews.{pure_node, pure_nodes, pure_gen, pure_dom};
ghost use Rattle.ess_rules_laws.specs.FunctionViews.{append_exs, result_at, flag_at, total_pairs, flagged_pairs};
ghost use Rattle.ess_rules_forms.specs.PureAlternatives.{pure_alternative};
ghost use Rattle.ess_rules_pairs.specs.CodeRuns.{pure_run};

use crate::runs::Run;
use ess_core::{Pat, Repr};
use ess_core_nodes::{Gen, Node, NodeDom, Seen, copy_nodes, copy_texts};
use ess_node_building::{condition, pair};
use ess_rows::{Boxed, NoMemory, Row, Text};
use ess_rules_forms::Alternative;
use std::alloc::Global;

/// An index list with further indices behind.
#[tactic(auto, using(crate::proofs::NameRows::behind_others))]
fn indices(alloc: Global, at: &[Node], keys: &[Node]) -> Result<Row<Node>, NoMemory>
    ensures { IfOk result (λ ns. pure_nodes ns ≡ append_exs (pure_nodes at.now) (pure_nodes keys.now)) }
{
    let mut first = copy_nodes(alloc, at)?;
    let mut second = copy_nodes(alloc, keys)?;
    first.append(&mut second)?;
    Ok(first)
}

/// The view of the result at these indices.
#[tactic(auto, using(ess_core_nodes::proofs::NodeEquations::pure_seen_is))]
pub(crate) fn result_at(
    alloc: Global,
    child: &Repr,
    dom: &NodeDom,
    cells: &[Text],
    at: &[Node],
    keys: &[Node],
) -> Result<Boxed<Node>, NoMemory>
    ensures { IfOk result (λ n. pure_node n
        ≡ result_at (pure_repr child.now) (pure_dom dom.now) cells.now (pure_nodes at.now) (pure_nodes keys.now)) }
{
    let at = indices(alloc, at, keys)?;
    let cells = copy_texts(alloc, cells)?;
    let dom = dom.copy(alloc)?;
    let repr = child.copy(alloc)?;
    let seen = Boxed::new(
        alloc,
        Seen {
            repr,
            dom,
            cells,
            at,
        },
    )?;
    Boxed::new(alloc, Node::Seen(seen))
}

/// Whether there is a result at these indices.
pub(crate) fn flag_at(
    alloc: Global,
    table: &Text,
    at: &[Node],
    keys: &[Node],
) -> Result<Boxed<Node>, NoMemory>
    ensures { IfOk result (λ n. pure_node n ≡ flag_at table.now (pure_nodes at.now) (pure_nodes keys.now)) }
{
    let at = indices(alloc, at, keys)?;
    let table = table.copy(alloc)?;
    Boxed::new(alloc, Node::Cell(true, table, at))
}

/// A pattern over a domain, alone.
#[tactic(auto, using(ess_core_nodes::proofs::NodeEquations::pure_gen_over))]
fn run_over(alloc: Global, pattern: &Pat, dom: &NodeDom) -> Result<Row<Gen>, NoMemory>
    ensures { IfOk result (λ gs. map pure_gen gs ≡ over_item (pure_pat pattern.now) (pure_dom dom.now) ∷ []) }
{
    let mut gens = Row::new(alloc);
    let dom = dom.copy(alloc)?;
    let pattern = pattern.copy(alloc)?;
    gens.push(Gen::Over(pattern, dom))?;
    Ok(gens)
}

/// A pattern over a domain, under a condition.
pub(crate) fn run_where(
    alloc: Global,
    pattern: &Pat,
    dom: &NodeDom,
    test: Boxed<Node>,
) -> Result<Row<Gen>, NoMemory>
    ensures { IfOk result (λ gs. map pure_gen gs
        ≡ over_item (pure_pat pattern.now) (pure_dom dom.now) ∷ cond_item (pure_node test) ∷ []) }
{
    let mut gens = run_over(alloc, pattern, dom)?;
    gens.push(condition(test))?;
    Ok(gens)
}

/// Of a total function: each argument, with the result there.
pub(crate) fn total_pairs(
    alloc: Global,
    run: &Run,
    child: &Repr,
    first: &NodeDom,
    last: &NodeDom,
    cells: &[Text],
    at: &[Node],
) -> Result<Alternative, NoMemory>
    ensures { IfOk result (λ a. pure_alternative a ≡ total_pairs (pure_run run.now) (pure_repr child.now) (pure_dom first.now)
        (pure_dom last.now) cells.now (pure_nodes at.now)) }
{
    let there = result_at(alloc, child, last, cells, at, run.keys.as_slice())?;
    let item = pair(alloc, run.argument.get().copy(alloc)?, there)?;
    let gens = run_over(alloc, &run.pattern, first)?;
    Ok(Alternative { gens, item })
}

/// Of a function with flags, which the table holds: each argument whose flag is true.
pub(crate) fn flagged_pairs(
    alloc: Global,
    run: &Run,
    child: &Repr,
    first: &NodeDom,
    last: &NodeDom,
    flags: &Text,
    cells: &[Text],
    at: &[Node],
) -> Result<Alternative, NoMemory>
    ensures { IfOk result (λ a. pure_alternative a ≡ flagged_pairs (pure_run run.now) (pure_repr child.now) (pure_dom first.now)
        (pure_dom last.now) flags.now cells.now (pure_nodes at.now)) }
{
    let there = result_at(alloc, child, last, cells, at, run.keys.as_slice())?;
    let item = pair(alloc, run.argument.get().copy(alloc)?, there)?;
    let test = flag_at(alloc, flags, at, run.keys.as_slice())?;
    let gens = run_where(alloc, &run.pattern, first, test)?;
    Ok(Alternative { gens, item })
}
