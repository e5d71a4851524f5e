//! Lists of models for lists of refined trees: items, or a comprehension.
ghost use Rattle.std.specs.Prelude.{◌≡◌, IfOk, map, option_map};
ghost use Rattle.ess_semantics.specs.Lists.{each_of};
ghost use Rattle.ess_semantics.specs.Trees.{node_ex};
ghost use Rattle.ess_core.specs.TreeViews.{pure_pat, over_item};
ghost use Rattle.ess_core_nodes.specs.NodeViews.{pure_node, pure_nodes, pure_gen, pure_dom, pure_op};
ghost use Rattle.eprime_tree.specs.Views.{pure_list, pure_gen as model_gen};
ghost use Rattle.eprime_read_convert.specs.Lines.{scope_of};
ghost use Rattle.eprime_lowering.specs.Lowered.{lowered_list, lowered_item, is_list_literal};

use crate::building::{comp, items_of, over, test};
use crate::domains::lower_dom;
use crate::lowering::{lower, lower_all};
use eprime_read_convert::Lines;
use eprime_tree::{PGen, PList};
use ess_core::Pat;
use ess_core_nodes::{Gen, Node, NodeDom, Op};
use ess_rows::{NoMemory, Row};
use std::alloc::Global;

/// The list of a model that stands for the tree.
#[cycle(lower)]
#[tactic(auto, using(crate::proofs::Nodes::node_is, ess_core_nodes::proofs::NodeEquations::pure_seen_is))]
pub(crate) fn lower_list(
    alloc: Global,
    lines: &Lines,
    node: &Node,
) -> Result<Option<PList>, NoMemory>
    ensures { IfOk result (λ o. option_map (pure_list (scope_of lines.now)) o ≡ lowered_list (scope_of lines.now) (pure_node node.now)) }
{
    match node {
        Node::Op(mark, op, items) => lower_items(alloc, lines, items.as_slice(), *mark, op),
        Node::Comp(body, gens) => {
            let items = lower_gens(alloc, lines, gens.as_slice())?;
            let item = lower(alloc, lines, body.get())?;
            Ok(comp(item, items))
        }
        _ => Ok(None),
    }
}

/// A list by its items.
#[cycle(lower)]
fn lower_items(
    alloc: Global,
    lines: &Lines,
    items: &[Node],
    mark: bool,
    op: &Op,
) -> Result<Option<PList>, NoMemory>
    ensures { IfOk result (λ o. option_map (pure_list (scope_of lines.now)) o
        ≡ lowered_list (scope_of lines.now) (node_ex mark (pure_op op.now) (pure_nodes items.now))) }
{
    if !is_list_literal(mark, op) {
        return Ok(None);
    }
    Ok(items_of(lower_all(alloc, lines, items)?))
}

/// Whether a literal with this mark is a list.
fn is_list_literal(mark: bool, op: &Op) -> bool
    ensures { result ≡ is_list_literal mark (pure_op op.now) }
{
    match op {
        Op::Matrix => !mark,
        _ => false,
    }
}

/// Generators and conditions.
#[cycle(lower)]
fn lower_gens(alloc: Global, lines: &Lines, gens: &[Gen]) -> Result<Option<Row<PGen>>, NoMemory>
    ensures { IfOk result (λ o. option_map (map (model_gen (scope_of lines.now))) o
        ≡ each_of (map pure_gen gens.now) (lowered_item (scope_of lines.now))) }
{
    let mut items = Row::with_capacity(alloc, gens.len())?;
    for part in gens {
        match lower_gen(alloc, lines, part)? {
            Some(item) => items.push(item)?,
            None => return Ok(None),
        }
    }
    Ok(Some(items))
}

/// A generator or a condition.
#[cycle(lower)]
#[tactic(auto, using(crate::proofs::Nodes::gen_equations))]
fn lower_gen(alloc: Global, lines: &Lines, part: &Gen) -> Result<Option<PGen>, NoMemory>
    ensures { IfOk result (λ o. option_map (model_gen (scope_of lines.now)) o
        ≡ lowered_item (scope_of lines.now) (pure_gen part.now)) }
{
    match part {
        Gen::Over(pat, dom) => lower_over(alloc, lines, dom.get(), pat),
        Gen::If(node) => Ok(test(lower(alloc, lines, node.get())?)),
        _ => Ok(None),
    }
}

/// A generator over a domain.
#[cycle(lower)]
fn lower_over(
    alloc: Global,
    lines: &Lines,
    dom: &NodeDom,
    pat: &Pat,
) -> Result<Option<PGen>, NoMemory>
    ensures { IfOk result (λ o. option_map (model_gen (scope_of lines.now)) o
        ≡ lowered_item (scope_of lines.now) (over_item (pure_pat pat.now) (pure_dom dom.now))) }
{
    match pat {
        Pat::Name(name) => over(alloc, name, lower_dom(alloc, lines, false, dom)?),
        Pat::Tuple(_) => Ok(None),
    }
}
