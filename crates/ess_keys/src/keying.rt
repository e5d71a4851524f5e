//! The recursion: each tree with plain keys.
ghost use Rattle.std.specs.Prelude.{◌≡◌, ◌++◌, IfOk, OnOk, map};
ghost use Rattle.ess_core_nodes.specs.NodeViews.{pure_node, pure_nodes, pure_gen, pure_dom};
ghost use Rattle.ess_keys_laws.specs.KeyForms.{as_indices};
ghost use Rattle.ess_keys_laws.specs.Keyed.{nothing_around, keyed, keyed_all, keyed_dom};
ghost use Rattle.ess_guard_forms.specs.KnownNames.{pure_known};
ghost use Rattle.ess_keys.specs.Views.{pure_around};
ghost use Rattle.ess_keys.specs.Steps.{items_left, items_of, behind_item, behind_items};

use crate::around::{Around, key_for};
use crate::finding::sure_key;
use crate::folding::{folded, laid};
use crate::forms::as_index;
use crate::generators::{enter, enter_any, put_conditions, rest_of};
use ess_core_nodes::{Gen, Node, NodeDom};
use ess_node_building::{number, truth};
use ess_node_remaking::{cell_at, int_domain};
use ess_rows::{Boxed, NoMemory, Row};
use std::alloc::Global;

/// The tree with plain keys, where no names are bound around it. `NoMemory` where there is no room for it.
pub fn with_plain_keys(alloc: Global, node: &Node) -> Result<Boxed<Node>, NoMemory>
    ensures { IfOk result (λ n. pure_node n ≡ keyed nothing_around (pure_node node.now)) }
{
    let around = Around {
        keys: Row::new(alloc),
        known: Row::new(alloc),
    };
    keyed(alloc, &around, node)
}

/// The tree with plain keys, where this is known around it.
#[cycle(keyed)]
#[tactic(auto, using(ess_core_nodes::proofs::NodeEquations::pure_seen_is))]
fn keyed(alloc: Global, around: &Around, node: &Node) -> Result<Boxed<Node>, NoMemory>
    ensures { IfOk result (λ n. pure_node n ≡ keyed (pure_around around.now) (pure_node node.now)) }
{
    match node {
        Node::Number(value) => number(alloc, *value),
        Node::Truth(value) => truth(alloc, *value),
        Node::Name(name) => key_for(alloc, around.keys.as_slice(), name),
        Node::Op(mark, op, operands) => {
            let operands = keyed_nodes(alloc, around, operands.as_slice())?;
            folded(alloc, around.known.as_slice(), *mark, op, operands)
        }
        Node::Comp(body, gens) => {
            let mut inner = around.copy(alloc)?;
            let gens = keyed_gens(alloc, &mut inner, gens.as_slice())?;
            let body = keyed(alloc, &inner, body.get())?;
            laid(alloc, body, gens)
        }
        Node::Cell(mark, name, at) => {
            let at = keyed_indices(alloc, around, at.as_slice())?;
            cell_at(alloc, *mark, name, at)
        }
        Node::MatrixOn(_, _) | Node::Seen(_) => node.copy(alloc),
    }
}

/// The same of several trees.
#[cycle(keyed)]
fn keyed_nodes(alloc: Global, around: &Around, nodes: &[Node]) -> Result<Row<Node>, NoMemory>
    ensures { IfOk result (λ ns. pure_nodes ns ≡ keyed_all (pure_around around.now) (pure_nodes nodes.now)) }
{
    let mut all = Row::with_capacity(alloc, nodes.len())?;
    for node in nodes {
        let item = keyed(alloc, around, node)?;
        all.push(item.into_inner())?;
    }
    Ok(all)
}

/// The same of indices, as numbers.
#[cycle(keyed)]
fn keyed_indices(alloc: Global, around: &Around, nodes: &[Node]) -> Result<Row<Node>, NoMemory>
    ensures { IfOk result (λ ns. pure_nodes ns
        ≡ as_indices (pure_known around.now.known) (keyed_all (pure_around around.now) (pure_nodes nodes.now))) }
{
    let mut all = Row::with_capacity(alloc, nodes.len())?;
    for node in nodes {
        let item = keyed(alloc, around, node)?;
        let index = as_index(alloc, around.known.as_slice(), item)?;
        all.push(index.into_inner())?;
    }
    Ok(all)
}

/// The same of generators and conditions. What is known behind them is left in `around`.
#[cycle(keyed)]
#[tactic(auto, using(crate::proofs::EachItem::rest_next, crate::proofs::EachItem::items_more, crate::proofs::EachItem::behind_more))]
fn keyed_gens(alloc: Global, around: &mut Around, gens: &[Gen]) -> Result<Row<Gen>, NoMemory>
    ensures gens { IfOk result (λ gs. map pure_gen gs ≡ items_of (pure_around around.old) (map pure_gen gens.now)) }
    ensures around { OnOk result (pure_around around.new ≡ behind_items (pure_around around.old) (map pure_gen gens.now)) }
{
    let mut all = Row::with_capacity(alloc, gens.len())?;
    let mut behind = gens;
    for item in gens {
        behind = rest_of(behind);
        keyed_gen(alloc, around, item, behind, &mut all)?;
    }
    Ok(all)
}

/// The same of one, before others, which comes behind what is there already.
#[cycle(keyed)]
#[tactic(auto, using(ess_core_nodes::proofs::NodeEquations::pure_gen_over, ess_core_nodes::proofs::NodeEquations::pure_gen_from, ess_core_nodes::proofs::NodeEquations::pure_gen_if))]
fn keyed_gen(
    alloc: Global,
    around: &mut Around,
    item: &Gen,
    behind: &[Gen],
    all: &mut Row<Gen>,
) -> Result<(), NoMemory>
    ensures gens { OnOk result (map pure_gen all.new
        ≡ map pure_gen all.old ++ items_left (pure_around around.old) (pure_gen item.now) (map pure_gen behind.now)) }
    ensures around { OnOk result (pure_around around.new
        ≡ behind_item (pure_around around.old) (pure_gen item.now) (map pure_gen behind.now)) }
{
    match item {
        Gen::Over(pat, dom) => {
            let dom = keyed_dom(alloc, around, dom.get())?;
            let key = sure_key(alloc, around, pat, dom.get(), behind)?;
            enter(alloc, around, all, pat, dom, key)
        }
        Gen::From(pat, source) => {
            let source = keyed(alloc, around, source.get())?;
            enter_any(alloc, around, all, pat, source)
        }
        Gen::If(condition) => {
            let condition = keyed(alloc, around, condition.get())?;
            put_conditions(alloc, around, condition.get(), all)
        }
    }
}

/// The same of the bounds of ranges.
#[cycle(keyed)]
fn keyed_dom(alloc: Global, around: &Around, dom: &NodeDom) -> Result<Boxed<NodeDom>, NoMemory>
    ensures { IfOk result (λ d. pure_dom d ≡ keyed_dom (pure_around around.now) (pure_dom dom.now)) }
{
    match dom {
        NodeDom::Int(ends, bounds) => {
            let bounds = keyed_nodes(alloc, around, bounds.as_slice())?;
            int_domain(alloc, ends.as_slice(), bounds)
        }
        _ => dom.copy(alloc),
    }
}
