//! A number in the place of a refined one that has a value everywhere: where the old one has a value it is the same.
ghost use Rattle.std.specs.Prelude.{◌≡◌, false, map, IfOk};
ghost use Rattle.ess_semantics.specs.Trees.{node_ex};
ghost use Rattle.ess_core_nodes.specs.NodeViews.{pure_node, pure_nodes, pure_gen, pure_gens, pure_dom, pure_op};
ghost use Rattle.ess_refine_laws.specs.Everywhere.{everywhere, everywhere_exs, everywhere_gens, everywhere_dom};
ghost use Rattle.ess_rules_everywhere.specs.ThereParts.{there, list_there, all_there, lists_there, gens_there, dom_there, item_there};

use crate::numbers::{fold_node, is_fold_op, is_number_op, number_node};
use ess_core_nodes::{Gen, Node, NodeDom, Op, copy_nodes};
use ess_node_building::{comprehension, literal};
use ess_rows::{Boxed, NoMemory, Row};
use std::alloc::Global;

// ---- what rules ask for

/// The number that is there everywhere. Booleans, and numbers of theirs, are left alone. `NoMemory` where there is no room for it.
#[tactic(auto, using(crate::proofs::ThereEverywhere::there_everywhere))]
pub fn everywhere(alloc: Global, node: &Node) -> Result<Boxed<Node>, NoMemory>
    ensures { IfOk result (λ n. pure_node n ≡ everywhere (pure_node node.now)) }
{
    there(alloc, node)
}

/// The same of several numbers. `NoMemory` where there is no room for them.
#[tactic(auto, using(crate::proofs::ThereEverywhere::all_everywhere))]
pub fn everywhere_exs(alloc: Global, nodes: &[Node]) -> Result<Row<Node>, NoMemory>
    ensures { IfOk result (λ ns. pure_nodes ns ≡ everywhere_exs (pure_nodes nodes.now)) }
{
    all_there(alloc, nodes)
}

/// The same of the bounds of generators. `NoMemory` where there is no room for them.
#[tactic(auto, using(crate::proofs::ThereEverywhere::gens_everywhere))]
pub fn everywhere_gens(alloc: Global, gens: &[Gen]) -> Result<Row<Gen>, NoMemory>
    ensures { IfOk result (λ gs. pure_gens gs ≡ everywhere_gens (pure_gens gens.now)) }
{
    gens_there(alloc, gens)
}

/// The same of the bounds of a range. `NoMemory` where there is no room for it.
#[tactic(auto, using(crate::proofs::ThereEverywhere::dom_everywhere))]
pub fn everywhere_dom(alloc: Global, dom: &NodeDom) -> Result<Boxed<NodeDom>, NoMemory>
    ensures { IfOk result (λ d. pure_dom d ≡ everywhere_dom (pure_dom dom.now)) }
{
    dom_there(alloc, dom)
}

// ---- by the operator

/// The number that is there everywhere.
#[cycle(there)]
#[tactic(auto, using(ess_core_nodes::proofs::NodeEquations::pure_seen_is))]
fn there(alloc: Global, node: &Node) -> Result<Boxed<Node>, NoMemory>
    ensures { IfOk result (λ n. pure_node n ≡ there (pure_node node.now)) }
{
    match node {
        Node::Op(false, op, operands) => op_there(alloc, op, operands.as_slice()),
        _ => node.copy(alloc),
    }
}

/// The same of an operator that isn't Boolean, with its operands.
#[cycle(there)]
fn op_there(alloc: Global, op: &Op, operands: &[Node]) -> Result<Boxed<Node>, NoMemory>
    ensures { IfOk result (λ n. pure_node n ≡ there (node_ex false (pure_op op.now) (pure_nodes operands.now))) }
{
    if is_number_op(op, operands) {
        let numbers = all_there(alloc, operands)?;
        return number_node(alloc, op, numbers);
    }
    if is_fold_op(op, operands) {
        let lists = lists_there(alloc, operands)?;
        return fold_node(alloc, op, lists);
    }
    copied(alloc, op, operands)
}

/// The same of a list of numbers: a comprehension or a literal.
#[cycle(there)]
#[tactic(auto, using(ess_core_nodes::proofs::NodeEquations::pure_seen_is))]
fn list_there(alloc: Global, list: &Node) -> Result<Boxed<Node>, NoMemory>
    ensures { IfOk result (λ n. pure_node n ≡ list_there (pure_node list.now)) }
{
    match list {
        Node::Comp(body, gens) => {
            let body = there(alloc, body.get())?;
            let gens = gens_there(alloc, gens.as_slice())?;
            comprehension(alloc, body, gens)
        }
        Node::Op(false, Op::Matrix, items) => {
            let items = all_there(alloc, items.as_slice())?;
            literal(alloc, Op::Matrix, items)
        }
        _ => list.copy(alloc),
    }
}

/// The same of several numbers.
#[cycle(there)]
#[tactic(auto, using(crate::proofs::EachItem::each_there))]
fn all_there(alloc: Global, nodes: &[Node]) -> Result<Row<Node>, NoMemory>
    ensures { IfOk result (λ ns. pure_nodes ns ≡ all_there (pure_nodes nodes.now)) }
{
    Ok(each_there(alloc, nodes)?)
}

/// The same one by one.
#[cycle(there)]
fn each_there(alloc: Global, nodes: &[Node]) -> Result<Row<Node>, NoMemory>
    ensures { IfOk result (λ ns. map pure_node ns ≡ map there (map pure_node nodes.now)) }
{
    let mut all = Row::with_capacity(alloc, nodes.len())?;
    for node in nodes {
        let item = there(alloc, node)?;
        all.push(item.into_inner())?;
    }
    Ok(all)
}

/// The same of several lists of numbers.
#[cycle(there)]
#[tactic(auto, using(crate::proofs::EachItem::each_list_there))]
fn lists_there(alloc: Global, lists: &[Node]) -> Result<Row<Node>, NoMemory>
    ensures { IfOk result (λ ns. pure_nodes ns ≡ lists_there (pure_nodes lists.now)) }
{
    Ok(each_list_there(alloc, lists)?)
}

/// The same one by one.
#[cycle(there)]
fn each_list_there(alloc: Global, lists: &[Node]) -> Result<Row<Node>, NoMemory>
    ensures { IfOk result (λ ns. map pure_node ns ≡ map list_there (map pure_node lists.now)) }
{
    let mut all = Row::with_capacity(alloc, lists.len())?;
    for list in lists {
        let item = list_there(alloc, list)?;
        all.push(item.into_inner())?;
    }
    Ok(all)
}

/// The same of the bounds of generators.
#[cycle(there)]
#[tactic(auto, using(crate::proofs::EachItem::each_gen_there))]
fn gens_there(alloc: Global, gens: &[Gen]) -> Result<Row<Gen>, NoMemory>
    ensures { IfOk result (λ gs. pure_gens gs ≡ gens_there (pure_gens gens.now)) }
{
    Ok(each_gen_there(alloc, gens)?)
}

/// The same one by one.
#[cycle(there)]
fn each_gen_there(alloc: Global, gens: &[Gen]) -> Result<Row<Gen>, NoMemory>
    ensures { IfOk result (λ gs. map pure_gen gs ≡ map item_there (map pure_gen gens.now)) }
{
    let mut all = Row::with_capacity(alloc, gens.len())?;
    for item in gens {
        let item = item_there(alloc, item)?;
        all.push(item.into_inner())?;
    }
    Ok(all)
}

/// The same of the bounds of one generator.
#[cycle(there)]
#[tactic(auto, using(ess_core_nodes::proofs::NodeEquations::pure_gen_over, ess_core_nodes::proofs::NodeEquations::pure_gen_from, ess_core_nodes::proofs::NodeEquations::pure_gen_if))]
fn item_there(alloc: Global, item: &Gen) -> Result<Boxed<Gen>, NoMemory>
    ensures { IfOk result (λ g. pure_gen g ≡ item_there (pure_gen item.now)) }
{
    match item {
        Gen::Over(pat, dom) => {
            let dom = dom_there(alloc, dom.get())?;
            let pat = pat.copy(alloc)?;
            Boxed::new(alloc, Gen::Over(pat, dom))
        }
        _ => item.copy(alloc),
    }
}

/// The same of the bounds of a range.
#[cycle(there)]
fn dom_there(alloc: Global, dom: &NodeDom) -> Result<Boxed<NodeDom>, NoMemory>
    ensures { IfOk result (λ d. pure_dom d ≡ dom_there (pure_dom dom.now)) }
{
    match dom {
        NodeDom::Int(ends, bounds) => {
            let bounds = all_there(alloc, bounds.as_slice())?;
            let ends = Row::from_slice(alloc, ends.as_slice())?;
            Boxed::new(alloc, NodeDom::Int(ends, bounds))
        }
        _ => dom.copy(alloc),
    }
}

/// The operator with copies of its operands.
fn copied(alloc: Global, op: &Op, operands: &[Node]) -> Result<Boxed<Node>, NoMemory>
    ensures { IfOk result (λ n. pure_node n ≡ node_ex false (pure_op op.now) (pure_nodes operands.now)) }
{
    let operands = copy_nodes(alloc, operands)?;
    let op = op.copy(alloc)?;
    literal(alloc, op, operands)
}
