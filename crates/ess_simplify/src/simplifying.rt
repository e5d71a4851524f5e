//! Trees simplified in place, from the parts up.
ghost use Rattle.std.specs.Prelude.{◌≡◌};
ghost use Rattle.ess_core_nodes.specs.NodeViews.{pure_node, pure_nodes, pure_gen, pure_gens, pure_dom, pure_doms, pure_seen};
ghost use Rattle.ess_simplify_laws.specs.Simplifying.{simplified, all_simplified, gens_simplified, dom_simplified, doms_simplified};
ghost use Rattle.ess_simplify.specs.Turns.{item_simplified};

use crate::roots::simpler;
use ess_core_nodes::{Gen, Node, NodeDom, Seen};
use ess_rows::{Boxed, Row};
use std::mem;

/// Simplifies a tree in place. Nothing is allocated.
pub fn simplify(node: &mut Node)
    ensures { pure_node node.new ≡ simplified (pure_node node.old) }
{
    let old = mem::replace(node, Node::Truth(false));
    let new = simpler_tree(old);
    drop(mem::replace(node, new));
}

/// The simplified tree.
#[cycle(simplify)]
fn simpler_tree(node: Node) -> Node
    ensures { pure_node result ≡ simplified (pure_node node) }
{
    match node {
        Node::Number(number) => Node::Number(number),
        Node::Truth(value) => Node::Truth(value),
        Node::Name(name) => Node::Name(name),
        Node::Op(mark, op, mut operands) => {
            simplify_all(&mut operands);
            simpler(mark, op, operands)
        }
        Node::MatrixOn(mut items, mut axis) => {
            simplify_all(&mut items);
            simplify_dom(axis.get_mut());
            Node::MatrixOn(items, axis)
        }
        Node::Comp(mut body, mut gens) => {
            simplify_boxed(&mut body);
            simplify_gens(&mut gens);
            Node::Comp(body, gens)
        }
        Node::Cell(is_bool, name, mut at) => {
            simplify_all(&mut at);
            Node::Cell(is_bool, name, at)
        }
        Node::Seen(mut seen) => {
            simplify_seen(seen.get_mut());
            Node::Seen(seen)
        }
    }
}

/// The same in a box, in place.
#[cycle(simplify)]
fn simplify_boxed(node: &mut Boxed<Node>)
    ensures { pure_node node.new ≡ simplified (pure_node node.old) }
{
    let old = node.replace(Node::Truth(false));
    let new = simpler_tree(old);
    drop(node.replace(new));
}

/// The same of a view.
#[cycle(simplify)]
#[tactic(auto, using(ess_core_nodes::proofs::NodeEquations::pure_seen_is))]
fn simplify_seen(seen: &mut Seen)
    ensures { pure_seen seen.new ≡ simplified (pure_seen seen.old) }
{
    simplify_dom(seen.dom.get_mut());
    simplify_all(&mut seen.at);
}

/// The same of several trees.
#[cycle(simplify)]
#[tactic(auto, using(crate::proofs::Turned::nodes_done))]
fn simplify_all(nodes: &mut Row<Node>)
    ensures { pure_nodes nodes.new ≡ all_simplified (pure_nodes nodes.old) }
{
    for i in 0..nodes.len() {
        if let Some(node) = nodes.get_mut(i) {
            let old = mem::replace(node, Node::Truth(false));
            let new = simpler_tree(old);
            drop(mem::replace(node, new));
        }
    }
}

/// The same of generators and conditions.
#[cycle(simplify)]
#[tactic(auto, using(crate::proofs::Turned::gens_done))]
fn simplify_gens(gens: &mut Row<Gen>)
    ensures { pure_gens gens.new ≡ gens_simplified (pure_gens gens.old) }
{
    for i in 0..gens.len() {
        if let Some(item) = gens.get_mut(i) {
            simplify_gen(item);
        }
    }
}

/// The same of a generator or condition.
#[cycle(simplify)]
#[tactic(auto, using(ess_core_nodes::proofs::NodeEquations::pure_gen_over, ess_core_nodes::proofs::NodeEquations::pure_gen_from, ess_core_nodes::proofs::NodeEquations::pure_gen_if))]
fn simplify_gen(item: &mut Gen)
    ensures { pure_gen item.new ≡ item_simplified (pure_gen item.old) }
{
    match item {
        Gen::Over(_, dom) => simplify_dom(dom.get_mut()),
        Gen::From(_, source) => simplify_boxed(source),
        Gen::If(condition) => simplify_boxed(condition),
    }
}

/// The same of a domain.
#[cycle(simplify)]
fn simplify_dom(dom: &mut NodeDom)
    ensures { pure_dom dom.new ≡ dom_simplified (pure_dom dom.old) }
{
    match dom {
        NodeDom::Bool => {}
        NodeDom::Int(_, bounds) => simplify_all(bounds),
        NodeDom::Name(_) => {}
        NodeDom::Tuple(doms) => simplify_doms(doms),
        NodeDom::Record(_, doms) => simplify_doms(doms),
        NodeDom::Matrix(axes, item) => {
            simplify_doms(axes);
            simplify_dom(item.get_mut());
        }
        NodeDom::Set(_, numbers, member) => {
            simplify_all(numbers);
            simplify_dom(member.get_mut());
        }
        NodeDom::MSet(_, numbers, member) => {
            simplify_all(numbers);
            simplify_dom(member.get_mut());
        }
        NodeDom::Function(_, numbers, from, to) => {
            simplify_all(numbers);
            simplify_dom(from.get_mut());
            simplify_dom(to.get_mut());
        }
        NodeDom::Relation(_, numbers, parts) => {
            simplify_all(numbers);
            simplify_doms(parts);
        }
        NodeDom::Partition(_, numbers, member) => {
            simplify_all(numbers);
            simplify_dom(member.get_mut());
        }
    }
}

/// The same of several domains.
#[cycle(simplify)]
#[tactic(auto, using(crate::proofs::Turned::doms_done))]
fn simplify_doms(doms: &mut Row<NodeDom>)
    ensures { pure_doms doms.new ≡ doms_simplified (pure_doms doms.old) }
{
    for i in 0..doms.len() {
        if let Some(dom) = doms.get_mut(i) {
            simplify_dom(dom);
        }
    }
}
