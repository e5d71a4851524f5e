//! Numbers that have a value whatever guards them, as their forms tell.
ghost use Rattle.std.specs.Prelude.{◌≡◌, map};
ghost use Rattle.ess_core_nodes.specs.NodeViews.{pure_node, pure_nodes, pure_gen, pure_gens, pure_dom, pure_doms, pure_op};
ghost use Rattle.ess_numbered_laws.specs.ThereByForm.{adds_up as adds, are_none as is_nothing, is_there as by_form, are_there as all_by_form, gens_there as gens_by_form, dom_there as dom_by_form, doms_there as doms_by_form};
ghost use Rattle.ess_rules_numbered.specs.ThereForms.{item_there as item_by_form, items_there as items_by_form};

use ess_core::{Fun, Op1, Op2};
use ess_core_nodes::{Gen, Node, NodeDom, Op};

/// Whether the number has a value by its form: one of numerals, names and tables without indices, at domains whose bounds are so.
#[cycle(there)]
#[tactic(auto, using(ess_core_nodes::proofs::NodeEquations::pure_seen_is))]
pub(crate) fn is_there(node: &Node) -> bool
    ensures { result ≡ by_form (pure_node node.now) }
{
    match node {
        Node::Number(_) | Node::Truth(_) | Node::Name(_) => true,
        Node::Op(_, op, operands) => adds_up(op) && are_there(operands.as_slice()),
        Node::MatrixOn(_, _) => false,
        Node::Comp(body, gens) => is_there(body.get()) && gens_there(gens.as_slice()),
        Node::Cell(_, _, at) => are_none(at.as_slice()),
        Node::Seen(seen) => are_none(seen.get().at.as_slice()),
    }
}

/// Whether there are no indices.
#[tactic(auto, using(crate::proofs::ThereForms::no_indices, crate::proofs::ThereForms::some_indices))]
fn are_none(nodes: &[Node]) -> bool
    ensures { result ≡ is_nothing (pure_nodes nodes.now) }
{
    match nodes.first() {
        None => true,
        Some(_) => false,
    }
}

/// Whether the operator has a value wherever its operands have: `-`, `+`, `*`, a list and its sum.
fn adds_up(op: &Op) -> bool
    ensures { result ≡ adds (pure_op op.now) }
{
    match op {
        Op::Unary(Op1::Minus) => true,
        Op::Binary(Op2::Plus) => true,
        Op::Binary(Op2::Minus) => true,
        Op::Binary(Op2::Times) => true,
        Op::Word(Fun::Sum) => true,
        Op::Matrix => true,
        _ => false,
    }
}

/// Whether all of the numbers have.
#[cycle(there)]
fn are_there(nodes: &[Node]) -> bool
    ensures { result ≡ all_by_form (pure_nodes nodes.now) }
{
    for node in nodes {
        if !is_there(node) {
            return false;
        }
    }
    true
}

/// Whether the bounds of all generators have.
#[cycle(there)]
#[tactic(auto, using(crate::proofs::ThereForms::items_are_there))]
fn gens_there(gens: &[Gen]) -> bool
    ensures { result ≡ gens_by_form (pure_gens gens.now) }
{
    all_gens_there(gens)
}

/// The same, one by one.
#[cycle(there)]
fn all_gens_there(gens: &[Gen]) -> bool
    ensures { result ≡ items_by_form (map pure_gen gens.now) }
{
    for item in gens {
        if !gen_there(item) {
            return false;
        }
    }
    true
}

/// Whether the bounds of a generator have. Conditions are truth values, which are there always.
#[cycle(there)]
#[tactic(auto, using(ess_core_nodes::proofs::NodeEquations::pure_gen_over, ess_core_nodes::proofs::NodeEquations::pure_gen_from, ess_core_nodes::proofs::NodeEquations::pure_gen_if))]
fn gen_there(item: &Gen) -> bool
    ensures { result ≡ item_by_form (pure_gen item.now) }
{
    match item {
        Gen::Over(_, dom) => dom_there(dom.get()),
        Gen::From(_, _) => false,
        Gen::If(_) => true,
    }
}

/// Whether the bounds of a domain have.
#[cycle(there)]
fn dom_there(dom: &NodeDom) -> bool
    ensures { result ≡ dom_by_form (pure_dom dom.now) }
{
    match dom {
        NodeDom::Bool | NodeDom::Name(_) => true,
        NodeDom::Int(_, bounds) => are_there(bounds.as_slice()),
        NodeDom::Tuple(doms) | NodeDom::Record(_, doms) => doms_there(doms.as_slice()),
        _ => false,
    }
}

/// Whether the bounds of all domains have.
#[cycle(there)]
fn doms_there(doms: &[NodeDom]) -> bool
    ensures { result ≡ doms_by_form (pure_doms doms.now) }
{
    for dom in doms {
        if !dom_there(dom) {
            return false;
        }
    }
    true
}
