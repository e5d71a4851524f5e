//! Whether a name stands in an expression.
ghost use Rattle.std.specs.Prelude.{◌≡◌, [], ◌∷◌, map, not};
ghost use Rattle.ess_semantics.specs.Occurrences.{free_of};
ghost use Rattle.ess_semantics.specs.Trees.{no_exs, more_exs};
ghost use Rattle.ess_core_nodes.specs.NodeViews.{pure_node, pure_nodes, pure_gen, pure_gens, pure_dom, pure_doms, pure_seen};
ghost use Rattle.ess_rules_numbered.specs.NamedParts.{names as has_name, any_names as any_has_name, gens_name as gens_have, dom_names as dom_has, doms_name as doms_have, item_names as item_has, any_item_names as items_have};

use ess_core_nodes::{Gen, Node, NodeDom, Seen};
use ess_rows::Text;
use ess_rules_ordered::told::same_name;

/// Whether the name stands in the expression, also in a domain or a generator of it.
#[tactic(auto, using(crate::proofs::NamedParts::names_where_not_free))]
pub(crate) fn mentions(name: &Text, node: &Node) -> bool
    ensures { result ≡ not (free_of (name.now ∷ []) (more_exs (pure_node node.now) no_exs)) }
{
    names(name, node)
}

/// The same, part by part.
#[cycle(names)]
#[tactic(auto, using(ess_core_nodes::proofs::NodeEquations::pure_seen_is))]
fn names(name: &Text, node: &Node) -> bool
    ensures { result ≡ has_name name.now (pure_node node.now) }
{
    match node {
        Node::Number(_) | Node::Truth(_) => false,
        Node::Name(other) => same_name(name, other),
        Node::Op(_, _, operands) => any_names(name, operands.as_slice()),
        Node::MatrixOn(items, axis) => {
            any_names(name, items.as_slice()) || dom_names(name, axis.get())
        }
        Node::Comp(body, gens) => names(name, body.get()) || gens_name(name, gens.as_slice()),
        Node::Cell(_, _, operands) => any_names(name, operands.as_slice()),
        Node::Seen(seen) => seen_names(name, seen.get()),
    }
}

/// Whether it stands in a view.
#[cycle(names)]
fn seen_names(name: &Text, seen: &Seen) -> bool
    ensures { result ≡ has_name name.now (pure_seen seen.now) }
{
    dom_names(name, seen.dom.get()) || any_names(name, seen.at.as_slice())
}

/// Whether it stands in one of the expressions.
#[cycle(names)]
fn any_names(name: &Text, nodes: &[Node]) -> bool
    ensures { result ≡ any_has_name name.now (pure_nodes nodes.now) }
{
    for node in nodes {
        if names(name, node) {
            return true;
        }
    }
    false
}

/// Whether it stands in one of the generators.
#[cycle(names)]
#[tactic(auto, using(crate::proofs::NamedParts::items_name))]
fn gens_name(name: &Text, gens: &[Gen]) -> bool
    ensures { result ≡ gens_have name.now (pure_gens gens.now) }
{
    any_gen_names(name, gens)
}

/// The same, one by one.
#[cycle(names)]
fn any_gen_names(name: &Text, gens: &[Gen]) -> bool
    ensures { result ≡ items_have name.now (map pure_gen gens.now) }
{
    for item in gens {
        if gen_names(name, item) {
            return true;
        }
    }
    false
}

/// Whether it stands in a generator: the name that one binds is no expression.
#[cycle(names)]
#[tactic(auto, using(ess_core_nodes::proofs::NodeEquations::pure_gen_over, ess_core_nodes::proofs::NodeEquations::pure_gen_from, ess_core_nodes::proofs::NodeEquations::pure_gen_if))]
fn gen_names(name: &Text, item: &Gen) -> bool
    ensures { result ≡ item_has name.now (pure_gen item.now) }
{
    match item {
        Gen::Over(_, dom) => dom_names(name, dom.get()),
        Gen::From(_, source) => names(name, source.get()),
        Gen::If(condition) => names(name, condition.get()),
    }
}

/// Whether it stands in a domain.
#[cycle(names)]
fn dom_names(name: &Text, dom: &NodeDom) -> bool
    ensures { result ≡ dom_has name.now (pure_dom dom.now) }
{
    match dom {
        NodeDom::Bool | NodeDom::Name(_) => false,
        NodeDom::Int(_, bounds) => any_names(name, bounds.as_slice()),
        NodeDom::Tuple(doms) | NodeDom::Record(_, doms) => doms_name(name, doms.as_slice()),
        NodeDom::Matrix(axes, item) => {
            doms_name(name, axes.as_slice()) || dom_names(name, item.get())
        }
        NodeDom::Set(_, numbers, member) => {
            any_names(name, numbers.as_slice()) || dom_names(name, member.get())
        }
        NodeDom::MSet(_, numbers, member) => {
            any_names(name, numbers.as_slice()) || dom_names(name, member.get())
        }
        NodeDom::Partition(_, numbers, member) => {
            any_names(name, numbers.as_slice()) || dom_names(name, member.get())
        }
        NodeDom::Function(_, numbers, from, to) => {
            any_names(name, numbers.as_slice())
                || dom_names(name, from.get())
                || dom_names(name, to.get())
        }
        NodeDom::Relation(_, numbers, doms) => {
            any_names(name, numbers.as_slice()) || doms_name(name, doms.as_slice())
        }
    }
}

/// Whether it stands in one of the domains.
#[cycle(names)]
fn doms_name(name: &Text, doms: &[NodeDom]) -> bool
    ensures { result ≡ doms_have name.now (pure_doms doms.now) }
{
    for dom in doms {
        if dom_names(name, dom) {
            return true;
        }
    }
    false
}
