//! Names for the components of an argument of a function, or of a tuple of a relation.
ghost use Rattle.std.specs.Prelude.{◌≡◌, take};
ghost use Rattle.ess_core_nodes.specs.NodeViews.{pure_node, pure_dom, pure_doms};
ghost use Rattle.ess_kind_rules_laws.specs.ViewListings.{dom_seen, names_for, one_each};
ghost use Rattle.ess_kind_rules_laws.specs.TermLookups.{names_of_argument};

use ess_core_nodes::{Node, NodeDom};
use ess_rows::Text;

/// The names for the components of an argument of the applied function.
#[tactic(auto, using(ess_core_nodes::proofs::NodeEquations::pure_seen_is))]
pub fn names_of_argument<'a>(names: &'a [Text], node: &Node) -> &'a [Text]
    ensures { result.now ≡ names_of_argument names.now (pure_node node.now) }
{
    match node {
        Node::Op(_, _, operands) => match operands.as_slice().split_first() {
            None => &[],
            Some((function, _)) => names_seen(names, function),
        },
        _ => &[],
    }
}

/// The names for the components of an argument or tuple of a view.
#[tactic(auto, using(ess_core_nodes::proofs::NodeEquations::pure_seen_is))]
pub fn names_seen<'a>(names: &'a [Text], node: &Node) -> &'a [Text]
    ensures { result.now ≡ names_for names.now (dom_seen (pure_node node.now)) }
{
    match node {
        Node::Seen(seen) => names_for(names, seen.get().dom.get()),
        _ => &[],
    }
}

/// The same of a domain.
fn names_for<'a>(names: &'a [Text], dom: &NodeDom) -> &'a [Text]
    ensures { result.now ≡ names_for names.now (pure_dom dom.now) }
{
    match dom {
        NodeDom::Function(_, _, first, _) => match first.get() {
            NodeDom::Tuple(doms) => one_each(names, doms.as_slice()),
            _ => &[],
        },
        NodeDom::Relation(_, _, doms) => one_each(names, doms.as_slice()),
        _ => &[],
    }
}

/// As many of the names as there are domains.
#[tactic(auto, using(crate::proofs::NameRuns::first_names))]
fn one_each<'a>(names: &'a [Text], doms: &[NodeDom]) -> &'a [Text]
    ensures { result.now ≡ one_each names.now (pure_doms doms.now) }
{
    front(names, doms.len())
}

/// The first so many names.
#[tactic(auto, using(std::proofs::lemmas::List::take_all))]
fn front(names: &[Text], count: usize) -> &[Text]
    ensures { result.now ≡ take count names.now }
{
    if count <= names.len() {
        &names[..count]
    } else {
        names
    }
}
