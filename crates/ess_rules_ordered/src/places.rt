//! The item at a number over one domain: by the number of its value among the members.
ghost use Rattle.std.specs.Prelude.{◌≡◌, IfOk};
ghost use Rattle.ess_semantics.specs.Trees.{name_ex};
ghost use Rattle.ess_core_nodes.specs.NodeViews.{pure_node, pure_dom};
ghost use Rattle.ess_kind_rules_laws.specs.TermLookups.{count_below as below_counted};
ghost use Rattle.ess_rules_forms.specs.PureAlternatives.{pure_alternative};
ghost use Rattle.ess_ordered_laws.specs.NumberedItems.{is_from_one as from_one, is_one as the_one, place_in as placed_in, numbered_item as item_numbered};
ghost use Rattle.ess_refine_laws.specs.ItemsOnce.{is_atom_dom as is_atom};

use ess_core::{Fun, Op2};
use ess_core_nodes::{Node, NodeDom};
use ess_guard_forms::one_range;
use ess_node_building::{binary, comprehension, name, number, word};
use ess_rows::{Boxed, NoMemory, Text};
use ess_rules_forms::Alternative;
use ess_rules_kinds::pieces::gens_where;
use std::alloc::Global;

/// The item at a number.
pub(crate) fn numbered_item(
    alloc: Global,
    counted: &Text,
    bound: &Text,
    dom: &NodeDom,
    item: &Node,
    at: &Node,
) -> Result<Alternative, NoMemory>
    ensures { IfOk result (λ a. pure_alternative a
        ≡ item_numbered counted.now bound.now (pure_dom dom.now) (pure_node item.now) (pure_node at.now)) }
{
    let place = place_in(alloc, counted, bound, dom)?;
    let test = binary(alloc, true, Op2::Eq, place, at.copy(alloc)?)?;
    let gens = gens_where(alloc, bound, dom.copy(alloc)?, test)?;
    let item = item.copy(alloc)?;
    Ok(Alternative { gens, item })
}

/// The number of a bound name among the members of its domain.
fn place_in(
    alloc: Global,
    counted: &Text,
    bound: &Text,
    dom: &NodeDom,
) -> Result<Boxed<Node>, NoMemory>
    ensures { IfOk result (λ n. pure_node n ≡ placed_in counted.now bound.now (pure_dom dom.now)) }
{
    if is_from_one(dom) {
        return name(alloc, bound);
    }
    let below = count_below(alloc, counted, dom, bound)?;
    binary(alloc, false, Op2::Plus, below, number(alloc, 1)?)
}

/// How many members of a domain are below the one of a bound name.
fn count_below(
    alloc: Global,
    counted: &Text,
    dom: &NodeDom,
    bound: &Text,
) -> Result<Boxed<Node>, NoMemory>
    ensures { IfOk result (λ n. pure_node n ≡ below_counted counted.now (pure_dom dom.now) (name_ex bound.now)) }
{
    let left = name(alloc, counted)?;
    let test = binary(alloc, true, Op2::Lt, left, name(alloc, bound)?)?;
    let gens = gens_where(alloc, counted, dom.copy(alloc)?, test)?;
    let each = comprehension(alloc, number(alloc, 1)?, gens)?;
    word(alloc, false, Fun::Sum, each)
}

/// Whether the domain is that of an atom.
pub(crate) fn is_atom_dom(dom: &NodeDom) -> bool
    ensures { result ≡ is_atom (pure_dom dom.now) }
{
    match dom {
        NodeDom::Bool => true,
        NodeDom::Int(_, _) => true,
        NodeDom::Name(_) => true,
        _ => false,
    }
}

/// Whether the domain is one range of numbers from 1.
#[tactic(auto, using(crate::proofs::NumberedForms::from_one_by_range))]
pub fn is_from_one(dom: &NodeDom) -> bool
    ensures { result ≡ from_one (pure_dom dom.now) }
{
    match one_range(dom) {
        Some((low, _)) => is_one(low),
        None => false,
    }
}

/// Whether the tree is the numeral 1.
#[tactic(auto, using(ess_core_nodes::proofs::NodeEquations::pure_seen_is))]
fn is_one(node: &Node) -> bool
    ensures { result ≡ the_one (pure_node node.now) }
{
    match node {
        Node::Number(number) => *number == 1,
        _ => false,
    }
}
