//! What tables stand for as a term, the items of such a term, and components of tuples.
ghost use Rattle.std.specs.Prelude.{◌≡◌, IfOk};
ghost use Rattle.ess_semantics.specs.Trees.{name_ex, seen_ex, no_gens};
ghost use Rattle.ess_semantics.specs.Meaning.{is_bool_dom};
ghost use Rattle.ess_core.specs.TreeViews.{pure_repr};
ghost use Rattle.ess_core_nodes.specs.NodeViews.{pure_node, pure_nodes, pure_dom, pure_gens};
ghost use Rattle.ess_repr_laws.specs.ViewParts.{component_ex, each_item, every_item_ex};
ghost use Rattle.conjure_model_laws.specs.ToldApart.{reserved};

use ess_core::Repr;
use ess_core_nodes::{Gen, Node, NodeDom, Seen, copy_nodes};
use ess_node_building::{component as component_of, from};
use ess_rows::{Boxed, NoMemory, Row, Text};
use ess_structure_terms::{all_over, bound_name, reserved_name};
use std::alloc::Global;

/// What the tables of these names stand for at an index list. `NoMemory` where there is no room for it.
#[tactic(auto, using(ess_core_nodes::proofs::NodeEquations::pure_seen_is))]
pub fn view(
    alloc: Global,
    repr: Repr,
    dom: Boxed<NodeDom>,
    cells: Row<Text>,
    at: &[Node],
) -> Result<Boxed<Node>, NoMemory>
    ensures { IfOk result (λ n. pure_node n ≡ seen_ex (pure_repr repr) (pure_dom dom) cells (pure_nodes at.now)) }
{
    let at = copy_nodes(alloc, at)?;
    let seen = Boxed::new(
        alloc,
        Seen {
            repr,
            dom,
            cells,
            at,
        },
    )?;
    Boxed::new(alloc, Node::Seen(seen))
}

/// Whether the domain is that of the truth values.
pub fn is_bool(dom: &NodeDom) -> bool
    ensures { result ≡ is_bool_dom (pure_dom dom.now) }
{
    match dom {
        NodeDom::Bool => true,
        _ => false,
    }
}

/// A component of a tuple, of this domain.
fn component(
    alloc: Global,
    dom: &NodeDom,
    at: u64,
    tuple: Boxed<Node>,
) -> Result<Boxed<Node>, NoMemory>
    ensures { IfOk result (λ n. pure_node n ≡ component_ex (pure_dom dom.now) at (pure_node tuple)) }
{
    component_of(alloc, is_bool(dom), at, tuple)
}

/// A component of the tuple that the name of this number has.
pub(crate) fn component_of_name(
    alloc: Global,
    dom: &NodeDom,
    at: u64,
    level: u64,
) -> Result<Boxed<Node>, NoMemory>
    ensures { IfOk result (λ n. pure_node n ≡ component_ex (pure_dom dom.now) at (name_ex (reserved level))) }
{
    let tuple = bound_name(alloc, level)?;
    component(alloc, dom, at, tuple)
}

/// A generator of the name of this number over the items of a copy of the term.
pub(crate) fn items(alloc: Global, level: u64, container: &Node) -> Result<Row<Gen>, NoMemory>
    ensures { IfOk result (λ gs. pure_gens gs ≡ each_item reserved level (pure_node container.now) no_gens) }
{
    let name = reserved_name(alloc, level)?;
    let container = container.copy(alloc)?;
    let item = from(alloc, &name, container)?;
    Row::from_array(alloc, [item])
}

/// The test holds of each item.
pub(crate) fn every_item(
    alloc: Global,
    level: u64,
    container: &Node,
    test: Boxed<Node>,
) -> Result<Boxed<Node>, NoMemory>
    ensures { IfOk result (λ n. pure_node n ≡ every_item_ex reserved level (pure_node container.now) (pure_node test)) }
{
    let gens = items(alloc, level, container)?;
    all_over(alloc, test, gens)
}
