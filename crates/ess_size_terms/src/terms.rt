//! Small terms: one more, at least 0, and the number of members of a domain counted one by one.
ghost use Rattle.std.specs.Prelude.{◌≡◌, IfOk, map};
ghost use Rattle.ess_semantics.specs.Trees.{int_dom, name_dom};
ghost use Rattle.ess_core_nodes.specs.NodeViews.{pure_node, pure_nodes, pure_dom, pure_ends};
ghost use Rattle.ess_repr_declare_laws.specs.SizeTerms.{next_ex, at_least_0_ex, listed_ex, power_ex, two_ex};

use ess_core::{Fun, Op2};
use ess_core_nodes::{Ends, Node, NodeDom, Op, copy_nodes};
use ess_node_building::{binary, comprehension, literal, number, over, two, word};
use ess_rows::{Boxed, NoMemory, Row, Text};
use std::alloc::Global;

/// One more than the term. `NoMemory` where there is no room for it.
pub fn next(alloc: Global, term: Boxed<Node>) -> Result<Boxed<Node>, NoMemory>
    ensures { IfOk result (λ n. pure_node n ≡ next_ex (pure_node term)) }
{
    let one = number(alloc, 1)?;
    binary(alloc, false, Op2::Plus, term, one)
}

/// The term, or 0 where that is more.
pub(crate) fn at_least_0(alloc: Global, term: Boxed<Node>) -> Result<Boxed<Node>, NoMemory>
    ensures { IfOk result (λ n. pure_node n ≡ at_least_0_ex (pure_node term)) }
{
    let zero = number(alloc, 0)?;
    let items = two(alloc, zero, term)?;
    let list = literal(alloc, Op::Matrix, items)?;
    word(alloc, false, Fun::Max, list)
}

/// How many members a domain has, counted one by one: `sum([1 | x : D])`. `NoMemory` where there is no room for it.
pub fn listed(alloc: Global, dom: &NodeDom) -> Result<Boxed<Node>, NoMemory>
    ensures { IfOk result (λ n. pure_node n ≡ listed_ex (pure_dom dom.now)) }
{
    let dom = dom.copy(alloc)?;
    listed_all(alloc, dom)
}

/// The same of a domain that is taken.
fn listed_all(alloc: Global, dom: Boxed<NodeDom>) -> Result<Boxed<Node>, NoMemory>
    ensures { IfOk result (λ n. pure_node n ≡ listed_ex (pure_dom dom)) }
{
    let name = Text::from_str(alloc, "#")?;
    let item = over(alloc, &name, dom)?;
    let gens = Row::from_array(alloc, [item])?;
    let one = number(alloc, 1)?;
    let list = comprehension(alloc, one, gens)?;
    word(alloc, false, Fun::Sum, list)
}

/// The same of a named type.
pub(crate) fn listed_name(alloc: Global, name: &Text) -> Result<Boxed<Node>, NoMemory>
    ensures { IfOk result (λ n. pure_node n ≡ listed_ex (name_dom name.now)) }
{
    let name = name.copy(alloc)?;
    let dom = Boxed::new(alloc, NodeDom::Name(name))?;
    listed_all(alloc, dom)
}

/// The same of an int domain of these ranges.
pub(crate) fn listed_int(
    alloc: Global,
    ends: &[Ends],
    bounds: &[Node],
) -> Result<Boxed<Node>, NoMemory>
    ensures { IfOk result (λ n. pure_node n ≡ listed_ex (int_dom (map pure_ends ends.now) (pure_nodes bounds.now))) }
{
    let bounds = copy_nodes(alloc, bounds)?;
    let ends = Row::from_slice(alloc, ends)?;
    let dom = Boxed::new(alloc, NodeDom::Int(ends, bounds))?;
    listed_all(alloc, dom)
}

/// One more than the first term to the power of the second.
pub(crate) fn next_power(
    alloc: Global,
    base: Boxed<Node>,
    exponent: Boxed<Node>,
) -> Result<Boxed<Node>, NoMemory>
    ensures { IfOk result (λ n. pure_node n ≡ power_ex (next_ex (pure_node base)) (pure_node exponent)) }
{
    let base = next(alloc, base)?;
    binary(alloc, false, Op2::Pow, base, exponent)
}

/// 2 to the power of the term.
pub(crate) fn power_of_two(alloc: Global, exponent: Boxed<Node>) -> Result<Boxed<Node>, NoMemory>
    ensures { IfOk result (λ n. pure_node n ≡ power_ex two_ex (pure_node exponent)) }
{
    let base = number(alloc, 2)?;
    binary(alloc, false, Op2::Pow, base, exponent)
}
