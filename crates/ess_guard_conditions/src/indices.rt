//! The conditions of indices, step by step of a path.
ghost use Rattle.std.specs.Prelude.{◌≡◌, [], true, IfOk, map, option_map};
ghost use Rattle.ess_semantics.specs.Trees.{by_value, more_exs, no_exs, ex2};
ghost use Rattle.ess_core_nodes.specs.NodeViews.{pure_node, pure_nodes, pure_dom, pure_step};
ghost use Rattle.ess_guard_laws.specs.IndexDomains.{index_dom as the_index_dom};
ghost use Rattle.ess_guard_laws.specs.Conditions.{members_of as all_members, in_dom as is_in, at_step as at_one_step};
ghost use Rattle.ess_guard_laws.specs.Conditions.{index_conditions as index_asks, path_conditions as path_asks, as_number as as_a_number};
ghost use Rattle.ess_guard_forms.specs.KnownNames.{pure_known};

use crate::conditions::as_number;
use crate::joining::one_gen;
use ess_core::{Fun, Op2};
use ess_core_nodes::{Node, NodeDom, Op, Step};
use ess_guard_forms::{KnownName, index_dom, is_sure, one_range};
use ess_node_building::{binary, comprehension, joined, name, only, over, word};
use ess_rows::{Boxed, NoMemory, Row, Text};
use std::alloc::Global;

/// The set of a domain's members: `toSet([x | x : D])`.
fn members_of(alloc: Global, x: &Text, dom: &NodeDom) -> Result<Boxed<Node>, NoMemory>
    ensures { IfOk result (λ n. pure_node n ≡ all_members x.now (pure_dom dom.now)) }
{
    let dom = dom.copy(alloc)?;
    let item = over(alloc, x, dom)?;
    let member = name(alloc, x)?;
    let gens = one_gen(alloc, item)?;
    let members = comprehension(alloc, member, gens)?;
    word(alloc, false, Fun::ToSet, members)
}

/// `a <= i /\ i <= b`
fn between(alloc: Global, index: &Node, low: &Node, high: &Node) -> Result<Boxed<Node>, NoMemory>
    ensures { IfOk result (λ n. pure_node n
        ≡ ex2 true Op2.And (ex2 true Op2.Le (as_a_number [] (pure_node low.now)) (pure_node index.now))
        (ex2 true Op2.Le (pure_node index.now) (as_a_number [] (pure_node high.now)))) }
{
    let low = as_number(alloc, &[], low)?;
    let first = index.copy(alloc)?;
    let at_least = binary(alloc, true, Op2::Le, low, first)?;
    let high = as_number(alloc, &[], high)?;
    let second = index.copy(alloc)?;
    let at_most = binary(alloc, true, Op2::Le, second, high)?;
    binary(alloc, true, Op2::And, at_least, at_most)
}

/// That an index is in a domain: within the bounds for one range, else in the set of the members.
#[tactic(auto, using(crate::proofs::IndexRanges::in_range))]
fn in_dom(alloc: Global, x: &Text, index: &Node, dom: &NodeDom) -> Result<Boxed<Node>, NoMemory>
    ensures { IfOk result (λ n. pure_node n ≡ is_in x.now (pure_node index.now) (pure_dom dom.now)) }
{
    match one_range(dom) {
        Some((low, high)) => between(alloc, index, low, high),
        None => {
            let members = members_of(alloc, x, dom)?;
            let index = index.copy(alloc)?;
            binary(alloc, true, Op2::Member, index, members)
        }
    }
}

/// A matrix at a step by a value.
fn at_value(alloc: Global, matrix: Boxed<Node>, index: &Node) -> Result<Boxed<Node>, NoMemory>
    ensures { IfOk result (λ n. pure_node n ≡ at_one_step by_value (pure_node matrix) (more_exs (pure_node index.now) no_exs)) }
{
    let index = index.copy(alloc)?;
    let mut operands = Row::new(alloc);
    operands.push(matrix.into_inner())?;
    operands.push(index.into_inner())?;
    let mut path = Row::new(alloc);
    path.push(Step::Value)?;
    Boxed::new(alloc, Node::Op(false, Op::Index(path), operands))
}

/// A tree at one step that is not by a value.
fn at_part(alloc: Global, step: Step, whole: Boxed<Node>) -> Result<Boxed<Node>, NoMemory>
    ensures { IfOk result (λ n. pure_node n ≡ at_one_step (pure_step step) (pure_node whole) no_exs) }
{
    let mut path = Row::new(alloc);
    path.push(step)?;
    let mut operands = Row::new(alloc);
    operands.push(whole.into_inner())?;
    Boxed::new(alloc, Node::Op(false, Op::Index(path), operands))
}

/// That it is an index of a matrix, where its index domain may be known. Where it isn't, that the matrix has an item there.
fn index_conditions(
    alloc: Global,
    known: &[KnownName],
    x: &Text,
    dom: Option<Boxed<NodeDom>>,
    matrix: &Node,
    index: &Node,
) -> Result<Row<Node>, NoMemory>
    ensures { IfOk result (λ ns. map pure_node ns
        ≡ index_asks (pure_known known.now) x.now (option_map pure_dom dom) (pure_node matrix.now) (pure_node index.now)) }
{
    match dom {
        Some(dom) => {
            if is_sure(known, index, dom.get()) {
                Ok(Row::new(alloc))
            } else {
                only(alloc, in_dom(alloc, x, index, dom.get())?)
            }
        }
        None => {
            let first = at_value(alloc, matrix.copy(alloc)?, index)?;
            let second = at_value(alloc, matrix.copy(alloc)?, index)?;
            only(alloc, binary(alloc, true, Op2::Eq, first, second)?)
        }
    }
}

/// That it is an index of a matrix.
fn one_index(
    alloc: Global,
    known: &[KnownName],
    x: &Text,
    matrix: &Node,
    index: &Node,
) -> Result<Row<Node>, NoMemory>
    ensures { IfOk result (λ ns. map pure_node ns
        ≡ index_asks (pure_known known.now) x.now (the_index_dom (pure_node matrix.now)) (pure_node matrix.now) (pure_node index.now)) }
{
    let dom = index_dom(alloc, matrix)?;
    index_conditions(alloc, known, x, dom, matrix, index)
}

/// The same of each step by a value, one behind the other.
pub(crate) fn path_conditions(
    alloc: Global,
    known: &[KnownName],
    x: &Text,
    whole: Boxed<Node>,
    path: &[Step],
    at: &[Node],
) -> Result<Row<Node>, NoMemory>
    ensures { IfOk result (λ ns. map pure_node ns
        ≡ path_asks (pure_known known.now) x.now (pure_node whole) (map pure_step path.now) (pure_nodes at.now)) }
{
    match path.split_first() {
        None => Ok(Row::new(alloc)),
        Some((Step::Value, rest)) => match at.split_first() {
            None => Ok(Row::new(alloc)),
            Some((index, more)) => {
                let first = one_index(alloc, known, x, whole.get(), index)?;
                let whole = at_value(alloc, whole, index)?;
                joined(first, path_conditions(alloc, known, x, whole, rest, more)?)
            }
        },
        Some((Step::Component(number), rest)) => {
            let whole = at_part(alloc, Step::Component(*number), whole)?;
            path_conditions(alloc, known, x, whole, rest, at)
        }
        Some((Step::Field(name), rest)) => {
            let name = name.copy(alloc)?;
            let whole = at_part(alloc, Step::Field(name), whole)?;
            path_conditions(alloc, known, x, whole, rest, at)
        }
    }
}
