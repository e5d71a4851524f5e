//! The conditions of quotients, powers, least and greatest items, images and parties.
ghost use Rattle.std.specs.Prelude.{◌≡◌, true, IfOk, map};
ghost use Rattle.ess_semantics.specs.Trees.{truth_ex, comp_ex, ex2, fun1};
ghost use Rattle.ess_core.specs.TreeViews.{pure_repr};
ghost use Rattle.ess_core_nodes.specs.NodeViews.{pure_node, pure_gens, pure_dom};
ghost use Rattle.ess_guard_laws.specs.Conditions.{nil_ex, as_number as as_a_number, is_not_zero as is_other_than_zero};
ghost use Rattle.ess_guard_laws.specs.Conditions.{is_above_zero as is_more_than_zero, quotient_conditions as quotient_asks};
ghost use Rattle.ess_guard_laws.specs.Conditions.{power_conditions as power_asks, has_items as has_some_items, has_item as asks_item};
ghost use Rattle.ess_guard_laws.specs.Conditions.{some_item as asks_some_item, is_argument as is_an_argument};
ghost use Rattle.ess_guard_laws.specs.Conditions.{image_conditions as image_asks, party_conditions as party_asks};
ghost use Rattle.ess_guard_forms.specs.KnownNames.{pure_known};
ghost use Rattle.ess_guard_conditions.specs.ConditionForms.{is_by_argument, is_among_arguments};

use crate::joining::one_gen;
use ess_core::{Fun, Op2, Repr, ReprKind};
use ess_core_nodes::{Gen, Node, NodeDom, Op, copy_gens};
use ess_guard_forms::{KnownName, is_number, is_sure};
use ess_node_building::{binary, comprehension, from, number, only, truth, word};
use ess_rows::{Boxed, NoMemory, Row, Text};
use std::alloc::Global;

/// Zero.
fn nil(alloc: Global) -> Result<Boxed<Node>, NoMemory>
    ensures { IfOk result (λ n. pure_node n ≡ nil_ex) }
{
    number(alloc, 0)
}

/// The number that an operator reads: the term itself where its form tells that it is a number, else the sum of it and 0.
pub(crate) fn as_number(
    alloc: Global,
    known: &[KnownName],
    node: &Node,
) -> Result<Boxed<Node>, NoMemory>
    ensures { IfOk result (λ n. pure_node n ≡ as_a_number (pure_known known.now) (pure_node node.now)) }
{
    if is_number(known, node) {
        node.copy(alloc)
    } else {
        let copy = node.copy(alloc)?;
        let zero = nil(alloc)?;
        binary(alloc, false, Op2::Plus, copy, zero)
    }
}

/// Whether it is a number other than 0.
#[tactic(auto, using(crate::proofs::Numbers::other_than_zero, ess_core_nodes::proofs::NodeEquations::pure_seen_is))]
fn is_not_zero(node: &Node) -> bool
    ensures { result ≡ is_other_than_zero (pure_node node.now) }
{
    match node {
        Node::Number(number) => *number != 0,
        _ => false,
    }
}

/// Whether it is a number above 0.
#[tactic(auto, using(crate::proofs::Numbers::more_than_zero, ess_core_nodes::proofs::NodeEquations::pure_seen_is))]
fn is_above_zero(node: &Node) -> bool
    ensures { result ≡ is_more_than_zero (pure_node node.now) }
{
    match node {
        Node::Number(number) => *number > 0,
        _ => false,
    }
}

/// That a term compares so with 0.
fn beside_zero(
    alloc: Global,
    known: &[KnownName],
    op: Op2,
    node: &Node,
) -> Result<Boxed<Node>, NoMemory>
    ensures { IfOk result (λ n. pure_node n ≡ ex2 true op (as_a_number (pure_known known.now) (pure_node node.now)) nil_ex) }
{
    let number = as_number(alloc, known, node)?;
    let zero = nil(alloc)?;
    binary(alloc, true, op, number, zero)
}

/// `b != 0`
pub(crate) fn quotient_conditions(
    alloc: Global,
    known: &[KnownName],
    b: &Node,
) -> Result<Row<Node>, NoMemory>
    ensures { IfOk result (λ ns. map pure_node ns ≡ quotient_asks (pure_known known.now) (pure_node b.now)) }
{
    if is_not_zero(b) {
        Ok(Row::new(alloc))
    } else {
        only(alloc, beside_zero(alloc, known, Op2::Ne, b)?)
    }
}

/// `b >= 0` and `b != 0 \/ a != 0`; where a is a number other than 0 the first alone, where b is a number above 0 none.
#[tactic(auto, using(std::proofs::lemmas::List::map_push))]
pub(crate) fn power_conditions(
    alloc: Global,
    known: &[KnownName],
    a: &Node,
    b: &Node,
) -> Result<Row<Node>, NoMemory>
    ensures { IfOk result (λ ns. map pure_node ns ≡ power_asks (pure_known known.now) (pure_node a.now) (pure_node b.now)) }
{
    if is_above_zero(b) {
        return Ok(Row::new(alloc));
    }
    let at_least = beside_zero(alloc, known, Op2::Ge, b)?;
    let mut conditions = only(alloc, at_least)?;
    if !is_not_zero(a) {
        let first = beside_zero(alloc, known, Op2::Ne, b)?;
        let second = beside_zero(alloc, known, Op2::Ne, a)?;
        let either = binary(alloc, true, Op2::Or, first, second)?;
        conditions.push(either.into_inner())?;
    }
    Ok(conditions)
}

/// Whether it is a literal with an item.
#[tactic(auto, using(ess_core_nodes::proofs::NodeEquations::pure_seen_is))]
fn has_items(node: &Node) -> bool
    ensures { result ≡ has_some_items (pure_node node.now) }
{
    match node {
        Node::Op(true, _, _) => false,
        Node::Op(false, Op::Matrix | Op::Set | Op::MSet, items) => {
            match items.as_slice().split_first() {
                None => false,
                Some(_) => true,
            }
        }
        _ => false,
    }
}

/// `or([true | x <- s])`; for a comprehension its own generators.
fn has_item(alloc: Global, x: &Text, node: &Node) -> Result<Boxed<Node>, NoMemory>
    ensures { IfOk result (λ n. pure_node n ≡ asks_item x.now (pure_node node.now)) }
{
    let holds = truth(alloc, true)?;
    let gens = item_gens(alloc, x, node)?;
    let found = comprehension(alloc, holds, gens)?;
    word(alloc, true, Fun::Or, found)
}

/// The generators of the items of a container: a comprehension has its own.
#[tactic(auto, using(ess_core_nodes::proofs::NodeEquations::pure_seen_is))]
fn item_gens(alloc: Global, x: &Text, node: &Node) -> Result<Row<Gen>, NoMemory>
    ensures { IfOk result (λ gs. fun1 true Fun.Or (comp_ex (truth_ex true) (pure_gens gs)) ≡ asks_item x.now (pure_node node.now)) }
{
    match node {
        Node::Comp(_, gens) => copy_gens(alloc, gens.as_slice()),
        _ => {
            let copy = node.copy(alloc)?;
            let item = from(alloc, x, copy)?;
            one_gen(alloc, item)
        }
    }
}

/// That a container has an item: asked of least and greatest items.
pub(crate) fn some_item(alloc: Global, x: &Text, node: &Node) -> Result<Row<Node>, NoMemory>
    ensures { IfOk result (λ ns. map pure_node ns ≡ asks_some_item x.now (pure_node node.now)) }
{
    if has_items(node) {
        Ok(Row::new(alloc))
    } else {
        only(alloc, has_item(alloc, x, node)?)
    }
}

/// Whether it is a total function that is kept for each argument of its domain, and the argument is sure to be one.
#[tactic(auto, using(crate::proofs::FunctionViews::argument_of_view, ess_core_nodes::proofs::NodeEquations::pure_seen_is))]
fn is_argument(known: &[KnownName], function: &Node, argument: &Node) -> bool
    ensures { result ≡ is_an_argument (pure_known known.now) (pure_node function.now) (pure_node argument.now) }
{
    match function {
        Node::Seen(view) => {
            let view = view.get();
            is_kept_by_argument(&view.repr) && is_among(known, argument, view.dom.get())
        }
        _ => false,
    }
}

/// Whether the domain is one of functions, and the term is sure to be one of their arguments.
fn is_among(known: &[KnownName], argument: &Node, dom: &NodeDom) -> bool
    ensures { result ≡ is_among_arguments (pure_known known.now) (pure_node argument.now) (pure_dom dom.now) }
{
    match dom {
        NodeDom::Function(_, _, from, _) => is_sure(known, argument, from.get()),
        _ => false,
    }
}

/// Whether it is the representation of a total function that is kept for each argument of its domain.
#[tactic(auto, using(ess_core::proofs::RepresentationEquations::pure_repr_is))]
fn is_kept_by_argument(repr: &Repr) -> bool
    ensures { result ≡ is_by_argument (pure_repr repr.now) }
{
    match repr.kind {
        ReprKind::Function1D => match repr.children.as_slice().split_first() {
            None => false,
            Some(_) => true,
        },
        _ => false,
    }
}

/// `a in defined(f)`
pub(crate) fn image_conditions(
    alloc: Global,
    known: &[KnownName],
    function: &Node,
    argument: &Node,
) -> Result<Row<Node>, NoMemory>
    ensures { IfOk result (λ ns. map pure_node ns
        ≡ image_asks (pure_known known.now) (pure_node function.now) (pure_node argument.now)) }
{
    if is_argument(known, function, argument) {
        return Ok(Row::new(alloc));
    }
    let function = function.copy(alloc)?;
    let defined = word(alloc, false, Fun::Defined, function)?;
    let argument = argument.copy(alloc)?;
    only(alloc, binary(alloc, true, Op2::Member, argument, defined)?)
}

/// `a in participants(p)`
pub(crate) fn party_conditions(
    alloc: Global,
    member: &Node,
    partition: &Node,
) -> Result<Row<Node>, NoMemory>
    ensures { IfOk result (λ ns. map pure_node ns ≡ party_asks (pure_node member.now) (pure_node partition.now)) }
{
    let partition = partition.copy(alloc)?;
    let participants = word(alloc, false, Fun::Participants, partition)?;
    let member = member.copy(alloc)?;
    only(
        alloc,
        binary(alloc, true, Op2::Member, member, participants)?,
    )
}
