//! The conditions of literals: of functions, partitions, and matrices over index domains.
ghost use Rattle.std.specs.Prelude.{◌≡◌, true, false, pos, IfOk, map, option_map};
ghost use Rattle.ess_semantics.specs.Trees.{number_ex, name_ex, node_ex, comp_ex, matrix_literal, name_pat, over as over_gen};
ghost use Rattle.ess_semantics.specs.Trees.{from as from_gen, no_gens, ex2, fun1};
ghost use Rattle.ess_semantics.specs.Constants.{operand_count};
ghost use Rattle.ess_core_nodes.specs.NodeViews.{pure_node, pure_nodes, pure_dom, pure_gens};
ghost use Rattle.ess_guard_laws.specs.Conditions.{agree as they_agree, agree_all as all_agree, function_conditions as function_asks};
ghost use Rattle.ess_guard_laws.specs.Conditions.{have_other_arguments as other_arguments, unless as asked_unless};
ghost use Rattle.ess_guard_laws.specs.Conditions.{have_members as asks_members, are_disjoint as asks_disjoint};
ghost use Rattle.ess_guard_laws.specs.Conditions.{is_single_set as is_one_set, partition_conditions as partition_asks};
ghost use Rattle.ess_guard_laws.specs.Conditions.{matrix_conditions as matrix_asks, has_size as has_this_size};
ghost use Rattle.ess_guard_conditions.specs.ConditionForms.{pair_of as parts_of_pair};

use crate::conditions::some_item;
use crate::joining::one_gen;
use ess_core::{Fun, Op2};
use ess_core_nodes::{Gen, Node, NodeDom, Op, copy_nodes};
use ess_guard_forms::{counted, has_size, pair_in};
use ess_node_building::{
    binary, comprehension, from, joined, literal, name, number, only, over, truth, word,
};
use ess_rows::{Boxed, NoMemory, Row, Text};
use ess_rules_forms::are_apart;
use std::alloc::Global;

/// The two parts of a pair.
#[tactic(auto, using(ess_core_nodes::proofs::NodeEquations::pure_seen_is))]
fn pair_of(node: &Node) -> Option<(&Node, &Node)>
    ensures { option_map (λ p. (pure_node p.0.now, pure_node p.1.now)) result ≡ parts_of_pair (pure_node node.now) }
{
    match node {
        Node::Op(true, _, _) => None,
        Node::Op(false, Op::Tuple, parts) => pair_in(parts.as_slice()),
        _ => None,
    }
}

/// `a = c -> b = d` of the pairs (a, b) and (c, d).
#[tactic(auto, using(crate::proofs::Pairs::agreeing))]
fn agree(alloc: Global, p: &Node, q: &Node) -> Result<Boxed<Node>, NoMemory>
    ensures { IfOk result (λ n. pure_node n ≡ they_agree (pure_node p.now) (pure_node q.now)) }
{
    match (pair_of(p), pair_of(q)) {
        (Some((a, b)), Some((c, d))) => {
            let arguments = equal(alloc, a, c)?;
            let values = equal(alloc, b, d)?;
            binary(alloc, true, Op2::Implies, arguments, values)
        }
        (_, _) => truth(alloc, true),
    }
}

/// That two terms are equal.
fn equal(alloc: Global, a: &Node, b: &Node) -> Result<Boxed<Node>, NoMemory>
    ensures { IfOk result (λ n. pure_node n ≡ ex2 true Op2.Eq (pure_node a.now) (pure_node b.now)) }
{
    let a = a.copy(alloc)?;
    let b = b.copy(alloc)?;
    binary(alloc, true, Op2::Eq, a, b)
}

/// Whether two pairs have different arguments, by their form.
#[tactic(auto, using(crate::proofs::Pairs::other_arguments_by_parts))]
fn have_other_arguments(p: &Node, q: &Node) -> bool
    ensures { result ≡ other_arguments (pure_node p.now) (pure_node q.now) }
{
    match (pair_of(p), pair_of(q)) {
        (Some((a, _)), Some((c, _))) => are_apart(a, c),
        (_, _) => false,
    }
}

/// That two pairs agree. Nothing is asked where the argument of one is another by its form.
fn agreement(alloc: Global, p: &Node, q: &Node) -> Result<Row<Node>, NoMemory>
    ensures { IfOk result (λ ns. map pure_node ns
        ≡ asked_unless (other_arguments (pure_node p.now) (pure_node q.now)) (they_agree (pure_node p.now) (pure_node q.now))) }
{
    if have_other_arguments(p, q) {
        return Ok(Row::new(alloc));
    }
    only(alloc, agree(alloc, p, q)?)
}

/// That a pair agrees with each of several others.
fn agree_all(alloc: Global, pair: &Node, others: &[Node]) -> Result<Row<Node>, NoMemory>
    ensures { IfOk result (λ ns. map pure_node ns ≡ all_agree (pure_node pair.now) (pure_nodes others.now)) }
{
    let mut conditions = Row::new(alloc);
    for other in others {
        let mut condition = agreement(alloc, pair, other)?;
        conditions.append(&mut condition)?;
    }
    Ok(conditions)
}

/// That pairs have one value for each argument: each agrees with those behind it that may have its argument.
pub(crate) fn function_conditions(alloc: Global, pairs: &[Node]) -> Result<Row<Node>, NoMemory>
    ensures { IfOk result (λ ns. map pure_node ns ≡ function_asks (pure_nodes pairs.now)) }
{
    match pairs.split_first() {
        None => Ok(Row::new(alloc)),
        Some((pair, rest)) => {
            let first = agree_all(alloc, pair, rest)?;
            joined(first, function_conditions(alloc, rest)?)
        }
    }
}

/// That each part of a partition has a member.
fn have_members(alloc: Global, x: &Text, parts: &[Node]) -> Result<Row<Node>, NoMemory>
    ensures { IfOk result (λ ns. map pure_node ns ≡ asks_members x.now (pure_nodes parts.now)) }
{
    let mut conditions = Row::new(alloc);
    for part in parts {
        let mut condition = some_item(alloc, x, part)?;
        conditions.append(&mut condition)?;
    }
    Ok(conditions)
}

/// That no two parts share a member: `allDiff([x | y <- [s1, .., sk], x <- y])`.
fn are_disjoint(alloc: Global, x: &Text, y: &Text, parts: &[Node]) -> Result<Boxed<Node>, NoMemory>
    ensures { IfOk result (λ n. pure_node n ≡ asks_disjoint x.now y.now (pure_nodes parts.now)) }
{
    let gens = member_gens(alloc, x, y, parts)?;
    let member = name(alloc, x)?;
    let members = comprehension(alloc, member, gens)?;
    word(alloc, true, Fun::AllDiff, members)
}

/// The generators `y <- [s1, .., sk], x <- y`.
fn member_gens(alloc: Global, x: &Text, y: &Text, parts: &[Node]) -> Result<Row<Gen>, NoMemory>
    ensures { IfOk result (λ gs. pure_gens gs
        ≡ from_gen (name_pat y.now) (node_ex false matrix_literal (pure_nodes parts.now))
        (from_gen (name_pat x.now) (name_ex y.now) no_gens)) }
{
    let parts = copy_nodes(alloc, parts)?;
    let list = literal(alloc, Op::Matrix, parts)?;
    let part = name(alloc, y)?;
    let outer = from(alloc, y, list)?;
    let inner = from(alloc, x, part)?;
    let mut gens = Row::new(alloc);
    gens.push(outer)?;
    gens.push(inner)?;
    Ok(gens)
}

/// Whether they are no sets, or a single set literal.
#[tactic(auto, using(ess_core_nodes::proofs::NodeEquations::pure_seen_is))]
fn is_single_set(parts: &[Node]) -> bool
    ensures { result ≡ is_one_set (pure_nodes parts.now) }
{
    match parts.split_first() {
        None => true,
        Some((Node::Op(true, _, _), _)) => false,
        Some((Node::Op(false, Op::Set, _), rest)) => match rest.split_first() {
            None => true,
            Some(_) => false,
        },
        _ => false,
    }
}

/// That a partition's parts have members and share none.
pub(crate) fn partition_conditions(
    alloc: Global,
    x: &Text,
    y: &Text,
    parts: &[Node],
) -> Result<Row<Node>, NoMemory>
    ensures { IfOk result (λ ns. map pure_node ns ≡ partition_asks x.now y.now (pure_nodes parts.now)) }
{
    let members = have_members(alloc, x, parts)?;
    let apart = if is_single_set(parts) {
        Row::new(alloc)
    } else {
        only(alloc, are_disjoint(alloc, x, y, parts)?)?
    };
    joined(members, apart)
}

/// Whether a domain is a range of as many numbers as there are items, by its form.
#[tactic(auto, using(ess_guard_forms::proofs::OperandCounts::sized_for))]
fn is_full(items: &[Node], axis: &NodeDom) -> bool
    ensures { result ≡ has_this_size (pure_dom axis.now) (operand_count (pure_nodes items.now)) }
{
    let count = items.len();
    has_size(axis, count)
}

/// `sum([1 | x : D]) = n`: a matrix literal has an item for each index.
pub fn matrix_conditions(
    alloc: Global,
    x: &Text,
    items: &[Node],
    axis: &NodeDom,
) -> Result<Row<Node>, NoMemory>
    ensures { IfOk result (λ ns. map pure_node ns ≡ matrix_asks x.now (pure_nodes items.now) (pure_dom axis.now)) }
{
    if is_full(items, axis) {
        return Ok(Row::new(alloc));
    }
    let indices = indices_counted(alloc, x, axis)?;
    let count = counted(alloc, items)?;
    only(alloc, binary(alloc, true, Op2::Eq, indices, count)?)
}

/// How many members a domain has: `sum([1 | x : D])`.
fn indices_counted(alloc: Global, x: &Text, axis: &NodeDom) -> Result<Boxed<Node>, NoMemory>
    ensures { IfOk result (λ n. pure_node n
        ≡ fun1 false Fun.Sum (comp_ex (number_ex (pos 1)) (over_gen (name_pat x.now) (pure_dom axis.now) no_gens))) }
{
    let axis = axis.copy(alloc)?;
    let item = over(alloc, x, axis)?;
    let one = number(alloc, 1)?;
    let gens = one_gen(alloc, item)?;
    let ones = comprehension(alloc, one, gens)?;
    word(alloc, false, Fun::Sum, ones)
}
