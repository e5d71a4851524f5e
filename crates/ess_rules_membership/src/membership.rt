//! Rules of `in`: what is made of two containers, literals, and any container.
ghost use Rattle.std.specs.Prelude.{◌≡◌, IfOk, true, false, option_map, map};
ghost use Rattle.ess_semantics.specs.Trees.{ex2, fun1, node_ex, comp_ex, name_ex, name_pat, matrix_literal, no_gens, from};
ghost use Rattle.ess_core_nodes.specs.NodeViews.{pure_node, pure_nodes};
ghost use Rattle.ess_rules_laws.specs.MembershipRules.{member_term, member_combined, member_listed, equations};

use ess_core::{Fun, Op2};
use ess_core_nodes::{Node, Op};
use ess_node_building::{binary, literal, name, word};
use ess_rows::{Boxed, NoMemory, Row, Text};
use ess_rules_forms::{both, compared, negated, plain_pair, some, truth_pair};
use std::alloc::Global;

/// `a in s` becomes `or([y = a | y <- s])`, with the name for y. Nothing for another root; `NoMemory` where there is no room for it.
#[tactic(auto, using(crate::proofs::MemberLemmas::term_of_pair))]
pub fn member_term(alloc: Global, one: &Text, node: &Node) -> Result<Option<Boxed<Node>>, NoMemory>
    ensures { IfOk result (λ o. option_map pure_node o ≡ member_term one.now (pure_node node.now)) }
{
    match truth_pair(node) {
        Some((Op2::Member, (a, s))) => Ok(Some(equals_some(alloc, one, a, s)?)),
        _ => Ok(None),
    }
}

/// That some member of a container, called by the name, equals a: `or([y = a | y <- s])`.
pub(crate) fn equals_some(
    alloc: Global,
    one: &Text,
    a: &Node,
    s: &Node,
) -> Result<Boxed<Node>, NoMemory>
    ensures { IfOk result (λ n. pure_node n ≡ fun1 true Fun.Or
        (comp_ex (ex2 true Op2.Eq (name_ex one.now) (pure_node a.now)) (from (name_pat one.now) (pure_node s.now) no_gens))) }
{
    let member = name(alloc, one)?;
    let equal = binary(alloc, true, Op2::Eq, member, a.copy(alloc)?)?;
    let source = s.copy(alloc)?;
    some(alloc, one, source, equal)
}

/// `x in (a union b)` becomes `x in a \/ x in b`, `x in (a intersect b)` becomes `x in a /\ x in b`, and `x in (a - b)` becomes
/// `x in a /\ !(x in b)`. Nothing for another root; `NoMemory` where there is no room for it.
#[tactic(auto, using(crate::proofs::MemberLemmas::combined_of_pair))]
pub fn member_combined(alloc: Global, node: &Node) -> Result<Option<Boxed<Node>>, NoMemory>
    ensures { IfOk result (λ o. option_map pure_node o ≡ member_combined (pure_node node.now)) }
{
    match truth_pair(node) {
        Some((Op2::Member, (x, s))) => in_combined(alloc, x, s),
        _ => Ok(None),
    }
}

/// That x is in what is made of two containers.
#[tactic(auto, using(crate::proofs::MemberLemmas::combined_by_parts))]
fn in_combined(alloc: Global, x: &Node, s: &Node) -> Result<Option<Boxed<Node>>, NoMemory>
    ensures { IfOk result (λ o. option_map pure_node o ≡ member_combined (ex2 true Op2.Member (pure_node x.now) (pure_node s.now))) }
{
    match plain_pair(s) {
        Some((Op2::Union, (a, b))) => {
            let first = compared(alloc, Op2::Member, x, a)?;
            let second = compared(alloc, Op2::Member, x, b)?;
            Ok(Some(binary(alloc, true, Op2::Or, first, second)?))
        }
        Some((Op2::Intersect, (a, b))) => {
            let first = compared(alloc, Op2::Member, x, a)?;
            let second = compared(alloc, Op2::Member, x, b)?;
            Ok(Some(both(alloc, first, second)?))
        }
        Some((Op2::Minus, (a, b))) => {
            let first = compared(alloc, Op2::Member, x, a)?;
            let second = compared(alloc, Op2::Member, x, b)?;
            Ok(Some(both(alloc, first, negated(alloc, second)?)?))
        }
        _ => Ok(None),
    }
}

/// `x in {a, b, ..}` becomes `or([x = a, x = b, ..])`, also of literals of multisets and relations. Nothing for another root;
/// `NoMemory` where there is no room for it.
#[tactic(auto, using(crate::proofs::MemberLemmas::listed_of_pair))]
pub fn member_listed(alloc: Global, node: &Node) -> Result<Option<Boxed<Node>>, NoMemory>
    ensures { IfOk result (λ o. option_map pure_node o ≡ member_listed (pure_node node.now)) }
{
    match truth_pair(node) {
        Some((Op2::Member, (x, s))) => in_listed(alloc, x, s),
        _ => Ok(None),
    }
}

/// That x is in a literal.
#[tactic(auto, using(ess_core_nodes::proofs::NodeEquations::pure_seen_is))]
fn in_listed(alloc: Global, x: &Node, s: &Node) -> Result<Option<Boxed<Node>>, NoMemory>
    ensures { IfOk result (λ o. option_map pure_node o ≡ member_listed (ex2 true Op2.Member (pure_node x.now) (pure_node s.now))) }
{
    match s {
        Node::Op(false, Op::Set, items) => Ok(Some(one_of(alloc, x, items.as_slice())?)),
        Node::Op(false, Op::MSet, items) => Ok(Some(one_of(alloc, x, items.as_slice())?)),
        Node::Op(false, Op::Relation, items) => Ok(Some(one_of(alloc, x, items.as_slice())?)),
        _ => Ok(None),
    }
}

/// That x is one of the items.
#[tactic(auto, using(crate::proofs::MemberLemmas::equations_of))]
fn one_of(alloc: Global, x: &Node, items: &[Node]) -> Result<Boxed<Node>, NoMemory>
    ensures { IfOk result (λ n. pure_node n ≡
        fun1 true Fun.Or (node_ex false matrix_literal (equations (pure_node x.now) (pure_nodes items.now)))) }
{
    let equal = equations(alloc, x, items)?;
    word(alloc, true, Fun::Or, literal(alloc, Op::Matrix, equal)?)
}

/// That x is each of the items, one by one.
fn equations(alloc: Global, x: &Node, items: &[Node]) -> Result<Row<Node>, NoMemory>
    ensures { IfOk result (λ ns. map pure_node ns ≡ map (λ a. ex2 true Op2.Eq (pure_node x.now) (pure_node a)) items.now) }
{
    let mut equal = Row::new(alloc);
    for item in items {
        let this = compared(alloc, Op2::Eq, x, item)?;
        equal.push(this.into_inner())?;
    }
    Ok(equal)
}
