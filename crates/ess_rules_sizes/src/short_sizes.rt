//! Shorter rules of `|..|` and `freq`: of containers that are made of others, and of literals.
ghost use Rattle.std.specs.Prelude.{◌≡◌, true, false, Some, None, if◌then◌else◌, map, option_map, IfOk};
ghost use Rattle.ess_semantics.specs.Trees.{ex1, ex2, fun1};
ghost use Rattle.ess_core_nodes.specs.NodeViews.{pure_node, pure_nodes};
ghost use Rattle.ess_node_types.specs.TypedNames.{pure_names};
ghost use Rattle.ess_rules_laws.specs.ShortSizeRules.{size_made as sized, frequency_made as counted, frequency_listed as summed};
ghost use Rattle.ess_rules_laws.specs.ShortSizeRules.{ones_where as ones_at};
ghost use Rattle.ess_rules_laws.specs.InclusionRules.{both_sets};
ghost use Rattle.ess_semantics.specs.Typing.{type_of as type_under};

use crate::kinds::{is_counted, is_function, is_partition, is_strict};
use crate::pieces::ones_over;
use ess_core::{Fun, Op1, Op2};
use ess_core_nodes::{Node, Op};
use ess_node_building::{binary, literal, unary, word};
use ess_node_operands::{Operands, by_number};
use ess_node_types::NameTypes;
use ess_rows::{Boxed, NoMemory, Row, Text};
use std::alloc::Global;

/// `|defined(f)|` and `|toRelation(f)|` are `|f|`, `|toMSet(s)|` is `|s|`, so is `|toSet(s)|` of a set or relation s, and
/// `|parts(p)|` is `sum([1 | x <- p])`. `NoMemory` where there is no room for it.
#[tactic(auto, using(ess_core_nodes::proofs::NodeEquations::pure_seen_is))]
pub fn size_made(
    alloc: Global,
    types: &NameTypes,
    bound: &Text,
    node: &Node,
) -> Result<Option<Boxed<Node>>, NoMemory>
    ensures { IfOk result (λ o. option_map pure_node o ≡ sized (pure_names types.now) bound.now (pure_node node.now)) }
{
    match node {
        Node::Op(false, Op::Unary(Op1::Bar), operands) => match by_number(operands.as_slice()) {
            Operands::One(made) => size_of_made(alloc, types, bound, made),
            _ => Ok(None),
        },
        _ => Ok(None),
    }
}

/// What the size of a container becomes.
#[tactic(auto, using(ess_core_nodes::proofs::NodeEquations::pure_seen_is))]
fn size_of_made(
    alloc: Global,
    types: &NameTypes,
    bound: &Text,
    made: &Node,
) -> Result<Option<Boxed<Node>>, NoMemory>
    ensures { IfOk result (λ o. option_map pure_node o ≡ sized (pure_names types.now) bound.now (ex1 false Op1.Bar (pure_node made.now))) }
{
    match made {
        Node::Op(false, Op::Word(word), operands) => match by_number(operands.as_slice()) {
            Operands::One(source) => size_of_source(alloc, types, bound, *word, source),
            _ => Ok(None),
        },
        _ => Ok(None),
    }
}

/// What the size becomes of what a word makes of a container.
fn size_of_source(
    alloc: Global,
    types: &NameTypes,
    bound: &Text,
    word: Fun,
    source: &Node,
) -> Result<Option<Boxed<Node>>, NoMemory>
    ensures { IfOk result (λ o. option_map pure_node o
        ≡ sized (pure_names types.now) bound.now (ex1 false Op1.Bar (fun1 false word (pure_node source.now)))) }
{
    match word {
        Fun::Defined => same_size(alloc, is_function(alloc, types, source)?, source),
        Fun::ToRelation => same_size(alloc, is_function(alloc, types, source)?, source),
        Fun::ToMSet => same_size(alloc, is_counted(alloc, types, source)?, source),
        Fun::ToSet => same_size(alloc, is_strict(alloc, types, source)?, source),
        Fun::Parts => size_of_parts(alloc, types, bound, source),
        _ => Ok(None),
    }
}

/// The size of a container, where it is the one that is asked for.
fn same_size(alloc: Global, is_same: bool, source: &Node) -> Result<Option<Boxed<Node>>, NoMemory>
    ensures { IfOk result (λ o. option_map pure_node o ≡ if is_same then Some (ex1 false Op1.Bar (pure_node source.now)) else None) }
{
    if is_same {
        let source = source.copy(alloc)?;
        Ok(Some(unary(alloc, false, Op1::Bar, source)?))
    } else {
        Ok(None)
    }
}

/// What the number of parts becomes.
fn size_of_parts(
    alloc: Global,
    types: &NameTypes,
    bound: &Text,
    source: &Node,
) -> Result<Option<Boxed<Node>>, NoMemory>
    ensures { IfOk result (λ o. option_map pure_node o
        ≡ sized (pure_names types.now) bound.now (ex1 false Op1.Bar (fun1 false Fun.Parts (pure_node source.now)))) }
{
    if is_partition(alloc, types, source)? {
        Ok(Some(ones_over(alloc, bound, source)?))
    } else {
        Ok(None)
    }
}

/// `freq(toMSet(s), a)` is `toInt(a in s)`, where s is a set or a relation. `NoMemory` where there is no room for it.
#[tactic(auto, using(ess_core_nodes::proofs::NodeEquations::pure_seen_is))]
pub fn frequency_made(
    alloc: Global,
    types: &NameTypes,
    bound: &Text,
    node: &Node,
) -> Result<Option<Boxed<Node>>, NoMemory>
    ensures { IfOk result (λ o. option_map pure_node o ≡ counted (pure_names types.now) bound.now (pure_node node.now)) }
{
    match node {
        Node::Op(false, Op::Word(Fun::Freq), operands) => match by_number(operands.as_slice()) {
            Operands::Two(made, member) => match made {
                Node::Op(false, Op::Word(Fun::ToMSet), sources) => match by_number(
                    sources.as_slice(),
                ) {
                    Operands::One(source) => frequency_in(alloc, types, source, member),
                    _ => Ok(None),
                },
                _ => Ok(None),
            },
            _ => Ok(None),
        },
        _ => Ok(None),
    }
}

/// What the frequency of a member becomes in the multiset of a container.
fn frequency_in(
    alloc: Global,
    types: &NameTypes,
    source: &Node,
    member: &Node,
) -> Result<Option<Boxed<Node>>, NoMemory>
    ensures { IfOk result (λ o. option_map pure_node o
        ≡ if both_sets (type_under (pure_node source.now) (pure_names types.now)) (type_under (pure_node source.now) (pure_names types.now))
        then Some (fun1 false Fun.ToInt (ex2 true Op2.Member (pure_node member.now) (pure_node source.now))) else None) }
{
    if is_strict(alloc, types, source)? {
        let source = source.copy(alloc)?;
        let member = member.copy(alloc)?;
        let is_in = binary(alloc, true, Op2::Member, member, source)?;
        Ok(Some(word(alloc, false, Fun::ToInt, is_in)?))
    } else {
        Ok(None)
    }
}

/// `freq(mset(b, c, ..), a)` is `sum([toInt(b = a), toInt(c = a), ..])`. `NoMemory` where there is no room for it.
#[tactic(auto, using(ess_core_nodes::proofs::NodeEquations::pure_seen_is))]
pub fn frequency_listed(alloc: Global, node: &Node) -> Result<Option<Boxed<Node>>, NoMemory>
    ensures { IfOk result (λ o. option_map pure_node o ≡ summed (pure_node node.now)) }
{
    match node {
        Node::Op(false, Op::Word(Fun::Freq), operands) => match by_number(operands.as_slice()) {
            Operands::Two(container, member) => match container {
                Node::Op(false, Op::MSet, items) => {
                    let ones = ones_where(alloc, member, items.as_slice())?;
                    let list = literal(alloc, Op::Matrix, ones)?;
                    Ok(Some(word(alloc, false, Fun::Sum, list)?))
                }
                _ => Ok(None),
            },
            _ => Ok(None),
        },
        _ => Ok(None),
    }
}

/// For each item, 1 where it is the member, else 0.
#[tactic(auto, using(crate::proofs::ItemRows::ones_each))]
fn ones_where(alloc: Global, member: &Node, items: &[Node]) -> Result<Row<Node>, NoMemory>
    ensures { IfOk result (λ ns. pure_nodes ns ≡ ones_at (pure_node member.now) (pure_nodes items.now)) }
{
    let ones = ones_for(alloc, member, items)?;
    Ok(ones)
}

/// The same one by one.
#[tactic(auto, using(std::proofs::lemmas::List::map_push))]
fn ones_for(alloc: Global, member: &Node, items: &[Node]) -> Result<Row<Node>, NoMemory>
    ensures { IfOk result (λ ns. map pure_node ns
        ≡ map (λ b. fun1 false Fun.ToInt (ex2 true Op2.Eq (pure_node b) (pure_node member.now))) items.now) }
{
    let mut ones = Row::with_capacity(alloc, items.len())?;
    for item in items {
        let one = one_where(alloc, member, item)?;
        ones.push(one.into_inner())?;
    }
    Ok(ones)
}

/// `toInt(b = a)`
fn one_where(alloc: Global, member: &Node, item: &Node) -> Result<Boxed<Node>, NoMemory>
    ensures { IfOk result (λ n. pure_node n ≡ fun1 false Fun.ToInt (ex2 true Op2.Eq (pure_node item.now) (pure_node member.now))) }
{
    let item = item.copy(alloc)?;
    let member = member.copy(alloc)?;
    let is_equal = binary(alloc, true, Op2::Eq, item, member)?;
    word(alloc, false, Fun::ToInt, is_equal)
}
