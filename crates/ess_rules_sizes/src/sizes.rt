//! The rules of `|..|`, `freq` and `together` over any term.
ghost use Rattle.std.specs.Prelude.{◌≡◌, pos, true, false, option_map, IfOk};
ghost use Rattle.ess_semantics.specs.Trees.{name_pat, number_ex, name_ex, comp_ex, ex2, fun1, from as from_gen, cond, no_gens};
ghost use Rattle.ess_core_nodes.specs.NodeViews.{pure_node};
ghost use Rattle.ess_node_types.specs.TypedNames.{pure_names};
ghost use Rattle.ess_rules_laws.specs.SizeRules.{size_term as sized, frequency_term as counted, together_term as joined};

use crate::kinds::is_counted;
use crate::pieces::{ones_over, over_one};
use ess_core::{Fun, Op1, Op2};
use ess_core_nodes::{Node, Op};
use ess_node_building::{binary, comprehension, condition, from, name, number, word};
use ess_node_operands::{Operands, by_number};
use ess_node_types::NameTypes;
use ess_rows::{Boxed, NoMemory, Row, Text};
use std::alloc::Global;

/// `|s|` is `sum([1 | x <- s])`, where s is a set, a multiset, a function or a relation. `NoMemory` where there is no room for it.
#[tactic(auto, using(ess_core_nodes::proofs::NodeEquations::pure_seen_is))]
pub fn size_term(
    alloc: Global,
    types: &NameTypes,
    bound: &Text,
    node: &Node,
) -> Result<Option<Boxed<Node>>, NoMemory>
    ensures { IfOk result (λ o. option_map pure_node o ≡ sized (pure_names types.now) bound.now (pure_node node.now)) }
{
    match node {
        Node::Op(false, Op::Unary(Op1::Bar), operands) => match by_number(operands.as_slice()) {
            Operands::One(term) => {
                if is_counted(alloc, types, term)? {
                    Ok(Some(ones_over(alloc, bound, term)?))
                } else {
                    Ok(None)
                }
            }
            _ => Ok(None),
        },
        _ => Ok(None),
    }
}

/// `freq(m, a)` is `sum([1 | x <- m, x = a])`. `NoMemory` where there is no room for it.
#[tactic(auto, using(ess_core_nodes::proofs::NodeEquations::pure_seen_is))]
pub fn frequency_term(
    alloc: Global,
    bound: &Text,
    node: &Node,
) -> Result<Option<Boxed<Node>>, NoMemory>
    ensures { IfOk result (λ o. option_map pure_node o ≡ counted bound.now (pure_node node.now)) }
{
    match node {
        Node::Op(false, Op::Word(Fun::Freq), operands) => match by_number(operands.as_slice()) {
            Operands::Two(container, member) => {
                let ones = ones_equal(alloc, bound, container, member)?;
                Ok(Some(word(alloc, false, Fun::Sum, ones)?))
            }
            _ => Ok(None),
        },
        _ => Ok(None),
    }
}

/// `[1 | x <- m, x = a]`
fn ones_equal(
    alloc: Global,
    bound: &Text,
    container: &Node,
    member: &Node,
) -> Result<Boxed<Node>, NoMemory>
    ensures { IfOk result (λ n. pure_node n ≡ comp_ex (number_ex (pos 1)) (from_gen (name_pat bound.now) (pure_node container.now)
        (cond (ex2 true Op2.Eq (name_ex bound.now) (pure_node member.now)) no_gens))) }
{
    let container = container.copy(alloc)?;
    let member = member.copy(alloc)?;
    let item = name(alloc, bound)?;
    let is_equal = binary(alloc, true, Op2::Eq, item, member)?;
    let mut gens = Row::new(alloc);
    gens.push(from(alloc, bound, container)?)?;
    gens.push(condition(is_equal))?;
    let one = number(alloc, 1)?;
    comprehension(alloc, one, gens)
}

/// `together(s, p)` is `or([s subsetEq q | q <- parts(p)])`. `NoMemory` where there is no room for it.
#[tactic(auto, using(ess_core_nodes::proofs::NodeEquations::pure_seen_is))]
pub fn together_term(
    alloc: Global,
    bound: &Text,
    node: &Node,
) -> Result<Option<Boxed<Node>>, NoMemory>
    ensures { IfOk result (λ o. option_map pure_node o ≡ joined bound.now (pure_node node.now)) }
{
    match node {
        Node::Op(true, Op::Word(Fun::Together), operands) => match by_number(operands.as_slice()) {
            Operands::Two(members, partition) => {
                let parts = within_parts(alloc, bound, members, partition)?;
                Ok(Some(word(alloc, true, Fun::Or, parts)?))
            }
            _ => Ok(None),
        },
        _ => Ok(None),
    }
}

/// `[s subsetEq q | q <- parts(p)]`
fn within_parts(
    alloc: Global,
    bound: &Text,
    members: &Node,
    partition: &Node,
) -> Result<Boxed<Node>, NoMemory>
    ensures { IfOk result (λ n. pure_node n ≡ comp_ex (ex2 true Op2.SubsetEq (pure_node members.now) (name_ex bound.now))
        (from_gen (name_pat bound.now) (fun1 false Fun.Parts (pure_node partition.now)) no_gens)) }
{
    let members = members.copy(alloc)?;
    let part = name(alloc, bound)?;
    let is_within = binary(alloc, true, Op2::SubsetEq, members, part)?;
    let partition = partition.copy(alloc)?;
    let parts = word(alloc, false, Fun::Parts, partition)?;
    over_one(alloc, is_within, bound, parts)
}
