//! The rules of `min`, `max` and `allDiff` and of the signs that compare lists, on terms that aren't laid open as lists.
ghost use Rattle.std.specs.Prelude.{◌≡◌, pos, true, false, option_map, IfOk};
ghost use Rattle.ess_semantics.specs.Trees.{number_ex, name_ex, ex2, fun1};
ghost use Rattle.ess_core_nodes.specs.NodeViews.{pure_node};
ghost use Rattle.ess_rules_laws.specs.FoldRules.{is_laid_open as is_list};
ghost use Rattle.ess_rules_laws.specs.InclusionRules.{frequency as frequency_of};
ghost use Rattle.ess_rules_laws.specs.ListRules.{is_of_list as takes_list, is_lex as compares_lists, list_term as listed};
ghost use Rattle.ess_rules_laws.specs.ListRules.{as_members as members_of, lex_both as lists_compared, different_term as told_apart};

use crate::pieces::{every, frequency, members_list};
use ess_core::{Fun, Op2};
use ess_core_nodes::{Node, Op};
use ess_node_building::{binary, name, number, word};
use ess_node_operands::{Operands, by_number};
use ess_rows::{Boxed, NoMemory, Text};
use std::alloc::Global;

/// Whether the tree is a list literal or a comprehension.
#[tactic(auto, using(ess_core_nodes::proofs::NodeEquations::pure_seen_is))]
fn is_laid_open(node: &Node) -> bool
    ensures { result ≡ is_list (pure_node node.now) }
{
    match node {
        Node::Comp(_, _) => true,
        Node::Op(false, Op::Matrix, _) => true,
        _ => false,
    }
}

/// Whether the word is of a list without being a fold.
fn is_of_list(word: Fun) -> bool
    ensures { result ≡ takes_list word }
{
    match word {
        Fun::Min | Fun::Max | Fun::AllDiff => true,
        _ => false,
    }
}

/// Whether the sign compares lists.
fn is_lex(sign: Op2) -> bool
    ensures { result ≡ compares_lists sign }
{
    match sign {
        Op2::LexLt | Op2::LexLe | Op2::LexGt | Op2::LexGe => true,
        _ => false,
    }
}

/// `min(s)` is `min([x | x <- s])` where s isn't laid open as a list, and so it is with `max` and `allDiff`. `NoMemory` where there
/// is no room for it.
#[tactic(auto, using(ess_core_nodes::proofs::NodeEquations::pure_seen_is))]
pub fn list_term(alloc: Global, bound: &Text, node: &Node) -> Result<Option<Boxed<Node>>, NoMemory>
    ensures { IfOk result (λ o. option_map pure_node o ≡ listed bound.now (pure_node node.now)) }
{
    match node {
        Node::Op(mark, Op::Word(fun), operands) => match by_number(operands.as_slice()) {
            Operands::One(term) => {
                if is_of_list(*fun) && !is_laid_open(term) {
                    let list = members_list(alloc, bound, term)?;
                    Ok(Some(word(alloc, *mark, *fun, list)?))
                } else {
                    Ok(None)
                }
            }
            _ => Ok(None),
        },
        _ => Ok(None),
    }
}

/// A term as a list: itself where it is laid open, else the list of its members.
fn as_members(alloc: Global, bound: &Text, term: &Node) -> Result<Boxed<Node>, NoMemory>
    ensures { IfOk result (λ n. pure_node n ≡ members_of bound.now (pure_node term.now)) }
{
    if is_laid_open(term) {
        term.copy(alloc)
    } else {
        members_list(alloc, bound, term)
    }
}

/// `a <lex b` is `[x | x <- a] <lex [x | x <- b]`, where one of them isn't laid open as a list; one that is stays as it is. So it is with
/// the other signs. `NoMemory` where there is no room for it.
#[tactic(auto, using(ess_core_nodes::proofs::NodeEquations::pure_seen_is))]
pub fn lex_both(alloc: Global, bound: &Text, node: &Node) -> Result<Option<Boxed<Node>>, NoMemory>
    ensures { IfOk result (λ o. option_map pure_node o ≡ lists_compared bound.now (pure_node node.now)) }
{
    match node {
        Node::Op(true, Op::Binary(sign), operands) => match by_number(operands.as_slice()) {
            Operands::Two(first, second) => {
                if is_lex(*sign) && (!is_laid_open(first) || !is_laid_open(second)) {
                    let first = as_members(alloc, bound, first)?;
                    let second = as_members(alloc, bound, second)?;
                    Ok(Some(binary(alloc, true, *sign, first, second)?))
                } else {
                    Ok(None)
                }
            }
            _ => Ok(None),
        },
        _ => Ok(None),
    }
}

/// `allDiff(l)` is `and([freq(toMSet(l), x) = 1 | x <- l])`: each item is there once. `NoMemory` where there is no room for it.
#[tactic(auto, using(ess_core_nodes::proofs::NodeEquations::pure_seen_is))]
pub fn different_term(
    alloc: Global,
    bound: &Text,
    node: &Node,
) -> Result<Option<Boxed<Node>>, NoMemory>
    ensures { IfOk result (λ o. option_map pure_node o ≡ told_apart bound.now (pure_node node.now)) }
{
    match node {
        Node::Op(true, Op::Word(Fun::AllDiff), operands) => match by_number(operands.as_slice()) {
            Operands::One(list) => {
                let once = there_once(alloc, bound, list)?;
                let list = list.copy(alloc)?;
                Ok(Some(every(alloc, bound, list, once)?))
            }
            _ => Ok(None),
        },
        _ => Ok(None),
    }
}

/// `freq(toMSet(l), x) = 1`
fn there_once(alloc: Global, item: &Text, list: &Node) -> Result<Boxed<Node>, NoMemory>
    ensures { IfOk result (λ n. pure_node n
        ≡ ex2 true Op2.Eq (frequency_of (fun1 false Fun.ToMSet (pure_node list.now)) (name_ex item.now)) (number_ex (pos 1))) }
{
    let list = list.copy(alloc)?;
    let container = word(alloc, false, Fun::ToMSet, list)?;
    let item = name(alloc, item)?;
    let times = frequency(alloc, container, item)?;
    let one = number(alloc, 1)?;
    binary(alloc, true, Op2::Eq, times, one)
}
