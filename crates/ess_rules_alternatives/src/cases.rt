//! The results of a function literal at an argument, case by case.
ghost use Rattle.std.specs.Prelude.{◌≡◌, [], true, map, option_map, reverse, IfOk, OnOk};
ghost use Rattle.ess_semantics.specs.Trees.{ex2};
ghost use Rattle.ess_core.specs.TreeViews.{cond_item};
ghost use Rattle.ess_core_nodes.specs.NodeViews.{pure_node, pure_nodes, pure_gen, pure_gens};
ghost use Rattle.ess_rules_laws.specs.AlternativeLookups.{first_results as firsts, none_at as is_none_at};
ghost use Rattle.ess_rules_forms.specs.PureAlternatives.{pure_alternative};
ghost use Rattle.ess_rules_alternatives.specs.Cases.{tuple_pair as pair_of, differs as unequal, case_of as where_equal, unless_apart};

use ess_core::{Op1, Op2};
use ess_core_nodes::{Gen, Node, Op};
use ess_node_building::{binary, condition, unary};
use ess_node_operands::{Operands, by_number};
use ess_rows::{NoMemory, Row};
use ess_rules_forms::{Alternative, are_apart};
use std::alloc::Global;

/// Each result where the term is its argument and none of those before it.
#[tactic(auto, using(crate::proofs::CaseRows::results_more, crate::proofs::CaseRows::results_none, crate::proofs::CaseRows::results_all))]
pub(crate) fn results(
    alloc: Global,
    term: &Node,
    pairs: &[Node],
) -> Result<Option<Row<Alternative>>, NoMemory>
    ensures { IfOk result (λ o. option_map (map pure_alternative) o ≡ firsts [] (pure_node term.now) (pure_nodes pairs.now)) }
{
    let mut all = Row::new(alloc);
    let mut before = Row::new(alloc);
    let mut rest = pairs;
    while let Some((pair, behind)) = rest.split_first() {
        match tuple_pair(pair) {
            None => return Ok(None),
            Some((argument, value)) => {
                let one = case_of(alloc, before.as_slice(), term, argument, value)?;
                all.push(one)?;
                let copy = argument.copy(alloc)?;
                before.push(copy.into_inner())?;
                rest = behind;
            }
        }
    }
    Ok(Some(all))
}

/// The two items of a tuple.
#[tactic(auto, using(ess_core_nodes::proofs::NodeEquations::pure_seen_is))]
fn tuple_pair(node: &Node) -> Option<(&Node, &Node)>
    ensures { option_map (λ p. (pure_node p.0.now, pure_node p.1.now)) result ≡ pair_of (pure_node node.now) }
{
    match node {
        Node::Op(false, Op::Tuple, items) => match by_number(items.as_slice()) {
            Operands::Two(first, second) => Some((first, second)),
            _ => None,
        },
        _ => None,
    }
}

/// The result where the term is the argument and none of those before it.
#[tactic(auto, using(ess_core_nodes::proofs::NodeEquations::pure_gen_if))]
fn case_of(
    alloc: Global,
    before: &[Node],
    term: &Node,
    argument: &Node,
    value: &Node,
) -> Result<Alternative, NoMemory>
    ensures { IfOk result (λ a. pure_alternative a
        ≡ where_equal (reverse (map pure_node before.now)) (pure_node term.now) (pure_node argument.now) (pure_node value.now)) }
{
    let mut gens = none_at(alloc, before, argument, term)?;
    gens.insert(0, equals(alloc, term, argument)?)?;
    let item = value.copy(alloc)?;
    Ok(Alternative { gens, item })
}

/// That the term, where it is the argument, is none of those before it, the newest first. Of those that are apart from one of the two
/// the form tells that.
#[tactic(auto, using(crate::proofs::CaseRows::none_more))]
fn none_at(
    alloc: Global,
    before: &[Node],
    argument: &Node,
    term: &Node,
) -> Result<Row<Gen>, NoMemory>
    ensures { IfOk result (λ gs. pure_gens gs
        ≡ is_none_at (reverse (map pure_node before.now)) (pure_node argument.now) (pure_node term.now)) }
{
    let mut gens = Row::new(alloc);
    for other in before {
        put_other(alloc, other, argument, term, &mut gens)?;
    }
    Ok(gens)
}

/// The condition that the term isn't another comes before the others, where the form doesn't tell it.
fn put_other(
    alloc: Global,
    other: &Node,
    argument: &Node,
    term: &Node,
    gens: &mut Row<Gen>,
) -> Result<(), NoMemory>
    ensures { OnOk result (pure_gens gens.new
        ≡ unless_apart (pure_node other.now) (pure_node argument.now) (pure_node term.now) (pure_gens gens.old)) }
{
    if are_apart(other, argument) || are_apart(other, term) {
        Ok(())
    } else {
        let different = differs(alloc, other, term)?;
        gens.insert(0, different)
    }
}

/// The condition that two terms are equal.
fn equals(alloc: Global, first: &Node, second: &Node) -> Result<Gen, NoMemory>
    ensures { IfOk result (λ g. pure_gen g ≡ cond_item (ex2 true Op2.Eq (pure_node first.now) (pure_node second.now))) }
{
    let first = first.copy(alloc)?;
    let second = second.copy(alloc)?;
    Ok(condition(binary(alloc, true, Op2::Eq, first, second)?))
}

/// The condition that they aren't.
fn differs(alloc: Global, first: &Node, second: &Node) -> Result<Gen, NoMemory>
    ensures { IfOk result (λ g. pure_gen g ≡ cond_item (unequal (pure_node first.now) (pure_node second.now))) }
{
    let first = first.copy(alloc)?;
    let second = second.copy(alloc)?;
    let same = binary(alloc, true, Op2::Eq, first, second)?;
    Ok(condition(unary(alloc, true, Op1::Not, same)?))
}
