//! What is made of a looked up operand or container, as alternatives.
ghost use Rattle.std.specs.Prelude.{◌≡◌, map, option_map, IfOk};
ghost use Rattle.ess_core_nodes.specs.NodeViews.{pure_node};
ghost use Rattle.ess_rules_laws.specs.AlternativeLookups.{as_alternative as alternative_of, lookup_through_each as looked_through};
ghost use Rattle.ess_rules_laws.specs.AlternativeLookups.{each_through as all_through, members_of_each as all_members};
ghost use Rattle.ess_rules_forms.specs.PureAlternatives.{pure_alternative};
ghost use Rattle.ess_rules_alternatives.specs.Cases.{put_through as through_one, members_of as members_in};

use crate::picked::laid_out;
use ess_core_nodes::Node;
use ess_node_building::{from, name};
use ess_rows::{NoMemory, Row, Text};
use ess_rules_forms::Alternative;
use ess_rules_lookups::{takes, with_item};
use std::alloc::Global;

/// A lookup as the one alternative; x is a new name. `NoMemory` where there is no room for it.
pub fn as_alternative(
    alloc: Global,
    bound: &Text,
    lookup: &Node,
) -> Result<Row<Alternative>, NoMemory>
    ensures { IfOk result (λ l. map pure_alternative l ≡ alternative_of bound.now (pure_node lookup.now)) }
{
    let lookup = lookup.copy(alloc)?;
    let mut gens = Row::new(alloc);
    gens.push(from(alloc, bound, lookup)?)?;
    let item = name(alloc, bound)?;
    let mut all = Row::new(alloc);
    all.push(Alternative { gens, item })?;
    Ok(all)
}

/// `N[t]` through the alternatives of t, which is the operand of N at a place; x is a new name. `NoMemory` where there is no room for it.
#[tactic(auto, using(ess_core_nodes::proofs::NodeEquations::pure_seen_is))]
pub fn lookup_through_each(
    alloc: Global,
    bound: &Text,
    at: u64,
    offered: &[Alternative],
    node: &Node,
) -> Result<Option<Row<Alternative>>, NoMemory>
    ensures { IfOk result (λ o. option_map (map pure_alternative) o
        ≡ looked_through bound.now at (map pure_alternative offered.now) (pure_node node.now)) }
{
    match node {
        Node::Op(mark, op, operands) => {
            if takes(op, operands.as_slice(), at) {
                let body = with_item(alloc, bound, at, *mark, op, operands.as_slice())?;
                Ok(Some(each_through(alloc, bound, offered, body.get())?))
            } else {
                Ok(None)
            }
        }
        _ => Ok(None),
    }
}

/// Each alternative's item as the operand in the body.
#[tactic(auto, using(crate::proofs::EachRows::through_one_by_one))]
fn each_through(
    alloc: Global,
    bound: &Text,
    offered: &[Alternative],
    body: &Node,
) -> Result<Row<Alternative>, NoMemory>
    ensures { IfOk result (λ l. map pure_alternative l ≡ all_through bound.now (map pure_alternative offered.now) (pure_node body.now)) }
{
    let all = all_put(alloc, bound, offered, body)?;
    Ok(all)
}

/// The same one by one.
fn all_put(
    alloc: Global,
    bound: &Text,
    offered: &[Alternative],
    body: &Node,
) -> Result<Row<Alternative>, NoMemory>
    ensures { IfOk result (λ l. map pure_alternative l
        ≡ map (through_one bound.now (pure_node body.now)) (map pure_alternative offered.now)) }
{
    let mut all = Row::with_capacity(alloc, offered.len())?;
    for one in offered {
        let put = put_through(alloc, bound, one, body)?;
        all.push(put)?;
    }
    Ok(all)
}

/// The alternative's item as the operand in the body.
fn put_through(
    alloc: Global,
    bound: &Text,
    offered: &Alternative,
    body: &Node,
) -> Result<Alternative, NoMemory>
    ensures { IfOk result (λ a. pure_alternative a ≡ through_one bound.now (pure_node body.now) (pure_alternative offered.now)) }
{
    let list = laid_out(alloc, offered)?;
    let mut gens = Row::new(alloc);
    gens.push(from(alloc, bound, list)?)?;
    let item = body.copy(alloc)?;
    Ok(Alternative { gens, item })
}

/// The members of what each alternative picks, which gets a name; each member is called by another one. `NoMemory` where there is no room
/// for them.
#[tactic(auto, using(crate::proofs::EachRows::members_one_by_one))]
pub fn members_of_each(
    alloc: Global,
    picked: &Text,
    member: &Text,
    offered: &[Alternative],
) -> Result<Row<Alternative>, NoMemory>
    ensures { IfOk result (λ l. map pure_alternative l ≡ all_members picked.now member.now (map pure_alternative offered.now)) }
{
    let all = all_opened(alloc, picked, member, offered)?;
    Ok(all)
}

/// The same one by one.
fn all_opened(
    alloc: Global,
    picked: &Text,
    member: &Text,
    offered: &[Alternative],
) -> Result<Row<Alternative>, NoMemory>
    ensures { IfOk result (λ l. map pure_alternative l ≡ map (members_in picked.now member.now) (map pure_alternative offered.now)) }
{
    let mut all = Row::with_capacity(alloc, offered.len())?;
    for one in offered {
        let members = members_of(alloc, picked, member, one)?;
        all.push(members)?;
    }
    Ok(all)
}

/// The members of what an alternative picks.
fn members_of(
    alloc: Global,
    picked: &Text,
    member: &Text,
    offered: &Alternative,
) -> Result<Alternative, NoMemory>
    ensures { IfOk result (λ a. pure_alternative a ≡ members_in picked.now member.now (pure_alternative offered.now)) }
{
    let list = laid_out(alloc, offered)?;
    let container = name(alloc, picked)?;
    let mut gens = Row::new(alloc);
    gens.push(from(alloc, picked, list)?)?;
    gens.push(from(alloc, member, container)?)?;
    let item = name(alloc, member)?;
    Ok(Alternative { gens, item })
}
