//! What the passes of modelling call: a Boolean made total, and whether a term has a value.
ghost use Rattle.std.specs.Prelude.{◌≡◌, if◌then◌else◌, IfOk, map};
ghost use Rattle.ess_core_nodes.specs.NodeViews.{pure_node};
ghost use Rattle.ess_guard_laws.specs.Conditions.{summed as summed_under};
ghost use Rattle.ess_guard_laws.specs.Guard.{make_total as made_total, make_natural as made_natural, has_value as that_it_has_value};
ghost use Rattle.ess_guard_laws.specs.Guard.{make_total_term as made_total_term};

use crate::guarding::guard_node;
use ess_core_nodes::{Node, copy_nodes};
use ess_guard_conditions::{Rules, all_of, summed};
use ess_rows::{Boxed, NoMemory, Text};
use std::alloc::Global;

/// The rules with these reserved names.
fn rules_of(alloc: Global, natural: bool, first: &Text, second: &Text) -> Result<Rules, NoMemory>
    ensures natural { IfOk result (λ r. r.natural ≡ natural) }
    ensures first { IfOk result (λ r. r.first ≡ first.now) }
    ensures second { IfOk result (λ r. r.second ≡ second.now) }
{
    let first = first.copy(alloc)?;
    let second = second.copy(alloc)?;
    Ok(Rules {
        natural,
        first,
        second,
    })
}

/// A Boolean that is total and means the same; conditions bind the two names, which the tree neither uses nor binds.
/// `NoMemory` where there is no room for it.
pub fn make_total(
    alloc: Global,
    first: &Text,
    second: &Text,
    node: &Node,
) -> Result<Boxed<Node>, NoMemory>
    ensures { IfOk result (λ n. pure_node n ≡ made_total first.now second.now (pure_node node.now)) }
{
    let rules = rules_of(alloc, false, first, second)?;
    let (node, conditions) = guard_node(alloc, &rules, &[], false, node)?;
    drop(conditions);
    Ok(node)
}

/// The same where quotients, remainders and powers may have nothing in natural places.
/// `NoMemory` where there is no room for it.
pub fn make_natural(
    alloc: Global,
    first: &Text,
    second: &Text,
    node: &Node,
) -> Result<Boxed<Node>, NoMemory>
    ensures { IfOk result (λ n. pure_node n ≡ made_natural first.now second.now (pure_node node.now)) }
{
    let rules = rules_of(alloc, true, first, second)?;
    let (node, conditions) = guard_node(alloc, &rules, &[], false, node)?;
    drop(conditions);
    Ok(node)
}

/// That a term has a value; conditions bind the two names, which the tree neither uses nor binds. `NoMemory` where there is no room
/// for it.
pub fn has_value(
    alloc: Global,
    first: &Text,
    second: &Text,
    node: &Node,
) -> Result<Boxed<Node>, NoMemory>
    ensures { IfOk result (λ n. pure_node n ≡ that_it_has_value first.now second.now (pure_node node.now)) }
{
    let rules = rules_of(alloc, false, first, second)?;
    let (node, conditions) = guard_node(alloc, &rules, &[], false, node)?;
    drop(node);
    all_of(alloc, conditions)
}

/// That a term has a value, and the term, which is total where it has one; a number, as `is_int` says, stands under its conditions
/// and is 0 where they fail. `NoMemory` where there is no room for them.
pub fn make_total_term(
    alloc: Global,
    first: &Text,
    second: &Text,
    is_int: bool,
    node: &Node,
) -> Result<(Boxed<Node>, Boxed<Node>), NoMemory>
    ensures there { IfOk result (λ r. pure_node r.0
        ≡ (made_total_term first.now second.now is_int (pure_node node.now)).0) }
    ensures term { IfOk result (λ r. pure_node r.1
        ≡ (made_total_term first.now second.now is_int (pure_node node.now)).1) }
{
    let rules = rules_of(alloc, false, first, second)?;
    let (node, conditions) = guard_node(alloc, &rules, &[], false, node)?;
    let term = total_term(alloc, is_int, conditions.as_slice(), node)?;
    Ok((all_of(alloc, conditions)?, term))
}

/// A term made total: a number stands under its conditions.
fn total_term(
    alloc: Global,
    is_int: bool,
    conditions: &[Node],
    node: Boxed<Node>,
) -> Result<Boxed<Node>, NoMemory>
    ensures { IfOk result (λ n. pure_node n
        ≡ (if is_int then summed_under (map pure_node conditions.now) (pure_node node) else pure_node node)) }
{
    if is_int {
        let conditions = copy_nodes(alloc, conditions)?;
        summed(alloc, conditions, node)
    } else {
        Ok(node)
    }
}
