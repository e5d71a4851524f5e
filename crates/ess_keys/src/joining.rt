//! A Boolean under conditions: a chain of few, a list of many.
ghost use Rattle.std.specs.Prelude.{◌≡◌, true, IfOk, OnOk, map, nat_le};
ghost use Rattle.ess_semantics.specs.Trees.{ex2};
ghost use Rattle.ess_core_nodes.specs.NodeViews.{pure_node, pure_nodes, pure_gens};
ghost use Rattle.ess_keys_laws.specs.Chains.{all_under_and};
ghost use Rattle.ess_keys_laws.specs.Keyed.{connected, all_of, conditions_of, how_many, joined};
ghost use Rattle.ess_keys.specs.Steps.{trees_before};

use crate::chains::{all_under_and, push_copy};
use ess_core::Op2;
use ess_core_nodes::{Gen, Node};
use ess_node_building::binary;
use ess_rows::{Boxed, NoMemory, Row};
use std::alloc::Global;

/// A Boolean under conditions, each before the others.
#[tactic(auto, using(ess_core_nodes::proofs::NodeEquations::pure_gen_over, ess_core_nodes::proofs::NodeEquations::pure_gen_from, ess_core_nodes::proofs::NodeEquations::pure_gen_if))]
fn connected(alloc: Global, op: Op2, gens: &[Gen], body: &Node) -> Result<Boxed<Node>, NoMemory>
    ensures { IfOk result (λ n. pure_node n ≡ connected op (pure_gens gens.now) (pure_node body.now)) }
{
    match gens.split_first() {
        None => body.copy(alloc),
        Some((Gen::Over(_, _), _)) => body.copy(alloc),
        Some((Gen::From(_, _), _)) => body.copy(alloc),
        Some((Gen::If(condition), rest)) => {
            let behind = connected(alloc, op, rest, body)?;
            let condition = condition.get().copy(alloc)?;
            binary(alloc, true, op, condition, behind)
        }
    }
}

/// Conditions, and the Boolean under them, come behind other trees.
#[tactic(auto, using(crate::proofs::Conditions::one_more, crate::proofs::Conditions::the_last, ess_core_nodes::proofs::NodeEquations::pure_gen_over, ess_core_nodes::proofs::NodeEquations::pure_gen_from, ess_core_nodes::proofs::NodeEquations::pure_gen_if))]
fn put_all(alloc: Global, gens: &[Gen], body: &Node, items: &mut Row<Node>) -> Result<(), NoMemory>
    ensures { OnOk result (pure_nodes items.new
        ≡ trees_before (map pure_node items.old) (all_of (pure_gens gens.now) (pure_node body.now))) }
{
    match gens.split_first() {
        None => push_copy(alloc, body, items),
        Some((Gen::Over(_, _), _)) => push_copy(alloc, body, items),
        Some((Gen::From(_, _), _)) => push_copy(alloc, body, items),
        Some((Gen::If(condition), rest)) => {
            push_copy(alloc, condition.get(), items)?;
            put_all(alloc, rest, body, items)
        }
    }
}

/// Conditions, and the Boolean under them.
fn all_of(alloc: Global, gens: &[Gen], body: &Node) -> Result<Row<Node>, NoMemory>
    ensures { IfOk result (λ ns. pure_nodes ns ≡ all_of (pure_gens gens.now) (pure_node body.now)) }
{
    let mut items = Row::new(alloc);
    put_all(alloc, gens, body, &mut items)?;
    Ok(items)
}

/// Conditions come behind other trees.
#[tactic(auto, using(crate::proofs::Conditions::one_more, crate::proofs::Conditions::none_more, ess_core_nodes::proofs::NodeEquations::pure_gen_over, ess_core_nodes::proofs::NodeEquations::pure_gen_from, ess_core_nodes::proofs::NodeEquations::pure_gen_if))]
fn put_each(alloc: Global, gens: &[Gen], items: &mut Row<Node>) -> Result<(), NoMemory>
    ensures { OnOk result (pure_nodes items.new ≡ trees_before (map pure_node items.old) (conditions_of (pure_gens gens.now))) }
{
    match gens.split_first() {
        None => Ok(()),
        Some((Gen::Over(_, _), _)) => Ok(()),
        Some((Gen::From(_, _), _)) => Ok(()),
        Some((Gen::If(condition), rest)) => {
            push_copy(alloc, condition.get(), items)?;
            put_each(alloc, rest, items)
        }
    }
}

/// The conditions.
fn conditions_of(alloc: Global, gens: &[Gen]) -> Result<Row<Node>, NoMemory>
    ensures { IfOk result (λ ns. pure_nodes ns ≡ conditions_of (pure_gens gens.now)) }
{
    let mut items = Row::new(alloc);
    put_each(alloc, gens, &mut items)?;
    Ok(items)
}

/// A Boolean under conditions that are a list under `and`.
fn implied(alloc: Global, gens: &[Gen], body: &Node) -> Result<Boxed<Node>, NoMemory>
    ensures { IfOk result (λ n. pure_node n
        ≡ ex2 true Op2.Implies (all_under_and (conditions_of (pure_gens gens.now))) (pure_node body.now)) }
{
    let conditions = conditions_of(alloc, gens)?;
    let list = all_under_and(alloc, conditions)?;
    let body = body.copy(alloc)?;
    binary(alloc, true, Op2::Implies, list, body)
}

/// Whether there are so many conditions that a chain of them would be deep.
#[tactic(auto, using(crate::proofs::Conditions::as_many))]
fn are_many(gens: &[Gen]) -> bool
    ensures { result ≡ nat_le 16 (how_many (pure_gens gens.now)) }
{
    16 <= gens.len()
}

/// A Boolean under conditions: a list of all under `and`, or of the conditions, where these are many.
pub(crate) fn joined(
    alloc: Global,
    op: Op2,
    gens: &[Gen],
    body: &Node,
) -> Result<Boxed<Node>, NoMemory>
    ensures { IfOk result (λ n. pure_node n ≡ joined op (pure_gens gens.now) (pure_node body.now)) }
{
    match op {
        Op2::And => {
            if are_many(gens) {
                let items = all_of(alloc, gens, body)?;
                all_under_and(alloc, items)
            } else {
                connected(alloc, op, gens, body)
            }
        }
        Op2::Implies => {
            if are_many(gens) {
                implied(alloc, gens, body)
            } else {
                connected(alloc, op, gens, body)
            }
        }
        _ => connected(alloc, op, gens, body),
    }
}
