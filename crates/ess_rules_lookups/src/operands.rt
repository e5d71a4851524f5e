//! One of the operands of a tree.
ghost use Rattle.std.specs.Prelude.{◌≡◌, option_map, is_some, IfOk, [], ◌∷◌, ◌++◌};
ghost use Rattle.std.specs.Option.{option_copied};
ghost use Rattle.ess_core_nodes.specs.NodeViews.{pure_node, pure_nodes};
ghost use Rattle.ess_rules_laws.specs.LiteralRules.{nth as nth_of};
ghost use Rattle.ess_rules_laws.specs.Lookups.{put_nth as with_nth};

use ess_core_nodes::{Node, copy_nodes};
use ess_rows::{Boxed, NoMemory, Row};
use std::alloc::Global;

/// The operand at a place, from 1.
#[tactic(auto, using(crate::proofs::Places::nth_zero, crate::proofs::Places::nth_past, crate::proofs::Places::nth_there))]
pub fn nth(operands: &[Node], at: u64) -> Option<&Node>
    ensures { option_map pure_node (option_copied result) ≡ nth_of (pure_nodes operands.now) at }
{
    if at == 0 {
        return None;
    }
    if at > operands.len() as u64 {
        return None;
    }
    Some(&operands[(at - 1) as usize])
}

/// Whether there is an operand at a place, from 1.
pub(crate) fn has_nth(operands: &[Node], at: u64) -> bool
    ensures { result ≡ is_some (nth_of (pure_nodes operands.now) at) }
{
    match nth(operands, at) {
        None => false,
        Some(_) => true,
    }
}

/// The operands, with another one in the place of the one there, from 1. `NoMemory` where there is no room for them.
#[tactic(auto, using(crate::proofs::Places::put_there, crate::proofs::Places::put_past, crate::proofs::Places::put_zero))]
pub fn put_nth(
    alloc: Global,
    operands: &[Node],
    at: u64,
    other: Boxed<Node>,
) -> Result<Row<Node>, NoMemory>
    ensures { IfOk result (λ ns. pure_nodes ns ≡ with_nth (pure_nodes operands.now) at (pure_node other)) }
{
    if at == 0 {
        return copy_nodes(alloc, operands);
    }
    if at > operands.len() as u64 {
        let same = copy_nodes(alloc, operands)?;
        return Ok(same);
    }
    let place = (at - 1) as usize;
    let made = between(alloc, &operands[..place], other, &operands[place + 1..])?;
    Ok(made)
}

/// Nodes, one more, and others behind it.
fn between(
    alloc: Global,
    before: &[Node],
    node: Boxed<Node>,
    behind: &[Node],
) -> Result<Row<Node>, NoMemory>
    ensures { IfOk result (λ ns. ns ≡ (before.now ++ node ∷ []) ++ behind.now) }
{
    let mut made = copy_nodes(alloc, before)?;
    made.push(node.into_inner())?;
    let mut rest = copy_nodes(alloc, behind)?;
    made.append(&mut rest)?;
    Ok(made)
}
