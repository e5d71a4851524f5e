//! Where natural places count, and the conditions of an operator in one.
ghost use Rattle.std.specs.Prelude.{◌≡◌, IfOk, map};
ghost use Rattle.ess_core_nodes.specs.NodeViews.{pure_node, pure_nodes, pure_op};
ghost use Rattle.ess_guard_laws.specs.Guard.{opens as are_opened, passes as are_passed, own_at as own_asked};
ghost use Rattle.ess_guard_forms.specs.KnownNames.{pure_known};

use crate::operators::own;
use ess_core_nodes::{Node, Op};
use ess_guard_forms::{KnownName, compares, counts, is_plain};
use ess_rows::{NoMemory, Row, Text};
use std::alloc::Global;

/// How a tree is guarded: whether natural places count, and two reserved names, which conditions bind.
#[derive(Drop)]
pub struct Rules {
    pub natural: bool,
    pub first: Text,
    pub second: Text,
}

/// Whether the operands of a Boolean stand in natural places.
pub fn opens(rules: &Rules, op: &Op) -> bool
    ensures { result ≡ are_opened rules.now.natural rules.now.first rules.now.second (pure_op op.now) }
{
    rules.natural && compares(op)
}

/// Whether the operands of a term do, which itself stands in one where that is said.
pub fn passes(rules: &Rules, there: bool, op: &Op) -> bool
    ensures { result ≡ are_passed rules.now.natural rules.now.first rules.now.second there (pure_op op.now) }
{
    there && counts(op)
}

/// The conditions of an operator itself, where it is said whether it stands in a natural place. `NoMemory` where there is no room
/// for them.
pub fn own_at(
    alloc: Global,
    rules: &Rules,
    known: &[KnownName],
    there: bool,
    op: &Op,
    operands: &[Node],
) -> Result<Row<Node>, NoMemory>
    ensures { IfOk result (λ ns. map pure_node ns
        ≡ own_asked rules.now.natural rules.now.first rules.now.second (pure_known known.now) there
        (pure_op op.now) (pure_nodes operands.now)) }
{
    if there && is_plain(op) {
        Ok(Row::new(alloc))
    } else {
        own(alloc, known, &rules.first, &rules.second, op, operands)
    }
}
