//! The conditions of an operator itself, where its operands have values.
ghost use Rattle.std.specs.Prelude.{◌≡◌, IfOk, map};
ghost use Rattle.ess_semantics.specs.Values.{Text as PureText};
ghost use Rattle.ess_semantics.specs.Trees.{binary, word, index};
ghost use Rattle.ess_core_nodes.specs.NodeViews.{pure_node, pure_nodes, pure_op, pure_step};
ghost use Rattle.ess_guard_laws.specs.Conditions.{own as own_asks, quotient_conditions as quotient_asks, power_conditions as power_asks};
ghost use Rattle.ess_guard_laws.specs.Conditions.{some_item as some_item_asks, image_conditions as image_asks};
ghost use Rattle.ess_guard_laws.specs.Conditions.{party_conditions as party_asks};
ghost use Rattle.ess_guard_forms.specs.KnownNames.{pure_known};
ghost use Rattle.ess_guard_forms.specs.PartForms.{both_operands};
ghost use Rattle.ess_guard_conditions.specs.ConditionForms.{of_pair, of_only};

use crate::conditions::{
    image_conditions, party_conditions, power_conditions, quotient_conditions, some_item,
};
use crate::indices::path_conditions;
use crate::literals::{function_conditions, partition_conditions};
use ess_core::{Fun, Op2};
use ess_core_nodes::{Node, Op, Step};
use ess_guard_forms::{KnownName, pair_in};
use ess_rows::{NoMemory, Row, Text};
use std::alloc::Global;

/// The conditions of an operator itself; x and y are reserved names. `NoMemory` where there is no room for them.
pub fn own(
    alloc: Global,
    known: &[KnownName],
    x: &Text,
    y: &Text,
    op: &Op,
    operands: &[Node],
) -> Result<Row<Node>, NoMemory>
    ensures { IfOk result (λ ns. map pure_node ns
        ≡ own_asks (pure_known known.now) x.now y.now (pure_op op.now) (pure_nodes operands.now)) }
{
    match op {
        Op::Binary(op) => own_binary(alloc, known, x, *op, operands),
        Op::Word(fun) => own_word(alloc, known, x, *fun, operands),
        Op::Function => function_conditions(alloc, operands),
        Op::Partition => partition_conditions(alloc, x, y, operands),
        Op::Index(path) => own_index(alloc, known, x, path.as_slice(), operands),
        _ => Ok(Row::new(alloc)),
    }
}

/// The conditions of an operator between two operands.
#[tactic(auto, using(crate::proofs::OwnConditions::own_div, crate::proofs::OwnConditions::own_mod, crate::proofs::OwnConditions::own_pow))]
fn own_binary(
    alloc: Global,
    known: &[KnownName],
    x: &Text,
    op: Op2,
    operands: &[Node],
) -> Result<Row<Node>, NoMemory>
    ensures { IfOk result (λ ns. (y : PureText) → map pure_node ns
        ≡ own_asks (pure_known known.now) x.now y (binary op) (pure_nodes operands.now)) }
{
    match op {
        Op2::Div | Op2::Mod => own_quotient(alloc, known, operands),
        Op2::Pow => own_power(alloc, known, operands),
        _ => Ok(Row::new(alloc)),
    }
}

/// Those of a quotient or remainder.
fn own_quotient(
    alloc: Global,
    known: &[KnownName],
    operands: &[Node],
) -> Result<Row<Node>, NoMemory>
    ensures { IfOk result (λ ns. map pure_node ns
        ≡ of_pair (both_operands (pure_nodes operands.now)) (λ a b. quotient_asks (pure_known known.now) b)) }
{
    match pair_in(operands) {
        None => Ok(Row::new(alloc)),
        Some((_, b)) => quotient_conditions(alloc, known, b),
    }
}

/// Those of a power.
fn own_power(alloc: Global, known: &[KnownName], operands: &[Node]) -> Result<Row<Node>, NoMemory>
    ensures { IfOk result (λ ns. map pure_node ns
        ≡ of_pair (both_operands (pure_nodes operands.now)) (λ a b. power_asks (pure_known known.now) a b)) }
{
    match pair_in(operands) {
        None => Ok(Row::new(alloc)),
        Some((a, b)) => power_conditions(alloc, known, a, b),
    }
}

/// The conditions of a function word.
#[tactic(auto, using(crate::proofs::OwnConditions::own_min, crate::proofs::OwnConditions::own_max, crate::proofs::OwnConditions::own_image, crate::proofs::OwnConditions::own_party))]
fn own_word(
    alloc: Global,
    known: &[KnownName],
    x: &Text,
    fun: Fun,
    operands: &[Node],
) -> Result<Row<Node>, NoMemory>
    ensures { IfOk result (λ ns. (y : PureText) → map pure_node ns
        ≡ own_asks (pure_known known.now) x.now y (word fun) (pure_nodes operands.now)) }
{
    match fun {
        Fun::Min | Fun::Max => own_extreme(alloc, x, operands),
        Fun::Image => own_image(alloc, known, operands),
        Fun::Party => own_party(alloc, operands),
        _ => Ok(Row::new(alloc)),
    }
}

/// Those of a least or greatest item.
fn own_extreme(alloc: Global, x: &Text, operands: &[Node]) -> Result<Row<Node>, NoMemory>
    ensures { IfOk result (λ ns. map pure_node ns ≡ of_only (pure_nodes operands.now) (λ s. some_item_asks x.now s)) }
{
    match operands.split_first() {
        None => Ok(Row::new(alloc)),
        Some((operand, rest)) => match rest.split_first() {
            None => some_item(alloc, x, operand),
            Some(_) => Ok(Row::new(alloc)),
        },
    }
}

/// Those of the value of a function.
fn own_image(alloc: Global, known: &[KnownName], operands: &[Node]) -> Result<Row<Node>, NoMemory>
    ensures { IfOk result (λ ns. map pure_node ns
        ≡ of_pair (both_operands (pure_nodes operands.now)) (λ f a. image_asks (pure_known known.now) f a)) }
{
    match pair_in(operands) {
        None => Ok(Row::new(alloc)),
        Some((function, argument)) => image_conditions(alloc, known, function, argument),
    }
}

/// Those of the part of a partition.
fn own_party(alloc: Global, operands: &[Node]) -> Result<Row<Node>, NoMemory>
    ensures { IfOk result (λ ns. map pure_node ns ≡ of_pair (both_operands (pure_nodes operands.now)) (λ a p. party_asks a p)) }
{
    match pair_in(operands) {
        None => Ok(Row::new(alloc)),
        Some((member, partition)) => party_conditions(alloc, member, partition),
    }
}

/// The conditions of an index.
fn own_index(
    alloc: Global,
    known: &[KnownName],
    x: &Text,
    path: &[Step],
    operands: &[Node],
) -> Result<Row<Node>, NoMemory>
    ensures { IfOk result (λ ns. (y : PureText) → map pure_node ns
        ≡ own_asks (pure_known known.now) x.now y (index (map pure_step path.now)) (pure_nodes operands.now)) }
{
    match operands.split_first() {
        None => Ok(Row::new(alloc)),
        Some((whole, at)) => {
            let whole = whole.copy(alloc)?;
            path_conditions(alloc, known, x, whole, path, at)
        }
    }
}
