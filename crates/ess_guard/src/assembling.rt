//! A guarded tree with its conditions, from its guarded parts with theirs.
ghost use Rattle.std.specs.Prelude.{◌≡◌, ◌++◌, [], true, false, if◌then◌else◌, IfOk, map};
ghost use Rattle.ess_semantics.specs.Trees.{node_ex, cell_ex, matrix_ex, comp_ex};
ghost use Rattle.ess_core_nodes.specs.NodeViews.{pure_node, pure_nodes, pure_gens, pure_dom, pure_op};
ghost use Rattle.ess_guard_laws.specs.Conditions.{chained as chained_under, matrix_conditions as matrix_asks, own as own_asks};
ghost use Rattle.ess_guard_laws.specs.Guard.{own_at as own_asked};
ghost use Rattle.ess_guard_forms.specs.KnownNames.{pure_known};
ghost use Rattle.ess_guard.specs.Steps.{around as asked_around, around_all as asked_around_all};
ghost use Rattle.ess_guard.specs.StepViews.{pure_step};

use ess_core_nodes::{Gen, Node, NodeDom, Op};
use ess_guard_conditions::{
    Rules, chained, every, given_that, matrix_conditions, one_gen, own, own_at,
};
use ess_guard_forms::KnownName;
use ess_node_building::{comprehension, joined};
use ess_rows::{Boxed, NoMemory, Row, Text};
use std::alloc::Global;

/// A generator or condition, made total, with what is asked before it.
#[derive(Drop)]
pub struct Asked {
    pub item: Boxed<Gen>,
    pub asked: Row<Node>,
}

/// An operator's node with a copy of the operator.
pub(crate) fn op_node(
    alloc: Global,
    mark: bool,
    op: &Op,
    parts: Row<Node>,
) -> Result<Boxed<Node>, NoMemory>
    ensures { IfOk result (λ n. pure_node n ≡ node_ex mark (pure_op op.now) (pure_nodes parts)) }
{
    let op = op.copy(alloc)?;
    Boxed::new(alloc, Node::Op(mark, op, parts))
}

/// A Boolean that is no connective, under its conditions: `parts` are the operands made total, and `asked` their conditions.
pub(crate) fn guarded_truth(
    alloc: Global,
    rules: &Rules,
    known: &[KnownName],
    op: &Op,
    parts: Row<Node>,
    asked: Row<Node>,
) -> Result<Boxed<Node>, NoMemory>
    ensures { IfOk result (λ n. pure_node n ≡ chained_under
        (map pure_node asked ++ own_asks (pure_known known.now) rules.now.first rules.now.second
        (pure_op op.now) (pure_nodes parts))
        (node_ex true (pure_op op.now) (pure_nodes parts))) }
{
    let by_itself = own(
        alloc,
        known,
        &rules.first,
        &rules.second,
        op,
        parts.as_slice(),
    )?;
    let conditions = joined(asked, by_itself)?;
    let node = op_node(alloc, true, op, parts)?;
    chained(alloc, conditions, node)
}

/// A term that is no connective, with its conditions.
pub(crate) fn guarded_term(
    alloc: Global,
    rules: &Rules,
    known: &[KnownName],
    there: bool,
    op: &Op,
    parts: Row<Node>,
    asked: Row<Node>,
) -> Result<(Boxed<Node>, Row<Node>), NoMemory>
    ensures node { IfOk result (λ r. pure_node r.0 ≡ node_ex false (pure_op op.now) (pure_nodes parts)) }
    ensures asked { IfOk result (λ r. map pure_node r.1
        ≡ map pure_node asked ++ own_asked rules.now.natural rules.now.first rules.now.second (pure_known known.now) there
        (pure_op op.now) (pure_nodes parts)) }
{
    let by_itself = own_at(alloc, rules, known, there, op, parts.as_slice())?;
    let conditions = joined(asked, by_itself)?;
    let node = op_node(alloc, false, op, parts)?;
    Ok((node, conditions))
}

/// A cell: one of a truth value stands under the conditions of its index list, and asks nothing.
pub(crate) fn guarded_cell(
    alloc: Global,
    mark: bool,
    name: &Text,
    parts: Row<Node>,
    asked: Row<Node>,
) -> Result<(Boxed<Node>, Row<Node>), NoMemory>
    ensures node { IfOk result (λ r. pure_node r.0
        ≡ (if mark then chained_under (map pure_node asked) (cell_ex true name.now (pure_nodes parts))
        else cell_ex false name.now (pure_nodes parts))) }
    ensures asked { IfOk result (λ r. map pure_node r.1 ≡ (if mark then [] else map pure_node asked)) }
{
    let name = name.copy(alloc)?;
    let cell = Boxed::new(alloc, Node::Cell(mark, name, parts))?;
    if mark {
        Ok((chained(alloc, asked, cell)?, Row::new(alloc)))
    } else {
        Ok((cell, asked))
    }
}

/// A matrix literal over an index domain, from its parts with what they ask.
pub(crate) fn guarded_matrix(
    alloc: Global,
    rules: &Rules,
    items: &[Node],
    parts: (Row<Node>, Row<Node>),
    axis: (Boxed<NodeDom>, Row<Node>),
) -> Result<(Boxed<Node>, Row<Node>), NoMemory>
    ensures node { IfOk result (λ r. pure_node r.0 ≡ matrix_ex (pure_nodes parts.0) (pure_dom axis.0)) }
    ensures asked { IfOk result (λ r. map pure_node r.1
        ≡ map pure_node parts.1 ++ (map pure_node axis.1 ++ matrix_asks rules.now.first (pure_nodes items.now) (pure_dom axis.0))) }
{
    let (parts, asked) = parts;
    let (axis, asked_of_axis) = axis;
    let by_itself = matrix_conditions(alloc, &rules.first, items, axis.get())?;
    let asked_of_axis = joined(asked_of_axis, by_itself)?;
    let asked = joined(asked, asked_of_axis)?;
    let node = Boxed::new(alloc, Node::MatrixOn(parts, axis))?;
    Ok((node, asked))
}

/// A comprehension from its generators, with what is asked before each, and its body with its conditions.
pub(crate) fn guarded_comp(
    alloc: Global,
    gens: (Row<Gen>, Row<Asked>),
    body: (Boxed<Node>, Row<Node>),
) -> Result<(Boxed<Node>, Row<Node>), NoMemory>
    ensures node { IfOk result (λ r. pure_node r.0 ≡ comp_ex (pure_node body.0) (pure_gens gens.0)) }
    ensures asked { IfOk result (λ r. map pure_node r.1 ≡ asked_around_all (map pure_step gens.1) (map pure_node body.1)) }
{
    let (gens, steps) = gens;
    let (body, asked) = body;
    let asked = around_all(alloc, steps, asked)?;
    let node = comprehension(alloc, body, gens)?;
    Ok((node, asked))
}

/// Conditions that hold behind a generator or condition, as they are asked before it.
#[tactic(auto, using(ess_core_nodes::proofs::NodeEquations::pure_gen_over, ess_core_nodes::proofs::NodeEquations::pure_gen_from, ess_core_nodes::proofs::NodeEquations::pure_gen_if))]
fn around(alloc: Global, step: Asked, behind: Row<Node>) -> Result<Row<Node>, NoMemory>
    ensures { IfOk result (λ ns. map pure_node ns ≡ asked_around (pure_step step) (map pure_node behind)) }
{
    let Asked { item, asked } = step;
    match item.into_inner() {
        Gen::If(condition) => {
            drop(asked);
            given_that(alloc, condition, behind)
        }
        Gen::Over(pat, dom) => {
            let gens = one_gen(alloc, Gen::Over(pat, dom))?;
            joined(asked, every(alloc, gens, behind)?)
        }
        Gen::From(pat, node) => {
            let gens = one_gen(alloc, Gen::From(pat, node))?;
            joined(asked, every(alloc, gens, behind)?)
        }
    }
}

/// Conditions that hold behind several, as they are asked before them.
#[tactic(auto, using(crate::proofs::StepParts::around_last, std::proofs::lemmas::List::map_push))]
fn around_all(
    alloc: Global,
    mut steps: Row<Asked>,
    behind: Row<Node>,
) -> Result<Row<Node>, NoMemory>
    ensures { IfOk result (λ ns. map pure_node ns ≡ asked_around_all (map pure_step steps) (map pure_node behind)) }
{
    let mut conditions = behind;
    while let Some(step) = steps.pop() {
        conditions = around(alloc, step, conditions)?;
    }
    Ok(conditions)
}
