//! The recursion: each tree made total, with the conditions under which it has a value.
ghost use Rattle.std.specs.Prelude.{◌≡◌, true, false, IfOk, OnOk, map};
ghost use Rattle.ess_semantics.specs.Trees.{node_ex};
ghost use Rattle.ess_core_nodes.specs.NodeViews.{pure_node, pure_nodes, pure_gen, pure_op};
ghost use Rattle.ess_guard_laws.specs.Guard.{guarded, guarded_all, conditions, conditions_all};
ghost use Rattle.ess_guard_forms.specs.KnownNames.{pure_known};
ghost use Rattle.ess_guard.specs.Steps.{known_by, known_after, step_of, steps_of, items_of};
ghost use Rattle.ess_guard.specs.StepViews.{pure_step};

use crate::assembling::{
    Asked, guarded_cell, guarded_comp, guarded_matrix, guarded_term, guarded_truth, op_node,
};
use crate::guarding_domains::guard_dom;
use ess_core_nodes::{Gen, Node, Op};
use ess_guard_conditions::{Rules, opens, passes};
use ess_guard_forms::{KnownName, bind_any, bind_over, connects, copy_known};
use ess_rows::{Boxed, NoMemory, Row};
use std::alloc::Global;

/// A tree made total, with its conditions, where it is said whether it stands in a natural place. `NoMemory` where there is no room
/// for them.
#[cycle(guard)]
#[tactic(auto, using(crate::proofs::SeenParts::seen_guarded, crate::proofs::SeenParts::seen_asks))]
pub(crate) fn guard_node(
    alloc: Global,
    rules: &Rules,
    known: &[KnownName],
    there: bool,
    node: &Node,
) -> Result<(Boxed<Node>, Row<Node>), NoMemory>
    ensures node { IfOk result (λ r. pure_node r.0
        ≡ guarded rules.now.natural rules.now.first rules.now.second (pure_known known.now) (pure_node node.now)) }
    ensures asked { IfOk result (λ r. map pure_node r.1
        ≡ conditions rules.now.natural rules.now.first rules.now.second (pure_known known.now) there (pure_node node.now)) }
{
    match node {
        Node::Op(true, op, operands) => {
            let node = guard_truth(alloc, rules, known, op, operands.as_slice())?;
            Ok((node, Row::new(alloc)))
        }
        Node::Op(false, op, operands) => {
            guard_term(alloc, rules, known, there, op, operands.as_slice())
        }
        Node::MatrixOn(items, axis) => {
            let parts = guard_nodes(alloc, rules, known, false, items.as_slice())?;
            let axis = guard_dom(alloc, rules, known, axis.get())?;
            guarded_matrix(alloc, rules, items.as_slice(), parts, axis)
        }
        Node::Comp(body, gens) => {
            let mut inner = copy_known(alloc, known)?;
            let gens = guard_gens(alloc, rules, &mut inner, gens.as_slice())?;
            let body = guard_node(alloc, rules, inner.as_slice(), false, body.get())?;
            guarded_comp(alloc, gens, body)
        }
        Node::Cell(mark, name, at) => {
            let (parts, asked) = guard_nodes(alloc, rules, known, false, at.as_slice())?;
            guarded_cell(alloc, *mark, name, parts, asked)
        }
        Node::Number(_) | Node::Truth(_) | Node::Name(_) | Node::Seen(_) => {
            Ok((node.copy(alloc)?, Row::new(alloc)))
        }
    }
}

/// A Boolean made total, which is an operator's node. It asks nothing.
#[cycle(guard)]
fn guard_truth(
    alloc: Global,
    rules: &Rules,
    known: &[KnownName],
    op: &Op,
    operands: &[Node],
) -> Result<Boxed<Node>, NoMemory>
    ensures { IfOk result (λ n. pure_node n
        ≡ guarded rules.now.natural rules.now.first rules.now.second (pure_known known.now)
        (node_ex true (pure_op op.now) (pure_nodes operands.now))) }
{
    if connects(op) {
        let (parts, asked) = guard_nodes(alloc, rules, known, false, operands)?;
        drop(asked);
        op_node(alloc, true, op, parts)
    } else {
        let opened = opens(rules, op);
        let (parts, asked) = guard_nodes(alloc, rules, known, opened, operands)?;
        guarded_truth(alloc, rules, known, op, parts, asked)
    }
}

/// The same of a term that is an operator's node, with its conditions.
#[cycle(guard)]
fn guard_term(
    alloc: Global,
    rules: &Rules,
    known: &[KnownName],
    there: bool,
    op: &Op,
    operands: &[Node],
) -> Result<(Boxed<Node>, Row<Node>), NoMemory>
    ensures node { IfOk result (λ r. pure_node r.0
        ≡ guarded rules.now.natural rules.now.first rules.now.second (pure_known known.now)
        (node_ex false (pure_op op.now) (pure_nodes operands.now))) }
    ensures asked { IfOk result (λ r. map pure_node r.1
        ≡ conditions rules.now.natural rules.now.first rules.now.second (pure_known known.now) there
        (node_ex false (pure_op op.now) (pure_nodes operands.now))) }
{
    if connects(op) {
        let (parts, asked) = guard_nodes(alloc, rules, known, false, operands)?;
        drop(asked);
        Ok((op_node(alloc, false, op, parts)?, Row::new(alloc)))
    } else {
        let passed = passes(rules, there, op);
        let (parts, asked) = guard_nodes(alloc, rules, known, passed, operands)?;
        guarded_term(alloc, rules, known, there, op, parts, asked)
    }
}

/// The same of several trees, with their conditions one behind the other.
#[cycle(guard)]
pub(crate) fn guard_nodes(
    alloc: Global,
    rules: &Rules,
    known: &[KnownName],
    there: bool,
    nodes: &[Node],
) -> Result<(Row<Node>, Row<Node>), NoMemory>
    ensures nodes { IfOk result (λ r. pure_nodes r.0
        ≡ guarded_all rules.now.natural rules.now.first rules.now.second (pure_known known.now) (pure_nodes nodes.now)) }
    ensures asked { IfOk result (λ r. map pure_node r.1
        ≡ conditions_all rules.now.natural rules.now.first rules.now.second (pure_known known.now) there (pure_nodes nodes.now)) }
{
    let mut parts = Row::with_capacity(alloc, nodes.len())?;
    let mut conditions = Row::new(alloc);
    for node in nodes {
        let (part, mut asked) = guard_node(alloc, rules, known, there, node)?;
        parts.push(part.into_inner())?;
        conditions.append(&mut asked)?;
    }
    Ok((parts, conditions))
}

/// The same of generators and conditions: they are answered, and each beside what is asked before it. The names that they bind come
/// behind those that are known.
#[cycle(guard)]
fn guard_gens(
    alloc: Global,
    rules: &Rules,
    known: &mut Row<KnownName>,
    items: &[Gen],
) -> Result<(Row<Gen>, Row<Asked>), NoMemory>
    ensures gens { IfOk result (λ r. map pure_gen r.0
        ≡ items_of (steps_of rules.now.natural rules.now.first rules.now.second (pure_known known.old) (map pure_gen items.now))) }
    ensures steps { IfOk result (λ r. map pure_step r.1
        ≡ steps_of rules.now.natural rules.now.first rules.now.second (pure_known known.old) (map pure_gen items.now)) }
    ensures known { OnOk result (pure_known known.new ≡ known_after (map pure_gen items.now) (pure_known known.old)) }
{
    let mut gens = Row::with_capacity(alloc, items.len())?;
    let mut steps = Row::with_capacity(alloc, items.len())?;
    for item in items {
        let step = guard_gen(alloc, rules, known, item)?;
        let copy = step.item.get().copy(alloc)?;
        gens.push(copy.into_inner())?;
        steps.push(step)?;
    }
    Ok((gens, steps))
}

/// The same of one generator or condition.
#[cycle(guard)]
#[tactic(auto, using(ess_core_nodes::proofs::NodeEquations::pure_gen_over, ess_core_nodes::proofs::NodeEquations::pure_gen_from, ess_core_nodes::proofs::NodeEquations::pure_gen_if))]
fn guard_gen(
    alloc: Global,
    rules: &Rules,
    known: &mut Row<KnownName>,
    item: &Gen,
) -> Result<Asked, NoMemory>
    ensures step { IfOk result (λ s. pure_step s
        ≡ step_of rules.now.natural rules.now.first rules.now.second (pure_known known.old) (pure_gen item.now)) }
    ensures known { OnOk result (pure_known known.new ≡ known_by (pure_gen item.now) (pure_known known.old)) }
{
    match item {
        Gen::Over(pat, dom) => {
            let (total, asked) = guard_dom(alloc, rules, known.as_slice(), dom.get())?;
            bind_over(alloc, known, pat, dom.get())?;
            let pat = pat.copy(alloc)?;
            let item = Boxed::new(alloc, Gen::Over(pat, total))?;
            Ok(Asked { item, asked })
        }
        Gen::From(pat, node) => {
            let (total, asked) = guard_node(alloc, rules, known.as_slice(), false, node.get())?;
            bind_any(alloc, known, pat)?;
            let pat = pat.copy(alloc)?;
            let item = Boxed::new(alloc, Gen::From(pat, total))?;
            Ok(Asked { item, asked })
        }
        Gen::If(node) => {
            let (total, asked) = guard_node(alloc, rules, known.as_slice(), false, node.get())?;
            drop(asked);
            let item = Boxed::new(alloc, Gen::If(total))?;
            Ok(Asked {
                item,
                asked: Row::new(alloc),
            })
        }
    }
}
