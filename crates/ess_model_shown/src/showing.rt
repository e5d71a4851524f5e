//! Expressions over tables: what stands in the place of names is put in.
ghost use Rattle.std.specs.Prelude.{◌≡◌, Some, IfOk};
ghost use Rattle.std.specs.Option.{option_copied};
ghost use Rattle.ess_semantics.specs.Trees.{node_ex};
ghost use Rattle.ess_core_nodes.specs.NodeViews.{pure_node, pure_nodes, pure_gen, pure_gens, pure_op};
ghost use Rattle.conjure_model_laws.specs.Shown.{in_place, shown, shown_all, shown_gens};
ghost use Rattle.ess_model_shown.specs.ShownParts.{second_name, member_name, with_last, shown_item};
ghost use Rattle.ess_model_shown.specs.Tables.{pure_names, pure_shows};

use crate::shown_domains::shown_dom;
use crate::shows::{NodeNames, Shows};
use ess_core::Op2;
use ess_core_nodes::{Gen, Node, Op};
use ess_node_building::{comprehension, number, truth};
use ess_node_remaking::{
    cell_at, condition_on, matrix_on, operator, over_domain, over_value, view,
};
use ess_rows::{Boxed, NoMemory, Row, Text};
use std::alloc::Global;

/// The tree over tables: in the place of a name comes what stands for it, and the last view in the place of a name that is the
/// right operand of `in`. `NoMemory` where there is no room for it.
#[cycle(shown)]
#[tactic(auto, using(ess_core_nodes::proofs::NodeEquations::pure_seen_is))]
pub fn shown(alloc: Global, shows: &Shows, node: &Node) -> Result<Boxed<Node>, NoMemory>
    ensures { IfOk result (λ n. pure_node n ≡ shown (pure_shows shows.now) (pure_node node.now)) }
{
    match node {
        Node::Number(value) => number(alloc, *value),
        Node::Truth(value) => truth(alloc, *value),
        Node::Name(name) => in_place(alloc, &shows.first, name),
        Node::Op(mark, op, operands) => {
            let all = shown_all(alloc, shows, operands.as_slice())?;
            shown_op(alloc, shows, *mark, op, operands.as_slice(), all)
        }
        Node::MatrixOn(items, axis) => {
            let items = shown_all(alloc, shows, items.as_slice())?;
            let axis = shown_dom(alloc, shows, axis.get())?;
            matrix_on(alloc, items, axis)
        }
        Node::Comp(body, gens) => {
            let body = shown(alloc, shows, body.get())?;
            let gens = shown_gens(alloc, shows, gens.as_slice())?;
            comprehension(alloc, body, gens)
        }
        Node::Cell(is_bool, name, at) => {
            let at = shown_all(alloc, shows, at.as_slice())?;
            cell_at(alloc, *is_bool, name, at)
        }
        Node::Seen(seen) => view(alloc, seen.get()),
    }
}

/// The same of operands.
#[cycle(shown)]
pub(crate) fn shown_all(alloc: Global, shows: &Shows, nodes: &[Node]) -> Result<Row<Node>, NoMemory>
    ensures { IfOk result (λ ns. pure_nodes ns ≡ shown_all (pure_shows shows.now) (pure_nodes nodes.now)) }
{
    let mut all = Row::with_capacity(alloc, nodes.len())?;
    for node in nodes {
        let item = shown(alloc, shows, node)?;
        all.push(item.into_inner())?;
    }
    Ok(all)
}

/// The same of generators and conditions.
#[cycle(shown)]
fn shown_gens(alloc: Global, shows: &Shows, gens: &[Gen]) -> Result<Row<Gen>, NoMemory>
    ensures { IfOk result (λ gs. pure_gens gs ≡ shown_gens (pure_shows shows.now) (pure_gens gens.now)) }
{
    let mut all = Row::with_capacity(alloc, gens.len())?;
    for item in gens {
        let shown = shown_gen(alloc, shows, item)?;
        all.push(shown.into_inner())?;
    }
    Ok(all)
}

/// The same of a generator or condition.
#[cycle(shown)]
#[tactic(auto, using(ess_core_nodes::proofs::NodeEquations::pure_gen_over, ess_core_nodes::proofs::NodeEquations::pure_gen_from, ess_core_nodes::proofs::NodeEquations::pure_gen_if))]
fn shown_gen(alloc: Global, shows: &Shows, item: &Gen) -> Result<Boxed<Gen>, NoMemory>
    ensures { IfOk result (λ g. pure_gen g ≡ shown_item (pure_shows shows.now) (pure_gen item.now)) }
{
    match item {
        Gen::Over(pat, dom) => {
            let dom = shown_dom(alloc, shows, dom.get())?;
            over_domain(alloc, pat, dom)
        }
        Gen::From(pat, source) => {
            let source = shown(alloc, shows, source.get())?;
            over_value(alloc, pat, source)
        }
        Gen::If(condition) => {
            let condition = shown(alloc, shows, condition.get())?;
            condition_on(alloc, condition)
        }
    }
}

/// A copy of an operator with its operands over tables, by the operands that it had and what is shown of these.
#[tactic(auto, using(crate::proofs::ShownParts::op_node_shown))]
fn shown_op(
    alloc: Global,
    shows: &Shows,
    mark: bool,
    op: &Op,
    operands: &[Node],
    all: Row<Node>,
) -> Result<Boxed<Node>, NoMemory>
    ensures { IfOk result (λ n. pure_nodes all ≡ shown_all (pure_shows shows.now) (pure_nodes operands.now)
        → pure_node n ≡ shown (pure_shows shows.now) (node_ex mark (pure_op op.now) (pure_nodes operands.now))) }
{
    let all = with_member(alloc, &shows.last, op, operands, all)?;
    operator(alloc, mark, op, all)
}

/// What stands for a name, else the name.
fn in_place(alloc: Global, names: &NodeNames, name: &Text) -> Result<Boxed<Node>, NoMemory>
    ensures { IfOk result (λ n. pure_node n ≡ in_place (pure_names names.now) name.now) }
{
    match names.look(name) {
        Some(node) => node.copy(alloc),
        None => {
            let name = name.copy(alloc)?;
            Boxed::new(alloc, Node::Name(name))
        }
    }
}

/// Operands that are shown: where a name is the right operand of `in`, what stands for it comes behind the first.
fn with_member(
    alloc: Global,
    names: &NodeNames,
    op: &Op,
    operands: &[Node],
    all: Row<Node>,
) -> Result<Row<Node>, NoMemory>
    ensures { IfOk result (λ ns. pure_nodes ns
        ≡ with_last (pure_names names.now) (member_name (pure_op op.now) (pure_nodes operands.now)) (pure_nodes all)) }
{
    match member_name(op, operands) {
        Some(name) => with_last(alloc, names, name, all),
        None => Ok(all),
    }
}

/// The first of the operands, and behind it what stands for the name.
#[tactic(auto, using(crate::proofs::ShownParts::last_put))]
fn with_last(
    alloc: Global,
    names: &NodeNames,
    name: &Text,
    mut operands: Row<Node>,
) -> Result<Row<Node>, NoMemory>
    ensures { IfOk result (λ ns. pure_nodes ns ≡ with_last (pure_names names.now) (Some name.now) (pure_nodes operands)) }
{
    let node = in_place(alloc, names, name)?;
    operands.truncate(1);
    operands.push(node.into_inner())?;
    Ok(operands)
}

/// The name that is the right operand of `in`.
fn member_name<'a>(op: &Op, operands: &'a [Node]) -> Option<&'a Text>
    ensures { option_copied result ≡ member_name (pure_op op.now) (pure_nodes operands.now) }
{
    match op {
        Op::Binary(Op2::Member) => second_name(operands),
        _ => None,
    }
}

/// The second of two operands, where it is a name.
#[tactic(auto, using(crate::proofs::ShownParts::second_of, crate::proofs::ShownParts::second_none))]
fn second_name(operands: &[Node]) -> Option<&Text>
    ensures { option_copied result ≡ second_name (pure_nodes operands.now) }
{
    if operands.len() != 2 {
        return None;
    }
    match &operands[1] {
        Node::Name(name) => Some(name),
        _ => None,
    }
}
