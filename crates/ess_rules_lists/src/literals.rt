//! The rules of operators on literals: a component of a tuple, a field of a record, `allDiff` of a list, `min` and `max` of a set or
//! multiset.
ghost use Rattle.std.specs.Prelude.{◌≡◌, Bool, [], ◌∷◌, true, false, option_map, IfOk};
ghost use Rattle.std.specs.Option.{option_copied};
ghost use Rattle.ess_semantics.specs.Trees.{to_component, to_field, index, set_literal, mset_literal, matrix_literal, node_ex, fun1};
ghost use Rattle.ess_core_nodes.specs.NodeViews.{pure_node, pure_nodes};
ghost use Rattle.ess_rules_laws.specs.LiteralRules.{component_listed as picked, different_listed as told_apart, extreme_listed as listed};
ghost use Rattle.ess_rules_laws.specs.FieldLiterals.{field_listed as field_picked};

use crate::items::{field_item, nth, unequal_pairs};
use ess_core::Fun;
use ess_core_nodes::{Node, Op, Step, copy_nodes};
use ess_node_building::{literal, word};
use ess_node_operands::{Operands, by_number};
use ess_rows::{Boxed, NoMemory, Text};
use std::alloc::Global;

/// `(a, b, ..)[k]` is the k-th of these. `NoMemory` where there is no room for it.
#[tactic(auto, using(ess_core_nodes::proofs::NodeEquations::pure_seen_is))]
pub fn component_listed(alloc: Global, node: &Node) -> Result<Option<Boxed<Node>>, NoMemory>
    ensures { IfOk result (λ o. option_map pure_node o ≡ picked (pure_node node.now)) }
{
    match node {
        Node::Op(_, Op::Index(steps), operands) => match steps.as_slice().split_first() {
            Some((Step::Component(at), rest)) => match rest.split_first() {
                None => component_of(alloc, *at, operands.as_slice()),
                Some(_) => Ok(None),
            },
            _ => Ok(None),
        },
        _ => Ok(None),
    }
}

/// A component of a tuple, which is the only operand.
#[tactic(auto, using(ess_core_nodes::proofs::NodeEquations::pure_seen_is))]
fn component_of(alloc: Global, at: u64, operands: &[Node]) -> Result<Option<Boxed<Node>>, NoMemory>
    ensures { IfOk result (λ o. (b : Bool) → option_map pure_node o ≡ picked (node_ex b (index (to_component at ∷ [])) (pure_nodes operands.now))) }
{
    match by_number(operands) {
        Operands::One(tuple) => match tuple {
            Node::Op(false, Op::Tuple, items) => copied(alloc, nth(items.as_slice(), at)),
            _ => Ok(None),
        },
        _ => Ok(None),
    }
}

/// A copy of a tree that is there.
fn copied(alloc: Global, node: Option<&Node>) -> Result<Option<Boxed<Node>>, NoMemory>
    ensures { IfOk result (λ o. o ≡ option_copied node.entry) }
{
    match node {
        None => Ok(None),
        Some(node) => Ok(Some(node.copy(alloc)?)),
    }
}

/// `record {a = e, ..}[a]` is e. `NoMemory` where there is no room for it.
#[tactic(auto, using(ess_core_nodes::proofs::NodeEquations::pure_seen_is))]
pub fn field_listed(alloc: Global, node: &Node) -> Result<Option<Boxed<Node>>, NoMemory>
    ensures { IfOk result (λ o. option_map pure_node o ≡ field_picked (pure_node node.now)) }
{
    match node {
        Node::Op(_, Op::Index(steps), operands) => match steps.as_slice().split_first() {
            Some((Step::Field(name), rest)) => match rest.split_first() {
                None => field_of(alloc, name, operands.as_slice()),
                Some(_) => Ok(None),
            },
            _ => Ok(None),
        },
        _ => Ok(None),
    }
}

/// A field of a record, which is the only operand.
#[tactic(auto, using(ess_core_nodes::proofs::NodeEquations::pure_seen_is))]
fn field_of(alloc: Global, name: &Text, operands: &[Node]) -> Result<Option<Boxed<Node>>, NoMemory>
    ensures { IfOk result (λ o. (b : Bool) → option_map pure_node o ≡ field_picked (node_ex b (index (to_field name.now ∷ [])) (pure_nodes operands.now))) }
{
    match by_number(operands) {
        Operands::One(record) => match record {
            Node::Op(false, Op::Record(names), items) => {
                copied(alloc, field_item(names.as_slice(), items.as_slice(), name))
            }
            _ => Ok(None),
        },
        _ => Ok(None),
    }
}

/// `allDiff([a, b, c, ..])` is `and([b != a, c != a, .., c != b, ..])`. `NoMemory` where there is no room for it.
#[tactic(auto, using(ess_core_nodes::proofs::NodeEquations::pure_seen_is))]
pub fn different_listed(alloc: Global, node: &Node) -> Result<Option<Boxed<Node>>, NoMemory>
    ensures { IfOk result (λ o. option_map pure_node o ≡ told_apart (pure_node node.now)) }
{
    match node {
        Node::Op(true, Op::Word(Fun::AllDiff), operands) => match by_number(operands.as_slice()) {
            Operands::One(list) => match list {
                Node::Op(false, Op::Matrix, items) => {
                    let pairs = unequal_pairs(alloc, items.as_slice())?;
                    let list = literal(alloc, Op::Matrix, pairs)?;
                    Ok(Some(word(alloc, true, Fun::And, list)?))
                }
                _ => Ok(None),
            },
            _ => Ok(None),
        },
        _ => Ok(None),
    }
}

/// `min({a, b, ..})` is `min([a, b, ..])`. So it is of multisets, and with `max`. `NoMemory` where there is no room for it.
#[tactic(auto, using(ess_core_nodes::proofs::NodeEquations::pure_seen_is))]
pub fn extreme_listed(alloc: Global, node: &Node) -> Result<Option<Boxed<Node>>, NoMemory>
    ensures { IfOk result (λ o. option_map pure_node o ≡ listed (pure_node node.now)) }
{
    match node {
        Node::Op(mark, Op::Word(word), operands) => match by_number(operands.as_slice()) {
            Operands::One(container) => extreme_of(alloc, *mark, *word, container),
            _ => Ok(None),
        },
        _ => Ok(None),
    }
}

/// The least or the greatest member of a literal.
#[tactic(auto, using(ess_core_nodes::proofs::NodeEquations::pure_seen_is))]
fn extreme_of(
    alloc: Global,
    mark: bool,
    fun: Fun,
    container: &Node,
) -> Result<Option<Boxed<Node>>, NoMemory>
    ensures { IfOk result (λ o. option_map pure_node o ≡ listed (fun1 mark fun (pure_node container.now))) }
{
    match container {
        Node::Op(false, Op::Set, items) => extreme_item(alloc, mark, fun, items.as_slice()),
        Node::Op(false, Op::MSet, items) => extreme_item(alloc, mark, fun, items.as_slice()),
        _ => Ok(None),
    }
}

/// The least or the greatest item.
fn extreme_item(
    alloc: Global,
    mark: bool,
    fun: Fun,
    items: &[Node],
) -> Result<Option<Boxed<Node>>, NoMemory>
    ensures set { IfOk result (λ o. option_map pure_node o ≡ listed (fun1 mark fun (node_ex false set_literal (pure_nodes items.now)))) }
    ensures multiset { IfOk result (λ o. option_map pure_node o ≡ listed (fun1 mark fun (node_ex false mset_literal (pure_nodes items.now)))) }
{
    match fun {
        Fun::Min => Ok(Some(word_of_items(alloc, mark, Fun::Min, items)?)),
        Fun::Max => Ok(Some(word_of_items(alloc, mark, Fun::Max, items)?)),
        _ => Ok(None),
    }
}

/// A word of a list literal.
fn word_of_items(
    alloc: Global,
    mark: bool,
    fun: Fun,
    items: &[Node],
) -> Result<Boxed<Node>, NoMemory>
    ensures { IfOk result (λ n. pure_node n ≡ fun1 mark fun (node_ex false matrix_literal (pure_nodes items.now))) }
{
    let items = copy_nodes(alloc, items)?;
    let list = literal(alloc, Op::Matrix, items)?;
    word(alloc, mark, fun, list)
}
