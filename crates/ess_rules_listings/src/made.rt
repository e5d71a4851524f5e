//! What terms made of functions and of partitions offer, and literals of these.
ghost use Rattle.std.specs.Prelude.{◌≡◌, false, IfOk, option_map, map};
ghost use Rattle.ess_semantics.specs.Trees.{word, node_ex};
ghost use Rattle.ess_core_nodes.specs.NodeViews.{pure_node, pure_nodes, pure_op};
ghost use Rattle.ess_node_types.specs.TypedNames.{pure_names};
ghost use Rattle.ess_rules_laws.specs.ContainerListings.{made_listing};
ghost use Rattle.ess_rules_forms.specs.PureAlternatives.{pure_alternative};
ghost use Rattle.ess_rules_listings.specs.Marks.{pair_offered};

use crate::made_words::{made_word, pre_image};
use crate::rows::{each_first, each_item};
use ess_core::Fun;
use ess_core_nodes::{Node, Op};
use ess_node_types::NameTypes;
use ess_rows::{NoMemory, Row, Text};
use ess_rules_forms::{Alternative, only_in, pair_in};
use std::alloc::Global;

/// The alternatives of a term; its members and the parts of a partition are called by the names. `NoMemory` where there is no room for
/// them.
#[tactic(auto, using(ess_core_nodes::proofs::NodeEquations::pure_seen_is))]
pub fn made_listing(
    alloc: Global,
    names: &NameTypes,
    one: &Text,
    other: &Text,
    node: &Node,
) -> Result<Option<Row<Alternative>>, NoMemory>
    ensures { IfOk result (λ o. option_map (map pure_alternative) o
        ≡ made_listing (pure_names names.now) one.now other.now (pure_node node.now)) }
{
    match node {
        Node::MatrixOn(items, _) => Ok(Some(each_item(alloc, items.as_slice())?)),
        Node::Op(false, op, operands) => made_op(alloc, names, one, other, op, operands.as_slice()),
        _ => Ok(None),
    }
}

/// The alternatives of an operator's node.
fn made_op(
    alloc: Global,
    names: &NameTypes,
    one: &Text,
    other: &Text,
    op: &Op,
    operands: &[Node],
) -> Result<Option<Row<Alternative>>, NoMemory>
    ensures { IfOk result (λ o. option_map (map pure_alternative) o
        ≡ made_listing (pure_names names.now) one.now other.now (node_ex false (pure_op op.now) (pure_nodes operands.now))) }
{
    match op {
        Op::Function => Ok(Some(each_first(alloc, operands)?)),
        Op::Partition => Ok(Some(each_item(alloc, operands)?)),
        Op::Word(fun) => made_by_word(alloc, names, one, other, *fun, operands),
        _ => Ok(None),
    }
}

/// The alternatives of a word.
#[tactic(auto, using(crate::proofs::MadeForms::word_by_operands))]
fn made_by_word(
    alloc: Global,
    names: &NameTypes,
    one: &Text,
    other: &Text,
    fun: Fun,
    operands: &[Node],
) -> Result<Option<Row<Alternative>>, NoMemory>
    ensures { IfOk result (λ o. option_map (map pure_alternative) o
        ≡ made_listing (pure_names names.now) one.now other.now (node_ex false (word fun) (pure_nodes operands.now))) }
{
    if let Some(source) = only_in(operands) {
        return made_word(alloc, names, one, other, fun, source);
    }
    match pair_in(operands) {
        Some((first, second)) => made_pair(alloc, names, one, fun, first, second),
        None => Ok(None),
    }
}

/// The alternatives of a word of two terms.
fn made_pair(
    alloc: Global,
    names: &NameTypes,
    one: &Text,
    fun: Fun,
    first: &Node,
    second: &Node,
) -> Result<Option<Row<Alternative>>, NoMemory>
    ensures { IfOk result (λ o. option_map (map pure_alternative) o
        ≡ pair_offered (pure_names names.now) one.now fun (pure_node first.now) (pure_node second.now)) }
{
    match fun {
        Fun::PreImage => pre_image(alloc, names, one, first, second),
        _ => Ok(None),
    }
}
