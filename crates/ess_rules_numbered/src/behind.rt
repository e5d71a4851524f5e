//! A comprehension by the source at its first generator that isn't plain, and an item of a list by its parts.
ghost use Rattle.std.specs.Prelude.{◌≡◌, option_map, IfOk};
ghost use Rattle.ess_core_nodes.specs.NodeViews.{pure_node};
ghost use Rattle.ess_rules_numbered.specs.BehindForms.{pure_behind, behind_parts, with_source as over_source, item_parts};
ghost use Rattle.ess_rules_numbered.specs.CountedForms.{item_at as indexed};

use ess_core_nodes::{Gen, Node, Op, Step};
use ess_node_building::{comprehension, two};
use ess_rows::{Boxed, NoMemory, Row, Text};
use ess_rules_folds::forms::{comp_in, source_in};
use ess_rules_forms::pair_in;
use ess_rules_opening::at_first_open;
use ess_rules_ordered::bound_behind;
use std::alloc::Global;

/// A comprehension whose first generator that isn't plain binds a name over a source.
#[derive(Clone, Copy)]
pub(crate) struct Behind<'a> {
    /// The body.
    pub body: &'a Node,
    /// The generators and conditions before that generator.
    pub before: &'a [Gen],
    /// The name that it binds.
    pub name: &'a Text,
    /// The source.
    pub source: &'a Node,
    /// What stands behind it.
    pub rest: &'a [Gen],
}

/// The parts of such a comprehension.
pub(crate) fn behind_in(node: &Node) -> Option<Behind<'_>>
    ensures { option_map pure_behind result ≡ behind_parts (pure_node node.now) }
{
    let Some((body, gens)) = comp_in(node) else {
        return None;
    };
    let Some(opened) = at_first_open(gens) else {
        return None;
    };
    match source_in(opened.after) {
        Some((name, source, rest)) => Some(Behind {
            body,
            before: opened.before,
            name,
            source,
            rest,
        }),
        None => None,
    }
}

/// The same comprehension over another source. `NoMemory` where there is no room for it.
pub(crate) fn with_source(
    alloc: Global,
    parts: &Behind<'_>,
    source: Boxed<Node>,
) -> Result<Boxed<Node>, NoMemory>
    ensures { IfOk result (λ n. pure_node n ≡ over_source (pure_behind parts.now) (pure_node source)) }
{
    let gens = bound_behind(alloc, parts.before, parts.name, source, parts.rest)?;
    let body = parts.body.copy(alloc)?;
    comprehension(alloc, body, gens)
}

/// An item of a list: whether it is Boolean, the list and the index.
#[tactic(auto, using(ess_core_nodes::proofs::NodeEquations::pure_seen_is, crate::proofs::BehindForms::item_by_operands))]
pub(crate) fn item_in(node: &Node) -> Option<(bool, (&Node, &Node))>
    ensures { option_map (λ p. (p.0, (pure_node p.1.0.now, pure_node p.1.1.now))) result ≡ item_parts (pure_node node.now) }
{
    match node {
        Node::Op(mark, Op::Index(steps), operands) => match steps.as_slice().split_first() {
            Some((Step::Value, rest)) => match rest.split_first() {
                None => match pair_in(operands.as_slice()) {
                    Some(pair) => Some((*mark, pair)),
                    None => None,
                },
                Some(_) => None,
            },
            _ => None,
        },
        _ => None,
    }
}

/// The item of a list at an index. `NoMemory` where there is no room for it.
pub(crate) fn item_by_number(
    alloc: Global,
    mark: bool,
    list: Boxed<Node>,
    at: &Node,
) -> Result<Boxed<Node>, NoMemory>
    ensures { IfOk result (λ n. pure_node n ≡ indexed mark (pure_node list) (pure_node at.now)) }
{
    let at = at.copy(alloc)?;
    let operands = two(alloc, list, at)?;
    let mut steps = Row::new(alloc);
    steps.push(Step::Value)?;
    Boxed::new(alloc, Node::Op(mark, Op::Index(steps), operands))
}
