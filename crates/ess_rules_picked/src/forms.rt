//! What picks a value out of a term, and the terms at one index.
ghost use Rattle.std.specs.Prelude.{◌≡◌, map, option_map};
ghost use Rattle.std.specs.Option.{option_copied};
ghost use Rattle.ess_core_nodes.specs.NodeViews.{pure_node, pure_nodes, pure_step};
ghost use Rattle.ess_kind_rules_laws.specs.TermLookups.{picks, picked_within};
ghost use Rattle.ess_rules_picked.specs.Picked.{picks_at, picks_alone, within_at, indexed, has_one_step};

use ess_core::Fun;
use ess_core_nodes::{Node, Op, Step};
use ess_rules_forms::pair_in;

/// Whether the tree picks a value out of a term: an item, a result, a part, or a component or field of one of these.
#[cycle(picked)]
#[tactic(auto, using(ess_core_nodes::proofs::NodeEquations::pure_seen_is, crate::proofs::PickedForms::picks_by_steps))]
pub fn picks(node: &Node) -> bool
    ensures { result ≡ picks (pure_node node.now) }
{
    match node {
        Node::Op(_, Op::Index(steps), operands) => picks_at(steps.as_slice(), operands.as_slice()),
        Node::Op(_, Op::Apply | Op::Word(Fun::Image | Fun::Party), _) => true,
        _ => false,
    }
}

/// The same of an index.
#[cycle(picked)]
fn picks_at(steps: &[Step], operands: &[Node]) -> bool
    ensures { result ≡ picks_at (map pure_step steps.now) (pure_nodes operands.now) }
{
    match steps.split_first() {
        None => false,
        Some((step, rest)) => match rest.split_first() {
            Some(_) => false,
            None => match step {
                Step::Value => true,
                _ => picks_alone(operands),
            },
        },
    }
}

/// Whether the only operand picks a value.
#[cycle(picked)]
fn picks_alone(operands: &[Node]) -> bool
    ensures { result ≡ picks_alone (pure_nodes operands.now) }
{
    match operands.split_first() {
        None => false,
        Some((first, rest)) => match rest.split_first() {
            Some(_) => false,
            None => picks(first),
        },
    }
}

/// The matrix, tuple or record of which the tree picks an item, a component or a field, where it is picked itself.
#[tactic(auto, using(ess_core_nodes::proofs::NodeEquations::pure_seen_is, crate::proofs::PickedForms::within_by_steps, crate::proofs::PickedForms::within_otherwise))]
pub fn picked_within(node: &Node) -> Option<&Node>
    ensures { option_map pure_node (option_copied result) ≡ picked_within (pure_node node.now) }
{
    match node {
        Node::Op(_, Op::Index(steps), operands) => {
            if has_one_step(steps.as_slice()) {
                within(operands.as_slice())
            } else {
                None
            }
        }
        _ => None,
    }
}

/// Whether there is one step.
fn has_one_step(steps: &[Step]) -> bool
    ensures { result ≡ has_one_step (map pure_step steps.now) }
{
    match steps.split_first() {
        None => false,
        Some((_, rest)) => match rest.split_first() {
            None => true,
            Some(_) => false,
        },
    }
}

/// The first operand, where it is picked.
fn within(operands: &[Node]) -> Option<&Node>
    ensures { option_map pure_node (option_copied result) ≡ within_at (pure_nodes operands.now) }
{
    match operands.split_first() {
        None => None,
        Some((first, _)) => { if picks(first) { Some(first) } else { None } }
    }
}

/// The term and its one index.
#[tactic(auto, using(ess_core_nodes::proofs::NodeEquations::pure_seen_is, crate::proofs::PickedForms::indexed_by_operands))]
pub fn indexed(node: &Node) -> Option<(&Node, &Node)>
    ensures { option_map (λ p. (pure_node p.0.now, pure_node p.1.now)) result ≡ indexed (pure_node node.now) }
{
    match node {
        Node::Op(_, Op::Index(steps), operands) => match steps.as_slice().split_first() {
            Some((Step::Value, rest)) => match rest.split_first() {
                None => pair_in(operands.as_slice()),
                Some(_) => None,
            },
            _ => None,
        },
        _ => None,
    }
}
