//! The declared domain that the values of a term follow: that of a view, and of what is picked out of such a term.
ghost use Rattle.std.specs.Prelude.{◌≡◌, map, option_map};
ghost use Rattle.std.specs.Option.{option_copied};
ghost use Rattle.ess_semantics.specs.Order.{same_text};
ghost use Rattle.ess_core_nodes.specs.NodeViews.{pure_node, pure_nodes, pure_dom, pure_doms, pure_op, pure_step};
ghost use Rattle.ess_guard_laws.specs.IndexDomains.{first_index as index_before};
ghost use Rattle.ess_ordered_laws.specs.ToldAxes.{dom_told as domain_told, dom_at as domain_at, dom_of_field as domain_of_field};
ghost use Rattle.ess_ordered_laws.specs.ToldAxes.{results_of as domain_of_results, component_dom as domain_of_component};
ghost use Rattle.ess_ordered_laws.specs.ToldAxes.{field_dom as domain_under, items_dom as domain_of_items};
ghost use Rattle.ess_rules_ordered.specs.ToldForms.{pure_told, told_at as at_operands, told_by as by_step, told_of_one as of_one};
ghost use Rattle.ess_rules_ordered.specs.ToldForms.{told_of_two as of_two, only_step as the_step, matrix_parts};

use ess_core::Fun;
use ess_core_nodes::{Node, NodeDom, Op, Step};
use ess_rows::Text;
use std::cmp::Ordering;

/// A domain that is looked through.
#[derive(Clone, Copy)]
pub enum Told<'a> {
    /// The domain as it stands.
    Whole(&'a NodeDom),
    /// One of matrices, by the index domains that are left and the domain of the items.
    Matrix(&'a [NodeDom], &'a NodeDom),
}

/// The domain that the values of a term follow.
#[cycle(told)]
#[tactic(auto, using(ess_core_nodes::proofs::NodeEquations::pure_seen_is, crate::proofs::ToldForms::told_by_operands))]
pub fn dom_told(node: &Node) -> Option<Told<'_>>
    ensures { option_map pure_told result ≡ domain_told (pure_node node.now) }
{
    match node {
        Node::Seen(seen) => Some(Told::Whole(seen.get().dom.get())),
        Node::Op(_, op, operands) => told_at(op, operands.as_slice()),
        _ => None,
    }
}

/// The same of an operator and its operands.
#[cycle(told)]
fn told_at<'a>(op: &Op, operands: &'a [Node]) -> Option<Told<'a>>
    ensures { option_map pure_told result ≡ at_operands (pure_op op.now) (pure_nodes operands.now) }
{
    match op {
        Op::Apply | Op::Word(Fun::Image) => results_of(told_of_two(operands)),
        Op::Index(steps) => match only_step(steps.as_slice()) {
            Some(step) => told_by(step, operands),
            None => None,
        },
        _ => None,
    }
}

/// The same of a step of an index.
#[cycle(told)]
fn told_by<'a>(step: &Step, operands: &'a [Node]) -> Option<Told<'a>>
    ensures { option_map pure_told result ≡ by_step (pure_step step.now) (pure_nodes operands.now) }
{
    match step {
        Step::Value => items_dom(told_of_two(operands)),
        Step::Component(number) => component_dom(*number, told_of_one(operands)),
        Step::Field(name) => field_dom(name, told_of_one(operands)),
    }
}

/// The domain that the only operand follows.
#[cycle(told)]
fn told_of_one(operands: &[Node]) -> Option<Told<'_>>
    ensures { option_map pure_told result ≡ of_one (pure_nodes operands.now) }
{
    match operands.split_first() {
        None => None,
        Some((term, rest)) => match rest.split_first() {
            None => dom_told(term),
            Some(_) => None,
        },
    }
}

/// The domain that the first of two operands follows.
#[cycle(told)]
fn told_of_two(operands: &[Node]) -> Option<Told<'_>>
    ensures { option_map pure_told result ≡ of_two (pure_nodes operands.now) }
{
    match operands.split_first() {
        None => None,
        Some((term, rest)) => match rest.split_first() {
            None => None,
            Some((_, more)) => match more.split_first() {
                None => dom_told(term),
                Some(_) => None,
            },
        },
    }
}

/// The only step.
pub fn only_step(steps: &[Step]) -> Option<&Step>
    ensures { option_map (λ s. pure_step s.now) result ≡ the_step (map pure_step steps.now) }
{
    match steps.split_first() {
        None => None,
        Some((step, rest)) => match rest.split_first() {
            None => Some(step),
            Some(_) => None,
        },
    }
}

/// The domain of the results of functions.
pub fn results_of(told: Option<Told<'_>>) -> Option<Told<'_>>
    ensures { option_map pure_told result ≡ domain_of_results (option_map pure_told told.entry) }
{
    match told {
        Some(Told::Whole(NodeDom::Function(_, _, _, results))) => Some(Told::Whole(results.get())),
        _ => None,
    }
}

/// The domain of a component of tuples.
pub fn component_dom(number: u64, told: Option<Told<'_>>) -> Option<Told<'_>>
    ensures { option_map pure_told result ≡ domain_of_component number (option_map pure_told told.entry) }
{
    match told {
        Some(Told::Whole(NodeDom::Tuple(doms))) => match dom_at(number, doms.as_slice()) {
            Some(dom) => Some(Told::Whole(dom)),
            None => None,
        },
        _ => None,
    }
}

/// The domain of this number, from 1.
#[tactic(auto, using(crate::proofs::ToldForms::no_dom, crate::proofs::ToldForms::dom_first, crate::proofs::ToldForms::dom_next))]
fn dom_at(number: u64, doms: &[NodeDom]) -> Option<&NodeDom>
    ensures { option_map pure_dom (option_copied result) ≡ domain_at number (pure_doms doms.now) }
{
    match doms.split_first() {
        None => None,
        Some((dom, rest)) => {
            if number == 0 {
                None
            } else if number == 1 {
                Some(dom)
            } else {
                dom_at(number - 1, rest)
            }
        }
    }
}

/// The domain of a field of records.
pub fn field_dom<'a>(name: &Text, told: Option<Told<'a>>) -> Option<Told<'a>>
    ensures { option_map pure_told result ≡ domain_under name.now (option_map pure_told told.entry) }
{
    match told {
        Some(Told::Whole(NodeDom::Record(fields, doms))) => {
            match dom_of_field(name, fields.as_slice(), doms.as_slice()) {
                Some(dom) => Some(Told::Whole(dom)),
                None => None,
            }
        }
        _ => None,
    }
}

/// The domain of the field of this name.
fn dom_of_field<'a>(name: &Text, fields: &[Text], doms: &'a [NodeDom]) -> Option<&'a NodeDom>
    ensures { option_map pure_dom (option_copied result) ≡ domain_of_field name.now fields.now (pure_doms doms.now) }
{
    match fields.split_first() {
        None => None,
        Some((field, fields)) => match doms.split_first() {
            None => None,
            Some((dom, doms)) => {
                if same_name(field, name) {
                    Some(dom)
                } else {
                    dom_of_field(name, fields, doms)
                }
            }
        },
    }
}

/// Whether two names are equal.
pub fn same_name(a: &Text, b: &Text) -> bool
    ensures { result ≡ same_text a.now b.now }
{
    a.cmp(b) == Ordering::Equal
}

/// The domain of what an index picks out of matrices.
pub fn items_dom(told: Option<Told<'_>>) -> Option<Told<'_>>
    ensures { option_map pure_told result ≡ domain_of_items (option_map pure_told told.entry) }
{
    match matrix_in(told) {
        None => None,
        Some((axes, item)) => match axes.split_first() {
            None => None,
            Some((_, rest)) => match rest.split_first() {
                None => Some(Told::Whole(item)),
                Some(_) => Some(Told::Matrix(rest, item)),
            },
        },
    }
}

/// The first index domain of a domain of matrices.
pub fn first_index(told: Option<Told<'_>>) -> Option<&NodeDom>
    ensures { option_map pure_dom (option_copied result) ≡ index_before (option_map pure_told told.entry) }
{
    match matrix_in(told) {
        None => None,
        Some((axes, _)) => match axes.split_first() {
            None => None,
            Some((axis, _)) => Some(axis),
        },
    }
}

/// The index domains of a domain of matrices, and the domain of the items.
fn matrix_in(told: Option<Told<'_>>) -> Option<(&[NodeDom], &NodeDom)>
    ensures { option_map (λ p. (pure_doms p.0.now, pure_dom p.1.now)) result ≡ matrix_parts (option_map pure_told told.entry) }
{
    match told {
        Some(Told::Matrix(axes, item)) => Some((axes, item)),
        Some(Told::Whole(NodeDom::Matrix(axes, item))) => Some((axes.as_slice(), item.get())),
        _ => None,
    }
}
