//! A name over a record of domains: the name becomes the record of new names over the fields.
ghost use Rattle.std.specs.Prelude.{◌≡◌, IfOk, option_map};
ghost use Rattle.ess_core_nodes.specs.NodeViews.{pure_node, pure_gens, pure_dom, pure_doms};
ghost use Rattle.ess_refine_laws.specs.RecordNames.{are_in_order, name_over_record};
ghost use Rattle.ess_rules_generators.specs.RecordParts.{record_parts, record_named, rises_to, do_rise};

use crate::components::{are_names, bound_from, named_over};
use crate::forms::over_in;
use ess_core_nodes::{Gen, Node, NodeDom, Op, copy_texts};
use ess_rows::{Boxed, NoMemory, Text};
use ess_rules_folds::forms::{comp_in, name_in};
use std::alloc::Global;
use std::cmp::Ordering;

/// Of `[e | x : record {f : A, h : B}, ..]` it is `[e | x <- [record {f = y, h = z} | (y, z) : (A, B)], ..]`, where the names are y and
/// z. `NoMemory` where there is no room for it.
#[tactic(auto, using(crate::proofs::RecordForms::record_by_parts))]
pub fn name_over_record(
    alloc: Global,
    names: &[Text],
    node: &Node,
) -> Result<Option<Boxed<Node>>, NoMemory>
    ensures { IfOk result (λ o. option_map pure_node o ≡ name_over_record names.now (pure_node node.now)) }
{
    let Some((body, gens)) = comp_in(node) else {
        return Ok(None);
    };
    let Some((pat, dom, rest)) = over_in(gens) else {
        return Ok(None);
    };
    let Some(name) = name_in(pat) else {
        return Ok(None);
    };
    match record_parts(dom) {
        Some((fields, doms)) => record_named(alloc, names, body, name, fields, doms, rest),
        None => Ok(None),
    }
}

/// The same by the name, the fields and the domains.
fn record_named(
    alloc: Global,
    names: &[Text],
    body: &Node,
    name: &Text,
    fields: &[Text],
    doms: &[NodeDom],
    rest: &[Gen],
) -> Result<Option<Boxed<Node>>, NoMemory>
    ensures { IfOk result (λ o. option_map pure_node o
        ≡ record_named names.now (pure_node body.now) name.now fields.now (pure_doms doms.now) (pure_gens rest.now)) }
{
    if !are_names(names, doms) || !are_in_order(fields, doms) {
        return Ok(None);
    }
    let fields = copy_texts(alloc, fields)?;
    let source = named_over(alloc, Op::Record(fields), names, doms)?;
    Ok(Some(bound_from(alloc, body, name, source, rest)?))
}

/// The fields of a record's domain, and their domains.
fn record_parts(dom: &NodeDom) -> Option<(&[Text], &[NodeDom])>
    ensures { option_map (λ r. (r.0.now, pure_doms r.1.now)) result ≡ record_parts (pure_dom dom.now) }
{
    match dom {
        NodeDom::Record(fields, doms) => Some((fields.as_slice(), doms.as_slice())),
        _ => None,
    }
}

/// Whether there is a field for each domain, in the order of their bytes, no two of them equal.
#[tactic(auto, using(crate::proofs::RecordForms::order_of_lengths, crate::proofs::RecordForms::order_of_others))]
fn are_in_order(fields: &[Text], doms: &[NodeDom]) -> bool
    ensures { result ≡ are_in_order fields.now (pure_doms doms.now) }
{
    fields.len() == doms.len() && do_rise(fields)
}

/// Whether the names rise.
fn do_rise(fields: &[Text]) -> bool
    ensures { result ≡ do_rise fields.now }
{
    for (place, field) in fields.iter().enumerate() {
        if !rises_to(field, &fields[place + 1..]) {
            return false;
        }
    }
    true
}

/// Whether the name is below the first of those behind it.
fn rises_to(field: &Text, behind: &[Text]) -> bool
    ensures { result ≡ rises_to field.now behind.now }
{
    match behind.split_first() {
        None => true,
        Some((next, _)) => field.cmp(next) == Ordering::Less,
    }
}
