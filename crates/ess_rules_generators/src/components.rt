//! A name over a tuple of domains: the name becomes the tuple of new names over the components.
ghost use Rattle.std.specs.Prelude.{◌≡◌, false, IfOk, option_map, map};
ghost use Rattle.ess_semantics.specs.Order.{same_text};
ghost use Rattle.ess_semantics.specs.Trees as pure;
ghost use Rattle.ess_semantics.specs.Trees.{name_ex, name_pat, tuple_pat, tuple_dom, comp_ex, node_ex, no_gens};
ghost use Rattle.ess_core.specs.TreeViews.{pure_pat, over_item};
ghost use Rattle.ess_core_nodes.specs.NodeViews.{pure_node, pure_gen, pure_gens, pure_dom, pure_doms, pure_op};
ghost use Rattle.ess_rules_laws.specs.ComponentRules.{has_text};
ghost use Rattle.ess_rules_laws.specs.TupleNames.{are_names, named_exs, named_pats, name_over_tuple};
ghost use Rattle.ess_rules_generators.specs.GeneratorParts.{do_names_differ, tuple_named};

use crate::forms::{over_in, tuple_parts};
use ess_core::Pat;
use ess_core_nodes::{Gen, Node, NodeDom, Op, copy_doms, copy_gens};
use ess_node_building::{comprehension, from, literal};
use ess_rows::{Boxed, NoMemory, Row, Text};
use ess_rules_folds::forms::{comp_in, name_in};
use std::alloc::Global;
use std::cmp::Ordering;

/// Of `[e | x : (A, B), ..]` it is `[e | x <- [(y, z) | (y, z) : (A, B)], ..]`, where the names are y and z. `NoMemory` where there is
/// no room for it.
#[tactic(auto, using(crate::proofs::GeneratorForms::tuple_by_parts))]
pub fn name_over_tuple(
    alloc: Global,
    names: &[Text],
    node: &Node,
) -> Result<Option<Boxed<Node>>, NoMemory>
    ensures { IfOk result (λ o. option_map pure_node o ≡ name_over_tuple names.now (pure_node node.now)) }
{
    let Some((body, gens)) = comp_in(node) else {
        return Ok(None);
    };
    let Some((pat, dom, rest)) = over_in(gens) else {
        return Ok(None);
    };
    let Some(name) = name_in(pat) else {
        return Ok(None);
    };
    match tuple_parts(dom) {
        Some(doms) => tuple_named(alloc, names, body, name, doms, rest),
        None => Ok(None),
    }
}

/// The same by the name and the domains.
fn tuple_named(
    alloc: Global,
    names: &[Text],
    body: &Node,
    name: &Text,
    doms: &[NodeDom],
    rest: &[Gen],
) -> Result<Option<Boxed<Node>>, NoMemory>
    ensures { IfOk result (λ o. option_map pure_node o
        ≡ tuple_named names.now (pure_node body.now) name.now (pure_doms doms.now) (pure_gens rest.now)) }
{
    if !are_names(names, doms) {
        return Ok(None);
    }
    let source = named_over(alloc, Op::Tuple, names, doms)?;
    Ok(Some(bound_from(alloc, body, name, source, rest)?))
}

/// A comprehension whose name is bound over a value, before other generators.
pub(crate) fn bound_from(
    alloc: Global,
    body: &Node,
    name: &Text,
    source: Boxed<Node>,
    rest: &[Gen],
) -> Result<Boxed<Node>, NoMemory>
    ensures { IfOk result (λ n. pure_node n
        ≡ comp_ex (pure_node body.now) (pure.from (name_pat name.now) (pure_node source) (pure_gens rest.now))) }
{
    let mut gens = Row::new(alloc);
    gens.push(from(alloc, name, source)?)?;
    let mut rest = copy_gens(alloc, rest)?;
    gens.append(&mut rest)?;
    let body = body.copy(alloc)?;
    comprehension(alloc, body, gens)
}

/// The comprehension of a literal of these names over the domains.
pub(crate) fn named_over(
    alloc: Global,
    op: Op,
    names: &[Text],
    doms: &[NodeDom],
) -> Result<Boxed<Node>, NoMemory>
    ensures { IfOk result (λ n. pure_node n
        ≡ comp_ex (node_ex false (pure_op op) (named_exs names.now))
        (pure.over (tuple_pat (named_pats names.now)) (tuple_dom (pure_doms doms.now)) no_gens)) }
{
    let item = literal_of(alloc, op, names)?;
    let mut gens = Row::new(alloc);
    gens.push(tuple_over(alloc, names, doms)?)?;
    comprehension(alloc, item, gens)
}

/// A literal of these names.
#[tactic(auto, using(crate::proofs::GeneratorRows::names_as_nodes))]
fn literal_of(alloc: Global, op: Op, names: &[Text]) -> Result<Boxed<Node>, NoMemory>
    ensures { IfOk result (λ n. pure_node n ≡ node_ex false (pure_op op) (named_exs names.now)) }
{
    match name_nodes(alloc, names) {
        Ok(items) => literal(alloc, op, items),
        Err(no) => {
            drop(op);
            Err(no)
        }
    }
}

/// The generator of the tuple of these names over the domains.
#[tactic(auto, using(ess_core_nodes::proofs::NodeEquations::pure_gen_over, ess_core::proofs::PartEquations::pure_pat_tuple, crate::proofs::GeneratorRows::names_as_patterns))]
fn tuple_over(alloc: Global, names: &[Text], doms: &[NodeDom]) -> Result<Gen, NoMemory>
    ensures { IfOk result (λ g. pure_gen g ≡ over_item (tuple_pat (named_pats names.now)) (tuple_dom (pure_doms doms.now))) }
{
    let doms = tuple_of(alloc, doms)?;
    let pats = name_patterns(alloc, names)?;
    Ok(Gen::Over(Pat::Tuple(pats), doms))
}

/// The domain of tuples of these.
fn tuple_of(alloc: Global, doms: &[NodeDom]) -> Result<Boxed<NodeDom>, NoMemory>
    ensures { IfOk result (λ d. pure_dom d ≡ tuple_dom (pure_doms doms.now)) }
{
    let doms = copy_doms(alloc, doms)?;
    Boxed::new(alloc, NodeDom::Tuple(doms))
}

/// Each name as an expression.
fn name_nodes(alloc: Global, names: &[Text]) -> Result<Row<Node>, NoMemory>
    ensures { IfOk result (λ ns. map pure_node ns ≡ map name_ex names.now) }
{
    let mut all = Row::with_capacity(alloc, names.len())?;
    for name in names {
        let name = name.copy(alloc)?;
        all.push(Node::Name(name))?;
    }
    Ok(all)
}

/// Each name as a pattern.
#[tactic(auto, using(ess_core::proofs::PartEquations::pure_pat_name))]
fn name_patterns(alloc: Global, names: &[Text]) -> Result<Row<Pat>, NoMemory>
    ensures { IfOk result (λ ps. map pure_pat ps ≡ map name_pat names.now) }
{
    let mut all = Row::with_capacity(alloc, names.len())?;
    for name in names {
        let name = name.copy(alloc)?;
        all.push(Pat::Name(name))?;
    }
    Ok(all)
}

/// Whether there is a name for each domain, no two of them equal.
#[tactic(auto, using(crate::proofs::GeneratorRows::names_of_lengths, crate::proofs::GeneratorRows::names_of_others))]
pub(crate) fn are_names(names: &[Text], doms: &[NodeDom]) -> bool
    ensures { result ≡ are_names names.now (pure_doms doms.now) }
{
    names.len() == doms.len() && do_names_differ(names)
}

/// Whether no two of the names are equal.
fn do_names_differ(names: &[Text]) -> bool
    ensures { result ≡ do_names_differ names.now }
{
    for (place, name) in names.iter().enumerate() {
        if has_text(&names[place + 1..], name) {
            return false;
        }
    }
    true
}

/// Whether the name is one of these.
fn has_text(names: &[Text], name: &Text) -> bool
    ensures { result ≡ has_text names.now name.now }
{
    for other in names {
        if same_name(other, name) {
            return true;
        }
    }
    false
}

/// Whether two names are equal.
fn same_name(a: &Text, b: &Text) -> bool
    ensures { result ≡ same_text a.now b.now }
{
    a.cmp(b) == Ordering::Equal
}
