//! Reserved names by their numbers.
ghost use Rattle.std.specs.Prelude.{◌≡◌, ◌+◌, IfOk};
ghost use Rattle.conjure_model_laws.specs.ToldApart.{reserved};
ghost use Rattle.ess_rules.specs.Ruled.{reserved_from};

use ess_core_nodes::{Gen, Node, NodeDom};
use ess_rows::{NoMemory, Row, Text};
use ess_rules_opening::at_first_open;
use ess_rules_picked::picks;
use std::alloc::Global;

/// The reserved name with a number. `NoMemory` where there is no room for it.
pub(crate) fn reserved_name(alloc: Global, number: u64) -> Result<Text, NoMemory>
    ensures { IfOk result (λ t. t ≡ reserved number) }
{
    let mut name = Text::new(alloc);
    name.push_byte(b'#')?;
    name.push_u64(number)?;
    Ok(name)
}

/// As many reserved names, from the one with this number on. `NoMemory` where there is no room for them, or they can't be counted.
#[tactic(auto, using(crate::proofs::Turned::reserved_more))]
pub(crate) fn reserved_names(alloc: Global, first: u64, count: u64) -> Result<Row<Text>, NoMemory>
    ensures { IfOk result (λ ns. ns ≡ reserved_from first count) }
{
    let mut names = Row::new(alloc);
    for step in 0..count {
        let number = counted(first, step)?;
        names.push(reserved_name(alloc, number)?)?;
    }
    Ok(names)
}

/// The sum of two numbers. `NoMemory` where it passes 64 bits.
pub(crate) fn counted(first: u64, by: u64) -> Result<u64, NoMemory>
    ensures { IfOk result (λ m. m ≡ first + by) }
{
    match first.checked_add(by) {
        Some(sum) => Ok(sum),
        None => Err(NoMemory),
    }
}

/// How many names a rule may take for components, for what is picked within and for generators, at a root: of the first generator that
/// isn't plain exactly as many as its domain has, else as many as what is listed or picked may want.
pub(crate) fn component_count(node: &Node) -> u64 {
    match node {
        Node::Comp(_, gens) => count_in(gens.as_slice()),
        Node::Op(_, _, operands) => count_among(node, operands.as_slice()),
        _ => 0,
    }
}

/// The most that the root wants where it picks, or one of its operands.
fn count_among(node: &Node, operands: &[Node]) -> u64 {
    let mut most = count_wanted(node);
    for operand in operands {
        let count = count_operand(operand);
        if count > most {
            most = count;
        }
    }
    most
}

/// That of an operand: of a comprehension that of its generators.
fn count_operand(operand: &Node) -> u64 {
    match operand {
        Node::Comp(_, gens) => count_in(gens.as_slice()),
        _ => count_wanted(operand),
    }
}

/// That of what picks.
fn count_wanted(node: &Node) -> u64 {
    if picks(node) { count_picked(node) } else { 0 }
}

/// That of generators.
fn count_in(gens: &[Gen]) -> u64 {
    let Some(opened) = at_first_open(gens) else {
        return 0;
    };
    match opened.after.first() {
        Some(Gen::Over(_, dom)) => count_of(dom.get()),
        Some(Gen::From(_, source)) => count_for(source.get()),
        _ => 0,
    }
}

/// That of a source.
fn count_for(source: &Node) -> u64 {
    match source {
        Node::Seen(seen) => count_of(seen.get().dom.get()),
        _ => count_wanted(source),
    }
}

/// A name at each depth of what is picked, and one for each component of an argument, or for each generator and condition of the
/// comprehension within, and for its item.
fn count_picked(node: &Node) -> u64 {
    let mut at = node;
    for depth in 1..256_u64 {
        match at {
            Node::Op(_, _, operands) => match operands.first() {
                Some(first) => at = first,
                None => return depth,
            },
            Node::Seen(seen) => return depth.saturating_add(count_of(seen.get().dom.get())),
            Node::Comp(_, gens) => return depth.saturating_add(gens.len() as u64),
            _ => return depth,
        }
    }
    256
}

/// How many components the members or the arguments of a domain have.
fn count_of(dom: &NodeDom) -> u64 {
    match dom {
        NodeDom::Tuple(doms) => doms.len() as u64,
        NodeDom::Record(_, doms) => doms.len() as u64,
        NodeDom::Relation(_, _, doms) => doms.len() as u64,
        NodeDom::Function(_, _, from, _) => match from.get() {
            NodeDom::Tuple(doms) => doms.len() as u64,
            _ => 0,
        },
        _ => 0,
    }
}
