//! Items of literals.
ghost use Rattle.std.specs.Prelude.{◌≡◌, true, option_map, map, IfOk};
ghost use Rattle.std.specs.Option.{option_copied};
ghost use Rattle.ess_semantics.specs.Order.{same_text};
ghost use Rattle.ess_semantics.specs.Trees.{ex2};
ghost use Rattle.ess_core_nodes.specs.NodeViews.{pure_node, pure_nodes};
ghost use Rattle.ess_rules_laws.specs.LiteralRules.{nth as nth_of, unequal_pairs as pairs_unequal};
ghost use Rattle.ess_rules_laws.specs.FieldLiterals.{field_term};

use ess_core::Op2;
use ess_core_nodes::Node;
use ess_node_building::binary;
use ess_rows::{Boxed, NoMemory, Row, Text};
use std::alloc::Global;
use std::cmp::Ordering;

/// The item at a place, from 1.
#[tactic(auto, using(crate::proofs::ItemLists::nth_zero, crate::proofs::ItemLists::nth_past, crate::proofs::ItemLists::nth_there))]
pub(crate) fn nth(items: &[Node], at: u64) -> Option<&Node>
    ensures { option_map pure_node (option_copied result) ≡ nth_of (pure_nodes items.now) at }
{
    if at == 0 {
        return None;
    }
    if at > items.len() as u64 {
        return None;
    }
    Some(&items[(at - 1) as usize])
}

/// The item of a field, where the items belong to the fields.
pub(crate) fn field_item<'a>(names: &[Text], items: &'a [Node], field: &Text) -> Option<&'a Node>
    ensures { option_map pure_node (option_copied result) ≡ field_term names.now (pure_nodes items.now) field.now }
{
    let mut rest = items;
    for name in names {
        let Some((item, behind)) = rest.split_first() else {
            return None;
        };
        if same_name(name, field) {
            return Some(item);
        }
        rest = behind;
    }
    None
}

/// Whether two names are equal.
fn same_name(a: &Text, b: &Text) -> bool
    ensures { result ≡ same_text a.now b.now }
{
    a.cmp(b) == Ordering::Equal
}

/// That no two of these are equal.
#[tactic(auto, using(crate::proofs::ItemLists::unequal_more))]
pub(crate) fn unequal_pairs(alloc: Global, items: &[Node]) -> Result<Row<Node>, NoMemory>
    ensures { IfOk result (λ ns. pure_nodes ns ≡ pairs_unequal (pure_nodes items.now)) }
{
    let mut pairs = Row::new(alloc);
    let mut rest = items;
    while let Some((first, others)) = rest.split_first() {
        let mut more = unequal_each(alloc, first, others)?;
        pairs.append(&mut more)?;
        rest = others;
    }
    Ok(pairs)
}

/// That none of the others is the first.
#[tactic(auto, using(std::proofs::lemmas::List::map_push))]
fn unequal_each(alloc: Global, first: &Node, others: &[Node]) -> Result<Row<Node>, NoMemory>
    ensures { IfOk result (λ ns. map pure_node ns ≡ map (λ b. ex2 true Op2.Ne (pure_node b) (pure_node first.now)) others.now) }
{
    let mut pairs = Row::with_capacity(alloc, others.len())?;
    for other in others {
        let pair = unequal(alloc, other, first)?;
        pairs.push(pair.into_inner())?;
    }
    Ok(pairs)
}

/// `b != a`
fn unequal(alloc: Global, second: &Node, first: &Node) -> Result<Boxed<Node>, NoMemory>
    ensures { IfOk result (λ n. pure_node n ≡ ex2 true Op2.Ne (pure_node second.now) (pure_node first.now)) }
{
    let second = second.copy(alloc)?;
    let first = first.copy(alloc)?;
    binary(alloc, true, Op2::Ne, second, first)
}
