//! Views kept in one table: of an atom its cell, of a set or relation the test of one member.
ghost use Rattle.std.specs.Prelude.{◌≡◌, IfOk, option_map};
ghost use Rattle.ess_core_nodes.specs.NodeViews.{pure_node};
ghost use Rattle.ess_rules_laws.specs.AtomViews.{atom_cell};
ghost use Rattle.ess_rules_laws.specs.OccurrenceViews.{cell_of_member, member_by_cell};
ghost use Rattle.ess_rules_views.specs.ViewRules.{atom_of, cell_from};
ghost use Rattle.ess_rules_views.specs.CodeViews.{pure_table};

use crate::keys::{cell, flag_at, is_truths, member_keys};
use crate::parts::{TableParts, one_table};
use ess_core::{Op2, ReprKind};
use ess_core_nodes::{Node, copy_nodes};
use ess_rows::{Boxed, NoMemory};
use ess_rules_forms::truth_pair;
use std::alloc::Global;

/// A view of an atom becomes its cell. Nothing for another tree; `NoMemory` where there is no room for it.
#[tactic(auto, using(crate::proofs::ViewParts::atom_by_table))]
pub fn atom_cell(alloc: Global, node: &Node) -> Result<Option<Boxed<Node>>, NoMemory>
    ensures { IfOk result (λ o. option_map pure_node o ≡ atom_cell (pure_node node.now)) }
{
    match one_table(node) {
        Some(parts) => atom_of(alloc, &parts),
        None => Ok(None),
    }
}

/// The same of the parts of a view.
fn atom_of(alloc: Global, parts: &TableParts<'_>) -> Result<Option<Boxed<Node>>, NoMemory>
    ensures { IfOk result (λ o. option_map pure_node o ≡ atom_of (pure_table parts.now)) }
{
    match parts.kind {
        ReprKind::Atom => {
            let at = copy_nodes(alloc, parts.at)?;
            Ok(Some(cell(alloc, is_truths(parts.dom), parts.table, at)?))
        }
        _ => Ok(None),
    }
}

/// `a in v` becomes the cell at a, where v is a set or relation kept as a truth value for each possible member; of a tuple that is
/// written as a literal the indices are its items. Nothing for another root; `NoMemory` where there is no room for it.
#[tactic(auto, using(crate::proofs::ViewParts::member_of_pair))]
pub fn member_by_cell(alloc: Global, node: &Node) -> Result<Option<Boxed<Node>>, NoMemory>
    ensures { IfOk result (λ o. option_map pure_node o ≡ member_by_cell (pure_node node.now)) }
{
    match truth_pair(node) {
        Some((Op2::Member, (member, view))) => cell_of_member(alloc, view, member),
        _ => Ok(None),
    }
}

/// The cell that says whether it is a member.
#[tactic(auto, using(crate::proofs::ViewParts::cell_by_table))]
fn cell_of_member(
    alloc: Global,
    view: &Node,
    member: &Node,
) -> Result<Option<Boxed<Node>>, NoMemory>
    ensures { IfOk result (λ o. option_map pure_node o ≡ cell_of_member (pure_node view.now) (pure_node member.now)) }
{
    match one_table(view) {
        Some(parts) => cell_from(alloc, member, &parts),
        None => Ok(None),
    }
}

/// The same of the parts of a view.
fn cell_from(
    alloc: Global,
    member: &Node,
    parts: &TableParts<'_>,
) -> Result<Option<Boxed<Node>>, NoMemory>
    ensures { IfOk result (λ o. option_map pure_node o ≡ cell_from (pure_node member.now) (pure_table parts.now)) }
{
    match member_keys(alloc, parts.kind, parts.dom, member)? {
        Some(keys) => Ok(Some(flag_at(alloc, parts.table, parts.at, keys.as_slice())?)),
        None => Ok(None),
    }
}
