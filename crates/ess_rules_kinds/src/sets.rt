//! Listings of sets that are kept in one table: the members that occur, and slots with a dummy.
ghost use Rattle.std.specs.Prelude.{◌≡◌, option_map, IfOk};
ghost use Rattle.ess_core_nodes.specs.NodeViews.{pure_node};
ghost use Rattle.ess_rules_laws.specs.SetListings.{occurrence_listing};
ghost use Rattle.ess_rules_laws.specs.DummyListings.{dummy_listing};
ghost use Rattle.ess_rules_kinds.specs.ViewParts.{leaf_view};
ghost use Rattle.ess_rules_forms.specs.PureAlternatives.{pure_alternative};
ghost use Rattle.ess_rules_kinds.specs.CodeParts.{pure_leaf};

use crate::parts::{Leaf, leaf_parts};
use crate::pieces::{atom_slot, gens_where, slot_cell, slots_dom};
use ess_core::{Op2, ReprKind};
use ess_core_nodes::{Node, NodeDom};
use ess_node_building::{binary, name};
use ess_rows::{NoMemory, Text};
use ess_rules_forms::Alternative;
use std::alloc::Global;

// ---- the members that occur

/// Of a set kept as the members that occur: the name over the inner domain, where the cell at it is true. Nothing for another tree;
/// `NoMemory` where there is no room for it.
#[tactic(auto, using(crate::proofs::LeafListings::occurrence_by_parts))]
pub fn occurrence_listing(
    alloc: Global,
    one: &Text,
    view: &Node,
) -> Result<Option<Alternative>, NoMemory>
    ensures { IfOk result (λ o. option_map pure_alternative o ≡ occurrence_listing one.now (pure_node view.now)) }
{
    match leaf_parts(view) {
        Some(parts) => occurrence_from(alloc, one, &parts),
        None => Ok(None),
    }
}

/// The same of the parts of a view.
fn occurrence_from(
    alloc: Global,
    one: &Text,
    parts: &Leaf<'_>,
) -> Result<Option<Alternative>, NoMemory>
    ensures { IfOk result (λ o. option_map pure_alternative o ≡ occurrence_listing one.now (leaf_view (pure_leaf parts.now))) }
{
    match parts.kind {
        ReprKind::Occurrence => match parts.dom {
            NodeDom::Set(_, _, member) => {
                let test = slot_cell(alloc, true, parts.table, parts.at, one)?;
                let gens = gens_where(alloc, one, member.get().copy(alloc)?, test)?;
                let item = name(alloc, one)?;
                Ok(Some(Alternative { gens, item }))
            }
            _ => Ok(None),
        },
        _ => Ok(None),
    }
}

// ---- slots with a dummy

/// Of a set of atoms in slots of which some hold the dummy: the name over the slots, of which the first tree says how many there are,
/// where the cell isn't the dummy, which the second tree is, and the view of the atom in the slot. Nothing for another tree; `NoMemory`
/// where there is no room for it.
#[tactic(auto, using(crate::proofs::LeafListings::dummy_by_parts))]
pub fn dummy_listing(
    alloc: Global,
    one: &Text,
    slots: &Node,
    dummy: &Node,
    view: &Node,
) -> Result<Option<Alternative>, NoMemory>
    ensures { IfOk result (λ o. option_map pure_alternative o
        ≡ dummy_listing one.now (pure_node slots.now) (pure_node dummy.now) (pure_node view.now)) }
{
    match leaf_parts(view) {
        Some(parts) => dummy_from(alloc, one, slots, dummy, &parts),
        None => Ok(None),
    }
}

/// The same of the parts of a view.
fn dummy_from(
    alloc: Global,
    one: &Text,
    slots: &Node,
    dummy: &Node,
    parts: &Leaf<'_>,
) -> Result<Option<Alternative>, NoMemory>
    ensures { IfOk result (λ o. option_map pure_alternative o
        ≡ dummy_listing one.now (pure_node slots.now) (pure_node dummy.now) (leaf_view (pure_leaf parts.now))) }
{
    match parts.kind {
        ReprKind::ExplicitVarSizeWithDummy => match parts.dom {
            NodeDom::Set(_, _, member) => {
                let held = slot_cell(alloc, false, parts.table, parts.at, one)?;
                let test = binary(alloc, true, Op2::Ne, held, dummy.copy(alloc)?)?;
                let gens = gens_where(alloc, one, slots_dom(alloc, slots)?, test)?;
                let item = atom_slot(alloc, member.get(), parts.table, parts.at, one)?;
                Ok(Some(Alternative { gens, item }))
            }
            _ => Ok(None),
        },
        _ => Ok(None),
    }
}
