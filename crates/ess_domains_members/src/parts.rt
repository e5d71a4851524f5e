ghost use Rattle.std.specs.Prelude.{◌≡◌, ◌++◌, map, option_map, IfOk, OnOk};
ghost use Rattle.std.specs.List.{list_all};
ghost use Rattle.ess_semantics.specs.Lists.{append_all};
ghost use Rattle.ess_semantics.specs.Collections.{sorted_once};
ghost use Rattle.ess_semantics.specs.Domains.{members as members_of};
ghost use Rattle.ess_semantics.specs.Membership.{same_list as same_lists};
ghost use Rattle.ess_values.specs.Parts.{set_members};
ghost use Rattle.ess_core.specs.ValueViews.{pure_val};
ghost use Rattle.ess_eval_domains.specs.ClosedViews.{pure_closed, pure_attributes};
ghost use Rattle.ess_domains_members.specs.Forms.{is_filled as filled, are_disjoint, are_covered, partition_form, part_members as members_of_parts};

use crate::lists::{rises, same};
use crate::matrices::add_copies;
use crate::partitions::partition_attributes_hold;
use crate::repeats::all_differ;
use ess_core::{Boxed, NoMemory, Row, Val};
use ess_eval_domains::{Attribute, Closed, members};
use ess_values::set_of;
use std::alloc::Global;

/// The members of all parts, where these are the parts of a partition of the members of a domain, in canonical form, and the
/// attributes allow them. `NoMemory` where there is no room for the members.
pub fn part_members(
    alloc: Global,
    attributes: &[Attribute],
    inner: &Closed,
    parts: &[Val],
) -> Result<Option<Row<Val>>, NoMemory>
    ensures { IfOk result (λ o. option_map (map pure_val) o ≡ members_of_parts (pure_attributes attributes.now) (members_of (pure_closed inner.now)) (map pure_val parts.now)) }
{
    if !have_partition_form(alloc, attributes, inner, parts)? {
        return Ok(None);
    }
    Ok(Some(all_members(alloc, parts)?))
}

/// Whether these are the parts of a partition of the members of a domain, in canonical form, and the attributes allow them.
fn have_partition_form(
    alloc: Global,
    attributes: &[Attribute],
    inner: &Closed,
    parts: &[Val],
) -> Result<bool, NoMemory>
    ensures { IfOk result (λ b. b ≡ partition_form (pure_attributes attributes.now) (members_of (pure_closed inner.now)) (map pure_val parts.now)) }
{
    if !rises(parts) {
        return Ok(false);
    }
    if !are_filled(parts) {
        return Ok(false);
    }
    if !are_apart(alloc, parts)? {
        return Ok(false);
    }
    if !covers(alloc, inner, parts)? {
        return Ok(false);
    }
    Ok(partition_attributes_hold(attributes, parts))
}

/// Whether each is a set in canonical form that isn't empty.
fn are_filled(parts: &[Val]) -> bool
    ensures { result ≡ list_all filled (map pure_val parts.now) }
{
    for part in parts {
        if !is_filled(part) {
            return false;
        }
    }
    true
}

/// Whether a value is a set in canonical form that isn't empty.
#[tactic(auto, using(crate::proofs::SetParts::filled_none, crate::proofs::SetParts::filled_some))]
fn is_filled(part: &Val) -> bool
    ensures { result ≡ filled (pure_val part.now) }
{
    match part {
        Val::Num(_) => false,
        Val::Truth(_) => false,
        Val::Item(_, _) => false,
        Val::Tuple(_) => false,
        Val::Rec(_) => false,
        Val::Matrix(_, _) => false,
        Val::Set(own) => {
            if own.len() == 0 {
                return false;
            }
            rises(own.as_slice())
        }
        Val::MSet(_) => false,
        Val::Function(_) => false,
        Val::Relation(_) => false,
        Val::Partition(_) => false,
    }
}

/// Whether no two places of these sets share a member; a value that isn't a set has none. `NoMemory` where there is no room
/// for the members.
pub fn are_apart(alloc: Global, parts: &[Val]) -> Result<bool, NoMemory>
    ensures { IfOk result (λ b. b ≡ are_disjoint (map pure_val parts.now)) }
{
    let own = all_members(alloc, parts)?;
    Ok(all_differ(alloc, own)?)
}

/// Whether each member of a domain stands in one of these sets, and nothing else. `NoMemory` where there is no room for the
/// members.
#[tactic(auto, using(crate::proofs::SetParts::covered_some, crate::proofs::SetParts::covered_none))]
fn covers(alloc: Global, inner: &Closed, parts: &[Val]) -> Result<bool, NoMemory>
    ensures { IfOk result (λ b. b ≡ are_covered (members_of (pure_closed inner.now)) (map pure_val parts.now)) }
{
    match members(alloc, inner)? {
        Some(all) => {
            let own = all_members(alloc, parts)?;
            Ok(same_sets(alloc, all, own)?)
        }
        None => Ok(false),
    }
}

/// Whether two lists hold the same values.
#[tactic(auto, using(crate::proofs::SetParts::sets_same))]
fn same_sets(alloc: Global, all: Row<Val>, own: Row<Val>) -> Result<bool, NoMemory>
    ensures { IfOk result (λ b. b ≡ same_lists (sorted_once (map pure_val all)) (sorted_once (map pure_val own))) }
{
    let all = Boxed::new(alloc, set_of(alloc, all)?)?;
    let own = Boxed::new(alloc, set_of(alloc, own)?)?;
    Ok(same(all.get(), own.get()))
}

/// The members of all parts, part by part; none of a value that isn't a set.
fn all_members(alloc: Global, parts: &[Val]) -> Result<Row<Val>, NoMemory>
    ensures { IfOk result (λ ms. map pure_val ms ≡ append_all (map set_members (map pure_val parts.now))) }
{
    let mut all = Row::new(alloc);
    for part in parts {
        add_members(alloc, &mut all, part)?;
    }
    Ok(all)
}

/// Puts the members of a set behind others; none of a value that isn't a set.
#[tactic(auto, using(crate::proofs::SetParts::set_more, crate::proofs::SetParts::set_none))]
fn add_members(alloc: Global, all: &mut Row<Val>, part: &Val) -> Result<(), NoMemory>
    ensures { OnOk result (map pure_val all.new ≡ map pure_val all.old ++ set_members (pure_val part.now)) }
{
    match part {
        Val::Num(_) => Ok(()),
        Val::Truth(_) => Ok(()),
        Val::Item(_, _) => Ok(()),
        Val::Tuple(_) => Ok(()),
        Val::Rec(_) => Ok(()),
        Val::Matrix(_, _) => Ok(()),
        Val::Set(own) => add_copies(alloc, all, own.as_slice()),
        Val::MSet(_) => Ok(()),
        Val::Function(_) => Ok(()),
        Val::Relation(_) => Ok(()),
        Val::Partition(_) => Ok(()),
    }
}
