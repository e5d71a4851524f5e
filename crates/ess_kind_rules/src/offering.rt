//! What the first source offers that stands behind plain generators.
ghost use Rattle.std.specs.Prelude.{◌≡◌, IfOk, option_map, map};
ghost use Rattle.ess_core_nodes.specs.NodeViews.{pure_node, pure_gens};
ghost use Rattle.ess_node_types.specs.TypedNames.{pure_names};
ghost use Rattle.ess_rules_forms.specs.PureAlternatives.{pure_alternative};
ghost use Rattle.ess_open_rules_laws.specs.OpenSources.{picked_members as members_picked, told_by_kind as kind_tells, all_offered as offered_all, comp_offered as offered_comp, put_opened as opened_put};
ghost use Rattle.ess_kind_rules.specs.Supplies.{taken_supply};
ghost use Rattle.ess_kind_rules.specs.OpenedViews.{put_at};

use crate::supplies::{Taken, three};
use ess_core_nodes::{Gen, Node};
use ess_node_types::{NameTypes, names_behind};
use ess_rows::{NoMemory, Row, Text};
use ess_rules_alternatives::members_of_each;
use ess_rules_folds::forms::source_in;
use ess_rules_forms::Alternative;
use ess_rules_generators::before;
use ess_rules_listings::offered;
use ess_rules_offers::{looked_up, view_listing};
use ess_rules_opening::at_first_open;
use ess_rules_picked::picks;
use ess_substitution::{substitute, substitute_gens};
use std::alloc::Global;

/// The members of what is picked.
pub(crate) fn picked_members(
    alloc: Global,
    types: &NameTypes,
    taken: &Taken<'_>,
    term: &Node,
) -> Result<Option<Row<Alternative>>, NoMemory>
    ensures { IfOk result (λ o. option_map (map pure_alternative) o
        ≡ members_picked (taken_supply taken.now) (pure_names types.now) (pure_node term.now)) }
{
    if !picks(term) {
        return Ok(None);
    }
    let found = looked_up(alloc, types, taken.third, taken.parts, term)?;
    match found {
        Some(found) => {
            let members = members_of_each(alloc, taken.one, taken.other, found.as_slice())?;
            Ok(Some(members))
        }
        None => Ok(None),
    }
}

/// A view as the one alternative, else what is picked.
fn told_by_kind(
    alloc: Global,
    types: &NameTypes,
    taken: &Taken<'_>,
    term: &Node,
) -> Result<Option<Row<Alternative>>, NoMemory>
    ensures { IfOk result (λ o. option_map (map pure_alternative) o
        ≡ kind_tells (taken_supply taken.now) (pure_names types.now) (pure_node term.now)) }
{
    let seen = view_listing(alloc, taken.one, taken.other, taken.parts, term)?;
    match seen {
        Some(Alternative { gens, item }) => {
            let mut all = Row::new(alloc);
            all.push(Alternative { gens, item })?;
            Ok(Some(all))
        }
        None => picked_members(alloc, types, taken, term),
    }
}

/// Whatever the term offers.
fn all_offered(
    alloc: Global,
    types: &NameTypes,
    taken: &Taken<'_>,
    term: &Node,
) -> Result<Option<Row<Alternative>>, NoMemory>
    ensures { IfOk result (λ o. option_map (map pure_alternative) o
        ≡ offered_all (taken_supply taken.now) (pure_names types.now) (pure_node term.now)) }
{
    let names = three(taken);
    let found = offered(alloc, types, &names, term)?;
    match found {
        Some(found) => Ok(Some(found)),
        None => told_by_kind(alloc, types, taken, term),
    }
}

/// What a comprehension offers by the alternatives of its first generator that isn't plain.
pub(crate) fn comp_offered(
    alloc: Global,
    types: &NameTypes,
    taken: &Taken<'_>,
    body: &Node,
    gens: &[Gen],
) -> Result<Option<Row<Alternative>>, NoMemory>
    ensures { IfOk result (λ o. option_map (map pure_alternative) o
        ≡ offered_comp (taken_supply taken.now) (pure_names types.now) (pure_node body.now) (pure_gens gens.now)) }
{
    let Some(opened) = at_first_open(gens) else {
        return Ok(None);
    };
    let under = names_behind(alloc, opened.before, types)?;
    put_opened(alloc, &under, taken, body, opened.before, opened.after)
}

/// The same of generators in two parts, where the names before the second have these types.
#[tactic(auto, using(crate::proofs::CompForms::put_by_parts))]
fn put_opened(
    alloc: Global,
    types: &NameTypes,
    taken: &Taken<'_>,
    body: &Node,
    first: &[Gen],
    after: &[Gen],
) -> Result<Option<Row<Alternative>>, NoMemory>
    ensures { IfOk result (λ o. option_map (map pure_alternative) o
        ≡ opened_put (pure_node body.now) (pure_gens first.now) (pure_gens after.now)
        (offered_all (taken_supply taken.now) (pure_names types.now))) }
{
    let Some((name, source, rest)) = source_in(after) else {
        return Ok(None);
    };
    let found = all_offered(alloc, types, taken, source)?;
    match found {
        Some(found) => {
            let put = each_put(alloc, first, name, body, rest, found.as_slice())?;
            Ok(Some(put))
        }
        None => Ok(None),
    }
}

/// Each alternative of the source as one of the whole comprehension.
fn each_put(
    alloc: Global,
    first: &[Gen],
    name: &Text,
    body: &Node,
    rest: &[Gen],
    found: &[Alternative],
) -> Result<Row<Alternative>, NoMemory>
    ensures { IfOk result (λ l. map pure_alternative l
        ≡ map (put_at (pure_gens first.now) name.now (pure_node body.now) (pure_gens rest.now)) (map pure_alternative found.now)) }
{
    let mut all = Row::with_capacity(alloc, found.len())?;
    for one in found {
        let Alternative { gens, item } = put_one(alloc, first, name, body, rest, one)?;
        all.push(Alternative { gens, item })?;
    }
    Ok(all)
}

/// An alternative of the source as one of the whole comprehension.
fn put_one(
    alloc: Global,
    first: &[Gen],
    name: &Text,
    body: &Node,
    rest: &[Gen],
    offered: &Alternative,
) -> Result<Alternative, NoMemory>
    ensures { IfOk result (λ a. pure_alternative a
        ≡ put_at (pure_gens first.now) name.now (pure_node body.now) (pure_gens rest.now) (pure_alternative offered.now)) }
{
    let item = offered.item.get();
    let body = substitute(alloc, body, name, item)?;
    let rest = substitute_gens(alloc, rest, name, item)?;
    let behind = before(alloc, offered.gens.as_slice(), rest)?;
    let gens = before(alloc, first, behind)?;
    Ok(Alternative { gens, item: body })
}
