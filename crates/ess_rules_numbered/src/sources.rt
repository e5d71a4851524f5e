//! Sources that are counted, and the numbers of their items.
ghost use Rattle.std.specs.Prelude.{◌≡◌, option_map, is_some, not, IfOk};
ghost use Rattle.ess_core.specs.TreeViews.{cond_item};
ghost use Rattle.ess_core.specs.TypeViews.{pure_ty};
ghost use Rattle.ess_core_nodes.specs.NodeViews.{pure_node, pure_gen, pure_gens};
ghost use Rattle.ess_node_types.specs.TypedNames.{pure_names};
ghost use Rattle.ess_ordered_laws.specs.ToldAxes.{picked_axis as axis_picked};
ghost use Rattle.ess_numbered_laws.specs.CountedSources.{is_counted as counted_source, items_counted as count_of_items, is_number_of as number_of, numbers_of as numbers_in, numbered_items as items_numbered, numbered_term as term_numbered};
ghost use Rattle.ess_rules_ordered.specs.Supplies.{item_supply};

use crate::most::most_items;
use ess_core::{Fun, Op2, Ty};
use ess_core_nodes::{Gen, Node};
use ess_guard_forms::one_up_to;
use ess_node_building::{binary, comprehension, condition, from, name, number, over, word};
use ess_node_types::{NameTypes, type_of};
use ess_rows::{Boxed, NoMemory, Row, Text};
use ess_rules_forms::seen_type;
use ess_rules_ordered::{ItemNames, is_untold, item_at, item_type, picked_axis};
use std::alloc::Global;

/// Whether the term is picked, and neither its form nor a domain tells its index domain. `NoMemory` where there is no room to tell.
pub(crate) fn is_counted(
    alloc: Global,
    types: &NameTypes,
    names: &ItemNames<'_>,
    term: &Node,
) -> Result<bool, NoMemory>
    ensures { IfOk result (λ b. b ≡ counted_source (item_supply names.now) (pure_names types.now) (pure_node term.now)) }
{
    if is_untold(alloc, types, names, term)? {
        has_no_axis(alloc, term)
    } else {
        Ok(false)
    }
}

/// Whether nothing tells the index domain of a list that is picked.
fn has_no_axis(alloc: Global, term: &Node) -> Result<bool, NoMemory>
    ensures { IfOk result (λ b. b ≡ not (is_some (axis_picked (pure_node term.now)))) }
{
    let axis = picked_axis(alloc, term)?;
    Ok(axis.is_none())
}

/// How many items the term has; the name is for these.
pub(crate) fn items_counted(
    alloc: Global,
    other: &Text,
    term: &Node,
) -> Result<Boxed<Node>, NoMemory>
    ensures { IfOk result (λ n. pure_node n ≡ count_of_items other.now (pure_node term.now)) }
{
    let source = term.copy(alloc)?;
    let mut gens = Row::new(alloc);
    gens.push(from(alloc, other, source)?)?;
    let each = number(alloc, 1)?;
    let all = comprehension(alloc, each, gens)?;
    word(alloc, false, Fun::Sum, all)
}

/// That the first name is the number of an item of the term.
pub(crate) fn is_number_of(
    alloc: Global,
    one: &Text,
    other: &Text,
    term: &Node,
) -> Result<Gen, NoMemory>
    ensures { IfOk result (λ g. pure_gen g ≡ cond_item (number_of one.now other.now (pure_node term.now))) }
{
    let count = items_counted(alloc, other, term)?;
    let at = name(alloc, one)?;
    Ok(condition(binary(alloc, true, Op2::Le, at, count)?))
}

/// The numbers of the items of the term, which are as many at most, before generators.
pub(crate) fn numbers_of(
    alloc: Global,
    one: &Text,
    other: &Text,
    most: &Node,
    term: &Node,
    mut rest: Row<Gen>,
) -> Result<Row<Gen>, NoMemory>
    ensures { IfOk result (λ gs. pure_gens gs
        ≡ numbers_in one.now other.now (pure_node most.now) (pure_node term.now) (pure_gens rest)) }
{
    let most = most.copy(alloc)?;
    let axis = one_up_to(alloc, most)?;
    let mut gens = Row::new(alloc);
    gens.push(over(alloc, one, axis)?)?;
    gens.push(is_number_of(alloc, one, other, term)?)?;
    gens.append(&mut rest)?;
    Ok(gens)
}

/// The items of the term by their numbers.
fn numbered_items(
    alloc: Global,
    one: &Text,
    other: &Text,
    term: &Node,
    most: &Node,
    ty: &Ty,
) -> Result<Boxed<Node>, NoMemory>
    ensures { IfOk result (λ n. pure_node n
        ≡ items_numbered one.now other.now (pure_node term.now) (pure_node most.now) (pure_ty ty.now)) }
{
    let gens = numbers_of(alloc, one, other, most, term, Row::new(alloc))?;
    let item = item_at(alloc, ty, term, one)?;
    comprehension(alloc, item, gens)
}

/// The same of a term that is counted, where its type is one of matrices. `NoMemory` where there is no room for it.
#[tactic(auto, using(crate::proofs::CountedForms::term_by_type))]
pub(crate) fn numbered_term(
    alloc: Global,
    types: &NameTypes,
    names: &ItemNames<'_>,
    term: &Node,
) -> Result<Option<Boxed<Node>>, NoMemory>
    ensures { IfOk result (λ o. option_map pure_node o
        ≡ term_numbered (item_supply names.now) (pure_names types.now) (pure_node term.now)) }
{
    if !is_counted(alloc, types, names, term)? {
        return Ok(None);
    }
    let most = most_items(alloc, names.counted, term)?;
    let Some(most) = most else {
        return Ok(None);
    };
    let ty = type_of(alloc, term, types)?;
    match item_type(seen_type(&ty)) {
        Some(item) => Ok(Some(numbered_items(
            alloc,
            names.item,
            names.other,
            term,
            most.get(),
            item,
        )?)),
        None => Ok(None),
    }
}
