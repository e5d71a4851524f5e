//! What words of functions and of partitions offer.
ghost use Rattle.std.specs.Prelude.{◌≡◌, false, IfOk, option_map, map};
ghost use Rattle.ess_semantics.specs.Trees.{fun1};
ghost use Rattle.ess_semantics.specs.Typing.{type_of};
ghost use Rattle.ess_core_nodes.specs.NodeViews.{pure_node};
ghost use Rattle.ess_node_types.specs.TypedNames.{pure_names};
ghost use Rattle.ess_rules_laws.specs.ContainerListings.{made_listing};
ghost use Rattle.ess_rules_forms.specs.PureAlternatives.{pure_alternative};
ghost use Rattle.ess_rules_listings.specs.Marks.{marks_of, has_result, pairs_offered, arguments_offered, sources_offered};

use crate::building::{arguments_by, component_by, members_in_parts, only, under, whole};
use crate::kinds::{function_marks, is_partition};
use crate::rows::each_first;
use ess_core::{Fun, Op2};
use ess_core_nodes::Node;
use ess_node_building::binary;
use ess_node_types::NameTypes;
use ess_rows::{Boxed, NoMemory, Row, Text};
use ess_rules_folds::forms::written_items;
use ess_rules_forms::Alternative;
use std::alloc::Global;

/// The alternatives of a word of a term.
#[tactic(auto, using(crate::proofs::MadeForms::set_by_items, crate::proofs::MadeForms::pairs_by_marks, crate::proofs::MadeForms::arguments_by_marks))]
pub(crate) fn made_word(
    alloc: Global,
    names: &NameTypes,
    one: &Text,
    other: &Text,
    fun: Fun,
    source: &Node,
) -> Result<Option<Row<Alternative>>, NoMemory>
    ensures { IfOk result (λ o. option_map (map pure_alternative) o
        ≡ made_listing (pure_names names.now) one.now other.now (fun1 false fun (pure_node source.now))) }
{
    match fun {
        Fun::ToRelation => pairs(alloc, names, one, source),
        Fun::Defined => arguments(alloc, names, one, source),
        Fun::Participants => {
            if !is_partition(alloc, names, source)? {
                return Ok(None);
            }
            Ok(Some(only(alloc, members_in_parts(alloc, one, other, source)?)?))
        }
        Fun::ToSet => match written_items(source) {
            Some(items) => Ok(Some(each_first(alloc, items)?)),
            None => Ok(None),
        },
        _ => Ok(None),
    }
}

/// The pairs of a function.
fn pairs(
    alloc: Global,
    names: &NameTypes,
    one: &Text,
    function: &Node,
) -> Result<Option<Row<Alternative>>, NoMemory>
    ensures { IfOk result (λ o. option_map (map pure_alternative) o
        ≡ pairs_offered one.now (pure_node function.now) (marks_of (type_of (pure_node function.now) (pure_names names.now)))) }
{
    match function_marks(alloc, names, function)? {
        Some(_) => Ok(Some(whole(alloc, one, function)?)),
        None => Ok(None),
    }
}

/// The arguments of a function.
fn arguments(
    alloc: Global,
    names: &NameTypes,
    one: &Text,
    function: &Node,
) -> Result<Option<Row<Alternative>>, NoMemory>
    ensures { IfOk result (λ o. option_map (map pure_alternative) o
        ≡ arguments_offered one.now (pure_node function.now) (marks_of (type_of (pure_node function.now) (pure_names names.now)))) }
{
    match function_marks(alloc, names, function)? {
        Some((from, _)) => Ok(Some(only(
            alloc,
            arguments_by(alloc, from, one, function, Row::new(alloc))?,
        )?)),
        None => Ok(None),
    }
}

/// The arguments of a function that have a result.
pub(crate) fn pre_image(
    alloc: Global,
    names: &NameTypes,
    one: &Text,
    function: &Node,
    wanted: &Node,
) -> Result<Option<Row<Alternative>>, NoMemory>
    ensures { IfOk result (λ o. option_map (map pure_alternative) o
        ≡ sources_offered one.now (pure_node function.now) (pure_node wanted.now)
        (marks_of (type_of (pure_node function.now) (pure_names names.now)))) }
{
    match function_marks(alloc, names, function)? {
        Some((from, to)) => {
            let under_result = under(alloc, has_result(alloc, to, one, wanted)?)?;
            Ok(Some(only(
                alloc,
                arguments_by(alloc, from, one, function, under_result)?,
            )?))
        }
        None => Ok(None),
    }
}

/// That the pair of this name has the result.
fn has_result(alloc: Global, mark: bool, one: &Text, wanted: &Node) -> Result<Boxed<Node>, NoMemory>
    ensures { IfOk result (λ n. pure_node n ≡ has_result mark one.now (pure_node wanted.now)) }
{
    let there = component_by(alloc, mark, 2, one)?;
    let wanted = wanted.copy(alloc)?;
    binary(alloc, true, Op2::Eq, there, wanted)
}
