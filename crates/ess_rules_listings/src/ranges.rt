//! The set of the results of a function.
ghost use Rattle.std.specs.Prelude.{◌≡◌, false, IfOk, option_map};
ghost use Rattle.ess_core_nodes.specs.NodeViews.{pure_node};
ghost use Rattle.ess_node_types.specs.TypedNames.{pure_names};
ghost use Rattle.ess_rules_laws.specs.ContainerListings.{range_as_set};
ghost use Rattle.ess_rules_listings.specs.Marks.{results_by};
ghost use Rattle.ess_semantics.specs.Trees.{fun1};

use crate::building::component_by;
use crate::kinds::function_marks;
use ess_core::Fun;
use ess_core_nodes::Node;
use ess_node_building::{comprehension, from, word};
use ess_node_types::NameTypes;
use ess_rows::{Boxed, NoMemory, Row, Text};
use ess_rules_forms::plain_word;
use std::alloc::Global;

/// Of `range(f)` it is `toSet([x[2] | x <- f])`, where f is a function. `NoMemory` where there is no room for it.
#[tactic(auto, using(crate::proofs::MadeForms::range_of_word))]
pub fn range_as_set(
    alloc: Global,
    names: &NameTypes,
    one: &Text,
    node: &Node,
) -> Result<Option<Boxed<Node>>, NoMemory>
    ensures { IfOk result (λ o. option_map pure_node o ≡ range_as_set (pure_names names.now) one.now (pure_node node.now)) }
{
    match plain_word(node) {
        Some((Fun::Range, function)) => range_in(alloc, names, one, function),
        _ => Ok(None),
    }
}

/// The same of the function.
#[tactic(auto, using(crate::proofs::MadeForms::range_by_marks))]
fn range_in(
    alloc: Global,
    names: &NameTypes,
    one: &Text,
    function: &Node,
) -> Result<Option<Boxed<Node>>, NoMemory>
    ensures { IfOk result (λ o. option_map pure_node o
        ≡ range_as_set (pure_names names.now) one.now (fun1 false Fun.Range (pure_node function.now))) }
{
    match function_marks(alloc, names, function)? {
        Some((_, to)) => Ok(Some(results_by(alloc, to, one, function)?)),
        None => Ok(None),
    }
}

/// The set of the results of the pairs of a function.
fn results_by(
    alloc: Global,
    mark: bool,
    one: &Text,
    function: &Node,
) -> Result<Boxed<Node>, NoMemory>
    ensures { IfOk result (λ n. pure_node n ≡ results_by mark one.now (pure_node function.now)) }
{
    let function = function.copy(alloc)?;
    let mut gens = Row::new(alloc);
    gens.push(from(alloc, one, function)?)?;
    let item = component_by(alloc, mark, 2, one)?;
    word(alloc, false, Fun::ToSet, comprehension(alloc, item, gens)?)
}
