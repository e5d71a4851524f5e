//! Comprehensions with a source by its indices, at the first generator that isn't plain.
ghost use Rattle.std.specs.Prelude.{◌≡◌, IfOk, option_map};
ghost use Rattle.ess_semantics.specs.Trees.{name_pat, from as from_source};
ghost use Rattle.ess_core_nodes.specs.NodeViews.{pure_node, pure_gens};
ghost use Rattle.ess_node_types.specs.TypedNames.{pure_names};
ghost use Rattle.ess_rules_laws.specs.SpliceRules.{append_gens};
ghost use Rattle.ess_ordered_laws.specs.IndexedSources.{indexed_behind as behind_indices};

use crate::sources::indexed_term;
use ess_core_nodes::{Gen, Node, copy_gens};
use ess_node_building::{comprehension, from};
use ess_node_types::{NameTypes, names_behind};
use ess_rows::{Boxed, NoMemory, Row, Text};
use ess_rules_folds::forms::{comp_in, source_in};
use ess_rules_generators::before;
use ess_rules_opening::at_first_open;
use std::alloc::Global;

/// A comprehension with its source by its indices, each of which has the name. `NoMemory` where there is no room for it.
#[tactic(auto, using(crate::proofs::IndexedForms::behind_by_parts))]
pub fn source_by_indices(
    alloc: Global,
    types: &NameTypes,
    one: &Text,
    node: &Node,
) -> Result<Option<Boxed<Node>>, NoMemory>
    ensures { IfOk result (λ o. option_map pure_node o
        ≡ behind_indices (pure_names types.now) one.now (pure_node node.now)) }
{
    let Some((body, gens)) = comp_in(node) else {
        return Ok(None);
    };
    let Some(opened) = at_first_open(gens) else {
        return Ok(None);
    };
    let Some((name, source, rest)) = source_in(opened.after) else {
        return Ok(None);
    };
    let under = names_behind(alloc, opened.before, types)?;
    let items = indexed_term(alloc, &under, one, source)?;
    let Some(items) = items else {
        return Ok(None);
    };
    let gens = bound_behind(alloc, opened.before, name, items, rest)?;
    let body = body.copy(alloc)?;
    Ok(Some(comprehension(alloc, body, gens)?))
}

/// Generators with a name over a value behind the first ones.
pub fn bound_behind(
    alloc: Global,
    first: &[Gen],
    name: &Text,
    value: Boxed<Node>,
    rest: &[Gen],
) -> Result<Row<Gen>, NoMemory>
    ensures { IfOk result (λ gs. pure_gens gs
        ≡ append_gens (pure_gens first.now) (from_source (name_pat name.now) (pure_node value) (pure_gens rest.now))) }
{
    let bound = from(alloc, name, value)?;
    let mut gens = Row::new(alloc);
    gens.push(bound)?;
    let mut behind = copy_gens(alloc, rest)?;
    gens.append(&mut behind)?;
    before(alloc, first, gens)
}
