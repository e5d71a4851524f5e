//! What picks the one item of a lookup.
ghost use Rattle.std.specs.Prelude.{◌≡◌, IfOk};
ghost use Rattle.ess_semantics.specs.Trees.{name_pat, comp_ex, no_gens, from as from_gen};
ghost use Rattle.ess_core_nodes.specs.NodeViews.{pure_node};
ghost use Rattle.ess_rules_laws.specs.Lookups.{picking as picks};

use ess_core::Fun;
use ess_core_nodes::Node;
use ess_node_building::{comprehension, from, word};
use ess_rows::{Boxed, NoMemory, Row, Text};
use std::alloc::Global;

/// What picks the one item of a lookup, which gets a name: of truth values `or([e | x <- l])`, of numbers `sum([e | x <- l])`.
/// `NoMemory` where there is no room for it.
pub fn picking(
    alloc: Global,
    mark: bool,
    bound: &Text,
    lookup: Boxed<Node>,
    body: Boxed<Node>,
) -> Result<Boxed<Node>, NoMemory>
    ensures { IfOk result (λ n. pure_node n ≡ picks mark bound.now (pure_node lookup) (pure_node body)) }
{
    let list = items_of(alloc, bound, lookup, body)?;
    if mark {
        word(alloc, true, Fun::Or, list)
    } else {
        word(alloc, false, Fun::Sum, list)
    }
}

/// `[e | x <- l]`: what is made of each item of a list, which gets a name.
pub(crate) fn items_of(
    alloc: Global,
    bound: &Text,
    list: Boxed<Node>,
    body: Boxed<Node>,
) -> Result<Boxed<Node>, NoMemory>
    ensures { IfOk result (λ n. pure_node n ≡ comp_ex (pure_node body) (from_gen (name_pat bound.now) (pure_node list) no_gens)) }
{
    let mut gens = Row::new(alloc);
    gens.push(from(alloc, bound, list)?)?;
    comprehension(alloc, body, gens)
}
