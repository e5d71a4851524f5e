//! Generators that no table decides.
ghost use Rattle.std.specs.Prelude.{◌≡◌, map};
ghost use Rattle.ess_core_nodes.specs.NodeViews.{pure_node, pure_gen, pure_gens};
ghost use Rattle.ess_open_rules_laws.specs.OpenSources.{is_decided as decided, are_decided as all_decided};
ghost use Rattle.ess_rules_ordered.specs.PickedForms.{is_decided_item as item_decided, are_decided_items as items_decided};

use ess_core_nodes::{Gen, Node};
use ess_rules_everywhere::has_cells;

/// Whether the term is a comprehension over domains and such comprehensions, no condition of which reads a table.
#[cycle(is_decided)]
#[tactic(auto, using(ess_core_nodes::proofs::NodeEquations::pure_seen_is))]
fn is_decided(node: &Node) -> bool
    ensures { result ≡ decided (pure_node node.now) }
{
    match node {
        Node::Comp(_, gens) => are_decided(gens.as_slice()),
        _ => false,
    }
}

/// The same of its generators.
#[cycle(is_decided)]
#[tactic(auto, using(crate::proofs::PickedForms::decided_one_by_one))]
pub(crate) fn are_decided(gens: &[Gen]) -> bool
    ensures { result ≡ all_decided (pure_gens gens.now) }
{
    are_decided_items(gens)
}

/// The same, one by one.
#[cycle(is_decided)]
fn are_decided_items(gens: &[Gen]) -> bool
    ensures { result ≡ items_decided (map pure_gen gens.now) }
{
    for item in gens {
        if !is_decided_item(item) {
            return false;
        }
    }
    true
}

/// Whether a generator is so.
#[cycle(is_decided)]
#[tactic(auto, using(ess_core_nodes::proofs::NodeEquations::pure_gen_over, ess_core_nodes::proofs::NodeEquations::pure_gen_from, ess_core_nodes::proofs::NodeEquations::pure_gen_if))]
fn is_decided_item(item: &Gen) -> bool
    ensures { result ≡ item_decided (pure_gen item.now) }
{
    match item {
        Gen::Over(_, _) => true,
        Gen::From(_, source) => is_decided(source.get()),
        Gen::If(condition) => !has_cells(condition.get()),
    }
}
