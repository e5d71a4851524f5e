//! What is picked in order: no table says which items there are.
ghost use Rattle.std.specs.Prelude.{◌≡◌, Some, option_map, map};
ghost use Rattle.ess_core_nodes.specs.NodeViews.{pure_node, pure_gen, pure_gens};
ghost use Rattle.ess_rules_forms.specs.PureAlternatives.{pure_alternative};
ghost use Rattle.ess_open_rules_laws.specs.OpenSources.{is_decided, are_decided, is_first_decided, decided_one as one_decided};
ghost use Rattle.ess_kind_rules.specs.DecidedItems.{is_decided_item, are_decided_items};

use crate::words::only_one;
use ess_core_nodes::{Gen, Node};
use ess_rules_everywhere::has_cells;
use ess_rules_folds::forms::from_in;
use ess_rules_forms::Alternative;

/// The only alternative, where its first generator runs over a comprehension that no table decides.
pub(crate) fn decided_one(found: &[Alternative]) -> Option<&Alternative>
    ensures { option_map (λ a. pure_alternative a.now) result ≡ one_decided (Some (map pure_alternative found.now)) }
{
    match only_one(found) {
        Some(one) => {
            if is_first_decided(one.gens.as_slice()) {
                Some(one)
            } else {
                None
            }
        }
        None => None,
    }
}

/// Whether the first generator runs over such a comprehension.
#[tactic(auto, using(crate::proofs::DecidedForms::first_decided))]
fn is_first_decided(gens: &[Gen]) -> bool
    ensures { result ≡ is_first_decided (pure_gens gens.now) }
{
    match from_in(gens) {
        Some((_, source, _)) => is_decided(source),
        None => false,
    }
}

/// Whether the term is a comprehension over domains and such comprehensions, no condition of which reads a table.
#[cycle(is_decided)]
#[tactic(auto, using(ess_core_nodes::proofs::NodeEquations::pure_seen_is))]
fn is_decided(node: &Node) -> bool
    ensures { result ≡ is_decided (pure_node node.now) }
{
    match node {
        Node::Comp(_, gens) => are_decided(gens.as_slice()),
        _ => false,
    }
}

/// The same of its generators.
#[cycle(is_decided)]
#[tactic(auto, using(crate::proofs::DecidedForms::items_decided))]
fn are_decided(gens: &[Gen]) -> bool
    ensures { result ≡ are_decided (pure_gens gens.now) }
{
    are_decided_items(gens)
}

/// The same, one by one.
#[cycle(is_decided)]
fn are_decided_items(gens: &[Gen]) -> bool
    ensures { result ≡ are_decided_items (map pure_gen gens.now) }
{
    for item in gens {
        if !is_decided_item(item) {
            return false;
        }
    }
    true
}

/// Whether a generator is so.
#[cycle(is_decided)]
#[tactic(auto, using(ess_core_nodes::proofs::NodeEquations::pure_gen_over, ess_core_nodes::proofs::NodeEquations::pure_gen_from, ess_core_nodes::proofs::NodeEquations::pure_gen_if))]
fn is_decided_item(item: &Gen) -> bool
    ensures { result ≡ is_decided_item (pure_gen item.now) }
{
    match item {
        Gen::Over(_, _) => true,
        Gen::From(_, source) => is_decided(source.get()),
        Gen::If(condition) => !has_cells(condition.get()),
    }
}
