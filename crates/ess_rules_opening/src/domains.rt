//! Generators over domains alone, and comprehensions over such, whose index domains may be asked for.
ghost use Rattle.std.specs.Prelude.{◌≡◌, map};
ghost use Rattle.ess_core_nodes.specs.NodeViews.{pure_node, pure_gen, pure_gens};
ghost use Rattle.ess_open_rules_laws.specs.OpenGenerators.{are_over_domains, has_no_source};
ghost use Rattle.ess_rules_opening.specs.OverDomains.{is_over_domain, are_over_domains_each};

use ess_core_nodes::{Gen, Node};
use ess_rules_folds::forms::comp_in;

/// Whether the term is no comprehension with a generator over a source.
#[tactic(auto, using(crate::proofs::DomainForms::sources_by_parts))]
pub fn has_no_source(node: &Node) -> bool
    ensures { result ≡ has_no_source (pure_node node.now) }
{
    match comp_in(node) {
        Some((_, gens)) => are_over_domains(gens),
        None => true,
    }
}

/// Whether each generator runs over a domain; there may be conditions.
#[tactic(auto, using(crate::proofs::DomainForms::domains_alone))]
pub fn are_over_domains(gens: &[Gen]) -> bool
    ensures { result ≡ are_over_domains (pure_gens gens.now) }
{
    are_over_domains_each(gens)
}

/// The same, one by one.
fn are_over_domains_each(gens: &[Gen]) -> bool
    ensures { result ≡ are_over_domains_each (map pure_gen gens.now) }
{
    for item in gens {
        if !is_over_domain(item) {
            return false;
        }
    }
    true
}

/// Whether it is no generator over a source.
#[tactic(auto, using(ess_core_nodes::proofs::NodeEquations::pure_gen_over, ess_core_nodes::proofs::NodeEquations::pure_gen_from, ess_core_nodes::proofs::NodeEquations::pure_gen_if))]
fn is_over_domain(item: &Gen) -> bool
    ensures { result ≡ is_over_domain (pure_gen item.now) }
{
    match item {
        Gen::Over(_, _) => true,
        Gen::From(_, _) => false,
        Gen::If(_) => true,
    }
}
