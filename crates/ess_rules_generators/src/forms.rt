//! Generators over domains, and their domains.
ghost use Rattle.std.specs.Prelude.{◌≡◌, option_map};
ghost use Rattle.ess_core.specs.TreeViews.{pure_pat};
ghost use Rattle.ess_core_nodes.specs.NodeViews.{pure_gens, pure_dom, pure_doms};
ghost use Rattle.ess_rules_generators.specs.GeneratorParts.{over_parts, tuple_parts};

use ess_core::Pat;
use ess_core_nodes::{Gen, NodeDom};

/// A first generator over a domain: its pattern, the domain, and what stands behind it.
#[tactic(auto, using(ess_core_nodes::proofs::NodeEquations::pure_gen_over, ess_core_nodes::proofs::NodeEquations::pure_gen_from, ess_core_nodes::proofs::NodeEquations::pure_gen_if))]
pub(crate) fn over_in(gens: &[Gen]) -> Option<(&Pat, &NodeDom, &[Gen])>
    ensures { option_map (λ s. (pure_pat s.0.now, pure_dom s.1.now, pure_gens s.2.now)) result ≡ over_parts (pure_gens gens.now) }
{
    match gens.split_first() {
        Some((Gen::Over(pat, dom), rest)) => Some((pat, dom.get(), rest)),
        _ => None,
    }
}

/// The components of a tuple's domain.
pub(crate) fn tuple_parts(dom: &NodeDom) -> Option<&[NodeDom]>
    ensures { option_map (λ ds. pure_doms ds.now) result ≡ tuple_parts (pure_dom dom.now) }
{
    match dom {
        NodeDom::Tuple(doms) => Some(doms.as_slice()),
        _ => None,
    }
}
