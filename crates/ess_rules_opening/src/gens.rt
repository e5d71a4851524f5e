//! Generators taken apart at the first that isn't plain.
ghost use Rattle.std.specs.Prelude.{◌≡◌, option_map};
ghost use Rattle.ess_core.specs.TreeViews.{pure_pat};
ghost use Rattle.ess_core_nodes.specs.NodeViews.{pure_gen, pure_gens, pure_dom};
ghost use Rattle.ess_refine_laws.specs.ItemsOnce.{is_atom_dom as is_atom};
ghost use Rattle.ess_open_rules_laws.specs.OpenGenerators.{at_first_open, is_plain_over as plain_over};
ghost use Rattle.ess_rules_opening.specs.OpenedViews.{pure_opened, is_plain_item};

use ess_core::Pat;
use ess_core_nodes::{Gen, NodeDom};

/// Generators in two parts.
#[derive(Clone, Copy)]
pub struct Opened<'a> {
    /// The first part.
    pub before: &'a [Gen],
    /// The second part.
    pub after: &'a [Gen],
}

/// The generators at the first that isn't plain, where there is one. Plain are conditions, and names over the domains of atoms.
#[tactic(auto, using(crate::proofs::OpenRows::open_start, crate::proofs::OpenRows::open_more, crate::proofs::OpenRows::open_end, crate::proofs::OpenRows::open_found))]
pub fn at_first_open(gens: &[Gen]) -> Option<Opened<'_>>
    ensures { option_map pure_opened result ≡ at_first_open (pure_gens gens.now) }
{
    for at in 0..gens.len() {
        if !is_plain(&gens[at]) {
            return Some(Opened {
                before: &gens[..at],
                after: &gens[at..],
            });
        }
    }
    None
}

/// Whether it is a condition, or a name over the domain of an atom.
#[tactic(auto, using(ess_core_nodes::proofs::NodeEquations::pure_gen_over, ess_core_nodes::proofs::NodeEquations::pure_gen_from, ess_core_nodes::proofs::NodeEquations::pure_gen_if))]
fn is_plain(item: &Gen) -> bool
    ensures { result ≡ is_plain_item (pure_gen item.now) }
{
    match item {
        Gen::Over(pat, dom) => is_plain_over(pat, dom.get()),
        Gen::From(_, _) => false,
        Gen::If(_) => true,
    }
}

/// Whether the pattern is a name, and the domain that of an atom.
fn is_plain_over(pat: &Pat, dom: &NodeDom) -> bool
    ensures { result ≡ plain_over (pure_pat pat.now) (pure_dom dom.now) }
{
    match pat {
        Pat::Name(_) => is_atom_dom(dom),
        _ => false,
    }
}

/// Whether the domain is that of an atom.
fn is_atom_dom(dom: &NodeDom) -> bool
    ensures { result ≡ is_atom (pure_dom dom.now) }
{
    match dom {
        NodeDom::Bool => true,
        NodeDom::Int(_, _) => true,
        NodeDom::Name(_) => true,
        _ => false,
    }
}
