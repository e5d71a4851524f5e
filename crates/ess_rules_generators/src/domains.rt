//! A pattern over a tuple of domains: a generator for each component.
ghost use Rattle.std.specs.Prelude.{◌≡◌, length, IfOk, option_map, map};
ghost use Rattle.ess_core.specs.TreeViews.{pure_pat, pats_of, over_item};
ghost use Rattle.ess_core_nodes.specs.NodeViews.{pure_node, pure_gen, pure_gens, pure_dom, pure_doms};
ghost use Rattle.ess_rules_laws.specs.SplitRules.{split, each_over};
ghost use Rattle.ess_rules_generators.specs.GeneratorParts.{components_split, items_over};

use crate::forms::{over_in, tuple_parts};
use ess_core::Pat;
use ess_core_nodes::{Gen, Node, NodeDom, copy_gens};
use ess_node_building::comprehension;
use ess_rows::{Boxed, NoMemory, Row};
use ess_rules_folds::forms::comp_in;
use std::alloc::Global;

/// Of `[e | (p, q) : (A, B), ..]` it is `[e | p : A, q : B, ..]`. `NoMemory` where there is no room for it.
#[tactic(auto, using(crate::proofs::GeneratorForms::split_by_parts, ess_core::proofs::PartEquations::pure_pat_name, ess_core::proofs::PartEquations::pure_pat_tuple))]
pub fn split(alloc: Global, node: &Node) -> Result<Option<Boxed<Node>>, NoMemory>
    ensures { IfOk result (λ o. option_map pure_node o ≡ split (pure_node node.now)) }
{
    let Some((body, gens)) = comp_in(node) else {
        return Ok(None);
    };
    let Some((pat, dom, rest)) = over_in(gens) else {
        return Ok(None);
    };
    match pat {
        Pat::Name(_) => Ok(None),
        Pat::Tuple(pats) => match tuple_parts(dom) {
            Some(doms) => components_split(alloc, body, pats.as_slice(), doms, rest),
            None => Ok(None),
        },
    }
}

/// The same by the components of the pattern and of the domain.
#[tactic(auto, using(crate::proofs::GeneratorRows::as_many_lengths, crate::proofs::GeneratorRows::other_lengths))]
fn components_split(
    alloc: Global,
    body: &Node,
    pats: &[Pat],
    doms: &[NodeDom],
    rest: &[Gen],
) -> Result<Option<Boxed<Node>>, NoMemory>
    ensures { IfOk result (λ o. option_map pure_node o
        ≡ components_split (pure_node body.now) (pats_of (map pure_pat pats.now)) (pure_doms doms.now) (pure_gens rest.now)) }
{
    if pats.len() != doms.len() {
        return Ok(None);
    }
    let gens = over_before(alloc, pats, doms, rest)?;
    let body = body.copy(alloc)?;
    Ok(Some(comprehension(alloc, body, gens)?))
}

/// A generator for each pattern and domain, before others.
#[tactic(auto, using(crate::proofs::GeneratorRows::over_put))]
fn over_before(
    alloc: Global,
    pats: &[Pat],
    doms: &[NodeDom],
    rest: &[Gen],
) -> Result<Row<Gen>, NoMemory>
    requires { length pats.now ≡ length doms.now }
    ensures { IfOk result (λ gs. pure_gens gs
        ≡ each_over (pats_of (map pure_pat pats.now)) (pure_doms doms.now) (pure_gens rest.now)) }
{
    let mut gens = each_over(alloc, pats, doms)?;
    let mut rest = copy_gens(alloc, rest)?;
    gens.append(&mut rest)?;
    Ok(gens)
}

/// A generator for each pattern and domain.
fn each_over(alloc: Global, pats: &[Pat], doms: &[NodeDom]) -> Result<Row<Gen>, NoMemory>
    requires { length pats.now ≡ length doms.now }
    ensures { IfOk result (λ gs. map pure_gen gs ≡ items_over (map pure_pat pats.now) (map pure_dom doms.now)) }
{
    let mut gens = Row::with_capacity(alloc, pats.len())?;
    for (place, pat) in pats.iter().enumerate() {
        let item = over(alloc, pat, &doms[place])?;
        gens.push(item.into_inner())?;
    }
    Ok(gens)
}

/// A generator of a pattern over a domain.
#[tactic(auto, using(ess_core_nodes::proofs::NodeEquations::pure_gen_over))]
fn over(alloc: Global, pat: &Pat, dom: &NodeDom) -> Result<Boxed<Gen>, NoMemory>
    ensures { IfOk result (λ g. pure_gen g ≡ over_item (pure_pat pat.now) (pure_dom dom.now)) }
{
    let dom = dom.copy(alloc)?;
    let pat = pat.copy(alloc)?;
    Boxed::new(alloc, Gen::Over(pat, dom))
}
