//! Generators over a comprehension: its own generators come in the place of the generator.
ghost use Rattle.std.specs.Prelude.{◌≡◌, IfOk, option_map};
ghost use Rattle.ess_semantics.specs.Trees.{comp_ex};
ghost use Rattle.ess_semantics.specs.Substitution.{substitute, substitute_gens, for_name};
ghost use Rattle.ess_core_nodes.specs.NodeViews.{pure_node, pure_gens};
ghost use Rattle.ess_rules_laws.specs.SpliceRules.{splice, append_gens};

use ess_core_nodes::{Gen, Node, copy_gens};
use ess_node_building::comprehension;
use ess_rows::{Boxed, NoMemory, Row, Text};
use ess_rules_folds::forms::{comp_in, source_in};
use ess_substitution::{substitute, substitute_gens};
use std::alloc::Global;

/// Of `[e | y <- [h | ..], ..]` the comprehension with the inner generators in the place of the first, and with h for y. `NoMemory`
/// where there is no room for it.
#[tactic(auto, using(crate::proofs::GeneratorForms::splice_by_parts))]
pub fn splice(alloc: Global, node: &Node) -> Result<Option<Boxed<Node>>, NoMemory>
    ensures { IfOk result (λ o. option_map pure_node o ≡ splice (pure_node node.now)) }
{
    let Some((body, gens)) = comp_in(node) else {
        return Ok(None);
    };
    let Some((name, source, rest)) = source_in(gens) else {
        return Ok(None);
    };
    match comp_in(source) {
        Some((item, inner)) => Ok(Some(put_in(alloc, name, item, inner, body, rest)?)),
        None => Ok(None),
    }
}

/// A comprehension with an item in the place of a name, under the generators of the item.
pub fn put_in(
    alloc: Global,
    name: &Text,
    item: &Node,
    inner: &[Gen],
    body: &Node,
    rest: &[Gen],
) -> Result<Boxed<Node>, NoMemory>
    ensures { IfOk result (λ n. pure_node n
        ≡ comp_ex (substitute (for_name name.now (pure_node item.now)) (pure_node body.now))
        (append_gens (pure_gens inner.now) (substitute_gens (for_name name.now (pure_node item.now)) (pure_gens rest.now)))) }
{
    let body = substitute(alloc, body, name, item)?;
    let rest = substitute_gens(alloc, rest, name, item)?;
    let gens = before(alloc, inner, rest)?;
    comprehension(alloc, body, gens)
}

/// Generators before others.
#[tactic(auto, using(crate::proofs::GeneratorRows::before_put))]
pub fn before(alloc: Global, first: &[Gen], mut rest: Row<Gen>) -> Result<Row<Gen>, NoMemory>
    ensures { IfOk result (λ gs. pure_gens gs ≡ append_gens (pure_gens first.now) (pure_gens rest)) }
{
    let mut gens = copy_gens(alloc, first)?;
    gens.append(&mut rest)?;
    Ok(gens)
}
