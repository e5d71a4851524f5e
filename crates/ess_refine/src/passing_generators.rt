//! One pass over generators and conditions, in order.
ghost use Rattle.std.specs.Prelude.{IfOk, OnOk};
ghost use Rattle.ess_core_nodes.specs.NodeViews.{pure_gen, pure_gens};
ghost use Rattle.ess_node_types.specs.TypedNames.{pure_names};
ghost use Rattle.ess_refine.specs.Passes.{GensPass, ItemPasses};

use crate::passing::{Turns, pass_boxed};
use crate::passing_domains::pass_boxed_dom;
use ess_core_nodes::{Gen, Node};
use ess_node_types::{NameTypes, pass as enter};
use ess_rows::{Boxed, NoMemory, Row};
use std::alloc::Global;
use std::mem;

/// Generators and conditions, each under the names of those before it.
#[cycle(pass)]
pub(crate) fn pass_gens(
    alloc: Global,
    gens: &mut Row<Gen>,
    names: &NameTypes,
    turns: &mut Turns,
) -> Result<(), NoMemory>
    ensures { OnOk result (GensPass turns.old (pure_names names.now) (pure_gens gens.old) (pure_gens gens.new) turns.new) }
{
    let mut under = names.copy(alloc)?;
    for i in 0..gens.len() {
        if let Some(item) = gens.get_mut(i) {
            let old = mem::replace(item, spare(alloc)?);
            let new = pass_gen(alloc, old, &under, turns)?;
            enter(alloc, &new, &mut under)?;
            drop(mem::replace(item, new));
        }
    }
    Ok(())
}

/// What stands in the place of a generator while it is rewritten.
fn spare(alloc: Global) -> Result<Gen, NoMemory> {
    Ok(Gen::If(Boxed::new(alloc, Node::Truth(false))?))
}

/// A generator or condition.
#[cycle(pass)]
fn pass_gen(alloc: Global, item: Gen, names: &NameTypes, turns: &mut Turns) -> Result<Gen, NoMemory>
    ensures { IfOk result (λ i. ItemPasses turns.old (pure_names names.now) (pure_gen item) (pure_gen i) turns.new) }
{
    match item {
        Gen::Over(pat, mut dom) => {
            pass_boxed_dom(alloc, &mut dom, names, turns)?;
            Ok(Gen::Over(pat, dom))
        }
        Gen::From(pat, mut source) => {
            pass_boxed(alloc, &mut source, names, turns)?;
            Ok(Gen::From(pat, source))
        }
        Gen::If(mut condition) => {
            pass_boxed(alloc, &mut condition, names, turns)?;
            Ok(Gen::If(condition))
        }
    }
}
