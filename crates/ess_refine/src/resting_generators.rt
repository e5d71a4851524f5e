//! Whether none of the rules that are asked fires at any part of generators and conditions.
ghost use Rattle.std.specs.Prelude.{◌≡◌, true, IfOk};
ghost use Rattle.ess_core_nodes.specs.NodeViews.{pure_gen, pure_gens};
ghost use Rattle.ess_node_types.specs.TypedNames.{pure_names};
ghost use Rattle.ess_refine.specs.Settled.{GensSettled, ItemSettled};

use crate::resting::rests;
use crate::resting_domains::dom_rests;
use ess_core_nodes::Gen;
use ess_node_types::{NameTypes, pass as enter};
use ess_rows::NoMemory;
use std::alloc::Global;

/// Whether no rule fires at any part of generators and conditions, each under the names of those before it. `NoMemory` where there is no
/// room to ask, or the reserved names can't be counted.
#[cycle(rests)]
pub(crate) fn gens_rest(
    alloc: Global,
    gens: &[Gen],
    names: &NameTypes,
    next: u64,
) -> Result<bool, NoMemory>
    ensures { IfOk result (λ b. b ≡ true → GensSettled next (pure_names names.now) (pure_gens gens.now)) }
{
    let mut under = names.copy(alloc)?;
    for item in gens {
        if !gen_rests(alloc, item, &under, next)? {
            return Ok(false);
        }
        enter(alloc, item, &mut under)?;
    }
    Ok(true)
}

/// The same of one generator or condition.
#[cycle(rests)]
fn gen_rests(alloc: Global, item: &Gen, names: &NameTypes, next: u64) -> Result<bool, NoMemory>
    ensures { IfOk result (λ b. b ≡ true → ItemSettled next (pure_names names.now) (pure_gen item.now)) }
{
    match item {
        Gen::Over(_, dom) => dom_rests(alloc, dom.get(), names, next),
        Gen::From(_, source) => rests(alloc, source.get(), names, next),
        Gen::If(condition) => rests(alloc, condition.get(), names, next),
    }
}
