//! What a term offers: generators with an item at each of their bindings.
ghost use Rattle.std.specs.Prelude.{◌≡◌, IfOk};
ghost use Rattle.ess_core_nodes.specs.NodeViews.{pure_node, pure_gens};
ghost use Rattle.ess_rules_laws.specs.ListedSources.{put_listed, laid_out};
ghost use Rattle.ess_refine_laws.specs.ExtremeAlternatives.{put_alternative};
ghost use Rattle.ess_rules_forms.specs.PureAlternatives.{pure_alternative};

use ess_core_nodes::{Gen, Node, copy_gens};
use ess_node_building::comprehension;
use ess_rows::{Boxed, NoMemory, Row};
use ess_rules_folds::forms::Fold;
use ess_rules_forms::Alternative;
use ess_rules_generators::{before, put_in};
use ess_substitution::{substitute, substitute_gens};
use std::alloc::Global;

/// The comprehension of the fold with an alternative of its source: the item stands in the place of the name.
pub(crate) fn put_listed(
    alloc: Global,
    fold: &Fold<'_>,
    offered: &Alternative,
) -> Result<Boxed<Node>, NoMemory>
    ensures { IfOk result (λ n. pure_node n
        ≡ put_listed fold.now.name.now (pure_node fold.now.body.now) (pure_gens fold.now.rest.now) (pure_alternative offered.now)) }
{
    put_in(
        alloc,
        fold.name,
        offered.item.get(),
        offered.gens.as_slice(),
        fold.body,
        fold.rest,
    )
}

/// The alternative of the whole comprehension that an alternative of its source gives. `NoMemory` where there is no room for it.
pub fn put_alternative(
    alloc: Global,
    fold: &Fold<'_>,
    offered: &Alternative,
) -> Result<Alternative, NoMemory>
    ensures { IfOk result (λ a. pure_alternative a
        ≡ put_alternative fold.now.name.now (pure_node fold.now.body.now) (pure_gens fold.now.rest.now) (pure_alternative offered.now)) }
{
    let item = offered.item.get();
    let body = substitute(alloc, fold.body, fold.name, item)?;
    let rest = substitute_gens(alloc, fold.rest, fold.name, item)?;
    let gens = before(alloc, offered.gens.as_slice(), rest)?;
    Ok(Alternative { gens, item: body })
}

/// The comprehension of an alternative.
pub(crate) fn laid_out(alloc: Global, offered: &Alternative) -> Result<Boxed<Node>, NoMemory>
    ensures { IfOk result (λ n. pure_node n ≡ laid_out (pure_alternative offered.now)) }
{
    let item = offered.item.get().copy(alloc)?;
    let gens = copy_gens(alloc, offered.gens.as_slice())?;
    comprehension(alloc, item, gens)
}
