//! What a generator leaves behind it.
ghost use Rattle.std.specs.Prelude.{◌≡◌, ◌++◌, ◌∷◌, [], OnOk, map, drop, option_map};
ghost use Rattle.ess_core.specs.TreeViews.{pure_pat, from_item, cond_item};
ghost use Rattle.ess_core_nodes.specs.NodeViews.{pure_node, pure_gen, pure_dom};
ghost use Rattle.ess_keys_laws.specs.Keyed.{with_key, entered, entered_any, conjuncts};
ghost use Rattle.ess_keys.specs.Views.{pure_keys, pure_around};
ghost use Rattle.ess_keys.specs.Steps.{generator_left};

use crate::around::{Around, Key};
use crate::forms::conjuncts;
use ess_core::Pat;
use ess_core_nodes::{Gen, Node, NodeDom};
use ess_guard_forms::{bind_any, bind_over};
use ess_node_remaking::{over_domain, over_value};
use ess_rows::{Boxed, NoMemory, Row};
use std::alloc::Global;

/// A generator over a domain comes behind others, where its name has no key. What is known behind it is left in `around`.
pub(crate) fn enter(
    alloc: Global,
    around: &mut Around,
    gens: &mut Row<Gen>,
    pat: &Pat,
    dom: Boxed<NodeDom>,
    key: Option<Boxed<Node>>,
) -> Result<(), NoMemory>
    ensures around { OnOk result (pure_around around.new
        ≡ entered (pure_around around.old) (pure_pat pat.now) (pure_dom dom) (option_map pure_node key)) }
    ensures gens { OnOk result (map pure_gen gens.new
        ≡ map pure_gen gens.old ++ generator_left (pure_pat pat.now) (pure_dom dom) (option_map pure_node key)) }
{
    match key {
        Some(key) => set_key(alloc, &mut around.keys, pat, key),
        None => {
            bind_over(alloc, &mut around.known, pat, dom.get())?;
            let item = over_domain(alloc, pat, dom)?;
            gens.push(item.into_inner())
        }
    }
}

/// A key stands for the name of a pattern.
#[tactic(auto, using(crate::proofs::Lookups::key_more, ess_core::proofs::PartEquations::pure_pat_name, ess_core::proofs::PartEquations::pure_pat_tuple))]
fn set_key(alloc: Global, keys: &mut Row<Key>, pat: &Pat, key: Boxed<Node>) -> Result<(), NoMemory>
    ensures { OnOk result (pure_keys keys.new ≡ with_key (pure_pat pat.now) (pure_node key) (pure_keys keys.old)) }
{
    match pat {
        Pat::Name(name) => {
            let name = name.copy(alloc)?;
            keys.push(Key { name, key })
        }
        Pat::Tuple(_) => Ok(()),
    }
}

/// A generator over a value comes behind others. What is known behind it is left in `around`.
pub(crate) fn enter_any(
    alloc: Global,
    around: &mut Around,
    gens: &mut Row<Gen>,
    pat: &Pat,
    source: Boxed<Node>,
) -> Result<(), NoMemory>
    ensures around { OnOk result (pure_around around.new ≡ entered_any (pure_around around.old) (pure_pat pat.now)) }
    ensures gens { OnOk result (map pure_gen gens.new ≡ map pure_gen gens.old ++ from_item (pure_pat pat.now) (pure_node source) ∷ []) }
{
    bind_any(alloc, &mut around.known, pat)?;
    let item = over_value(alloc, pat, source)?;
    gens.push(item.into_inner())
}

/// Generators without the first one.
pub(crate) fn rest_of(gens: &[Gen]) -> &[Gen]
    ensures { result.now ≡ drop 1 gens.now }
{
    match gens.split_first() {
        None => gens,
        Some((_, rest)) => rest,
    }
}

/// The conjuncts of a condition come behind others, without those that hold by their form.
pub(crate) fn put_conditions(
    alloc: Global,
    around: &Around,
    condition: &Node,
    gens: &mut Row<Gen>,
) -> Result<(), NoMemory>
    ensures { OnOk result (map pure_gen gens.new
        ≡ map pure_gen gens.old ++ map cond_item (conjuncts (pure_around around.now).origins (pure_node condition.now))) }
{
    let conditions = conjuncts(alloc, around.known.as_slice(), condition)?;
    append_gens(gens, conditions)
}

/// Generators come behind others.
fn append_gens(gens: &mut Row<Gen>, mut more: Row<Gen>) -> Result<(), NoMemory>
    ensures { OnOk result (map pure_gen gens.new ≡ map pure_gen gens.old ++ map pure_gen more) }
{
    gens.append(&mut more)
}
