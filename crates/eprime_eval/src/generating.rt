ghost use Rattle.std.specs.Prelude.{◌≡◌, ◌∷◌, IfOk, OnOk, true, map, option_map};
ghost use Rattle.ess_semantics.specs.Trees.{name_pat};
ghost use Rattle.ess_semantics.specs.Meaning.{with_pat, members_in, domain_of};
ghost use Rattle.ess_semantics.specs.Large.{is_large_dom};
ghost use Rattle.eprime_tree.specs.Views.{over_item};
ghost use Rattle.eprime_eval_kinds.specs.KindedViews.{pure_kex, pure_kgen, pure_kdom};
ghost use Rattle.eprime_eval_scalars.specs.ScalarViews.{pure_scalar};
ghost use Rattle.eprime_eval_scalars.specs.declared.Stop.TheVariants.{Big};
ghost use Rattle.eprime_eval.specs.KnownTables.{IsKnown};
ghost use Rattle.eprime_eval.specs.Environments.{env_at};
ghost use Rattle.eprime_eval.specs.MemberViews.{member_values};
ghost use Rattle.eprime_eval.specs.Items.{Gathered, items_at, swept, large_items, large_swept};

use crate::evaluating::value_at;
use crate::known::Known;
use crate::members::{Members, members_of};
use crate::names::{Bound, as_it_is};
use crate::operators::truth_of;
use crate::ranging::closed_at;
use crate::{Row, Scalar, Stop};
use eprime_eval_kinds::{KDom, KEx, KGen};
use eprime_tree::Text;
use std::alloc::Global;

/// Puts the items at all bindings of the generators behind the items so far. False where one has no value.
#[cycle(value)]
#[tactic(auto, using(crate::proofs::Generators::at_condition))]
pub(crate) fn runs(
    alloc: Global,
    item: &KEx,
    gens: &[KGen],
    known: &Known,
    bound: &mut Row<Bound>,
    items: &mut Row<Scalar>,
) -> Result<bool, Stop>
    requires known { IsKnown known.now }
    ensures ok { IfOk result (λ b. Gathered b (map pure_scalar items.old) (map pure_scalar items.new)
        (items_at (pure_kex known.now.names item.now) (map (pure_kgen known.now.names) gens.now) (env_at known.now bound.old))) }
    ensures kept { OnOk result (bound.new ≡ bound.old) }
    ensures big { result ≡ Err Big → large_items (pure_kex known.now.names item.now) (map (pure_kgen known.now.names) gens.now) (env_at known.now bound.old) ≡ true }
{
    match gens.split_first() {
        None => match value_at(alloc, item, known, bound)? {
            Some(val) => {
                items.push(val)?;
                Ok(true)
            }
            None => Ok(false),
        },
        Some((KGen::If(test), rest)) => {
            if truth_of(value_at(alloc, test.get(), known, bound)?) {
                runs(alloc, item, rest, known, bound, items)
            } else {
                Ok(true)
            }
        }
        Some((KGen::Over(name, dom), rest)) => runs_over(
            alloc,
            item,
            as_it_is(name),
            dom.get(),
            rest,
            known,
            bound,
            items,
        ),
    }
}

/// The same for a name that a generator binds over a domain.
#[cycle(value)]
#[tactic(auto, using(crate::proofs::Generators::at_domain))]
fn runs_over(
    alloc: Global,
    item: &KEx,
    name: &Text,
    dom: &KDom,
    rest: &[KGen],
    known: &Known,
    bound: &mut Row<Bound>,
    items: &mut Row<Scalar>,
) -> Result<bool, Stop>
    requires known { IsKnown known.now }
    ensures ok { IfOk result (λ b. Gathered b (map pure_scalar items.old) (map pure_scalar items.new)
        (items_at (pure_kex known.now.names item.now) (over_item name.now (pure_kdom known.now.names dom.now) ∷ map (pure_kgen known.now.names) rest.now) (env_at known.now bound.old))) }
    ensures kept { OnOk result (bound.new ≡ bound.old) }
    ensures big { result ≡ Err Big
        → large_items (pure_kex known.now.names item.now) (over_item name.now (pure_kdom known.now.names dom.now) ∷ map (pure_kgen known.now.names) rest.now) (env_at known.now bound.old) ≡ true }
{
    match domain_members(alloc, dom, known, bound)? {
        Some(vals) => sweep(alloc, item, name, &vals, rest, known, bound, items),
        None => Ok(false),
    }
}

/// The members of a domain, where each bound has a meaning and they can be listed.
#[cycle(value)]
fn domain_members(
    alloc: Global,
    dom: &KDom,
    known: &Known,
    bound: &mut Row<Bound>,
) -> Result<Option<Members>, Stop>
    requires known { IsKnown known.now }
    ensures ok { IfOk result (λ o. option_map member_values o
        ≡ members_in (domain_of (pure_kdom known.now.names dom.now) (env_at known.now bound.old))) }
    ensures kept { OnOk result (bound.new ≡ bound.old) }
    ensures big { result ≡ Err Big → is_large_dom (pure_kdom known.now.names dom.now) (env_at known.now bound.old) ≡ true }
{
    match closed_at(alloc, dom, known, bound)? {
        Some(domain) => Ok(members_of(alloc, &domain)?),
        None => Ok(None),
    }
}

/// The same for a name that takes the values, one after the other. The name is copied once.
#[cycle(value)]
#[tactic(auto, using(crate::proofs::Generators::sweeps))]
fn sweep(
    alloc: Global,
    item: &KEx,
    name: &Text,
    vals: &Members,
    rest: &[KGen],
    known: &Known,
    bound: &mut Row<Bound>,
    items: &mut Row<Scalar>,
) -> Result<bool, Stop>
    requires known { IsKnown known.now }
    ensures ok { IfOk result (λ b. Gathered b (map pure_scalar items.old) (map pure_scalar items.new)
        (swept (pure_kex known.now.names item.now) name.now (member_values vals.now) (map (pure_kgen known.now.names) rest.now)
        (env_at known.now bound.old))) }
    ensures kept { OnOk result (bound.new ≡ bound.old) }
    ensures big { result ≡ Err Big
        → large_swept (pure_kex known.now.names item.now) name.now (member_values vals.now) (map (pure_kgen known.now.names) rest.now)
        (env_at known.now bound.old) ≡ true }
{
    let mut own = name.copy(alloc)?;
    for place in 0..vals.len() {
        let value = vals.at(place)?;
        let (found, name) = point(alloc, item, own, value, rest, known, bound, items)?;
        own = name;
        if !found {
            return Ok(false);
        }
    }
    Ok(true)
}

/// The same for a name that takes the value. The name comes back.
#[cycle(value)]
#[tactic(auto, using(crate::proofs::Generators::bound_name))]
fn point(
    alloc: Global,
    item: &KEx,
    name: Text,
    value: Scalar,
    rest: &[KGen],
    known: &Known,
    bound: &mut Row<Bound>,
    items: &mut Row<Scalar>,
) -> Result<(bool, Text), Stop>
    requires known { IsKnown known.now }
    ensures ok { IfOk result (λ r. Gathered r.0 (map pure_scalar items.old) (map pure_scalar items.new)
        (items_at (pure_kex known.now.names item.now) (map (pure_kgen known.now.names) rest.now)
        (with_pat (name_pat name) (pure_scalar value) (env_at known.now bound.old)))) }
    ensures named { IfOk result (λ r. r.1 ≡ name) }
    ensures kept { OnOk result (bound.new ≡ bound.old) }
    ensures big { result ≡ Err Big
        → large_items (pure_kex known.now.names item.now) (map (pure_kgen known.now.names) rest.now)
        (with_pat (name_pat name) (pure_scalar value) (env_at known.now bound.old)) ≡ true }
{
    bound.push(Bound { name, value })?;
    let found = runs(alloc, item, rest, known, bound, items)?;
    match bound.pop() {
        Some(Bound { name, .. }) => Ok((found, name)),
        None => Err(Stop::NoMemory),
    }
}
