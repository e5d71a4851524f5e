ghost use Rattle.std.specs.Prelude.{◌≡◌, IfOk, OnOk, true, map};
ghost use Rattle.ess_semantics.specs.Values.{number};
ghost use Rattle.ess_semantics.specs.Trees.{name_pat};
ghost use Rattle.ess_semantics.specs.Meaning.{with_pat};
ghost use Rattle.ess_core.specs.ValueViews.{pure_val};
ghost use Rattle.ess_core.specs.TreeViews.{pure_ex, pure_pat, pure_gen};
ghost use Rattle.ess_eval_operators.specs.declared.OperateNo.TheVariants.{Big};
ghost use Rattle.ess_eval.specs.Environments.{env_at};
ghost use Rattle.ess_eval.specs.Items.{items_at, swept, large_items, large_swept};
ghost use Rattle.ess_eval.specs.Folds.{Taken, pure_fold};

use crate::folding::Fold;
use crate::generating::runs;
use crate::patterns::{bind, bind_name, unbind_name};
use crate::reading::reversed;
use crate::risen::Risen;
use ess_core::{Binding, Ex, Gen, Pat, Row, Text, Val};
use ess_eval_operators::OperateNo;
use std::alloc::Global;

/// Takes the items behind a pattern that takes the values, one after the other. False where they are decided before the last one.
#[cycle(value)]
pub(crate) fn sweep(
    alloc: Global,
    item: &Ex,
    pat: &Pat,
    vals: Row<Val>,
    rest: &[Gen],
    env: &Risen,
    bound: &mut Row<Binding>,
    fold: &mut Fold,
) -> Result<bool, OperateNo>
    ensures ok { IfOk result (λ t. Taken t (pure_fold fold.old) (pure_fold fold.new) (swept (pure_ex item.now) (pure_pat pat.now) (map pure_val vals) (map pure_gen rest.now) (env_at env.now bound.old))) }
    ensures kept { OnOk result (bound.new ≡ bound.old) }
    ensures big { result ≡ Err Big → large_swept (pure_ex item.now) (pure_pat pat.now) (map pure_val vals) (map pure_gen rest.now) (env_at env.now bound.old) ≡ true }
{
    match pat {
        Pat::Name(name) => sweep_name(alloc, item, name, vals, rest, env, bound, fold),
        Pat::Tuple(_) => sweep_parts(alloc, item, pat, vals.as_slice(), rest, env, bound, fold),
    }
}

/// The same for a name that takes the values: each is moved, and the name is copied once.
#[cycle(value)]
#[tactic(auto, using(crate::proofs::Sweeps::name_large_at, crate::proofs::Sweeps::name_last, crate::proofs::Sweeps::name_end))]
fn sweep_name(
    alloc: Global,
    item: &Ex,
    name: &Text,
    vals: Row<Val>,
    rest: &[Gen],
    env: &Risen,
    bound: &mut Row<Binding>,
    fold: &mut Fold,
) -> Result<bool, OperateNo>
    ensures ok { IfOk result (λ t. Taken t (pure_fold fold.old) (pure_fold fold.new) (swept (pure_ex item.now) (name_pat name.now) (map pure_val vals) (map pure_gen rest.now) (env_at env.now bound.old))) }
    ensures kept { OnOk result (bound.new ≡ bound.old) }
    ensures big { result ≡ Err Big → large_swept (pure_ex item.now) (name_pat name.now) (map pure_val vals) (map pure_gen rest.now) (env_at env.now bound.old) ≡ true }
{
    let mut left = reversed(vals);
    let mut own = name.copy(alloc)?;
    while let Some(val) = left.pop() {
        if !turn(alloc, item, &mut own, val, rest, env, bound, fold)? {
            return Ok(false);
        }
    }
    Ok(true)
}

/// The same for a name that takes whole numbers.
#[cycle(value)]
#[tactic(auto, using(crate::proofs::Sweeps::numbers_large_at, crate::proofs::Sweeps::numbers_last, crate::proofs::Sweeps::numbers_end))]
pub(crate) fn sweep_numbers(
    alloc: Global,
    item: &Ex,
    name: &Text,
    numbers: &[i64],
    rest: &[Gen],
    env: &Risen,
    bound: &mut Row<Binding>,
    fold: &mut Fold,
) -> Result<bool, OperateNo>
    ensures ok { IfOk result (λ t. Taken t (pure_fold fold.old) (pure_fold fold.new) (swept (pure_ex item.now) (name_pat name.now) (map number numbers.now) (map pure_gen rest.now) (env_at env.now bound.old))) }
    ensures kept { OnOk result (bound.new ≡ bound.old) }
    ensures big { result ≡ Err Big → large_swept (pure_ex item.now) (name_pat name.now) (map number numbers.now) (map pure_gen rest.now) (env_at env.now bound.old) ≡ true }
{
    let mut own = name.copy(alloc)?;
    for number in numbers {
        if !turn(
            alloc,
            item,
            &mut own,
            Val::Num(*number),
            rest,
            env,
            bound,
            fold,
        )? {
            return Ok(false);
        }
    }
    Ok(true)
}

/// The same for a name that takes a value. The name is lent to the binding.
#[cycle(value)]
#[tactic(auto, using(crate::proofs::Bindings::bound_name, crate::proofs::Bindings::before_pushed, crate::proofs::Bindings::name_pushed))]
fn turn(
    alloc: Global,
    item: &Ex,
    name: &mut Text,
    val: Val,
    rest: &[Gen],
    env: &Risen,
    bound: &mut Row<Binding>,
    fold: &mut Fold,
) -> Result<bool, OperateNo>
    ensures ok { IfOk result (λ t. Taken t (pure_fold fold.old) (pure_fold fold.new) (items_at (pure_ex item.now) (map pure_gen rest.now) (with_pat (name_pat name.old) (pure_val val) (env_at env.now bound.old)))) }
    ensures kept { OnOk result (bound.new ≡ bound.old) }
    ensures named { OnOk result (name.new ≡ name.old) }
    ensures big { result ≡ Err Big → large_items (pure_ex item.now) (map pure_gen rest.now) (with_pat (name_pat name.old) (pure_val val) (env_at env.now bound.old)) ≡ true }
{
    bind_name(alloc, name, val, bound)?;
    let found = runs(alloc, item, rest, env, bound, fold)?;
    unbind_name(name, bound)?;
    Ok(found)
}

/// The same for a pattern of several parts that takes the values, one after the other.
#[cycle(value)]
#[tactic(auto, using(crate::proofs::Sweeps::large_at, crate::proofs::Sweeps::sweep_last, crate::proofs::Sweeps::sweep_end))]
fn sweep_parts(
    alloc: Global,
    item: &Ex,
    pat: &Pat,
    vals: &[Val],
    rest: &[Gen],
    env: &Risen,
    bound: &mut Row<Binding>,
    fold: &mut Fold,
) -> Result<bool, OperateNo>
    ensures ok { IfOk result (λ t. Taken t (pure_fold fold.old) (pure_fold fold.new) (swept (pure_ex item.now) (pure_pat pat.now) (map pure_val vals.now) (map pure_gen rest.now) (env_at env.now bound.old))) }
    ensures kept { OnOk result (bound.new ≡ bound.old) }
    ensures big { result ≡ Err Big → large_swept (pure_ex item.now) (pure_pat pat.now) (map pure_val vals.now) (map pure_gen rest.now) (env_at env.now bound.old) ≡ true }
{
    for val in vals {
        if !point(alloc, item, pat, val, rest, env, bound, fold)? {
            return Ok(false);
        }
    }
    Ok(true)
}

/// The same for a pattern that takes the value.
#[cycle(value)]
#[tactic(auto, using(crate::proofs::Bindings::bound_pat))]
fn point(
    alloc: Global,
    item: &Ex,
    pat: &Pat,
    val: &Val,
    rest: &[Gen],
    env: &Risen,
    bound: &mut Row<Binding>,
    fold: &mut Fold,
) -> Result<bool, OperateNo>
    ensures ok { IfOk result (λ t. Taken t (pure_fold fold.old) (pure_fold fold.new) (items_at (pure_ex item.now) (map pure_gen rest.now) (with_pat (pure_pat pat.now) (pure_val val.now) (env_at env.now bound.old)))) }
    ensures kept { OnOk result (bound.new ≡ bound.old) }
    ensures big { result ≡ Err Big → large_items (pure_ex item.now) (map pure_gen rest.now) (with_pat (pure_pat pat.now) (pure_val val.now) (env_at env.now bound.old)) ≡ true }
{
    let depth = bound.len();
    bind(alloc, pat, val, bound)?;
    let found = runs(alloc, item, rest, env, bound, fold)?;
    bound.truncate(depth);
    Ok(found)
}
