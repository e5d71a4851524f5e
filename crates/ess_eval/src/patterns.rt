ghost use Rattle.std.specs.Prelude.{◌≡◌, [], ◌∷◌, ◌++◌, OnOk, map, take, length};
ghost use Rattle.ess_semantics.specs.Meaning.{bind as bound_by, bind_all as all_bound_by};
ghost use Rattle.ess_core.specs.ValueViews.{pure_val};
ghost use Rattle.ess_core.specs.TableViews.{pure_bindings};
ghost use Rattle.ess_core.specs.TreeViews.{pure_pat, pats_of};
ghost use Rattle.ess_eval.specs.Environments.{named, all_but_last, name_of_last};

use ess_core::{Binding, NoMemory, Pat, Row, Text, Val};
use ess_eval_operators::items_of;
use std::alloc::Global;
use std::mem;

/// Binds the names of a pattern to a value and its parts. `NoMemory` where there is no room for them.
#[cycle(bind)]
#[tactic(auto, using(crate::proofs::Values::bind_tuple))]
pub(crate) fn bind(
    alloc: Global,
    pat: &Pat,
    val: &Val,
    bound: &mut Row<Binding>,
) -> Result<(), NoMemory>
    ensures ok { OnOk result (pure_bindings bound.new ≡ bound_by (pure_pat pat.now) (pure_val val.now) (pure_bindings bound.old)) }
    ensures kept { OnOk result (take (length bound.old) bound.new ≡ bound.old) }
{
    match pat {
        Pat::Name(name) => {
            let name = name.copy(alloc)?;
            match val.copy(alloc) {
                Ok(val) => bound.push(Binding { name, val }),
                Err(no) => Err(no),
            }
        }
        Pat::Tuple(pats) => match val {
            Val::Tuple(parts) => bind_all(alloc, pats.as_slice(), parts.as_slice(), bound),
            _ => {
                let parts = items_of(alloc, val)?;
                bind_all(alloc, pats.as_slice(), parts.as_slice(), bound)
            }
        },
    }
}

/// Binds the names of several patterns to the parts of a tuple. Where parts are missing, which no well-typed tree has,
/// each name is bound still.
#[cycle(bind)]
#[tactic(auto, using(crate::proofs::Bindings::kept_on, crate::proofs::Bindings::bind_past))]
fn bind_all(
    alloc: Global,
    pats: &[Pat],
    parts: &[Val],
    bound: &mut Row<Binding>,
) -> Result<(), NoMemory>
    ensures ok { OnOk result (pure_bindings bound.new ≡ all_bound_by (pats_of (map pure_pat pats.now)) (map pure_val parts.now) (pure_bindings bound.old)) }
    ensures kept { OnOk result (take (length bound.old) bound.new ≡ bound.old) }
{
    for (index, pat) in pats.iter().enumerate() {
        if index < parts.len() {
            bind(alloc, pat, &parts[index], bound)?;
        } else {
            bind(alloc, pat, &Val::Truth(false), bound)?;
        }
    }
    Ok(())
}

/// Binds a name to a value. The name is lent to the binding: no text stays in its place.
pub(crate) fn bind_name(
    alloc: Global,
    name: &mut Text,
    val: Val,
    bound: &mut Row<Binding>,
) -> Result<(), NoMemory>
    ensures { OnOk result (bound.new ≡ bound.old ++ named name.old val ∷ []) }
{
    let own = mem::replace(name, Text::new(alloc));
    bound.push(Binding { name: own, val })
}

/// Takes the newest binding away and gives its name back. `NoMemory` where there is none.
#[tactic(auto, using(crate::proofs::Bindings::before_pushed, crate::proofs::Bindings::name_pushed))]
pub(crate) fn unbind_name(name: &mut Text, bound: &mut Row<Binding>) -> Result<(), NoMemory>
    ensures rest { OnOk result (bound.new ≡ all_but_last bound.old) }
    ensures back { OnOk result (name.new ≡ name_of_last bound.old) }
{
    match bound.pop() {
        Some(binding) => {
            let Binding { name: own, val } = binding;
            drop(val);
            drop(mem::replace(name, own));
            Ok(())
        }
        None => Err(NoMemory),
    }
}
