ghost use Rattle.std.specs.Prelude.{◌≡◌, IfOk, ◌∷◌, map, option_map};
ghost use Rattle.std.specs.Option.{option_copied};
ghost use Rattle.ess_semantics.specs.Trees.{application};
ghost use Rattle.ess_semantics.specs.Operators.{value_of_node, value_of_application as the_application};
ghost use Rattle.ess_semantics.specs.Values.{tuple, of_list};
ghost use Rattle.ess_semantics.specs.Collections.{holds as is_held};
ghost use Rattle.ess_core.specs.ValueViews.{pure_val};

use crate::functions::{copied, value_at_pairs};
use crate::members::holds;
use crate::operands::present;
use ess_core::{NoMemory, Row, Val};
use std::alloc::Global;

/// The value of an application whose function or relation and whose arguments may have no value: then it has none. A
/// function has one at an argument alone, a relation is true of the tuples that are in it. `NoMemory` where there is no
/// room for it.
#[tactic(auto, using(crate::proofs::Applied::applied))]
pub fn value_of_application(
    alloc: Global,
    of: Option<&Val>,
    arguments: &[Option<Val>],
) -> Result<Option<Val>, NoMemory>
    ensures { IfOk result (λ o. option_map pure_val o
        ≡ value_of_node application (option_map pure_val (option_copied of.entry) ∷ map (option_map pure_val) arguments.now)) }
{
    match of {
        Some(val) => match present(alloc, arguments)? {
            Some(vals) => apply(alloc, val, vals),
            None => Ok(None),
        },
        None => Ok(None),
    }
}

/// A function at an argument, or whether a tuple is in a relation.
#[tactic(auto, using(crate::proofs::Applied::applied))]
fn apply(alloc: Global, of: &Val, arguments: Row<Val>) -> Result<Option<Val>, NoMemory>
    ensures { IfOk result (λ o. option_map pure_val o ≡ the_application (pure_val of.now) (map pure_val arguments)) }
{
    match of {
        Val::Function(pairs) => {
            if arguments.len() == 1 {
                copied(
                    alloc,
                    value_at_pairs(pairs.as_slice(), &arguments.as_slice()[0]),
                )
            } else {
                Ok(None)
            }
        }
        Val::Relation(tuples) => Ok(Some(Val::Truth(related(tuples, arguments)))),
        _ => Ok(None),
    }
}

/// Whether the tuple with these parts is among the tuples.
fn related(tuples: &Row<Val>, parts: Row<Val>) -> bool
    ensures { result ≡ is_held (map pure_val tuples.now) (tuple (of_list (map pure_val parts))) }
{
    let tuple = Val::Tuple(parts);
    let found = holds(tuples.as_slice(), &tuple);
    drop(tuple);
    found
}
