ghost use Rattle.std.specs.Prelude.{◌≡◌, map, option_map, IfOk};
ghost use Rattle.ess_semantics.specs.Values.{truth as truth_value};
ghost use Rattle.ess_semantics.specs.Tables.{code as code_of, atom_value as value_of_atom, truth_of, item_of_type};
ghost use Rattle.ess_core.specs.ValueViews.{pure_val};
ghost use Rattle.ess_eval_domains.specs.ClosedViews.{pure_closed};

use ess_core::{NoMemory, Row, Text, Val};
use ess_eval_domains::Closed;
use std::alloc::Global;

/// The number that stands for a value of an atom. `NoMemory` where it is a position outside 64 bits: no table has that many.
#[tactic(auto, using(ess_core::proofs::ValueEquations::pure_num, ess_core::proofs::ValueEquations::pure_truth, ess_core::proofs::ValueEquations::pure_item, ess_core::proofs::ValueEquations::pure_tuple, ess_core::proofs::ValueEquations::pure_rec, ess_core::proofs::ValueEquations::pure_matrix, ess_core::proofs::ValueEquations::pure_set, ess_core::proofs::ValueEquations::pure_mset, ess_core::proofs::ValueEquations::pure_function, ess_core::proofs::ValueEquations::pure_relation, ess_core::proofs::ValueEquations::pure_partition))]
pub fn code(val: &Val) -> Result<i64, NoMemory>
    ensures { IfOk result (λ n. n ≡ code_of (pure_val val.now)) }
{
    match val {
        Val::Num(number) => Ok(*number),
        Val::Truth(truth) => Ok(if *truth { 1 } else { 0 }),
        Val::Item(_, position) => match i64::try_from(*position) {
            Ok(number) => Ok(number),
            Err(_) => Err(NoMemory),
        },
        Val::Tuple(_) => Ok(0),
        Val::Rec(_) => Ok(0),
        Val::Matrix(_, _) => Ok(0),
        Val::Set(_) => Ok(0),
        Val::MSet(_) => Ok(0),
        Val::Function(_) => Ok(0),
        Val::Relation(_) => Ok(0),
        Val::Partition(_) => Ok(0),
    }
}

/// The numbers that stand for values of an atom: where they are its members, an axis. `NoMemory` where there is no room for them.
pub fn codes(alloc: Global, vals: &[Val]) -> Result<Row<i64>, NoMemory>
    ensures { IfOk result (λ r. r ≡ map code_of (map pure_val vals.now)) }
{
    let mut codes = Row::with_capacity(alloc, vals.len())?;
    for val in vals {
        codes.push(code(val)?)?;
    }
    Ok(codes)
}

/// The value of an atom that a number stands for; nothing where it stands for none. `NoMemory` where there is no room for it.
pub fn atom_value(alloc: Global, domain: &Closed, number: i64) -> Result<Option<Val>, NoMemory>
    ensures { IfOk result (λ o. option_map pure_val o ≡ value_of_atom (pure_closed domain.now) number) }
{
    match domain {
        Closed::Bool => Ok(truth(number)),
        Closed::Int(_) => Ok(Some(Val::Num(number))),
        Closed::Named(name, count) => item(alloc, name, *count, number),
        _ => Ok(None),
    }
}

/// The truth value that a number stands for.
#[tactic(auto, using(ess_core::proofs::ValueEquations::pure_truth))]
fn truth(number: i64) -> Option<Val>
    ensures { option_map pure_val result ≡ option_map truth_value (truth_of number) }
{
    match number {
        0 => Some(Val::Truth(false)),
        1 => Some(Val::Truth(true)),
        _ => None,
    }
}

/// The value of a named type of so many values at a position. `NoMemory` where there is no room for it.
#[tactic(auto, using(ess_core::proofs::ValueEquations::pure_item))]
fn item(alloc: Global, name: &Text, count: u64, number: i64) -> Result<Option<Val>, NoMemory>
    ensures { IfOk result (λ o. option_map pure_val o ≡ item_of_type name.now count number) }
{
    match u64::try_from(number) {
        Ok(position) => {
            if 1 <= position && position <= count {
                Ok(Some(Val::Item(name.copy(alloc)?, position)))
            } else {
                Ok(None)
            }
        }
        Err(_) => Ok(None),
    }
}
