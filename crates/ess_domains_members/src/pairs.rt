ghost use Rattle.std.specs.Prelude.{◌≡◌, IfOk};
ghost use Rattle.ess_semantics.specs.Values.{pair, from_of, to_of};
ghost use Rattle.ess_core.specs.ValueViews.{pure_val};

use ess_core::{Boxed, NoMemory, Row, Val};
use std::alloc::Global;

/// The tuple of two values, in a box. `NoMemory` where there is no room for it.
pub fn pair_of(alloc: Global, from: &Val, to: &Val) -> Result<Boxed<Val>, NoMemory>
    ensures { IfOk result (λ v. pure_val v ≡ pair (pure_val from.now) (pure_val to.now)) }
{
    let mut row = Row::with_capacity(alloc, 2)?;
    row.push(from.copy(alloc)?)?;
    row.push(to.copy(alloc)?)?;
    Boxed::new(alloc, Val::Tuple(row))
}

/// The first part of a pair; of any other value, the value itself.
#[tactic(auto, using(crate::proofs::PairParts::first_pair, crate::proofs::PairParts::first_other))]
pub fn first_of(val: &Val) -> &Val
    ensures { pure_val result.now ≡ from_of (pure_val val.now) }
{
    match val {
        Val::Num(_) => val,
        Val::Truth(_) => val,
        Val::Item(_, _) => val,
        Val::Tuple(parts) => {
            let own = parts.as_slice();
            if own.len() == 2 { &own[0] } else { val }
        }
        Val::Rec(_) => val,
        Val::Matrix(_, _) => val,
        Val::Set(_) => val,
        Val::MSet(_) => val,
        Val::Function(_) => val,
        Val::Relation(_) => val,
        Val::Partition(_) => val,
    }
}

/// The second part of a pair; of any other value, the value itself.
#[tactic(auto, using(crate::proofs::PairParts::second_pair, crate::proofs::PairParts::second_other))]
pub fn second_of(val: &Val) -> &Val
    ensures { pure_val result.now ≡ to_of (pure_val val.now) }
{
    match val {
        Val::Num(_) => val,
        Val::Truth(_) => val,
        Val::Item(_, _) => val,
        Val::Tuple(parts) => {
            let own = parts.as_slice();
            if own.len() == 2 { &own[1] } else { val }
        }
        Val::Rec(_) => val,
        Val::Matrix(_, _) => val,
        Val::Set(_) => val,
        Val::MSet(_) => val,
        Val::Function(_) => val,
        Val::Relation(_) => val,
        Val::Partition(_) => val,
    }
}
