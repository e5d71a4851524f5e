//! The members of atoms as numbers: axes.
ghost use Rattle.std.specs.Prelude.{◌≡◌, pos, length, map, replicate, IfOk};
ghost use Rattle.ess_semantics.specs.Domains.{member_list, domain_list};
ghost use Rattle.ess_semantics.specs.Layers.{codes_of};
ghost use Rattle.ess_eval_domains.specs.ClosedViews.{pure_closed, pure_closeds};

use crate::sizes::counted;
use ess_core::{NoMemory, Row};
use ess_eval_domains::{Closed, members, number_members};
use ess_repr_slots::slot_axis;
use std::alloc::Global;

/// The members of an atom as numbers, rising; of a tuple or record of enumerable domains a zero for each, of any other domain none.
/// `NoMemory` where there is no room for them.
#[tactic(auto, using(crate::proofs::AxisForms::axis_bool, crate::proofs::AxisForms::axis_int, crate::proofs::AxisForms::axis_int_none, crate::proofs::AxisForms::axis_named, crate::proofs::AxisForms::axis_tuple, crate::proofs::AxisForms::axis_record))]
pub fn axis(alloc: Global, domain: &Closed) -> Result<Row<i64>, NoMemory>
    ensures { IfOk result (λ r. r ≡ codes_of (pure_closed domain.now)) }
{
    match domain {
        Closed::Bool => Row::from_array(alloc, [0, 1]),
        Closed::Int(spans) => match number_members(alloc, spans.as_slice())? {
            Some(numbers) => Ok(numbers),
            None => Ok(Row::new(alloc)),
        },
        Closed::Named(_, count) => slot_axis(alloc, counted(*count)?),
        Closed::Tuple(_) => zero_for_each(alloc, domain),
        Closed::Rec(_) => zero_for_each(alloc, domain),
        _ => Ok(Row::new(alloc)),
    }
}

/// The axis of each of the domains. `NoMemory` where there is no room for them.
#[tactic(auto, using(crate::proofs::AxisForms::axes_more, crate::proofs::AxisForms::axes_all))]
pub fn axes_of_each(alloc: Global, domains: &[Closed]) -> Result<Row<Row<i64>>, NoMemory>
    ensures { IfOk result (λ r. r ≡ map codes_of (domain_list (pure_closeds domains.now))) }
{
    let mut axes = Row::with_capacity(alloc, domains.len())?;
    for domain in domains {
        axes.push(axis(alloc, domain)?)?;
    }
    Ok(axes)
}

/// A zero for each member of an enumerable domain.
#[tactic(auto, using(crate::proofs::AxisForms::list_there, crate::proofs::AxisForms::list_none))]
fn zero_for_each(alloc: Global, domain: &Closed) -> Result<Row<i64>, NoMemory>
    ensures { IfOk result (λ r. r ≡ replicate (length (member_list (pure_closed domain.now))) (pos 0)) }
{
    match members(alloc, domain)? {
        Some(list) => zeros(alloc, list.len()),
        None => Ok(Row::new(alloc)),
    }
}

/// So many zeros.
#[tactic(auto, using(crate::proofs::AxisForms::zeros_more))]
fn zeros(alloc: Global, count: usize) -> Result<Row<i64>, NoMemory>
    ensures { IfOk result (λ r. r ≡ replicate count (pos 0)) }
{
    let mut zeros = Row::with_capacity(alloc, count)?;
    for k in 0..count {
        zeros.push(0)?;
    }
    Ok(zeros)
}
