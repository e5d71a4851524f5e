ghost use Rattle.std.specs.Prelude.{◌≡◌, [], ◌∷◌, map, option_map, IfOk};
ghost use Rattle.ess_semantics.specs.OneLayer.{inner_values};
ghost use Rattle.ess_semantics.specs.Representations.{layer};
ghost use Rattle.ess_core.specs.ValueViews.{pure_val};
ghost use Rattle.ess_eval_domains.specs.ClosedViews.{pure_closed};
ghost use Rattle.ess_repr_functions.specs.FunctionForms.{form_of as form_for, over_functions};
ghost use Rattle.ess_repr_functions.specs.FunctionRows.{parts_by, relation_of_pairs};

use crate::forms::{Form, form_of};
use crate::lookup::values_at_members;
use ess_core::{NoMemory, ReprKind, Row, Val};
use ess_eval_domains::Closed;
use ess_eval_operators::items_of;
use std::alloc::Global;

/// The inner values of a function of this domain, kept by this kind: its values at the arguments, in the order of these, or the
/// relation of its pairs alone. Nothing where the domain is none of functions, or the kind none for it. `NoMemory` where there is
/// no room for them.
pub fn parts(
    alloc: Global,
    kind: ReprKind,
    domain: &Closed,
    value: &Val,
) -> Result<Option<Row<Val>>, NoMemory>
    ensures { IfOk result (λ o. option_map (map pure_val) o ≡
        over_functions (pure_closed domain.now)
        (option_map (λ l. inner_values l (pure_val value.now)) (layer kind (pure_closed domain.now)))) }
{
    match domain {
        Closed::Function(_, from, _) => parts_from(alloc, kind, from.get(), value),
        _ => Ok(None),
    }
}

/// The same of a function from a domain.
fn parts_from(
    alloc: Global,
    kind: ReprKind,
    from: &Closed,
    value: &Val,
) -> Result<Option<Row<Val>>, NoMemory>
    ensures { IfOk result (λ o. option_map (map pure_val) o ≡
        option_map (λ f. parts_by f (pure_closed from.now) (pure_val value.now)) (form_for kind (pure_closed from.now))) }
{
    match form_of(alloc, kind, from)? {
        Some(form) => Ok(Some(parts_in(alloc, form, from, value)?)),
        None => Ok(None),
    }
}

/// The same of a function that is kept in this form.
fn parts_in(alloc: Global, form: Form, from: &Closed, value: &Val) -> Result<Row<Val>, NoMemory>
    ensures { IfOk result (λ r. map pure_val r ≡ parts_by form (pure_closed from.now) (pure_val value.now)) }
{
    match form {
        Form::ForEach(_) => values_at_members(alloc, from, value),
        Form::Flagged(_) => values_at_members(alloc, from, value),
        Form::AsRelation => relation_alone(alloc, value),
    }
}

/// The relation of a function's pairs. `NoMemory` where there is no room for it.
#[tactic(auto, using(ess_core::proofs::ValueEquations::pure_relation))]
fn relation_alone(alloc: Global, value: &Val) -> Result<Row<Val>, NoMemory>
    ensures { IfOk result (λ r. map pure_val r ≡ relation_of_pairs (pure_val value.now) ∷ []) }
{
    let pairs = items_of(alloc, value)?;
    let mut parts = Row::with_capacity(alloc, 1)?;
    parts.push(Val::Relation(pairs))?;
    Ok(parts)
}
