ghost use Rattle.std.specs.Prelude.{◌≡◌, map, IfOk};
ghost use Rattle.ess_core.specs.ValueViews.{pure_val, pure_pair};
ghost use Rattle.ess_eval_domains.specs.ClosedViews.{pure_closed, pure_closeds, pure_attributes};
ghost use Rattle.ess_domains_members.specs.Forms.{set_form, mset_form, function_form, relation_form};

use crate::functions::function_attributes_hold;
use crate::lists::{arguments_rise, rises, rises_weakly};
use crate::relations::relation_attributes_hold;
use crate::sets::{mset_attributes_hold, set_attributes_hold};
use ess_core::{NoMemory, Pair, Val};
use ess_eval_domains::{Attribute, Closed};
use std::alloc::Global;

/// Whether these are the members of a set in canonical form, and the attributes allow them.
pub fn have_set_form(attributes: &[Attribute], vals: &[Val]) -> bool
    ensures { result ≡ set_form (pure_attributes attributes.now) (map pure_val vals.now) }
{
    if !rises(vals) {
        return false;
    }
    set_attributes_hold(attributes, vals.len())
}

/// Whether these are the members of a multiset in canonical form, and the attributes allow them.
pub fn have_mset_form(attributes: &[Attribute], vals: &[Val]) -> bool
    ensures { result ≡ mset_form (pure_attributes attributes.now) (map pure_val vals.now) }
{
    if !rises_weakly(vals) {
        return false;
    }
    mset_attributes_hold(attributes, vals)
}

/// Whether these are the pairs of a function in canonical form, and the attributes allow them. `NoMemory` where there is no
/// room for the members of a domain that an attribute speaks of.
pub fn have_function_form(
    alloc: Global,
    attributes: &[Attribute],
    from: &Closed,
    to: &Closed,
    pairs: &[Pair],
) -> Result<bool, NoMemory>
    ensures { IfOk result (λ b. b ≡ function_form (pure_attributes attributes.now) (pure_closed from.now) (pure_closed to.now) (map pure_pair pairs.now)) }
{
    if !arguments_rise(pairs) {
        return Ok(false);
    }
    Ok(function_attributes_hold(alloc, attributes, from, to, pairs)?)
}

/// Whether these are the tuples of a relation in canonical form, and the attributes allow them. `NoMemory` where there is no
/// room for the members of the first component, or for a pair.
pub fn have_relation_form(
    alloc: Global,
    attributes: &[Attribute],
    parts: &[Closed],
    tuples: &[Val],
) -> Result<bool, NoMemory>
    ensures { IfOk result (λ b. b ≡ relation_form (pure_attributes attributes.now) (pure_closeds parts.now) (map pure_val tuples.now)) }
{
    if !rises(tuples) {
        return Ok(false);
    }
    Ok(relation_attributes_hold(alloc, attributes, parts, tuples)?)
}
