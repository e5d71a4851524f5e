ghost use Rattle.std.specs.Prelude.{◌≡◌, map};
ghost use Rattle.ess_semantics.specs.Names.{keys};
ghost use Rattle.ess_semantics.specs.Order.{order_texts, same_texts};
ghost use Rattle.ess_core.specs.ValueViews.{pure_field_val};
ghost use Rattle.ess_eval_domains.specs.ClosedViews.{pure_field_closed};

use ess_core::FieldVal;
use ess_eval_domains::FieldClosed;
use std::cmp::Ordering;

/// Whether the fields of a record domain and those of a record have the same names, in one order.
pub fn same_fields(fields: &[FieldClosed], vals: &[FieldVal]) -> bool
    ensures { result ≡ same_texts (keys (map pure_field_closed fields.now)) (keys (map pure_field_val vals.now)) }
{
    order_fields(fields, vals) == Ordering::Equal
}

/// The order of the names of these fields: the first that differs decides, and a prefix is lower.
#[tactic(auto, using(crate::proofs::MemberLoops::names_end))]
fn order_fields(fields: &[FieldClosed], vals: &[FieldVal]) -> Ordering
    ensures { result ≡ order_texts (keys (map pure_field_closed fields.now)) (keys (map pure_field_val vals.now)) }
{
    for (i, field) in fields.iter().enumerate() {
        if i >= vals.len() {
            return Ordering::Greater;
        }
        let found = field.name.cmp(&vals[i].name);
        if found != Ordering::Equal {
            return found;
        }
    }
    if fields.len() < vals.len() {
        Ordering::Less
    } else {
        Ordering::Equal
    }
}
