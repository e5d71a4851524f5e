//! Whether the fields of a record stand once each.
ghost use Rattle.std.specs.Prelude.{◌≡◌, map};
ghost use Rattle.ess_semantics.specs.Names.{keys, is_among, all_distinct};
ghost use Rattle.ess_core.specs.TreeViews.{pure_field_ex, pure_field_dom};

use crate::bounds::same_name;
use ess_core::{FieldDom, FieldEx, Text};

/// Whether a field of a record literal has the name.
#[tactic(auto, using(crate::proofs::FieldLemmas::ex_here, crate::proofs::FieldLemmas::ex_later, crate::proofs::FieldLemmas::ex_none))]
fn is_field(fields: &[FieldEx], name: &Text) -> bool
    ensures { result ≡ is_among (keys (map pure_field_ex fields.now)) name.now }
{
    for (i, field) in fields.iter().enumerate() {
        if same_name(&field.name, name) {
            return true;
        }
    }
    false
}

/// Whether no field of a record literal stands twice.
#[tactic(auto, using(crate::proofs::FieldLemmas::exs_later, crate::proofs::FieldLemmas::exs_here, crate::proofs::FieldLemmas::exs_all))]
pub(crate) fn fields_differ(fields: &[FieldEx]) -> bool
    ensures { result ≡ all_distinct (keys (map pure_field_ex fields.now)) }
{
    for (i, field) in fields.iter().enumerate() {
        if is_field(&fields[i + 1..], &field.name) {
            return false;
        }
    }
    true
}

/// Whether a field of a record's domain has the name.
#[tactic(auto, using(crate::proofs::FieldLemmas::dom_here, crate::proofs::FieldLemmas::dom_later, crate::proofs::FieldLemmas::dom_none))]
fn is_field_of(fields: &[FieldDom], name: &Text) -> bool
    ensures { result ≡ is_among (keys (map pure_field_dom fields.now)) name.now }
{
    for (i, field) in fields.iter().enumerate() {
        if same_name(&field.name, name) {
            return true;
        }
    }
    false
}

/// Whether no field of a record's domain stands twice.
#[tactic(auto, using(crate::proofs::FieldLemmas::doms_later, crate::proofs::FieldLemmas::doms_here, crate::proofs::FieldLemmas::doms_all))]
pub(crate) fn domain_fields_differ(fields: &[FieldDom]) -> bool
    ensures { result ≡ all_distinct (keys (map pure_field_dom fields.now)) }
{
    for (i, field) in fields.iter().enumerate() {
        if is_field_of(&fields[i + 1..], &field.name) {
            return false;
        }
    }
    true
}
