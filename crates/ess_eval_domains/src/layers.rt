ghost use Rattle.std.specs.Prelude.{◌≡◌, map};
ghost use Rattle.ess_semantics.specs.Membership.{no_negative_attribute as none_negative};
ghost use Rattle.ess_eval_domains.specs.ClosedViews.{pure_closed, pure_closeds, pure_field_closed, pure_attributes, domains_of};
ghost use Rattle.ess_eval_domains.specs.Negatives.{no_negative_number, no_negative_attribute_in};

use crate::closed::{Attribute, Closed, FieldClosed};

/// Whether no attribute value, in any layer of the domain, is below 0.
#[cycle(layers)]
pub fn no_negative_attribute(domain: &Closed) -> bool
    ensures { result ≡ none_negative (pure_closed domain.now) }
{
    match domain {
        Closed::Bool => true,
        Closed::Int(_) => true,
        Closed::Named(_, _) => true,
        Closed::Tuple(parts) => none_in(parts.as_slice()),
        Closed::Rec(fields) => none_in_fields(fields.as_slice()),
        Closed::Matrix(axes, item) => {
            none_in(axes.as_slice()) && no_negative_attribute(item.get())
        }
        Closed::Set(own, member) => none_below(own.as_slice())
            && no_negative_attribute(member.get()),
        Closed::MSet(own, member) => none_below(own.as_slice())
            && no_negative_attribute(member.get()),
        Closed::Function(own, from, to) => {
            none_below(own.as_slice())
                && no_negative_attribute(from.get())
                && no_negative_attribute(to.get())
        }
        Closed::Relation(own, parts) => none_below(own.as_slice()) && none_in(parts.as_slice()),
        Closed::Partition(own, member) => {
            none_below(own.as_slice()) && no_negative_attribute(member.get())
        }
    }
}

/// The same of several domains.
#[cycle(layers)]
fn none_in(domains: &[Closed]) -> bool
    ensures { result ≡ no_negative_attribute_in (pure_closeds domains.now) }
{
    for domain in domains {
        if !no_negative_attribute(domain) {
            return false;
        }
    }
    true
}

/// The same of the domains of several fields.
#[cycle(layers)]
fn none_in_fields(fields: &[FieldClosed]) -> bool
    ensures { result ≡ no_negative_attribute_in (domains_of (map (λ f. f.1) (map pure_field_closed fields.now))) }
{
    for field in fields {
        if !no_negative_attribute(&field.domain) {
            return false;
        }
    }
    true
}

/// Whether no number of these attributes is below 0.
fn none_below(attributes: &[Attribute]) -> bool
    ensures { result ≡ no_negative_number (pure_attributes attributes.now) }
{
    for attribute in attributes {
        if let Attribute::Numbered(_, number) = attribute {
            if *number < 0 {
                return false;
            }
        }
    }
    true
}
