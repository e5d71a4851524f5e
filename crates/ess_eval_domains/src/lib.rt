//! Domains whose bounds, attribute values and sizes are numbers, and the members of the enumerable ones.
#![tactic(auto)]

mod attributes;
mod closed;
mod layers;
mod listing;
mod numbers;
mod products;
mod tuples;

pub use attributes::{attribute, has};
pub use closed::{Attribute, Closed, FieldClosed, Span};
pub use layers::no_negative_attribute;
pub use listing::members;
pub use numbers::number_members;
