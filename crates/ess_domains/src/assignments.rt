ghost use Rattle.std.specs.Prelude.{◌≡◌, option_map};
ghost use Rattle.std.specs.Option.{option_copied};
ghost use Rattle.std.specs.List.{find, list_any};
ghost use Rattle.ess_semantics.specs.Lists.{and_then};
ghost use Rattle.ess_semantics.specs.Names.{look};
ghost use Rattle.ess_semantics.specs.Order.{same_text};
ghost use Rattle.ess_semantics.specs.Assignments.{nothing_given, value_of as value_given, gives as is_given_by};
ghost use Rattle.ess_core.specs.ValueViews.{pure_val};
ghost use Rattle.ess_domains.specs.Assignments.{pure_assignment};

use crate::names::same_name;
use ess_core::{Boxed, Row, Text, Val};
use std::alloc::Global;

/// An enumerated type with the names of its values, in order.
#[derive(Drop)]
pub struct TypeNames {
    pub name: Text,
    pub names: Row<Text>,
}

/// A name with its value, or without one where its text isn't a value of its type.
#[derive(Drop)]
pub struct NamedValue {
    pub name: Text,
    pub val: Option<Boxed<Val>>,
}

/// What a parameter or a solution gives: types and values, each in the order of the file.
#[derive(Drop)]
pub struct Assignment {
    pub types: Row<TypeNames>,
    pub vals: Row<NamedValue>,
}

impl Assignment {
    /// Gives no name a value. Nothing is allocated.
    pub fn nothing(alloc: Global) -> Assignment
        ensures { pure_assignment result ≡ nothing_given }
    {
        Assignment {
            types: Row::new(alloc),
            vals: Row::new(alloc),
        }
    }

    /// Whether a name is given at all.
    #[tactic(auto, using(crate::proofs::Givens::given_in_either))]
    pub fn gives(&self, name: &Text) -> bool
        ensures { result ≡ is_given_by (pure_assignment self.now) name.now }
    {
        has_type(self.types.as_slice(), name) || has_value(self.vals.as_slice(), name)
    }

    /// The value of a name, where it has one. Where a name stands twice, the first counts.
    pub fn value_of(&self, name: &Text) -> Option<&Val>
        ensures { option_map pure_val (option_copied result) ≡ value_given (pure_assignment self.now) name.now }
    {
        value_in(first_value(self.vals.as_slice(), name))
    }

    /// The names of the values of a type, where it has some. Where a type stands twice, the first counts.
    #[tactic(auto, using(crate::proofs::Givens::type_found))]
    pub fn type_of(&self, name: &Text) -> Option<&TypeNames>
        ensures { option_map (λ t. t.names) (option_copied result) ≡ look (pure_assignment self.now).types name.now }
    {
        first_type(self.types.as_slice(), name)
    }
}

/// The first type with this name.
fn first_type<'a>(types: &'a [TypeNames], name: &Text) -> Option<&'a TypeNames>
    ensures { option_copied result ≡ find (λ t. same_text t.name name.now) types.now }
{
    types.iter().find(|given| same_name(&given.name, name))
}

/// The value that is given.
fn value_in<'a>(given: Option<&'a NamedValue>) -> Option<&'a Val>
    ensures { option_map pure_val (option_copied result)
        ≡ and_then (option_map (λ g. option_map pure_val g.val) (option_copied given.entry)) (λ o. o) }
{
    match given {
        Some(given) => match &given.val {
            Some(val) => Some(val.get()),
            None => None,
        },
        None => None,
    }
}

/// Whether a type has this name.
pub(crate) fn has_type(types: &[TypeNames], name: &Text) -> bool
    ensures { result ≡ list_any (λ t. same_text t.name name.now) types.now }
{
    types.iter().any(|given| same_name(&given.name, name))
}

/// Whether a value has this name.
pub(crate) fn has_value(vals: &[NamedValue], name: &Text) -> bool
    ensures { result ≡ list_any (λ g. same_text g.name name.now) vals.now }
{
    vals.iter().any(|given| same_name(&given.name, name))
}

/// The first value with this name.
fn first_value<'a>(vals: &'a [NamedValue], name: &Text) -> Option<&'a NamedValue>
    ensures { option_copied result ≡ find (λ g. same_text g.name name.now) vals.now }
{
    vals.iter().find(|given| same_name(&given.name, name))
}
