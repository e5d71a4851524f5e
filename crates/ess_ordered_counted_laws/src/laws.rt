//! Laws of what rules of comprehensions whose items have an order count on, each the contract of a function that does nothing.

ghost use Rattle.ess_ordered_counted_laws.specs.OrderedCounted.{OrdersAreCountedOn};

/// These rules keep what they rewrite where each part of the tree has a value wherever its context holds, but for numbers in natural
/// places, and names are new, terms have values of their types, and index domains are told rightly. A number over what is picked may have
/// nothing.
pub fn orders_are_counted_on()
    ensures { OrdersAreCountedOn }
{}
