//! A law of rules of counted sources, the contract of a function that does nothing.

ghost use Rattle.ess_number_rest_laws.specs.Uncounted.{UncountedOperandsRest};

/// Where no operand of the root is a comprehension over what is picked, no rule of counted sources fires.
pub fn uncounted_operands_rest()
    ensures { UncountedOperandsRest }
{}
