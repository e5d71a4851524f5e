//! Laws of plans one after the other, each the contract of a function that does nothing.

ghost use Rattle.ess_translate_plans_laws.specs.Laws.{PlansComeInOrder};

/// The plans for what a header asks for, one after the other, are the plans of its specification.
pub fn plans_come_in_order()
    ensures { PlansComeInOrder }
{}
