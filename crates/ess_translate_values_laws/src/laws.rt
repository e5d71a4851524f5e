//! Laws of what tables of finds stand for, each the contract of a function that does nothing.

ghost use Rattle.ess_translate_values_laws.specs.Laws.{FindsAreReady, ReadyValuesHaveForm};

/// Under a parameter of a header of this tool the plans of its finds are ready at tables as they are declared.
#[tactic(auto, using(crate::proofs::ReadyFinds::finds_ready))]
pub fn finds_are_ready()
    ensures { FindsAreReady }
{}

/// What the tables of a plan that is ready stand for has the form of the plan's domain, so that its types can be put back.
#[tactic(auto, using(crate::proofs::ReadyForms::ready_form))]
pub fn ready_values_have_form()
    ensures { ReadyValuesHaveForm }
{}
