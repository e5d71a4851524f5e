//! The law of the conditions of judged terms, the contract of a function that does nothing.

ghost use Rattle.ess_guard_terms_laws.specs.Laws.{JudgedConditionsTellValues};

use ess_guard_supplied_laws::laws::present_is_supplied;
use ess_refine_types_laws::laws::judged_trees_have_marks;
use ess_types_laws::laws::judged_expressions_are_sound;

/// The conditions of a judged term say whether it has a value where what it reads is there; and what types say of terms that are applied,
/// and of those of the type of an empty literal's members.
pub fn judged_conditions_tell_values()
    ensures { JudgedConditionsTellValues }
{
    judged_trees_have_marks();
    present_is_supplied();
    judged_expressions_are_sound();
}
