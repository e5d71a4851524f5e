//! The law of guarded judged expressions, the contract of a function that does nothing.

ghost use Rattle.ess_guard_told_laws.specs.Laws.{JudgedGuardsAreTotal};

use ess_guard_places_laws::laws::natural_is_total_but_tests;
use ess_guard_tests_laws::laws::guarded_is_total_but_tests;
use ess_refine_types_laws::laws::judged_trees_have_marks;

/// A judged expression of the type bool is total but for tests of indices, once it is resolved and guarded, in every env: where operands of
/// connectives and conditions in it have the type bool, not that of an empty literal's members, and its function literals are of pairs. So
/// it is with natural places, but for plain operators in these.
pub fn judged_guards_are_total()
    ensures { JudgedGuardsAreTotal }
{
    judged_trees_have_marks();
    guarded_is_total_but_tests();
    natural_is_total_but_tests();
}
