ghost use Rattle.std.specs.Prelude.{◌≡◌, IfSome, true};
ghost use Rattle.ess_semantics.specs.Values.{items_of};
ghost use Rattle.ess_semantics.specs.Collections.{holds};
ghost use Rattle.ess_core.specs.ValueViews.{pure_val};
ghost use Rattle.ess_values_lookups.specs.Rising.{has_rising_items};

use crate::halves::holds_rising;
use ess_core::Val;

/// Whether a value is among the members of a set, or among the tuples of a relation, that rise. Nothing where they are of
/// another kind.
#[tactic(auto, using(crate::proofs::Risings::kinds))]
pub fn member_rising(val: &Val, of: &Val) -> Option<bool>
    requires { has_rising_items (pure_val of.now) ≡ true }
    ensures { IfSome result (λ b. b ≡ holds (items_of (pure_val of.now)) (pure_val val.now)) }
{
    match of {
        Val::Set(members) => Some(holds_rising(members.as_slice(), val)),
        Val::Relation(tuples) => Some(holds_rising(tuples.as_slice(), val)),
        _ => None,
    }
}
