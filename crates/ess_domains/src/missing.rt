ghost use Rattle.std.specs.Prelude.{◌≡◌};
ghost use Rattle.std.specs.Option.{option_copied};
ghost use Rattle.ess_semantics.specs.Parameters.{givens, first_missing};
ghost use Rattle.ess_semantics.specs.Solutions.{finds};
ghost use Rattle.ess_domains.specs.Assignments.{pure_assignment};
ghost use Rattle.ess_domains.specs.Walked.{pure_stms};

use crate::assignments::Assignment;
use ess_core::{Stm, Text};

/// The first given that a parameter has nothing for.
pub(crate) fn missing_given<'a>(stms: &'a [Stm], param: &Assignment) -> Option<&'a Text>
    ensures { option_copied result ≡ first_missing (givens (pure_stms stms.now)) (pure_assignment param.now) }
{
    for stm in stms {
        match stm {
            Stm::Given(name, _) => {
                if !param.gives(name) {
                    return Some(name);
                }
            }
            Stm::GivenEnum(name) => {
                if !param.gives(name) {
                    return Some(name);
                }
            }
            _ => {}
        }
    }
    None
}

/// The first find that a solution has nothing for.
pub(crate) fn missing_find<'a>(stms: &'a [Stm], sol: &Assignment) -> Option<&'a Text>
    ensures { option_copied result ≡ first_missing (finds (pure_stms stms.now)) (pure_assignment sol.now) }
{
    for stm in stms {
        match stm {
            Stm::Find(name, _) => {
                if !sol.gives(name) {
                    return Some(name);
                }
            }
            _ => {}
        }
    }
    None
}
