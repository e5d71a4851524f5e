ghost use Rattle.std.specs.Prelude.{◌≡◌, [], map, IfOk};
ghost use Rattle.std.specs.Option.{option_copied};
ghost use Rattle.ess_semantics.specs.Names.{keys, is_among as stands_among};
ghost use Rattle.ess_semantics.specs.Parameters.{givens, first_extra_value};
ghost use Rattle.ess_semantics.specs.Solutions.{finds, first_extra_list};
ghost use Rattle.ess_domains.specs.Assignments.{pure_named_value};
ghost use Rattle.ess_domains.specs.Earlier.{names_behind};
ghost use Rattle.ess_domains.specs.Walked.{pure_sizes, pure_stms, pure_types};

use crate::assignments::{NamedValue, TypeNames, has_type, has_value};
use crate::declared::{is_find, is_given};
use crate::extras::stands_before;
use crate::unnamed::{TypeSize, is_accepted};
use ess_core::{NoMemory, Stm, Text};
use std::alloc::Global;

/// The name of the first value in a parameter that is too many, where these types stand before.
#[tactic(auto, using(crate::proofs::Earlier::value_on))]
pub(crate) fn extra_given<'a>(
    stms: &[Stm],
    types: &[TypeNames],
    vals: &'a [NamedValue],
) -> Option<&'a Text>
    ensures { option_copied result
        ≡ first_extra_value (givens (pure_stms stms.now)) (map pure_named_value vals.now) (keys (pure_types types.now)) }
{
    for (i, given) in vals.iter().enumerate() {
        if is_repeated(types, &vals[..i], &given.name) {
            return Some(&given.name);
        }
        if !is_given(stms, &given.name) {
            return Some(&given.name);
        }
    }
    None
}

/// The name of the first value in a solution that is too many, where these types stand before.
#[tactic(auto, using(crate::proofs::Earlier::value_on))]
pub(crate) fn extra_find<'a>(
    stms: &[Stm],
    types: &[TypeNames],
    vals: &'a [NamedValue],
) -> Option<&'a Text>
    ensures { option_copied result
        ≡ first_extra_value (finds (pure_stms stms.now)) (map pure_named_value vals.now) (keys (pure_types types.now)) }
{
    for (i, given) in vals.iter().enumerate() {
        if is_repeated(types, &vals[..i], &given.name) {
            return Some(&given.name);
        }
        if !is_find(stms, &given.name) {
            return Some(&given.name);
        }
    }
    None
}

/// Whether a type or a value before has a name.
#[tactic(auto, using(crate::proofs::Earlier::repeated_value))]
fn is_repeated(types: &[TypeNames], before: &[NamedValue], name: &Text) -> bool
    ensures { result ≡ stands_among (names_behind (map pure_named_value before.now) (keys (pure_types types.now))) name.now }
{
    has_type(types, name) || has_value(before, name)
}

/// The name of the first letting of a type in a solution that is too many.
#[tactic(auto, using(crate::proofs::Earlier::list_on))]
pub(crate) fn extra_list(
    alloc: Global,
    stms: &[Stm],
    sizes: &[TypeSize],
    types: &[TypeNames],
) -> Result<Option<Text>, NoMemory>
    ensures { IfOk result (λ o. o ≡ first_extra_list (finds (pure_stms stms.now)) (pure_sizes sizes.now) (pure_types types.now) []) }
{
    for (i, given) in types.iter().enumerate() {
        if stands_before(&types[..i], &given.name) {
            return Ok(Some(given.name.copy(alloc)?));
        }
        if !is_find(stms, &given.name) {
            if !is_accepted(alloc, sizes, &given.name, given.names.as_slice())? {
                return Ok(Some(given.name.copy(alloc)?));
            }
        }
    }
    Ok(None)
}
