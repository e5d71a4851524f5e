ghost use Rattle.std.specs.Prelude.{◌≡◌, [], IfOk};
ghost use Rattle.std.specs.List.{list_any};
ghost use Rattle.ess_semantics.specs.Names.{is_among as stands_among};
ghost use Rattle.ess_semantics.specs.Parameters.{givens, given_enums, are_new as are_all_new, is_extra_type as is_extra_letting, first_extra_type as first_extra_letting};
ghost use Rattle.ess_domains.specs.Walked.{named_before, pure_sizes, pure_stms, pure_types, taken_before};

use crate::assignments::{TypeNames, has_type};
use crate::declared::{is_declared, is_given, is_given_enum};
use crate::names::is_among;
use crate::tokens::are_names_apart;
use crate::unnamed::{TypeSize, is_accepted, is_value_of_some};
use ess_core::{NoMemory, Stm, Text};
use std::alloc::Global;

/// The name of the first letting of a type in a parameter that is too many.
#[tactic(auto, using(crate::proofs::Earlier::type_on))]
pub(crate) fn extra_type(
    alloc: Global,
    stms: &[Stm],
    sizes: &[TypeSize],
    types: &[TypeNames],
) -> Result<Option<Text>, NoMemory>
    ensures { IfOk result (λ o. o ≡ first_extra_letting (givens (pure_stms stms.now)) (given_enums (pure_stms stms.now))
        (pure_sizes sizes.now) (pure_types types.now) [] (taken_before stms.now sizes.now [])) }
{
    for (i, given) in types.iter().enumerate() {
        if is_extra_type(alloc, stms, sizes, &types[..i], given)? {
            return Ok(Some(given.name.copy(alloc)?));
        }
    }
    Ok(None)
}

/// Whether a letting of a type, behind these, is too many.
fn is_extra_type(
    alloc: Global,
    stms: &[Stm],
    sizes: &[TypeSize],
    before: &[TypeNames],
    given: &TypeNames,
) -> Result<bool, NoMemory>
    ensures { IfOk result (λ b. b ≡ is_extra_letting (givens (pure_stms stms.now)) (given_enums (pure_stms stms.now))
        (pure_sizes sizes.now) (named_before before.now) (taken_before stms.now sizes.now before.now) given.now.name given.now.names) }
{
    if stands_before(before, &given.name) {
        return Ok(true);
    }
    if !is_given(stms, &given.name) {
        let accepted = is_accepted(alloc, sizes, &given.name, given.names.as_slice())?;
        return Ok(!accepted);
    }
    if !is_given_enum(stms, &given.name) {
        return Ok(false);
    }
    let new = are_new(alloc, stms, sizes, before, given.names.as_slice())?;
    Ok(!new)
}

/// Whether a type before has a name.
#[tactic(auto, using(crate::proofs::Earlier::among_types_alone))]
pub(crate) fn stands_before(before: &[TypeNames], name: &Text) -> bool
    ensures { result ≡ stands_among (named_before before.now) name.now }
{
    has_type(before, name)
}

/// Whether the names of a type's values can be spelled and are new, and no two of them are equal.
fn are_new(
    alloc: Global,
    stms: &[Stm],
    sizes: &[TypeSize],
    before: &[TypeNames],
    names: &[Text],
) -> Result<bool, NoMemory>
    ensures { IfOk result (λ b. b ≡ are_all_new names.now (taken_before stms.now sizes.now before.now)) }
{
    if !are_names_apart(names) {
        return Ok(false);
    }
    let taken = is_one_taken(alloc, stms, sizes, before, names)?;
    Ok(!taken)
}

/// Whether one of these names stands already.
fn is_one_taken(
    alloc: Global,
    stms: &[Stm],
    sizes: &[TypeSize],
    before: &[TypeNames],
    names: &[Text],
) -> Result<bool, NoMemory>
    ensures { IfOk result (λ b. b ≡ list_any (stands_among (taken_before stms.now sizes.now before.now)) names.now) }
{
    for name in names {
        if is_taken(alloc, stms, sizes, before, name)? {
            return Ok(true);
        }
    }
    Ok(false)
}

/// Whether a name stands already: a statement declares it, or a letting before, or it is that of a value of an unnamed type.
#[tactic(auto, using(crate::proofs::Earlier::taken_before))]
fn is_taken(
    alloc: Global,
    stms: &[Stm],
    sizes: &[TypeSize],
    before: &[TypeNames],
    name: &Text,
) -> Result<bool, NoMemory>
    ensures { IfOk result (λ b. b ≡ stands_among (taken_before stms.now sizes.now before.now) name.now) }
{
    if has_value_name(before, name) {
        return Ok(true);
    }
    if is_declared(stms, name) {
        return Ok(true);
    }
    Ok(is_value_of_some(alloc, sizes, name)?)
}

/// Whether a value of one of these types has a name.
fn has_value_name(types: &[TypeNames], name: &Text) -> bool
    ensures { result ≡ list_any (λ t. stands_among t.names name.now) types.now }
{
    types
        .iter()
        .any(|given| is_among(given.names.as_slice(), name))
}
