ghost use Rattle.std.specs.Prelude.{◌≡◌, ◌++◌, ◌<◌, ◌^◌, ℕ, IfOk};
ghost use Rattle.std.specs.Fmt.{decimal};
ghost use Rattle.ess_semantics.specs.Names.{is_among as stands_among};
ghost use Rattle.ess_semantics.specs.Assignments.{unnamed_name as unnamed_text, unnamed_names, are_unnamed_names as are_all_unnamed};
ghost use Rattle.ess_semantics.specs.Parameters.{is_accepted as is_accepted_by};
ghost use Rattle.ess_domains.specs.Sizes.{names_of_sizes};
ghost use Rattle.ess_domains.specs.Walked.{pure_sizes};

use crate::names::same_name;
use ess_core::{NoMemory, Text};
use std::alloc::Global;

/// An unnamed type with its size.
#[derive(Drop)]
pub struct TypeSize {
    pub name: Text,
    pub count: u64,
}

/// Whether a name is that of a value of an unnamed type.
pub(crate) fn is_value_of_some(
    alloc: Global,
    sizes: &[TypeSize],
    name: &Text,
) -> Result<bool, NoMemory>
    ensures { IfOk result (λ b. b ≡ stands_among (names_of_sizes (pure_sizes sizes.now)) name.now) }
{
    for size in sizes {
        if is_value_of(alloc, &size.name, size.count, name)? {
            return Ok(true);
        }
    }
    Ok(false)
}

/// Whether a name is that of a value of this unnamed type.
#[tactic(auto, using(crate::proofs::UnnamedNames::value_there, crate::proofs::UnnamedNames::nothing_there))]
fn is_value_of(alloc: Global, own: &Text, count: u64, name: &Text) -> Result<bool, NoMemory>
    ensures { IfOk result (λ b. b ≡ stands_among (unnamed_names own.now 1 count) name.now) }
{
    let mut prefix = own.copy(alloc)?;
    prefix.push_str("_")?;
    match number_behind(&prefix, name) {
        Some(number) => {
            if number < 1 {
                return Ok(false);
            }
            if number > count {
                return Ok(false);
            }
            prefix.push_u64(number)?;
            Ok(same_name(&prefix, name))
        }
        None => Ok(false),
    }
}

/// The number that is spelled behind a prefix.
fn number_behind(prefix: &Text, name: &Text) -> Option<u64>
    ensures { (k : ℕ) → k < 2 ^ 64 → name.now ≡ prefix.now ++ decimal k → result ≡ Some k }
{
    match name.as_str().strip_prefix(prefix.as_str()) {
        Some(digits) => digits.parse::<u64>().ok(),
        None => None,
    }
}

/// Whether the names of a type's values are those of an unnamed type's values, all in order: a list that changes nothing.
pub(crate) fn is_accepted(
    alloc: Global,
    sizes: &[TypeSize],
    own: &Text,
    names: &[Text],
) -> Result<bool, NoMemory>
    ensures { IfOk result (λ b. b ≡ is_accepted_by (pure_sizes sizes.now) own.now names.now) }
{
    for size in sizes {
        if same_name(&size.name, own) {
            return Ok(are_unnamed_names(alloc, own, size.count, names)?);
        }
    }
    Ok(false)
}

/// Whether these are the names of all values of an unnamed type, in order.
#[tactic(auto, using(crate::proofs::UnnamedNames::all_spelled))]
fn are_unnamed_names(
    alloc: Global,
    own: &Text,
    count: u64,
    names: &[Text],
) -> Result<bool, NoMemory>
    ensures { IfOk result (λ b. b ≡ are_all_unnamed own.now count names.now) }
{
    if names.len() as u64 != count {
        return Ok(false);
    }
    for (i, name) in names.iter().enumerate() {
        let spelled = unnamed_name(alloc, own, i as u64 + 1)?;
        if !same_name(name, &spelled) {
            return Ok(false);
        }
    }
    Ok(true)
}

/// The name of the value of an unnamed type at a position.
fn unnamed_name(alloc: Global, own: &Text, position: u64) -> Result<Text, NoMemory>
    ensures { IfOk result (λ t. t ≡ unnamed_text own.now position) }
{
    let mut name = own.copy(alloc)?;
    name.push_str("_")?;
    name.push_u64(position)?;
    Ok(name)
}
