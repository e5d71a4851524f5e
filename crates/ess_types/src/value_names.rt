//! Names of values of unnamed types: `T_` with digits is one of a value of T.
ghost use Rattle.std.specs.Prelude.{◌≡◌, ◌<◌, ◌∷◌, [], length, take, option_map, IfOk, IfSome, OnOk, get_or};
ghost use Rattle.ess_types.specs.ValueNames.{stem_of, StemsAdded};

use ess_core::{NoMemory, Text};
use ess_types_scopes::NameSet;
use std::alloc::Global;

/// The length of T, where the name is `T_` with digits.
#[tactic(auto, using(crate::proofs::ValueNames::stem_searched))]
fn stem_len(name: &[u8]) -> Option<usize>
    ensures stem { option_map (λ k. take k name.now) result ≡ stem_of name.now }
    ensures place { IfSome result (λ k. (k < length name.now) × (get_or name.now k 0 ≡ 95)) }
{
    let mut behind = name.len();
    while behind > 0 && name[behind - 1].is_ascii_digit() {
        behind -= 1;
    }
    if behind == 0 {
        return None;
    }
    if behind == name.len() {
        return None;
    }
    if name[behind - 1] != b'_' {
        return None;
    }
    Some(behind - 1)
}

/// T, where the name is `T_` with digits. `NoMemory` where there is no room for it.
pub(crate) fn stem(alloc: Global, name: &Text) -> Result<Option<Text>, NoMemory>
    ensures { IfOk result (λ o. o ≡ stem_of name.now) }
{
    match stem_len(name.as_bytes()) {
        Some(len) => Ok(Some(Text::from_str(alloc, &name.as_str()[..len])?)),
        None => Ok(None),
    }
}

/// Adds T of each name that is `T_` with digits. `NoMemory` where there is no room for them.
pub(crate) fn add_stems(alloc: Global, names: &[Text], stems: &mut NameSet) -> Result<(), NoMemory>
    ensures { OnOk result (StemsAdded names.now stems.old stems.new) }
{
    for name in names {
        add_stem(alloc, name, stems)?;
    }
    Ok(())
}

/// Adds T, where the name is `T_` with digits.
#[tactic(auto, using(crate::proofs::ValueNames::stem_added, crate::proofs::ValueNames::stem_missing))]
fn add_stem(alloc: Global, name: &Text, stems: &mut NameSet) -> Result<(), NoMemory>
    ensures { OnOk result (StemsAdded (name.now ∷ []) stems.old stems.new) }
{
    if let Some(stem) = stem(alloc, name)? {
        stems.add(alloc, &stem)?;
    }
    Ok(())
}
