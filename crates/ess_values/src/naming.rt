ghost use Rattle.std.specs.Prelude.{◌≡◌, ◌++◌, ◌+◌, ◌-◌, ◌*◌, ◌&&◌, reverse, nat_le, IfOk, OnOk, option_map};
ghost use Rattle.ess_semantics.specs.Lists.{and_then, when};
ghost use Rattle.ess_semantics.specs.Values.{Text as Bytes, item as item_value};
ghost use Rattle.ess_semantics.specs.NameTokens.{is_digit};
ghost use Rattle.ess_semantics.specs.Judgements.{after_prefix};
ghost use Rattle.ess_semantics.specs.Literals.{item_of_name, named_item, unnamed_item};
ghost use Rattle.ess_values.specs.Items.{item_of_entry, typed_item, small_number};
ghost use Rattle.ess_values.specs.Literals.{pure_literal};
ghost use Rattle.std.specs.List.{find};
ghost use Rattle.std.specs.Option.{option_copied};
ghost use Rattle.ess_semantics.specs.Order.{same_text};
ghost use Rattle.ess_semantics.specs.Meaning.{type_entry};
ghost use Rattle.ess_core.specs.TableViews.{pure_type_entry, pure_type_entries};
ghost use Rattle.ess_semantics.specs.Assignments.{unnamed_name};
ghost use Rattle.ess_values_laws.specs.ItemNames.{name_at, entry_name, item_name};

use crate::literals::Literal;
use crate::shapes::Shape;
use ess_core::{Boxed, Env, NoMemory, Text, TypeEntry, Val};
use std::alloc::Global;
use std::cmp::Ordering;

/// The entry of a named type; where several have its name, the newest.
pub fn entry_of<'a>(env: &'a Env, name: &Text) -> Option<&'a TypeEntry>
    ensures { option_map pure_type_entry (option_copied result) ≡ type_entry (pure_type_entries env.now.types) name.now }
{
    newest(env.types.as_slice(), name)
}

/// The last of the entries that has this name.
fn newest<'a>(entries: &'a [TypeEntry], name: &Text) -> Option<&'a TypeEntry>
    ensures { option_copied result ≡ find (λ e. same_text e.name name.now) (reverse entries.now) }
{
    entries
        .iter()
        .rev()
        .find(|entry| same_name(&entry.name, name))
}

/// Whether two names are equal.
pub fn same_name(a: &Text, b: &Text) -> bool
    ensures { result ≡ same_text a.now b.now }
{
    a.cmp(b) == Ordering::Equal
}

/// Writes the name of a value of a named type, by its position. `NoMemory` where there is no room for it.
pub fn push_item(out: &mut Text, name: &Text, position: u64, env: &Env) -> Result<(), NoMemory>
    ensures { OnOk result (out.new ≡ out.old ++ item_name (pure_type_entries env.now.types) name.now position) }
{
    match entry_of(env, name) {
        Some(entry) => push_entry(out, entry, position),
        None => Ok(()),
    }
}

/// Writes the name of a value of this type.
fn push_entry(out: &mut Text, entry: &TypeEntry, position: u64) -> Result<(), NoMemory>
    ensures { OnOk result (out.new ≡ out.old ++ entry_name (pure_type_entry entry.now) position) }
{
    if entry.names.is_empty() {
        push_unnamed(out, &entry.name, position)
    } else {
        push_listed(out, entry.names.as_slice(), position)
    }
}

/// Writes the name of a value of an unnamed type: that of the type, and the position.
fn push_unnamed(out: &mut Text, name: &Text, position: u64) -> Result<(), NoMemory>
    ensures { OnOk result (out.new ≡ out.old ++ unnamed_name name.now position) }
{
    out.push_str(name.as_str())?;
    out.push_str("_")?;
    out.push_u64(position)
}

/// Writes the name at a position, from 1.
fn push_listed(out: &mut Text, names: &[Text], position: u64) -> Result<(), NoMemory>
    ensures { OnOk result (out.new ≡ out.old ++ name_at names.now position) }
{
    if position == 0 {
        return Ok(());
    }
    match names.get((position - 1) as usize) {
        Some(name) => out.push_str(name.as_str()),
        None => Ok(()),
    }
}

/// The value of a named type that a name names, with its type: of several types the newest counts. `NoMemory` where there
/// is no room for it.
pub fn item(alloc: Global, name: &Text, env: &Env) -> Result<Option<Literal>, NoMemory>
    ensures { IfOk result (λ o. option_map pure_literal o ≡ typed_item (item_of_name (pure_type_entries env.now.types) name.now)) }
{
    Ok(newest_item(alloc, name, env.types.as_slice())?)
}

/// The value that a name names, of the last of these types that has it.
#[tactic(auto, using(crate::proofs::ItemLemmas::newer_item, crate::proofs::ItemLemmas::no_newer_item, crate::proofs::ShapeEquations::shape_named, ess_core::proofs::ValueEquations::pure_item))]
fn newest_item(alloc: Global, name: &Text, types: &[TypeEntry]) -> Result<Option<Literal>, NoMemory>
    ensures { IfOk result (λ o. option_map pure_literal o ≡ typed_item (item_of_name (pure_type_entries types.now) name.now)) }
{
    let mut found = None;
    for entry in types {
        match position(alloc, entry, name)? {
            Some(at) => {
                found = Some(Literal {
                    shape: Boxed::new(alloc, Shape::Named(entry.name.copy(alloc)?))?,
                    val: Boxed::new(alloc, Val::Item(entry.name.copy(alloc)?, at))?,
                });
            }
            None => {}
        }
    }
    Ok(found)
}

/// The position of the value of a type with this name, from 1.
fn position(alloc: Global, entry: &TypeEntry, name: &Text) -> Result<Option<u64>, NoMemory>
    ensures { IfOk result (λ o. option_map (item_value entry.now.name) o ≡ item_of_entry (pure_type_entry entry.now) name.now) }
{
    if entry.names.is_empty() {
        Ok(unnamed_position(alloc, entry, name)?)
    } else {
        Ok(listed_position(entry.names.as_slice(), name))
    }
}

/// The place of a name among others, from 1.
#[tactic(auto, using(crate::proofs::ItemLemmas::listed_found, crate::proofs::ItemLemmas::listed_next))]
fn listed_position(names: &[Text], name: &Text) -> Option<u64>
    ensures { (t : Bytes) → option_map (item_value t) result ≡ named_item t 1 names.now name.now }
{
    for (i, other) in names.iter().enumerate() {
        if same_name(other, name) {
            return Some(i as u64 + 1);
        }
    }
    None
}

/// The position in the name of a value of an unnamed type: `T_k`, with k in digits as it is printed.
#[tactic(auto, using(crate::proofs::ItemLemmas::unnamed_there, crate::proofs::ItemLemmas::unnamed_none))]
fn unnamed_position(alloc: Global, entry: &TypeEntry, name: &Text) -> Result<Option<u64>, NoMemory>
    ensures { IfOk result (λ o. option_map (item_value entry.now.name) o ≡ unnamed_item (pure_type_entry entry.now) name.now) }
{
    let mut prefix = entry.name.copy(alloc)?;
    prefix.push_str("_")?;
    match number_behind(prefix.as_bytes(), name.as_bytes(), entry.count) {
        Some(position) => Ok(printed_position(alloc, entry, name, position)?),
        None => Ok(None),
    }
}

/// The position, where a name is the one that the value there has.
fn printed_position(
    alloc: Global,
    entry: &TypeEntry,
    name: &Text,
    position: u64,
) -> Result<Option<u64>, NoMemory>
    ensures { IfOk result (λ o. o ≡ when (same_text name.now (unnamed_name entry.now.name position) && nat_le 1 position && nat_le position entry.now.count) position) }
{
    let mut printed = Text::new(alloc);
    push_unnamed(&mut printed, &entry.name, position)?;
    if same_name(name, &printed) && position >= 1 && position <= entry.count {
        Ok(Some(position))
    } else {
        Ok(None)
    }
}

/// The number of the digits behind a prefix, where it is within the limit.
#[tactic(auto, using(crate::proofs::ItemLemmas::not_shorter, crate::proofs::ItemLemmas::behind_prefix, crate::proofs::ItemLemmas::other_prefix))]
fn number_behind(prefix: &[u8], bytes: &[u8], limit: u64) -> Option<u64>
    ensures { result ≡ and_then (after_prefix prefix.now bytes.now) (small_number limit) }
{
    if bytes.len() < prefix.len() {
        return None;
    }
    if prefix.cmp(&bytes[..prefix.len()]) != Ordering::Equal {
        return None;
    }
    number(&bytes[prefix.len()..], limit)
}

/// The number of digits, where there are some and it is within the limit.
#[tactic(auto, using(crate::proofs::ItemLemmas::no_digits, crate::proofs::ItemLemmas::some_digits, crate::proofs::ItemLemmas::one_digit, crate::proofs::ItemLemmas::within_limit, crate::proofs::ItemLemmas::digits_end))]
fn number(digits: &[u8], limit: u64) -> Option<u64>
    ensures { result ≡ small_number limit digits.now }
{
    if digits.is_empty() {
        return None;
    }
    let mut so_far: u64 = 0;
    for digit in digits {
        match with_digit(so_far, *digit, limit) {
            Some(more) => so_far = more,
            None => return None,
        }
    }
    Some(so_far)
}

/// A number with one more digit, where it is one and the number is within the limit.
fn with_digit(number: u64, digit: u8, limit: u64) -> Option<u64>
    ensures { result ≡ when (is_digit digit && nat_le (10 * number + (digit - 48)) limit) (10 * number + (digit - 48)) }
{
    if digit < b'0' || digit > b'9' {
        return None;
    }
    let low = (digit - b'0') as u64;
    if number > limit / 10 {
        return None;
    }
    let tens = 10 * number;
    if low > limit - tens {
        return None;
    }
    Some(tens + low)
}
