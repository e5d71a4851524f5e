ghost use Rattle.std.specs.Prelude.{◌≡◌, IfSome, Some, true, option_map, reverse};
ghost use Rattle.std.specs.List.{find};
ghost use Rattle.std.specs.Option.{option_copied};
ghost use Rattle.ess_semantics.specs.Order.{same_text};
ghost use Rattle.ess_semantics.specs.Names.{look};
ghost use Rattle.ess_semantics.specs.Meaning.{type_entry};
ghost use Rattle.ess_core.specs.ValueViews.{pure_val};
ghost use Rattle.ess_core.specs.TableViews.{pure_type_entry, pure_type_entries, pure_bindings};
ghost use Rattle.ess_values_lookups.specs.Rising.{has_rising_items};
ghost use Rattle.ess_eval.specs.Environments.{env_at};

use crate::risen::Risen;
use ess_core::{Binding, Text, TypeEntry, Val};
use std::cmp::Ordering;

/// The value of a name: the newest that a generator has bound, else that of the env.
#[tactic(auto, using(crate::proofs::Lookups::look_both, crate::proofs::Lookups::look_second))]
pub(crate) fn value_of_name<'a>(
    name: &Text,
    env: &'a Risen,
    bound: &'a [Binding],
) -> Option<&'a Val>
    ensures { option_map pure_val (option_copied result) ≡ look (env_at env.now bound.now).vals name.now }
{
    match newest(bound, name) {
        Some(binding) => Some(&binding.val),
        None => match newest(env.env().vals.as_slice(), name) {
            Some(binding) => Some(&binding.val),
            None => None,
        },
    }
}

/// The value of a name whose items are known to rise: one that no generator has bound.
#[tactic(auto, using(crate::proofs::Lookups::look_env))]
pub(crate) fn rising_of_name<'a>(name: &Text, env: &'a Risen, bound: &[Binding]) -> Option<&'a Val>
    ensures found { IfSome (option_copied result) (λ v. look (env_at env.now bound.now).vals name.now ≡ Some (pure_val v)) }
    ensures rises { IfSome (option_copied result) (λ v. has_rising_items (pure_val v) ≡ true) }
{
    match newest(bound, name) {
        Some(_) => None,
        None => env.newest_rising(name),
    }
}

/// The last of the bindings that has this name.
fn newest<'a>(bindings: &'a [Binding], name: &Text) -> Option<&'a Binding>
    ensures { option_copied result ≡ find (λ b. same_text b.name name.now) (reverse bindings.now) }
{
    bindings
        .iter()
        .rev()
        .find(|binding| same_name(&binding.name, name))
}

/// The entry of a named type; where several have its name, the newest.
#[tactic(auto, using(crate::proofs::Lookups::entry_found))]
pub(crate) fn entry_of<'a>(env: &'a Risen, name: &Text) -> Option<&'a TypeEntry>
    ensures { option_map pure_type_entry (option_copied result) ≡ type_entry (pure_type_entries env.now.types) name.now }
{
    newest_entry(env.env().types.as_slice(), name)
}

/// The last of the entries that has this name.
fn newest_entry<'a>(entries: &'a [TypeEntry], name: &Text) -> Option<&'a TypeEntry>
    ensures { option_copied result ≡ find (λ e. same_text e.name name.now) (reverse entries.now) }
{
    entries
        .iter()
        .rev()
        .find(|entry| same_name(&entry.name, name))
}

/// Whether two names are equal.
#[tactic(auto, using(crate::proofs::Lookups::other_lengths))]
pub(crate) fn same_name(a: &Text, b: &Text) -> bool
    ensures { result ≡ same_text a.now b.now }
{
    if a.len() != b.len() {
        return false;
    }
    a.cmp(b) == Ordering::Equal
}
