//! How many members the sets have in the text of a solution.
ghost use Rattle.std.specs.Prelude.{◌≡◌, ◌≤◌, map, option_map, IfOk, IfErr};
ghost use Rattle.std.specs.Option.{option_copied};
ghost use Rattle.ess_semantics.specs.Names.{look};
ghost use Rattle.ess_semantics.specs.Order.{same_text};
ghost use Rattle.ess_core.specs.TreeViews.{pure_ex};
ghost use Rattle.ess_core.specs.ValueViews.{pure_val};
ghost use Rattle.ess_grammar.specs.Statements.{IsLettingsFile};
ghost use Rattle.ess_parse.specs.LettingViews.{pure_letting, pure_lettings};
ghost use Rattle.ess_translate_laws.specs.FileAssignments.{value_lettings};
ghost use Rattle.ess_translate.specs.Texts.{IsReadAs};
ghost use Rattle.conjure_cli.specs.Members.{members_of, members_in, set_of, set_name, set_members, all_members};

use ess_core::{Boxed, Env, Ex, NoMemory, Text, Ty, Val};
use ess_domains::no_env;
use ess_parse::{Letting, Lettings, ReadNo, read_lettings};
use ess_values::{ValNo, val_of};
use std::alloc::Global;
use std::cmp::Ordering;

/// Reads a file of lettings.
pub(crate) fn read_file(alloc: Global, text: &[u8]) -> Result<Lettings, ReadNo>
    ensures { IsReadAs IsLettingsFile pure_lettings text.now result }
{
    read_lettings(alloc, text)
}

/// Whether two names are equal.
fn same_name(a: &Text, b: &Text) -> bool
    ensures { result ≡ same_text a.now b.now }
{
    a.cmp(b) == Ordering::Equal
}

/// The expression of the first letting of a value of this name.
fn first_letting<'a>(file: &'a [Letting], name: &Text) -> Option<&'a Ex>
    ensures { option_map pure_ex (option_copied result) ≡ look (value_lettings (map pure_letting file.now)) name.now }
{
    for letting in file {
        if let Letting::Value(other, ex) = letting {
            if same_name(other, name) {
                return Some(ex);
            }
        }
    }
    None
}

/// How many members a set has; other values have none.
#[tactic(auto, using(crate::proofs::Sizes::set_size))]
fn members_of(val: Val) -> u64
    ensures { result ≡ members_of (pure_val val) }
{
    match val {
        Val::Set(items) => items.len() as u64,
        other => {
            drop(other);
            0
        }
    }
}

/// How many members the set has that a literal stands for; other literals have none.
fn members_in(alloc: Global, ex: &Ex) -> Result<u64, NoMemory>
    ensures { IfOk result (λ n. n ≡ members_in (set_of (pure_ex ex.now))) }
{
    let ty = Ty::Set(Boxed::new(alloc, Ty::Int)?);
    let val = val_of(alloc, ex, &ty, &no_env(alloc));
    drop(ty);
    match val {
        Ok(val) => Ok(members_of(val)),
        Err(ValNo::NotAValue) => Ok(0),
        Err(ValNo::NoMemory) => Err(NoMemory),
    }
}

/// The name of the set of this place.
fn set_name(alloc: Global, place: u64) -> Result<Text, NoMemory>
    ensures { IfOk result (λ t. t ≡ set_name place) }
{
    let mut name = Text::new(alloc);
    name.push_str("s")?;
    name.push_u64(place)?;
    Ok(name)
}

/// How many members the set of this place has in a file.
fn set_members(alloc: Global, file: &[Letting], place: u64) -> Result<u64, NoMemory>
    ensures { IfOk result (λ n. n ≡ set_members (map pure_letting file.now) place) }
{
    let name = set_name(alloc, place)?;
    match first_letting(file, &name) {
        Some(ex) => members_in(alloc, ex),
        None => Ok(0),
    }
}

/// How many members the first sets have in a file, which are so many. `NoMemory` also where they can't be counted in 64 bits.
#[tactic(auto, using(crate::proofs::Sizes::members_more))]
pub(crate) fn all_members(alloc: Global, file: &[Letting], count: u64) -> Result<u64, NoMemory>
    requires { count ≤ 100 }
    ensures { IfOk result (λ n. n ≡ all_members (map pure_letting file.now) count) }
{
    let mut members: u64 = 0;
    for before in 0..count {
        let here = set_members(alloc, file, before + 1)?;
        match members.checked_add(here) {
            Some(more) => members = more,
            None => return Err(NoMemory),
        }
    }
    Ok(members)
}
