ghost use Rattle.std.specs.Prelude.{◌≡◌, ◌++◌, true, option_map, IfOk, IfErr, OnOk};
ghost use Rattle.std.specs.Option.{option_copied};
ghost use Rattle.ess_semantics.specs.Meaning.{as_int, empty_env};
ghost use Rattle.ess_semantics.specs.Assignments.{env_after, with_name, with_enum, with_unnamed, size_of as size_meant, enum_items};
ghost use Rattle.ess_semantics.specs.LargeSpecifications.{declares_large_number};
ghost use Rattle.ess_core.specs.ValueViews.{pure_val};
ghost use Rattle.ess_core.specs.TableViews.{pure_env, pure_bindings};
ghost use Rattle.ess_core.specs.StatementViews.{pure_stm};
ghost use Rattle.ess_eval.specs.Stops.{is_big_or_memory};
ghost use Rattle.ess_eval.specs.declared.calls.EvalNo.TheVariants.{Big};
ghost use Rattle.ess_domains.specs.Assignments.{pure_assignment};

use crate::assignments::Assignment;
use crate::rooms::with_room;
use ess_core::{Binding, Env, NoMemory, Row, Stm, Text, TypeEntry, Val};
use ess_eval::{EvalNo, value};
use std::alloc::Global;

/// The env without types and names. Nothing is allocated.
pub fn no_env(alloc: Global) -> Env
    ensures { pure_env result ≡ empty_env }
{
    Env {
        types: Row::new(alloc),
        vals: Row::new(alloc),
    }
}

/// Puts into the env what a statement declares, under a parameter and a solution: the value of a given or find, the values of a
/// type's names. A letting of an expression or a domain is put in already and declares nothing. `Big` only where the size of an
/// unnamed type has a number outside 64 bits, else `NoMemory`; then the env may hold a part of it.
pub fn go_on(
    alloc: Global,
    stm: &Stm,
    param: &Assignment,
    sol: &Assignment,
    env: &mut Env,
) -> Result<(), EvalNo>
    ensures ok { OnOk result (pure_env env.new
        ≡ env_after (pure_stm stm.now) (pure_assignment param.now) (pure_assignment sol.now) (pure_env env.old)) }
    ensures big { result ≡ Err Big → declares_large_number (pure_stm stm.now) (pure_env env.old) ≡ true }
    ensures stops { IfErr result (λ no. is_big_or_memory no ≡ true) }
{
    match stm {
        Stm::Given(name, _) => with_room(add_name(alloc, name, param.value_of(name), env)),
        Stm::GivenEnum(name) => match param.type_of(name) {
            Some(given) => with_room(add_enum(alloc, name, given.names.as_slice(), env)),
            None => with_room(add_enum(alloc, name, &[], env)),
        },
        Stm::LetEx(_, _) => Ok(()),
        Stm::LetDom(_, _) => Ok(()),
        Stm::LetEnum(name, names) => with_room(add_enum(alloc, name, names.as_slice(), env)),
        Stm::LetUnnamed(name, size) => {
            let count = size_of(value(alloc, size.get(), env)?);
            with_room(add_type(alloc, name, count, env))
        }
        Stm::Needs(_) => Ok(()),
        Stm::Find(name, _) => with_room(add_name(alloc, name, sol.value_of(name), env)),
        Stm::SuchThat(_) => Ok(()),
        Stm::Minimise(_) => Ok(()),
        Stm::Maximise(_) => Ok(()),
    }
}

/// Puts a name with its value into the env, where it has one.
fn add_name(alloc: Global, name: &Text, val: Option<&Val>, env: &mut Env) -> Result<(), NoMemory>
    ensures { OnOk result (pure_env env.new ≡ with_name name.now (option_map pure_val (option_copied val.entry)) (pure_env env.old)) }
{
    match val {
        Some(val) => {
            let name = name.copy(alloc)?;
            match val.copy(alloc) {
                Ok(val) => env.vals.push(Binding { name, val }),
                Err(no) => Err(no),
            }
        }
        None => Ok(()),
    }
}

/// Puts an unnamed type with so many values into the env.
fn add_type(alloc: Global, name: &Text, count: u64, env: &mut Env) -> Result<(), NoMemory>
    ensures { OnOk result (pure_env env.new ≡ with_unnamed name.now count (pure_env env.old)) }
{
    let name = name.copy(alloc)?;
    env.types.push(TypeEntry {
        name,
        count,
        names: Row::new(alloc),
    })
}

/// Puts an enumerated type and its values into the env.
fn add_enum(alloc: Global, name: &Text, names: &[Text], env: &mut Env) -> Result<(), NoMemory>
    ensures { OnOk result (pure_env env.new ≡ with_enum name.now names.now (pure_env env.old)) }
{
    let copies = copy_names(alloc, names)?;
    let own = name.copy(alloc)?;
    env.types.push(TypeEntry {
        name: own,
        count: names.len() as u64,
        names: copies,
    })?;
    add_items(alloc, name, names, &mut env.vals)
}

/// A copy of names.
fn copy_names(alloc: Global, names: &[Text]) -> Result<Row<Text>, NoMemory>
    ensures { IfOk result (λ r. r ≡ names.now) }
{
    let mut copies = Row::with_capacity(alloc, names.len())?;
    for name in names {
        copies.push(name.copy(alloc)?)?;
    }
    Ok(copies)
}

/// Puts the values of an enumerated type behind others, the last one first: of two equal names the first then counts.
fn add_items(
    alloc: Global,
    name: &Text,
    names: &[Text],
    vals: &mut Row<Binding>,
) -> Result<(), NoMemory>
    ensures { OnOk result (pure_bindings vals.new ≡ enum_items name.now 1 names.now ++ pure_bindings vals.old) }
{
    let mut left = names.len();
    while left > 0 {
        left -= 1;
        let own = name.copy(alloc)?;
        let copy = names[left].copy(alloc)?;
        vals.push(Binding {
            name: copy,
            val: Val::Item(own, left as u64 + 1),
        })?;
    }
    Ok(())
}

/// The whole number of a value, 0 for any other.
pub(crate) fn number_in(found: Option<Val>) -> Option<i64>
    ensures { result ≡ as_int (option_map pure_val found) }
{
    let number = match &found {
        Some(Val::Num(number)) => Some(*number),
        Some(_) => Some(0),
        None => None,
    };
    drop(found);
    number
}

/// The size of an unnamed type: 0 for a number below 0, and where there is none.
pub(crate) fn size_of(found: Option<Val>) -> u64
    ensures { result ≡ size_meant (option_map pure_val found) }
{
    match number_in(found) {
        Some(number) => { if number > 0 { number as u64 } else { 0 } }
        None => 0,
    }
}
