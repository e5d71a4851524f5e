ghost use Rattle.std.specs.Prelude.{◌≡◌, [], ◌∷◌, map, true, Err, IfOk, OnOk};
ghost use Rattle.std.specs.Option.{option_copied};
ghost use Rattle.ess_semantics.specs.Meaning.{empty_env};
ghost use Rattle.ess_semantics.specs.Assignments.{env_after, value_of};
ghost use Rattle.ess_semantics.specs.LargeSpecifications.{declares_large_number};
ghost use Rattle.ess_core.specs.TreeViews.{pure_dom};
ghost use Rattle.ess_core.specs.StatementViews.{pure_stm};
ghost use Rattle.ess_core.specs.TableViews.{pure_env};
ghost use Rattle.ess_parse.specs.LettingViews.{pure_letting};
ghost use Rattle.ess_domains.specs.Assignments.{pure_assignment, pure_named_value, pure_type_names};
ghost use Rattle.ess_translate_laws.specs.FileAssignments.{value_lettings, value_in_file, values_here, values_from, assignment_from};
ghost use Rattle.ess_translate.specs.declared.refusal.WalkNo.TheVariants.{Big};
ghost use Rattle.ess_translate.specs.Sides.{pure_side};
ghost use Rattle.ess_translate.specs.Walks.{types_for, param_here, sol_here, declare_large_number};

use crate::lookups::{types_of, value_in_file};
use crate::refusal::{WalkNo, walk_no};
use crate::side::Side;
use ess_core::{Boxed, Dom, Env, NoMemory, Row, Stm, Text, Val};
use ess_domains::{Assignment, NamedValue, TypeNames, go_on, no_env};
use ess_parse::Letting;
use std::alloc::Global;

/// What a file gives to one side of statements that are prepared: its types, and the value of each name that has a letting,
/// in the order of the file. Values are read under what the statements before declare; a solution's under its parameter.
pub(crate) fn assignment_in(
    alloc: Global,
    side: Side,
    file: &[Letting],
    param: &Assignment,
    stms: &[Stm],
) -> Result<Assignment, WalkNo>
    ensures ok { IfOk result (λ a. pure_assignment a
        ≡ assignment_from (map pure_letting file.now)
        (values_from (pure_side side) (map pure_letting file.now) (pure_assignment param.now) (map pure_stm stms.now) empty_env)) }
    ensures big { result ≡ Err Big → declare_large_number (pure_side side) (map pure_letting file.now) (pure_assignment param.now)
        (map pure_stm stms.now) empty_env ≡ true }
{
    let vals = values_from(alloc, side, file, param, stms)?;
    let found = Assignment {
        types: Row::new(alloc),
        vals,
    };
    let types = types_of(alloc, file)?;
    let vals = values_in_order(alloc, file, &found)?;
    Ok(Assignment { types, vals })
}

/// The values of the statements' names, each under the env before its statement.
fn values_from(
    alloc: Global,
    side: Side,
    file: &[Letting],
    param: &Assignment,
    stms: &[Stm],
) -> Result<Row<NamedValue>, WalkNo>
    ensures ok { IfOk result (λ vs. map pure_named_value vs
        ≡ values_from (pure_side side) (map pure_letting file.now) (pure_assignment param.now) (map pure_stm stms.now) empty_env) }
    ensures big { result ≡ Err Big → declare_large_number (pure_side side) (map pure_letting file.now) (pure_assignment param.now)
        (map pure_stm stms.now) empty_env ≡ true }
{
    let mut env = no_env(alloc);
    let mut vals = Row::new(alloc);
    let mut here = Assignment {
        types: types_here(alloc, side, file)?,
        vals: Row::new(alloc),
    };
    for stm in stms {
        here.vals = values_here(alloc, side, file, stm, &env)?;
        go_on_here(alloc, side, stm, &here, param, &mut env)?;
        vals.append(&mut here.vals)?;
    }
    Ok(vals)
}

/// The types that count while a side's values are read: those of the file for givens, none for finds.
fn types_here(alloc: Global, side: Side, file: &[Letting]) -> Result<Row<TypeNames>, NoMemory>
    ensures { IfOk result (λ ts. map pure_type_names ts ≡ types_for (pure_side side) (map pure_letting file.now)) }
{
    match side {
        Side::Givens => types_of(alloc, file),
        Side::Finds => Ok(Row::new(alloc)),
    }
}

/// What a file gives to a side's names in a statement.
fn values_here(
    alloc: Global,
    side: Side,
    file: &[Letting],
    stm: &Stm,
    env: &Env,
) -> Result<Row<NamedValue>, NoMemory>
    ensures { IfOk result (λ vs. map pure_named_value vs
        ≡ values_here (pure_side side) (map pure_letting file.now) (pure_stm stm.now) (pure_env env.now)) }
{
    match (side, stm) {
        (Side::Givens, Stm::Given(name, dom)) => one_value(alloc, file, name, dom.get(), env),
        (Side::Finds, Stm::Find(name, dom)) => one_value(alloc, file, name, dom.get(), env),
        (_, _) => Ok(Row::new(alloc)),
    }
}

/// A name with what a file gives to it.
fn one_value(
    alloc: Global,
    file: &[Letting],
    name: &Text,
    dom: &Dom,
    env: &Env,
) -> Result<Row<NamedValue>, NoMemory>
    ensures { IfOk result (λ vs. map pure_named_value vs
        ≡ (name.now, value_in_file (map pure_letting file.now) (pure_env env.now) (name.now, pure_dom dom.now)) ∷ []) }
{
    let val = value_in_file(alloc, file, name, dom, env)?;
    let name = name.copy(alloc)?;
    let mut vals = Row::new(alloc);
    vals.push(NamedValue { name, val })?;
    Ok(vals)
}

/// Puts into the env what a statement declares, where `here` is what the file gives in it.
fn go_on_here(
    alloc: Global,
    side: Side,
    stm: &Stm,
    here: &Assignment,
    param: &Assignment,
    env: &mut Env,
) -> Result<(), WalkNo>
    ensures ok { OnOk result (pure_env env.new
        ≡ env_after (pure_stm stm.now) (param_here (pure_side side) (pure_assignment here.now) (pure_assignment param.now))
        (sol_here (pure_side side) (pure_assignment here.now)) (pure_env env.old)) }
    ensures big { result ≡ Err Big → declares_large_number (pure_stm stm.now) (pure_env env.old) ≡ true }
{
    let gone = match side {
        Side::Givens => go_on(alloc, stm, here, &Assignment::nothing(alloc), env),
        Side::Finds => go_on(alloc, stm, param, here, env),
    };
    match gone {
        Ok(()) => Ok(()),
        Err(why) => Err(walk_no(why)),
    }
}

/// The lettings of values in a file, each with the value that its name was found to have.
fn values_in_order(
    alloc: Global,
    file: &[Letting],
    found: &Assignment,
) -> Result<Row<NamedValue>, NoMemory>
    ensures { IfOk result (λ vs. map pure_named_value vs
        ≡ map (λ b. (b.0, value_of (pure_assignment found.now) b.0)) (value_lettings (map pure_letting file.now))) }
{
    let mut vals = Row::new(alloc);
    for letting in file {
        if let Letting::Value(name, _) = letting {
            let val = copied(alloc, found.value_of(name))?;
            vals.push(NamedValue {
                name: name.copy(alloc)?,
                val,
            })?;
        }
    }
    Ok(vals)
}

/// A copy of a value, where it is there.
fn copied(alloc: Global, val: Option<&Val>) -> Result<Option<Boxed<Val>>, NoMemory>
    ensures { IfOk result (λ o. o ≡ option_copied val.entry) }
{
    match val {
        Some(val) => Ok(Some(Boxed::new(alloc, val.copy(alloc)?)?)),
        None => Ok(None),
    }
}
