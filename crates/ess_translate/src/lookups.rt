ghost use Rattle.std.specs.Prelude.{◌≡◌, map, option_map, IfOk};
ghost use Rattle.std.specs.Option.{option_copied};
ghost use Rattle.ess_semantics.specs.Names.{look};
ghost use Rattle.ess_semantics.specs.Order.{same_text};
ghost use Rattle.ess_semantics.specs.Types.{type_of_dom};
ghost use Rattle.ess_semantics.specs.Literals.{literal_value};
ghost use Rattle.ess_core.specs.ValueViews.{pure_val};
ghost use Rattle.ess_core.specs.TreeViews.{pure_ex, pure_dom};
ghost use Rattle.ess_core.specs.TableViews.{pure_env};
ghost use Rattle.ess_parse.specs.LettingViews.{pure_letting};
ghost use Rattle.ess_domains.specs.Assignments.{pure_type_names};
ghost use Rattle.ess_translate_laws.specs.FileAssignments.{value_lettings, type_lettings, value_in_file};

use ess_core::{Boxed, Dom, Env, Ex, NoMemory, Row, Text, Val};
use ess_domains::TypeNames;
use ess_parse::Letting;
use ess_types_operators::type_of_dom;
use ess_values::{ValNo, val_of};
use std::alloc::Global;
use std::cmp::Ordering;

/// Whether two names are equal.
fn same_name(a: &Text, b: &Text) -> bool
    ensures { result ≡ same_text a.now b.now }
{
    a.cmp(b) == Ordering::Equal
}

/// The expression of the first letting of a value of this name.
fn first_letting<'a>(file: &'a [Letting], name: &Text) -> Option<&'a Ex>
    ensures { option_map pure_ex (option_copied result) ≡ look (value_lettings (map pure_letting file.now)) name.now }
{
    for letting in file {
        if let Letting::Value(other, ex) = letting {
            if same_name(other, name) {
                return Some(ex);
            }
        }
    }
    None
}

/// The value that a file gives to a name of this domain: that of the name's first letting, where its text is a value of the
/// domain's type. `NoMemory` where there is no room for it.
pub(crate) fn value_in_file(
    alloc: Global,
    file: &[Letting],
    name: &Text,
    dom: &Dom,
    env: &Env,
) -> Result<Option<Boxed<Val>>, NoMemory>
    ensures { IfOk result (λ o. option_map pure_val o
        ≡ value_in_file (map pure_letting file.now) (pure_env env.now) (name.now, pure_dom dom.now)) }
{
    match first_letting(file, name) {
        Some(ex) => literal_of(alloc, ex, dom, env),
        None => Ok(None),
    }
}

/// The value of a literal of a domain's type, where it is one.
fn literal_of(alloc: Global, ex: &Ex, dom: &Dom, env: &Env) -> Result<Option<Boxed<Val>>, NoMemory>
    ensures { IfOk result (λ o. option_map pure_val o
        ≡ literal_value (pure_ex ex.now) (type_of_dom (pure_dom dom.now)) (pure_env env.now)) }
{
    let ty = type_of_dom(alloc, dom)?;
    match val_of(alloc, ex, ty.get(), env) {
        Ok(val) => Ok(Some(Boxed::new(alloc, val)?)),
        Err(ValNo::NotAValue) => Ok(None),
        Err(ValNo::NoMemory) => Err(NoMemory),
    }
}

/// The types that a file gives, in order, with the names of their values. `NoMemory` where there is no room for them.
pub(crate) fn types_of(alloc: Global, file: &[Letting]) -> Result<Row<TypeNames>, NoMemory>
    ensures { IfOk result (λ types. map pure_type_names types ≡ type_lettings (map pure_letting file.now)) }
{
    let mut types = Row::new(alloc);
    for letting in file {
        if let Letting::Enum(name, names) = letting {
            let names = copy_names(alloc, names.as_slice())?;
            types.push(TypeNames {
                name: name.copy(alloc)?,
                names,
            })?;
        }
    }
    Ok(types)
}

/// A copy of names.
fn copy_names(alloc: Global, names: &[Text]) -> Result<Row<Text>, NoMemory>
    ensures { IfOk result (λ r. r ≡ names.now) }
{
    let mut copies = Row::with_capacity(alloc, names.len())?;
    for name in names {
        copies.push(name.copy(alloc)?)?;
    }
    Ok(copies)
}
