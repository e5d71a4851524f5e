//! The text of a solution.
ghost use Rattle.std.specs.Prelude.{◌≡◌, ◌++◌, map, codes, IfOk, OnOk};
ghost use Rattle.ess_core.specs.ValueViews.{pure_val};
ghost use Rattle.ess_core.specs.TableViews.{pure_type_entries};
ghost use Rattle.ess_values_laws.specs.ItemNames.{item_name};
ghost use Rattle.ess_translate_values.specs.StoodValues.{pure_stood};
ghost use Rattle.ess_translate_solutions.specs.CellFiles.{value_line, there_of, value_lines};

use ess_core::{Env, NoMemory, Text, Val};
use ess_translate_values::StoodFor;
use ess_values::print_val;
use std::alloc::Global;

/// The text of the values that are there: the language line, and the letting of each in order. Values of named types stand by the
/// names that the env has for them. `NoMemory` where there is no room for it.
pub(crate) fn solution_text(
    alloc: Global,
    vals: &[StoodFor],
    env: &Env,
) -> Result<Vec<u8>, NoMemory>
    ensures { IfOk result (λ b. b.items ≡ codes "language Essence 1.3\n"
        ++ value_lines (item_name (pure_type_entries env.now.types)) (there_of (map pure_stood vals.now))) }
{
    let mut out = Text::new(alloc);
    out.push_str("language Essence 1.3\n")?;
    push_values(alloc, &mut out, vals, env)?;
    Ok(out.into_string().into_bytes())
}

/// Appends the lettings of the values that are there.
fn push_values(alloc: Global, out: &mut Text, vals: &[StoodFor], env: &Env) -> Result<(), NoMemory>
    ensures { OnOk result (out.new ≡ out.old
        ++ value_lines (item_name (pure_type_entries env.now.types)) (there_of (map pure_stood vals.now))) }
{
    for found in vals {
        if let Some(val) = &found.value {
            push_value(alloc, out, &found.name, val.get(), env)?;
        }
    }
    Ok(())
}

/// Appends the letting of a value.
fn push_value(
    alloc: Global,
    out: &mut Text,
    name: &Text,
    val: &Val,
    env: &Env,
) -> Result<(), NoMemory>
    ensures { OnOk result (out.new ≡ out.old ++ value_line (item_name (pure_type_entries env.now.types)) (name.now, pure_val val.now)) }
{
    let text = print_val(alloc, val, env)?;
    out.push_str("letting ")?;
    out.push_str(name.as_str())?;
    out.push_str(" be ")?;
    out.push_str(text.as_str())?;
    out.push_str("\n")
}
