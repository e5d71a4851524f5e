ghost use Rattle.std.specs.Prelude.{◌≡◌, ◌++◌, IfOk, map, option_map, reverse};
ghost use Rattle.ess_semantics.specs.Lists.{each_of};
ghost use Rattle.ess_grammar.specs.Readable.{ReadableEx, ReadableExs, ReadableGens};
ghost use Rattle.ess_core.specs.TreeViews.{pure_ex as read_ex, pure_exs as read_exs, pure_gen as read_gen, pure_gens as read_gens};
ghost use Rattle.eprime_tree.specs.Views.{pure_ex, pure_list, pure_gen};
ghost use Rattle.eprime_read_convert.specs.Lines.{scope_of};
ghost use Rattle.eprime_read_convert.specs.Converted.{model_ex, model_list, model_item, model_items, ReadableItem};

use crate::domains::convert_dom;
use crate::expressions::convert_ex;
use crate::lines::{Lines, is_found};
use crate::names::{names_of, with_name};
use crate::nodes::{comp, items_of, over, push_ex, test};
use crate::scopes::Scopes;
use eprime_tree::{PEx, PGen, PList};
use ess_bound_names::BoundNames;
use ess_core::{Ex, Gen, Pat};
use ess_rows::{NoMemory, Row};
use std::alloc::Global;

/// A list: items, or a comprehension.
#[cycle(convert)]
pub(crate) fn convert_list(
    alloc: Global,
    lines: &Lines,
    finds: bool,
    bound: &Scopes,
    ex: &Ex,
) -> Result<Option<PList>, NoMemory>
    requires { ReadableEx (read_ex ex.now) }
    ensures { IfOk result (λ o. option_map (pure_list (scope_of lines.now)) o ≡ model_list (scope_of lines.now) finds bound.now (read_ex ex.now)) }
{
    match ex {
        Ex::Matrix(items, axis) => match axis {
            None => Ok(items_of(convert_exs(alloc, lines, finds, bound, items.as_slice())?)),
            Some(_) => Ok(None),
        },
        Ex::Comp(body, gens) => {
            let items = convert_gens(alloc, lines, bound, gens.as_slice())?;
            let names = names_of(alloc, gens.as_slice())?;
            let inner = bound.inside(alloc, &names)?;
            let item = convert_ex(alloc, lines, finds, &inner, body.get())?;
            Ok(comp(item, items))
        }
        _ => Ok(None),
    }
}

/// Several expressions.
#[cycle(convert)]
fn convert_exs(
    alloc: Global,
    lines: &Lines,
    finds: bool,
    bound: &Scopes,
    exs: &[Ex],
) -> Result<Option<Row<PEx>>, NoMemory>
    requires { ReadableExs (read_exs exs.now) }
    ensures { IfOk result (λ o. option_map (map (pure_ex (scope_of lines.now))) o ≡ each_of (map read_ex exs.now) (model_ex (scope_of lines.now) finds bound.now)) }
{
    let mut items = Row::new(alloc);
    for ex in exs {
        match convert_ex(alloc, lines, finds, bound, ex)? {
            Some(item) => push_ex(&mut items, item)?,
            None => return Ok(None),
        }
    }
    Ok(Some(items))
}

/// Generators and conditions, each inside those before it.
#[cycle(convert)]
fn convert_gens(
    alloc: Global,
    lines: &Lines,
    bound: &Scopes,
    gens: &[Gen],
) -> Result<Option<Row<PGen>>, NoMemory>
    requires { ReadableGens (read_gens gens.now) }
    ensures { IfOk result (λ o. option_map (map (pure_gen (scope_of lines.now))) o ≡ model_items (scope_of lines.now) bound.now (map read_gen gens.now)) }
{
    let mut items = Row::new(alloc);
    let mut names = BoundNames::new(alloc);
    for part in gens {
        match convert_inner(alloc, lines, bound, &names, part)? {
            Some(item) => items.push(item)?,
            None => return Ok(None),
        }
        names = with_name(alloc, part, names)?;
    }
    Ok(Some(items))
}

/// A generator or a condition inside further names.
#[cycle(convert)]
fn convert_inner(
    alloc: Global,
    lines: &Lines,
    bound: &Scopes,
    names: &BoundNames,
    part: &Gen,
) -> Result<Option<PGen>, NoMemory>
    requires { ReadableItem (read_gen part.now) }
    ensures { IfOk result (λ o. option_map (pure_gen (scope_of lines.now)) o ≡ model_item (scope_of lines.now) (reverse names.now ++ bound.now) (read_gen part.now)) }
{
    let inner = bound.inside(alloc, names)?;
    convert_gen(alloc, lines, &inner, part)
}

/// A generator or a condition.
#[cycle(convert)]
fn convert_gen(
    alloc: Global,
    lines: &Lines,
    bound: &Scopes,
    part: &Gen,
) -> Result<Option<PGen>, NoMemory>
    requires { ReadableItem (read_gen part.now) }
    ensures { IfOk result (λ o. option_map (pure_gen (scope_of lines.now)) o ≡ model_item (scope_of lines.now) bound.now (read_gen part.now)) }
{
    match part {
        Gen::Over(pat, dom) => match pat {
            Pat::Name(name) if !is_found(lines, name) => {
                over(alloc, name, convert_dom(alloc, lines, false, bound, dom)?)
            }
            _ => Ok(None),
        },
        Gen::If(ex) => Ok(test(convert_ex(alloc, lines, false, bound, ex)?)),
        _ => Ok(None),
    }
}
