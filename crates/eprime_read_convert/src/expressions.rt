ghost use Rattle.std.specs.Prelude.{◌≡◌, IfOk, map, option_map};
ghost use Rattle.ess_semantics.specs.Lists.{each_of};
ghost use Rattle.ess_semantics.specs.Trees.{Op, plain_node};
ghost use Rattle.ess_grammar.specs.Grammar.{one_ex};
ghost use Rattle.ess_grammar.specs.Readable.{ReadableEx, ReadableExs};
ghost use Rattle.ess_core.specs.TreeViews.{pure_ex as read_ex, pure_exs as read_exs, pure_step as read_step, within};
ghost use Rattle.eprime_tree.specs.Views.{pure_ex};
ghost use Rattle.eprime_read_convert.specs.Lines.{scope_of};
ghost use Rattle.eprime_read_convert.specs.Converted.{model_ex, access, ReadableSteps};

use crate::lines::{Lines, may_stand};
use crate::lists::convert_list;
use crate::names::name_of;
use crate::nodes::{cell, converted_name, fold, lex, one, push_ex, two};
use crate::operators::{fold_word, infix, is_lex, prefix};
use crate::scopes::Scopes;
use eprime_tree::{PEx, POp1};
use ess_core::{Ex, Fun, Step};
use ess_rows::{Boxed, NoMemory, Row};
use std::alloc::Global;

/// Converts an expression that a text was read as, inside generators that bind the names `bound`, where these lines declare
/// names: a declared name, and an access to a table, becomes a cell. The answer is None where the expression with its cells
/// is none of a model's, as where it has an operator on sets, where a lex sign stands between two names, or where a find
/// stands in it and `finds` is false. `NoMemory` where there is no room for the copy.
#[cycle(convert)]
pub fn convert_ex(
    alloc: Global,
    lines: &Lines,
    finds: bool,
    bound: &Scopes,
    ex: &Ex,
) -> Result<Option<Boxed<PEx>>, NoMemory>
    requires { ReadableEx (read_ex ex.now) }
    ensures { IfOk result (λ o. option_map (pure_ex (scope_of lines.now)) o ≡ model_ex (scope_of lines.now) finds bound.now (read_ex ex.now)) }
{
    match ex {
        Ex::Num(number) => Ok(Some(Boxed::new(alloc, PEx::Num(*number))?)),
        Ex::Truth(truth) => Ok(Some(Boxed::new(alloc, PEx::Truth(*truth))?)),
        Ex::Name(name) => converted_name(alloc, lines, finds, bound, name),
        Ex::One(op, a) => one(
            alloc,
            prefix(*op),
            convert_ex(alloc, lines, finds, bound, a.get())?,
        ),
        Ex::Two(op, a, b) => match infix(*op) {
            None => Ok(None),
            Some(sign) if is_lex(*op) => {
                let left = convert_list(alloc, lines, finds, bound, a.get())?;
                let right = convert_list(alloc, lines, finds, bound, b.get())?;
                lex(alloc, sign, left, right)
            }
            Some(sign) => {
                let left = convert_ex(alloc, lines, finds, bound, a.get())?;
                let right = convert_ex(alloc, lines, finds, bound, b.get())?;
                two(alloc, sign, left, right)
            }
        },
        Ex::Call(_, fun, args) => convert_call(alloc, lines, finds, bound, *fun, args.as_slice()),
        Ex::At(_, table, steps) => convert_access(
            alloc,
            lines,
            finds,
            bound,
            steps.as_slice(),
            table.get(),
        ),
        _ => Ok(None),
    }
}

/// A function word with its operands.
#[cycle(convert)]
fn convert_call(
    alloc: Global,
    lines: &Lines,
    finds: bool,
    bound: &Scopes,
    fun: Fun,
    args: &[Ex],
) -> Result<Option<Boxed<PEx>>, NoMemory>
    requires { ReadableExs (read_exs args.now) }
    ensures { IfOk result (λ o. option_map (pure_ex (scope_of lines.now)) o ≡ model_ex (scope_of lines.now) finds bound.now (plain_node (Op.word fun) (read_exs args.now))) }
{
    if args.len() != 1 {
        return Ok(None);
    }
    convert_word(alloc, lines, finds, bound, fun, &args[0])
}

/// A function word over one operand.
#[cycle(convert)]
fn convert_word(
    alloc: Global,
    lines: &Lines,
    finds: bool,
    bound: &Scopes,
    fun: Fun,
    only: &Ex,
) -> Result<Option<Boxed<PEx>>, NoMemory>
    requires { ReadableEx (read_ex only.now) }
    ensures { IfOk result (λ o. option_map (pure_ex (scope_of lines.now)) o ≡ model_ex (scope_of lines.now) finds bound.now (plain_node (Op.word fun) (one_ex (read_ex only.now)))) }
{
    match fun {
        Fun::ToInt => one(
            alloc,
            POp1::ToInt,
            convert_ex(alloc, lines, finds, bound, only)?,
        ),
        _ => match fold_word(fun) {
            None => Ok(None),
            Some(word) => fold(alloc, word, convert_list(alloc, lines, finds, bound, only)?),
        },
    }
}

/// A table at its indices.
#[cycle(convert)]
fn convert_access(
    alloc: Global,
    lines: &Lines,
    finds: bool,
    bound: &Scopes,
    steps: &[Step],
    table: &Ex,
) -> Result<Option<Boxed<PEx>>, NoMemory>
    requires { ReadableEx (access (read_ex table.now) (map read_step steps.now)) }
    ensures { IfOk result (λ o. option_map (pure_ex (scope_of lines.now)) o ≡ model_ex (scope_of lines.now) finds bound.now (access (read_ex table.now) (map read_step steps.now))) }
{
    match name_of(table) {
        None => Ok(None),
        Some(name) => {
            if !may_stand(lines, finds, name) {
                return Ok(None);
            }
            let indices = convert_steps(alloc, lines, finds, bound, steps)?;
            cell(alloc, name, indices)
        }
    }
}

/// The values of steps.
#[cycle(convert)]
fn convert_steps(
    alloc: Global,
    lines: &Lines,
    finds: bool,
    bound: &Scopes,
    steps: &[Step],
) -> Result<Option<Row<PEx>>, NoMemory>
    requires { ReadableSteps (map read_step steps.now) }
    ensures { IfOk result (λ o. option_map (map (pure_ex (scope_of lines.now))) o ≡ each_of (within (map read_step steps.now)) (model_ex (scope_of lines.now) finds bound.now)) }
{
    let mut indices = Row::new(alloc);
    for step in steps {
        match step {
            Step::Value(ex) => match convert_ex(alloc, lines, finds, bound, ex)? {
                Some(index) => push_ex(&mut indices, index)?,
                None => return Ok(None),
            },
            _ => return Ok(None),
        }
    }
    Ok(Some(indices))
}
