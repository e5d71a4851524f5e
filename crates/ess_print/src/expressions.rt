ghost use Rattle.std.specs.Prelude.{OnOk};
ghost use Rattle.ess_core.specs.TreeViews.{pure_ex, pure_exs};
ghost use Rattle.ess_print_laws.specs.Parts.{commas, bracketed};
ghost use Rattle.ess_print_laws.specs.Expressions.{ex_pieces, operands, wholes};
ghost use Rattle.ess_print.specs.Written.{Puts, PutsBetween, operand_of, one_pieces, call_pieces, steps_pieces, axis_pieces};

use crate::brackets::{is_first_in_brackets, is_operation, would_begin_quantifier};
use crate::collections::{put_function, put_record, put_tuple};
use crate::domains::put_dom;
use crate::generators::put_gens;
use crate::parts::put_comma;
use crate::words::{operator_between, truth_text, word_text};
use ess_core::{Boxed, Dom, Ex, Fun, NoMemory, Op1, Step, Text};

/// Writes an expression. A view, which no text has, is written as nothing.
#[cycle(put)]
pub(crate) fn put_ex(out: &mut Text, ex: &Ex) -> Result<(), NoMemory>
    ensures { OnOk result (Puts out.old out.new (ex_pieces (pure_ex ex.now))) }
{
    match ex {
        Ex::Num(number) => out.push_i64(*number),
        Ex::Truth(truth) => out.push_str(truth_text(*truth)),
        Ex::Name(name) => out.push_str(name.as_str()),
        Ex::One(op, a) => put_one(out, *op, a.get()),
        Ex::Two(op, a, b) => {
            put_operand(out, a.get())?;
            out.push_str(operator_between(*op))?;
            put_operand(out, b.get())
        }
        Ex::Call(_, fun, args) => put_call(out, *fun, args.as_slice()),
        Ex::At(_, a, steps) => {
            put_operand(out, a.get())?;
            put_steps(out, steps.as_slice())
        }
        Ex::Apply(_, f, args) => {
            put_operand(out, f.get())?;
            put_between(out, "(", args.as_slice(), ")")
        }
        Ex::Tuple(items) => put_tuple(out, items.as_slice()),
        Ex::Rec(fields) => put_record(out, fields.as_slice()),
        Ex::Set(members) => put_between(out, "{", members.as_slice(), "}"),
        Ex::MSet(members) => put_between(out, "mset(", members.as_slice(), ")"),
        Ex::Function(pairs) => put_function(out, pairs.as_slice()),
        Ex::Relation(tuples) => put_between(out, "relation(", tuples.as_slice(), ")"),
        Ex::Partition(parts) => put_between(out, "partition(", parts.as_slice(), ")"),
        Ex::Matrix(items, axis) => {
            out.push_str("[")?;
            put_exs(out, items.as_slice())?;
            put_axis(out, axis)
        }
        Ex::Comp(body, gens) => {
            out.push_str("[")?;
            put_ex(out, body.get())?;
            out.push_str(" | ")?;
            put_gens(out, gens.as_slice())?;
            out.push_str("]")
        }
        Ex::Cell(_, name, at) => {
            out.push_str(name.as_str())?;
            if at.is_empty() {
                return Ok(());
            }
            put_between(out, "[", at.as_slice(), "]")
        }
        Ex::Seen(_) => Ok(()),
    }
}

/// Writes an operand of an operator: in brackets where it is itself an operator's expression.
#[cycle(put)]
fn put_operand(out: &mut Text, ex: &Ex) -> Result<(), NoMemory>
    ensures { OnOk result (Puts out.old out.new (operand_of (pure_ex ex.now))) }
{
    put_bracketed(out, is_operation(ex), ex)
}

/// Writes an expression, in round brackets where `brackets` says so.
#[cycle(put)]
pub(crate) fn put_bracketed(out: &mut Text, brackets: bool, ex: &Ex) -> Result<(), NoMemory>
    ensures { OnOk result (Puts out.old out.new (bracketed brackets (ex_pieces (pure_ex ex.now)))) }
{
    if !brackets {
        return put_ex(out, ex);
    }
    out.push_str("(")?;
    put_ex(out, ex)?;
    out.push_str(")")
}

/// Writes a prefix operator before its operand, or bars round it.
#[cycle(put)]
fn put_one(out: &mut Text, op: Op1, a: &Ex) -> Result<(), NoMemory>
    ensures { OnOk result (Puts out.old out.new (one_pieces op (pure_ex a.now))) }
{
    match op {
        Op1::Minus => {
            out.push_str("-")?;
            put_operand(out, a)
        }
        Op1::Not => {
            out.push_str("!")?;
            put_operand(out, a)
        }
        Op1::Bar => {
            out.push_str("|")?;
            put_ex(out, a)?;
            out.push_str("|")
        }
    }
}

/// Writes a function word with its operands.
#[cycle(put)]
fn put_call(out: &mut Text, fun: Fun, args: &[Ex]) -> Result<(), NoMemory>
    ensures { OnOk result (Puts out.old out.new (call_pieces fun (pure_exs args.now))) }
{
    let brackets = would_begin_quantifier(fun, args);
    out.push_str(word_text(fun))?;
    out.push_str("(")?;
    for (index, arg) in args.iter().enumerate() {
        put_comma(out, index)?;
        put_bracketed(out, is_first_in_brackets(brackets, index), arg)?;
    }
    out.push_str(")")
}

/// Writes the steps of an index in square brackets. Only those by a value have a text.
#[cycle(put)]
fn put_steps(out: &mut Text, steps: &[Step]) -> Result<(), NoMemory>
    ensures { OnOk result (Puts out.old out.new (steps_pieces steps.now)) }
{
    let mut count = 0;
    out.push_str("[")?;
    for step in steps {
        match step {
            Step::Value(ex) => {
                put_comma(out, count)?;
                put_ex(out, ex)?;
                count += 1;
            }
            Step::Component(_) => {}
            Step::Field(_) => {}
        }
    }
    out.push_str("]")
}

/// Writes expressions with commas between, and a text before and behind them.
#[cycle(put)]
pub(crate) fn put_between(
    out: &mut Text,
    before: &str,
    exs: &[Ex],
    behind: &str,
) -> Result<(), NoMemory>
    ensures { OnOk result (PutsBetween out.old before.now (commas (wholes (operands (pure_exs exs.now)))) behind.now out.new) }
{
    out.push_str(before)?;
    put_exs(out, exs)?;
    out.push_str(behind)
}

/// Writes expressions with commas between.
#[cycle(put)]
fn put_exs(out: &mut Text, exs: &[Ex]) -> Result<(), NoMemory>
    ensures { OnOk result (Puts out.old out.new (commas (wholes (operands (pure_exs exs.now))))) }
{
    for (index, ex) in exs.iter().enumerate() {
        put_comma(out, index)?;
        put_ex(out, ex)?;
    }
    Ok(())
}

/// Writes the end of a matrix: its index domain, where it has one, and the bracket.
#[cycle(put)]
fn put_axis(out: &mut Text, axis: &Option<Boxed<Dom>>) -> Result<(), NoMemory>
    ensures { OnOk result (Puts out.old out.new (axis_pieces axis.now)) }
{
    match axis {
        None => out.push_str("]"),
        Some(dom) => {
            out.push_str("; ")?;
            put_dom(out, dom.get())?;
            out.push_str("]")
        }
    }
}
