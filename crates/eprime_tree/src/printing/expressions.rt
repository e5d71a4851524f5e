// Expressions of models as they are printed.
ghost use Rattle.std.specs.Prelude.{◌≡◌, OnOk};
ghost use Rattle.ess_grammar.specs.Models.{Scope};
ghost use Rattle.ess_print_laws.specs.Brackets.{is_operators, is_written_as_pattern};
ghost use Rattle.eprime_tree.specs.Printed.{read_ex, PrintsEx, PrintsOne, PrintsBracketed, PrintsList};

use super::lists::{print_exs, print_gens};
use super::words::{call_text, operator_text, truth_text};
use crate::{PEx, PList, POp1};
use ess_rows::{NoMemory, Text};

/// Whether the expression is an operator's, which stands in brackets as an operand.
fn is_operation(ex: &PEx) -> bool
    ensures { (s : Scope) → result ≡ is_operators (read_ex s ex.now) }
{
    match ex {
        PEx::Two(_, _, _) | PEx::Lex(_, _, _) => true,
        PEx::One(op, _) => matches!(op, POp1::Minus | POp1::Not),
        _ => false,
    }
}

/// Whether the expression is a name alone.
pub fn is_name(ex: &PEx) -> bool
    ensures { (s : Scope) → result ≡ is_written_as_pattern (read_ex s ex.now) }
{
    match ex {
        PEx::Name(_) => true,
        PEx::Cell(_, at) => at.is_empty(),
        _ => false,
    }
}

/// Appends an expression.
#[cycle(printing)]
pub fn print_ex(out: &mut Text, ex: &PEx) -> Result<(), NoMemory>
    ensures { OnOk result (PrintsEx out.old out.new ex.now) }
{
    match ex {
        PEx::Num(number) => {
            out.push_i64(*number)?;
            Ok(())
        }
        PEx::Truth(truth) => {
            out.push_str(truth_text(*truth))?;
            Ok(())
        }
        PEx::Name(name) => {
            out.push_str(name.as_str())?;
            Ok(())
        }
        PEx::Cell(name, at) => {
            out.push_str(name.as_str())?;
            if at.is_empty() {
                return Ok(());
            }
            out.push_str("[")?;
            print_exs(out, at)?;
            out.push_str("]")?;
            Ok(())
        }
        PEx::One(op, a) => {
            print_one(out, *op, a.get())?;
            Ok(())
        }
        PEx::Two(op, a, b) => {
            let (left, right) = (a.get(), b.get());
            print_bracketed(out, left, is_operation(left))?;
            out.push_str(operator_text(*op))?;
            print_bracketed(out, right, is_operation(right))?;
            Ok(())
        }
        PEx::Fold(word, list) => {
            out.push_str(call_text(*word))?;
            print_list(out, list)?;
            out.push_str(")")?;
            Ok(())
        }
        PEx::Lex(op, a, b) => {
            print_list(out, a)?;
            out.push_str(operator_text(*op))?;
            print_list(out, b)?;
            Ok(())
        }
    }
}

/// Appends an operator with its one operand.
#[cycle(printing)]
fn print_one(out: &mut Text, op: POp1, a: &PEx) -> Result<(), NoMemory>
    ensures { OnOk result (PrintsOne out.old out.new op a.now) }
{
    match op {
        POp1::Minus => {
            out.push_str("-")?;
            print_bracketed(out, a, is_operation(a))?;
            Ok(())
        }
        POp1::Not => {
            out.push_str("!")?;
            print_bracketed(out, a, is_operation(a))?;
            Ok(())
        }
        POp1::Bar => {
            out.push_str("|")?;
            print_ex(out, a)?;
            out.push_str("|")?;
            Ok(())
        }
        POp1::ToInt => {
            out.push_str("toInt(")?;
            print_ex(out, a)?;
            out.push_str(")")?;
            Ok(())
        }
    }
}

/// Appends an expression, in brackets where they are asked for.
#[cycle(printing)]
pub fn print_bracketed(out: &mut Text, ex: &PEx, brackets: bool) -> Result<(), NoMemory>
    ensures { OnOk result (PrintsBracketed out.old out.new brackets ex.now) }
{
    if brackets {
        out.push_str("(")?;
        print_ex(out, ex)?;
        out.push_str(")")?;
        return Ok(());
    }
    print_ex(out, ex)?;
    Ok(())
}

/// Appends a list.
#[cycle(printing)]
fn print_list(out: &mut Text, list: &PList) -> Result<(), NoMemory>
    ensures { OnOk result (PrintsList out.old out.new list.now) }
{
    match list {
        PList::Items(items) => {
            out.push_str("[")?;
            print_exs(out, items)?;
            out.push_str("]")?;
            Ok(())
        }
        PList::Comp(body, gens) => {
            out.push_str("[")?;
            print_ex(out, body.get())?;
            out.push_str(" | ")?;
            print_gens(out, gens)?;
            out.push_str("]")?;
            Ok(())
        }
    }
}
