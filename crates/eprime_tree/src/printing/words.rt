// The texts of words and operators.
ghost use Rattle.std.specs.Prelude.{◌≡◌, OnOk, ◌++◌};
ghost use Rattle.ess_print_laws.specs.Pieces.{piece_text};
ghost use Rattle.ess_print_laws.specs.Parts.{truth_piece};
ghost use Rattle.eprime_tree.specs.Views.{pure_op2, pure_fun};
ghost use Rattle.ess_print_laws.specs.Parts.{comma_before};
ghost use Rattle.eprime_tree.specs.Printed.{line_before, spaced_operator, opened_call};

use crate::{PFun, POp2};
use ess_rows::{NoMemory, Text};

/// A truth value as it is written.
pub fn truth_text(truth: bool) -> &'static str
    ensures { result.now ≡ piece_text (truth_piece truth) }
{
    if truth { "true" } else { "false" }
}

/// An operator between its spaces.
pub fn operator_text(op: POp2) -> &'static str
    ensures { result.now ≡ spaced_operator (pure_op2 op) }
{
    match op {
        POp2::Pow => " ** ",
        POp2::Times => " * ",
        POp2::Div => " / ",
        POp2::Mod => " % ",
        POp2::Plus => " + ",
        POp2::Minus => " - ",
        POp2::Eq => " = ",
        POp2::Ne => " != ",
        POp2::Lt => " < ",
        POp2::Le => " <= ",
        POp2::Gt => " > ",
        POp2::Ge => " >= ",
        POp2::LexLt => " <lex ",
        POp2::LexLe => " <=lex ",
        POp2::LexGt => " >lex ",
        POp2::LexGe => " >=lex ",
        POp2::And => " /\\ ",
        POp2::Or => " \\/ ",
        POp2::Implies => " -> ",
        POp2::Iff => " <-> ",
    }
}

/// A word over a list, with the bracket behind it.
pub fn call_text(word: PFun) -> &'static str
    ensures { result.now ≡ opened_call (pure_fun word) }
{
    match word {
        PFun::And => "and(",
        PFun::Or => "or(",
        PFun::Sum => "sum(",
        PFun::Product => "product(",
        PFun::Min => "min(",
        PFun::Max => "max(",
        PFun::AllDiff => "allDiff(",
    }
}

/// Appends what stands before the item at an index of a list.
pub fn print_comma(out: &mut Text, index: usize) -> Result<(), NoMemory>
    ensures { OnOk result (out.new ≡ out.old ++ comma_before index) }
{
    if index == 0 {
        return Ok(());
    }
    out.push_str(", ")?;
    Ok(())
}

/// Appends what stands before the constraint at an index.
pub fn print_line(out: &mut Text, index: usize) -> Result<(), NoMemory>
    ensures { OnOk result (out.new ≡ out.old ++ line_before index) }
{
    if index == 0 {
        out.push_str("\n    ")?;
        return Ok(());
    }
    out.push_str(",\n    ")?;
    Ok(())
}
