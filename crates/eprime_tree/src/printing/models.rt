ghost use Rattle.std.specs.Prelude.{◌≡◌, OnOk, IfOk, IsTrue};
ghost use Rattle.std.specs.List.{list_all};
ghost use Rattle.ess_grammar.specs.Tokens.{lexed, first_outside};
ghost use Rattle.ess_grammar.specs.Models.{is_readable_model};
ghost use Rattle.ess_grammar.specs.ModelTexts.{ReadsModel};
ghost use Rattle.eprime_tree.specs.Views.{pure_model};
ghost use Rattle.eprime_tree.specs.ModelText.{model_text, is_head_line};
ghost use Rattle.eprime_tree.specs.Printed.{PrintsDoms, PrintsAxes, PrintsDecl, PrintsDecls, PrintsGoal, PrintsRules, PrintsHead};

use super::expressions::print_ex;
use super::lists::print_dom;
use super::words::{print_comma, print_line};
use crate::{PDecl, PDom, PEx, PGoal, PModel};
use ess_rows::{NoMemory, Row, Text};
use std::alloc::Global;

/// The text of a model: the language line, the lines of its header behind `$ `, what is given and what is to be found, each in
/// order, the objective, and the constraints, each on a line of its own. `NoMemory` where there is no room for it.
///
/// The text is read as this model where some text is: where its names are tokens, each declared once, no number is below 0,
/// no range lacks both bounds, and each line of the header is one line. After the Conjure manual's chapter on its output.
pub fn print_model(alloc: Global, model: &PModel) -> Result<Vec<u8>, NoMemory>
    ensures text { IfOk result (λ text. text.items ≡ model_text model.now.head (pure_model model.now)) }
    // It is derived for exactly this model, with these lines of its header.
    ensures read { IfOk result (λ text. IsTrue (is_readable_model (pure_model model.now)) → IsTrue (list_all is_head_line model.now.head) →
        ReadsModel text.items model.now.head (pure_model model.now)) }
    // No word of it stands outside the subset.
    ensures inside { IfOk result (λ text. IsTrue (is_readable_model (pure_model model.now)) → IsTrue (list_all is_head_line model.now.head) →
        first_outside (lexed text.items) ≡ None) }
{
    let mut out = Text::new(alloc);
    out.push_str("language ESSENCE' 1.0\n")?;
    print_head(&mut out, &model.head)?;
    print_decls(&mut out, "given", &model.givens)?;
    print_decls(&mut out, "find", &model.finds)?;
    print_goal(&mut out, &model.goal)?;
    print_rules(&mut out, &model.rules)?;
    Ok(out.into_string().into_bytes())
}

/// Appends the lines of a header.
fn print_head(out: &mut Text, lines: &Row<Text>) -> Result<(), NoMemory>
    ensures { OnOk result (PrintsHead out.old out.new lines.now) }
{
    for line in lines.as_slice() {
        out.push_str("$ ")?;
        out.push_str(line.as_str())?;
        out.push_str("\n")?;
    }
    Ok(())
}

/// Appends declarations, each behind the word.
fn print_decls(out: &mut Text, word: &str, decls: &Row<PDecl>) -> Result<(), NoMemory>
    ensures { OnOk result (PrintsDecls out.old out.new word.now decls.now) }
{
    for decl in decls.as_slice() {
        print_decl(out, word, decl)?;
    }
    Ok(())
}

/// Appends a declaration behind the word.
fn print_decl(out: &mut Text, word: &str, decl: &PDecl) -> Result<(), NoMemory>
    ensures { OnOk result (PrintsDecl out.old out.new word.now decl.now) }
{
    out.push_str(word)?;
    out.push_str(" ")?;
    out.push_str(decl.name.as_str())?;
    out.push_str(" : ")?;
    print_axes(out, &decl.axes)?;
    print_dom(out, &decl.cell)?;
    out.push_str("\n")?;
    Ok(())
}

/// Appends what stands before the domain of cells with axes.
fn print_axes(out: &mut Text, axes: &Row<PDom>) -> Result<(), NoMemory>
    ensures { OnOk result (PrintsAxes out.old out.new axes.now) }
{
    if axes.is_empty() {
        return Ok(());
    }
    out.push_str("matrix indexed by [")?;
    print_doms(out, axes)?;
    out.push_str("] of ")?;
    Ok(())
}

/// Appends domains with commas between.
fn print_doms(out: &mut Text, doms: &Row<PDom>) -> Result<(), NoMemory>
    ensures { OnOk result (PrintsDoms out.old out.new doms.now) }
{
    for (index, dom) in doms.as_slice().iter().enumerate() {
        print_comma(out, index)?;
        print_dom(out, dom)?;
    }
    Ok(())
}

/// Appends an objective.
fn print_goal(out: &mut Text, goal: &PGoal) -> Result<(), NoMemory>
    ensures { OnOk result (PrintsGoal out.old out.new goal.now) }
{
    match goal {
        PGoal::Free => Ok(()),
        PGoal::Minimise(ex) => {
            out.push_str("minimising ")?;
            print_ex(out, ex)?;
            out.push_str("\n")?;
            Ok(())
        }
        PGoal::Maximise(ex) => {
            out.push_str("maximising ")?;
            print_ex(out, ex)?;
            out.push_str("\n")?;
            Ok(())
        }
    }
}

/// Appends constraints behind `such that`, each on a line of its own.
fn print_rules(out: &mut Text, rules: &Row<PEx>) -> Result<(), NoMemory>
    ensures { OnOk result (PrintsRules out.old out.new rules.now) }
{
    if rules.is_empty() {
        return Ok(());
    }
    out.push_str("such that")?;
    for (index, rule) in rules.as_slice().iter().enumerate() {
        print_line(out, index)?;
        print_ex(out, rule)?;
    }
    out.push_str("\n")?;
    Ok(())
}
