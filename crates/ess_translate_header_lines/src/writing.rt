//! The lines of a header as they are written.
ghost use Rattle.std.specs.Prelude.{◌≡◌, ◌++◌, IfOk, OnOk, map};
ghost use Rattle.std.specs.List.{flat_map};
ghost use Rattle.ess_core.specs.TreeViews.{pure_repr};
ghost use Rattle.ess_core.specs.StatementViews.{pure_stm};
ghost use Rattle.ess_grammar.specs.HeaderTexts.{IsHeader};
ghost use Rattle.ess_print_laws.specs.Texts.{stm_text};
ghost use Rattle.ess_parse.specs.NamedReprViews.{pure_named_reprs};
ghost use Rattle.ess_translate_header_lines.specs.Views.{header_with};
ghost use Rattle.ess_translate_header_laws.specs.Headers.{StandsFirst};
ghost use Rattle.ess_translate_header_laws.specs.WrittenLines.{header_texts, ReadableHeader, AreShallow};
ghost use Rattle.ess_translate_header_laws.specs.WrittenLines.{reprs_line_text, reprs_line_texts, reprs_text, next_repr_text};

use ess_core::{NoMemory, Repr, Row, Stm, Text};
use ess_parse::NamedReprs;
use ess_print::{print_repr, print_stm};
use std::alloc::Global;

/// The lines of the header with these statements and representations, each without the `$ ` at its begin in a model: its
/// version, each statement as it is printed, each name with its representations, and the end. Where the header is one that can be
/// read, its lines are that header by the rules, and a reader finds it in them where none of them is nested too deeply. `NoMemory`
/// where there is no room for them.
#[tactic(auto, using(crate::proofs::Answered::written_header, crate::proofs::Answered::written_again))]
pub fn write_header_lines(
    alloc: Global,
    stms: &[Stm],
    reprs: &[NamedReprs],
) -> Result<Row<Text>, NoMemory>
    ensures lines { IfOk result (λ ls. ls ≡ header_texts (header_with stms.now reprs.now)) }
    ensures header { ReadableHeader (header_with stms.now reprs.now) → IfOk result (λ ls. IsHeader (header_with stms.now reprs.now) ls) }
    ensures found { ReadableHeader (header_with stms.now reprs.now) →
        IfOk result (λ ls. AreShallow ls → StandsFirst (header_with stms.now reprs.now) ls) }
{
    all_lines(alloc, stms, reprs)
}

/// All lines.
fn all_lines(alloc: Global, stms: &[Stm], reprs: &[NamedReprs]) -> Result<Row<Text>, NoMemory>
    ensures { IfOk result (λ ls. ls ≡ header_texts (header_with stms.now reprs.now)) }
{
    let mut lines = Row::new(alloc);
    lines.push(Text::from_str(alloc, "conjure-header 1")?)?;
    push_statements(alloc, &mut lines, stms)?;
    push_reprs(alloc, &mut lines, reprs)?;
    lines.push(Text::from_str(alloc, "end-header")?)?;
    Ok(lines)
}

/// Puts the lines of statements behind lines.
fn push_statements(alloc: Global, lines: &mut Row<Text>, stms: &[Stm]) -> Result<(), NoMemory>
    ensures { OnOk result (lines.new ≡ lines.old ++ map stm_text (map pure_stm stms.now)) }
{
    for stm in stms {
        lines.push(print_stm(alloc, stm)?)?;
    }
    Ok(())
}

/// Puts the lines of names with their representations behind lines.
fn push_reprs(alloc: Global, lines: &mut Row<Text>, reprs: &[NamedReprs]) -> Result<(), NoMemory>
    ensures { OnOk result (lines.new ≡ lines.old ++ reprs_line_texts (map pure_named_reprs reprs.now)) }
{
    for named in reprs {
        lines.push(reprs_line(alloc, named)?)?;
    }
    Ok(())
}

/// The line of a name with its representations.
fn reprs_line(alloc: Global, named: &NamedReprs) -> Result<Text, NoMemory>
    ensures { IfOk result (λ t. t ≡ reprs_line_text named.now.name (map pure_repr named.now.trees)) }
{
    let mut line = Text::from_str(alloc, "repr ")?;
    line.push_str(named.name.as_str())?;
    line.push_str(" ")?;
    push_trees(alloc, &mut line, named.trees.as_slice())?;
    Ok(line)
}

/// Puts representations with ` + ` between behind a text.
fn push_trees(alloc: Global, line: &mut Text, trees: &[Repr]) -> Result<(), NoMemory>
    ensures { OnOk result (line.new ≡ line.old ++ reprs_text (map pure_repr trees.now)) }
{
    match trees.split_first() {
        Some((first, rest)) => {
            line.push_str(print_repr(alloc, first)?.as_str())?;
            push_more_trees(alloc, line, rest)
        }
        None => Ok(()),
    }
}

/// Puts more representations behind the first one.
fn push_more_trees(alloc: Global, line: &mut Text, trees: &[Repr]) -> Result<(), NoMemory>
    ensures { OnOk result (line.new ≡ line.old ++ flat_map next_repr_text (map pure_repr trees.now)) }
{
    for tree in trees {
        line.push_str(" + ")?;
        line.push_str(print_repr(alloc, tree)?.as_str())?;
    }
    Ok(())
}
