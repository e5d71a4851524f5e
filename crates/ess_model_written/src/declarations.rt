//! What is written for declared tables, one after the other: each declares its name for those behind it.
ghost use Rattle.std.specs.Prelude.{◌≡◌, IfOk, map, option_map};
ghost use Rattle.ess_semantics.specs.Meaning.{is_bool_dom};
ghost use Rattle.ess_grammar.specs.Models.{Scope};
ghost use Rattle.ess_declared_trees.specs.TableViews.{pure_declared};
ghost use Rattle.eprime_tree.specs.Views.{pure_decl, pure_dom};
ghost use Rattle.eprime_read_convert.specs.Lines.{scope_of};
ghost use Rattle.ess_model_written.specs.DeclarationsWritten.{DeclComes, adding};
ghost use Rattle.ess_model_written.specs.Coming.{DeclsCome};

use crate::domains::{dom_written, doms_written};
use eprime_read_convert::{Line, Lines};
use eprime_tree::{PDecl, PDom};
use ess_declared_trees::Declared;
use ess_model_printed::Taken;
use ess_model_shown::Shows;
use ess_rows::{NoMemory, Row};
use std::alloc::Global;

/// The declaration of a model that is written for a declared table, where these stand over tables in the place of names, and these
/// lines declare names; no bound name is printed as one that is taken. Each bound of a domain is refined. `None` where nothing is
/// written for it: its axes and cells aren't all of truth values or numbers, refining a bound was given up, as `tree_printed` says, or
/// no tree of a model stands for what is left of one. `NoMemory` where there is no room for it, or the reserved names can't be counted.
pub fn decl_written(
    alloc: Global,
    shows: &Shows,
    taken: &Taken,
    lines: &Lines,
    table: &Declared,
) -> Result<Option<PDecl>, NoMemory>
    ensures { IfOk result (λ o. DeclComes (scope_of lines.now) taken.now shows.now.next (pure_declared table.now)
        (option_map (pure_decl (scope_of lines.now)) o)) }
{
    let name = table.name.copy(alloc)?;
    match doms_written(alloc, shows.next, taken, lines, table.axes.as_slice())? {
        Some(axes) => {
            match dom_written(alloc, shows.next, taken, lines, table.cell.get())? {
                Some(cell) => Ok(Some(PDecl { name, axes, cell })),
                None => Ok(None),
            }
        }
        None => Ok(None),
    }
}

/// What is written for declared tables that are found or not, one after the other: each declares its name for those behind it. The
/// lines with theirs come with it. `None` where nothing is written for one of them; `NoMemory` as above.
#[tactic(auto, using(crate::proofs::DeclarationSteps::declaration_steps))]
pub fn decls_written(
    alloc: Global,
    shows: &Shows,
    taken: &Taken,
    lines: Lines,
    tables: &[Declared],
    found: bool,
) -> Result<Option<(Row<PDecl>, Lines)>, NoMemory>
    ensures { IfOk result (λ o. DeclsCome (adding found) taken.now shows.now.next (scope_of lines) (map pure_declared tables.now) o) }
{
    let mut lines = lines;
    let mut written = Row::with_capacity(alloc, tables.len())?;
    for table in tables {
        match decl_written(alloc, shows, taken, &lines, table)? {
            Some(declaration) => {
                let line = line_of(alloc, &declaration, found)?;
                written.push(declaration)?;
                lines = lines.with(alloc, line)?;
            }
            None => return Ok(None),
        }
    }
    Ok(Some((written, lines)))
}

/// What a declaration declares for the lines behind it.
fn line_of(alloc: Global, declaration: &PDecl, found: bool) -> Result<Line, NoMemory>
    ensures name { IfOk result (λ l. l.name ≡ declaration.now.name) }
    ensures truth { IfOk result (λ l. (s : Scope) → l.truth ≡ is_bool_dom (pure_dom s declaration.now.cell)) }
    ensures found { IfOk result (λ l. l.found ≡ found) }
{
    let truth = are_truths(&declaration.cell);
    let name = declaration.name.copy(alloc)?;
    Ok(Line { name, truth, found })
}

/// Whether a domain is `bool`.
fn are_truths(dom: &PDom) -> bool
    ensures { (s : Scope) → result ≡ is_bool_dom (pure_dom s dom.now) }
{
    match dom {
        PDom::Bool => true,
        PDom::Int(_) => false,
    }
}
