ghost use Rattle.std.specs.Prelude.{◌≡◌, Ok, Some, IfOk};
ghost use Rattle.eprime_cells_laws.specs.TableReading.{items_over};
ghost use Rattle.std.specs.List.{list_all};
ghost use Rattle.ess_semantics.specs.Tables.{is_cell};
ghost use Rattle.ess_semantics.specs.Meaning.{is_bool_dom};
ghost use Rattle.ess_grammar.specs.Models.{Scope};
ghost use Rattle.eprime_tree.specs.Views.{pure_dom};
ghost use Rattle.eprime_eval.specs.ClosedDomains.{pure_closed};
ghost use Rattle.eprime_cells_machine.specs.ValueViews.{pure_value};
ghost use Rattle.eprime_cells_judging.specs.declared.tables.JudgeNo.{JudgeNo};
ghost use Rattle.eprime_cells_judging.specs.TablesJudged.{AreAxes, AreInside, IsTable, IsInside};

use crate::items::put_items;
use eprime_cells_machine::CellValue;
use eprime_eval::{Closed, EvalNo, axis, closed};
use eprime_tree::{PDecl, PDom};
use ess_core::{Cells, Table};
use ess_rows::{NoMemory, Row};
use std::alloc::Global;

/// Why it isn't said what a value stands for.
#[derive(Clone, Copy, Debug, PartialEq, Eq)]
pub(crate) enum JudgeNo {
    /// A number on the way to a declared domain lies outside 64 bits.
    Big,
    /// There was no room in memory.
    NoMemory,
}

impl From<NoMemory> for JudgeNo {
    ghost from_gives = { λ _ why. why ≡ JudgeNo.NoMemory };

    fn from(_: NoMemory) -> JudgeNo {
        JudgeNo::NoMemory
    }
}

/// The table over a declaration that a value stands for, where it does: the axes and the domain of cells are those under the
/// given tables, which `known` declares. None also where an axis or the domain of cells has no meaning. `Big` only where a
/// number on the way to such a domain lies outside 64 bits, `NoMemory` for want of memory.
pub(crate) fn table_of(
    alloc: Global,
    decl: &PDecl,
    value: &CellValue,
    known: &Row<PDecl>,
    givens: &Cells,
) -> Result<Option<Table>, JudgeNo>
    ensures { IsTable known.now givens.now decl.now (pure_value value.now) result }
{
    let found = match axes_of(alloc, decl.axes.as_slice(), known, givens) {
        Ok(found) => found,
        Err(why) => return Err(why),
    };
    match found {
        Some(axes) => over_axes(alloc, decl, axes, value, known, givens),
        None => Ok(None),
    }
}

/// The table over these axes, which are those of the declaration.
fn over_axes(
    alloc: Global,
    decl: &PDecl,
    axes: Row<Row<i64>>,
    value: &CellValue,
    known: &Row<PDecl>,
    givens: &Cells,
) -> Result<Option<Table>, JudgeNo>
    ensures { AreAxes known.now givens.now decl.now.axes (Ok (Some axes)) → IsTable known.now givens.now decl.now (pure_value value.now) result }
{
    match items_of(alloc, &axes, is_bool(&decl.cell), value)? {
        Some(items) => inside_cells(alloc, decl, Table { axes, items }, known, givens),
        None => Ok(None),
    }
}

/// The items of a value over axes, if it stands for a table over them.
#[tactic(auto, using(crate::proofs::TableAnswers::puts_all, crate::proofs::TableAnswers::puts_none))]
fn items_of(
    alloc: Global,
    axes: &Row<Row<i64>>,
    truths: bool,
    value: &CellValue,
) -> Result<Option<Row<i64>>, NoMemory>
    ensures { IfOk result (λ o. items_over axes.now truths (pure_value value.now) ≡ o) }
{
    let mut items = Row::new(alloc);
    if put_items(alloc, axes.as_slice(), truths, value, &mut items)? {
        Ok(Some(items))
    } else {
        Ok(None)
    }
}

/// The table, if its items are in the domain of cells of the declaration.
fn inside_cells(
    alloc: Global,
    decl: &PDecl,
    table: Table,
    known: &Row<PDecl>,
    givens: &Cells,
) -> Result<Option<Table>, JudgeNo>
    ensures { IsInside known.now givens.now decl.now.cell table result }
{
    match are_inside(alloc, &decl.cell, table.items.as_slice(), known, givens) {
        Ok(true) => Ok(Some(table)),
        Ok(false) => {
            drop(table);
            Ok(None)
        }
        Err(why) => {
            drop(table);
            Err(why)
        }
    }
}

/// Whether the domain is that of truth values.
fn is_bool(dom: &PDom) -> bool
    ensures { (s : Scope) → result ≡ is_bool_dom (pure_dom s dom.now) }
{
    matches!(dom, PDom::Bool)
}

/// The members of axes, where each has a meaning.
fn axes_of(
    alloc: Global,
    doms: &[PDom],
    known: &Row<PDecl>,
    givens: &Cells,
) -> Result<Option<Row<Row<i64>>>, JudgeNo>
    ensures { AreAxes known.now givens.now doms.now result }
{
    let mut axes = Row::new(alloc);
    for dom in doms {
        match axis(alloc, dom, known, givens) {
            Ok(members) => axes.push(members)?,
            Err(EvalNo::Undefined) => return Ok(None),
            Err(EvalNo::Big) => return Err(JudgeNo::Big),
            Err(_) => return Err(JudgeNo::NoMemory),
        }
    }
    Ok(Some(axes))
}

/// Whether items are in a domain of cells.
fn are_inside(
    alloc: Global,
    dom: &PDom,
    items: &[i64],
    known: &Row<PDecl>,
    givens: &Cells,
) -> Result<bool, JudgeNo>
    ensures { AreInside known.now givens.now dom.now items.now result }
{
    match closed(alloc, dom, known, givens) {
        Ok(domain) => {
            let inside = all_in(&domain, items);
            drop(domain);
            Ok(inside)
        }
        Err(EvalNo::Undefined) => Ok(false),
        Err(EvalNo::Big) => Err(JudgeNo::Big),
        Err(_) => Err(JudgeNo::NoMemory),
    }
}

/// Whether each item is in a domain.
fn all_in(domain: &Closed, items: &[i64]) -> bool
    ensures { result ≡ list_all (is_cell (pure_closed domain.now)) items.now }
{
    items.iter().all(|item| domain.holds(*item))
}
