ghost use Rattle.std.specs.Prelude.{◌≡◌, IfOk, true, map, option_map};
ghost use Rattle.ess_semantics.specs.Lists.{each_of};
ghost use Rattle.ess_grammar.specs.Models.{Scope};
ghost use Rattle.ess_grammar.specs.Readable.{ReadableDom, ReadableDoms};
ghost use Rattle.ess_core.specs.TreeViews.{pure_dom as read_dom, pure_doms as read_doms};
ghost use Rattle.eprime_tree.specs.Views.{pure_decl, pure_dom};
ghost use Rattle.eprime_read_convert.specs.Lines.{scope_of};
ghost use Rattle.eprime_read_convert.specs.Converted.{declared_table, model_dom, table_model, table_of_parts};

use crate::domains::convert_dom;
use crate::lines::{Lines, truth_of};
use crate::scopes::Scopes;
use eprime_tree::{PDecl, PDom};
use ess_core::Dom;
use ess_rows::{NoMemory, Row, Text};
use std::alloc::Global;

/// Converts the declaration of a name over a domain, where these lines declare names: the domain of a matrix has axes. The
/// answer is None where a line declares the name already, or where an axis or the cells have no domain of a model.
/// `NoMemory` where there is no room for the copy.
pub fn convert_decl(
    alloc: Global,
    lines: &Lines,
    name: &Text,
    dom: &Dom,
) -> Result<Option<PDecl>, NoMemory>
    requires { ReadableDom (read_dom dom.now) }
    ensures { IfOk result (λ o. option_map (pure_decl (scope_of lines.now)) o ≡ declared_table (scope_of lines.now) name.now (read_dom dom.now)) }
{
    match truth_of(lines, name) {
        Some(_) => Ok(None),
        None => new_decl(alloc, lines, name, dom),
    }
}

/// The same of a name that no line declares.
fn new_decl(alloc: Global, lines: &Lines, name: &Text, dom: &Dom) -> Result<Option<PDecl>, NoMemory>
    requires { ReadableDom (read_dom dom.now) }
    ensures { IfOk result (λ o. option_map (pure_decl (scope_of lines.now)) o ≡ table_model (scope_of lines.now) name.now (read_dom dom.now)) }
{
    let bound = Scopes::new(alloc);
    match dom {
        Dom::Matrix(axes, cell) => {
            let indices = convert_axes(alloc, lines, &bound, axes.as_slice())?;
            let item = convert_dom(alloc, lines, true, &bound, cell.get())?;
            table(alloc, name, indices, item)
        }
        _ => {
            let item = convert_dom(alloc, lines, true, &bound, dom)?;
            table(alloc, name, Some(Row::new(alloc)), item)
        }
    }
}

/// The domains of the axes, where all are those of a model.
fn convert_axes(
    alloc: Global,
    lines: &Lines,
    bound: &Scopes,
    axes: &[Dom],
) -> Result<Option<Row<PDom>>, NoMemory>
    requires { ReadableDoms (read_doms axes.now) }
    ensures { IfOk result (λ o. option_map (map (pure_dom (scope_of lines.now))) o ≡ each_of (map read_dom axes.now) (model_dom (scope_of lines.now) true bound.now)) }
{
    let mut doms = Row::new(alloc);
    for axis in axes {
        match convert_dom(alloc, lines, true, bound, axis)? {
            Some(dom) => doms.push(dom)?,
            None => return Ok(None),
        }
    }
    Ok(Some(doms))
}

/// A declared name of its parts, where these are there.
fn table(
    alloc: Global,
    name: &Text,
    axes: Option<Row<PDom>>,
    cell: Option<PDom>,
) -> Result<Option<PDecl>, NoMemory>
    ensures { IfOk result (λ o. (s : Scope) → option_map (pure_decl s) o ≡ table_of_parts name.now (option_map (map (pure_dom s)) axes) (option_map (pure_dom s) cell)) }
{
    match (axes, cell) {
        (Some(doms), Some(dom)) => Ok(Some(PDecl {
            name: name.copy(alloc)?,
            axes: doms,
            cell: dom,
        })),
        (_, _) => Ok(None),
    }
}
