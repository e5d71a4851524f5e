// Tables of models as texts of cells.
ghost use Rattle.std.specs.Prelude.{◌≡◌, ◌++◌, List, [], ◌∷◌, map, drop, pos, ◌+ℤ◌, IsTrue, IfOk, OnOk};
ghost use Rattle.std.specs.Ordering.{int_eq};
ghost use Rattle.ess_semantics.specs.Values.{number, of_list};
ghost use Rattle.ess_semantics.specs.Names.{Names};
ghost use Rattle.ess_semantics.specs.Meaning.{cell_value, is_bool_dom};
ghost use Rattle.ess_semantics.specs.Tables.{Table, volume};
ghost use Rattle.ess_semantics.specs.DeclaredTables.{TableDecl};
ghost use Rattle.ess_semantics.specs.Satisfaction.{tables_fit};
ghost use Rattle.ess_grammar.specs.Models.{Scope};
ghost use Rattle.ess_grammar.specs.ValueTexts.{value_text, runs_of, runs_text};
ghost use Rattle.ess_core.specs.TableViews.{pure_named_table, pure_cells};
ghost use Rattle.eprime_cells_laws.specs.CellsText.{table_value, no_names, cells_line, cells_lines, cells_text, list_end, run_break};
ghost use Rattle.eprime_cells_laws.specs.Laws.{are_printable_tables, ReadsAsTables};
ghost use Rattle.eprime_tree.specs.Views.{pure_dom, pure_decls};

use super::words::{print_comma, truth_text};
use crate::{PDecl, PDom};
use ess_core::{Cells, NamedTable};
use ess_rows::{NoMemory, Row, Text};
use std::alloc::Global;

/// The text of tables: the language line, and a letting of each table in order, over its own axes, with truth values in cells of
/// domain bool. Tables and declarations stand side by side. `NoMemory` where there is no room for it.
///
/// Where the tables are those that are declared, their names are different name tokens, and their axes rise and their numbers
/// lie in 64 bits, the text is read as these tables. After the Conjure manual's chapter on its output.
pub fn print_cells(alloc: Global, cells: &Cells, decls: &Row<PDecl>) -> Result<Vec<u8>, NoMemory>
    ensures text { (add : Scope → TableDecl → Scope) (s : Scope) →
        IfOk result (λ text. text.items ≡ cells_text (pure_decls add s decls.now) (pure_cells cells.now)) }
    // What the text stands for under declarations and tables by which the given tables fit is these tables, whatever they are.
    ensures read { (add : Scope → TableDecl → Scope) (s : Scope) (known : List TableDecl) (q : Names Table) →
        IsTrue (tables_fit known q (pure_decls add s decls.now) (pure_cells cells.now)) →
        IsTrue (are_printable_tables (pure_cells cells.now)) →
        IfOk result (λ text. ReadsAsTables text.items known q (pure_decls add s decls.now) (pure_cells cells.now)) }
{
    let mut out = Text::new(alloc);
    out.push_str("language ESSENCE' 1.0\n")?;
    print_tables(&mut out, cells.list.as_slice(), decls.as_slice())?;
    Ok(out.into_string().into_bytes())
}

/// Appends the lettings of tables, each with its declaration.
fn print_tables(out: &mut Text, tables: &[NamedTable], decls: &[PDecl]) -> Result<(), NoMemory>
    ensures { OnOk result ((add : Scope → TableDecl → Scope) (s : Scope) →
        out.new ≡ out.old ++ cells_lines (pure_decls add s decls.now) (map pure_named_table tables.now)) }
{
    for (named, decl) in tables.iter().zip(decls) {
        print_letting(out, named, has_truths(&decl.cell))?;
    }
    Ok(())
}

/// Whether cells of this domain are truth values.
fn has_truths(cell: &PDom) -> bool
    ensures { (s : Scope) → result ≡ is_bool_dom (pure_dom s cell.now) }
{
    matches!(cell, PDom::Bool)
}

/// Appends the letting of a table.
fn print_letting(out: &mut Text, named: &NamedTable, truths: bool) -> Result<(), NoMemory>
    ensures { OnOk result (out.new ≡ out.old ++ cells_line truths (pure_named_table named.now)) }
{
    out.push_str("letting ")?;
    out.push_str(named.name.as_str())?;
    out.push_str(" be ")?;
    print_value(
        out,
        named.table.axes.as_slice(),
        named.table.items.as_slice(),
        truths,
    )?;
    out.push_str("\n")?;
    Ok(())
}

/// Appends the value over axes that the first items are, and answers the items behind them.
#[cycle(values)]
fn print_value<'a>(
    out: &mut Text,
    axes: &[Row<i64>],
    items: &'a [i64],
    truths: bool,
) -> Result<&'a [i64], NoMemory>
    ensures text { OnOk result (out.new ≡ out.old ++ value_text no_names (table_value truths axes.now items.now)) }
    ensures rest { IfOk result (λ rest. rest.now ≡ drop (volume axes.now) items.now) }
{
    match axes.split_first() {
        Some((axis, inner)) => print_list(out, axis.as_slice(), inner, items, truths),
        None => print_first(out, items, truths),
    }
}

/// Appends a list over an axis, of one value for each member, and answers the items behind them.
#[cycle(values)]
fn print_list<'a>(
    out: &mut Text,
    axis: &[i64],
    inner: &[Row<i64>],
    items: &'a [i64],
    truths: bool,
) -> Result<&'a [i64], NoMemory>
    ensures text { OnOk result (out.new ≡ out.old ++ value_text no_names (table_value truths (axis.now ∷ inner.now) items.now)) }
    ensures rest { IfOk result (λ rest. rest.now ≡ drop (volume (axis.now ∷ inner.now)) items.now) }
{
    out.push_str("[")?;
    let mut rest = items;
    for (at, _) in axis.iter().enumerate() {
        print_comma(out, at)?;
        rest = print_value(out, inner, rest, truths)?;
    }
    print_index(out, axis)?;
    Ok(rest)
}

/// Appends the first item, and answers the others. Where there is none it counts as 0.
fn print_first<'a>(out: &mut Text, items: &'a [i64], truths: bool) -> Result<&'a [i64], NoMemory>
    ensures text { OnOk result (out.new ≡ out.old ++ value_text no_names (table_value truths [] items.now)) }
    ensures rest { IfOk result (λ rest. rest.now ≡ drop 1 items.now) }
{
    match items.split_first() {
        Some((item, rest)) => {
            print_item(out, *item, truths)?;
            Ok(rest)
        }
        None => {
            print_item(out, 0, truths)?;
            Ok(items)
        }
    }
}

/// Appends an item.
fn print_item(out: &mut Text, item: i64, truths: bool) -> Result<(), NoMemory>
    ensures { OnOk result (out.new ≡ out.old ++ value_text no_names (cell_value truths item)) }
{
    if truths {
        out.push_str(truth_text(item == 1))?;
        return Ok(());
    }
    out.push_i64(item)?;
    Ok(())
}

/// Appends the end of a list: its index domain where it has items, and the bracket.
fn print_index(out: &mut Text, axis: &[i64]) -> Result<(), NoMemory>
    ensures { OnOk result (out.new ≡ out.old ++ list_end axis.now) }
{
    match axis.split_first() {
        Some((first, others)) => {
            out.push_str("; int(")?;
            print_runs(out, *first, others)?;
            out.push_str(")]")?;
            Ok(())
        }
        None => {
            out.push_str("]")?;
            Ok(())
        }
    }
}

/// Appends the maximal runs of rising numbers with commas between.
fn print_runs(out: &mut Text, first: i64, others: &[i64]) -> Result<(), NoMemory>
    ensures { OnOk result (out.new ≡ out.old ++ runs_text (runs_of (of_list (map number (first ∷ others.now))))) }
{
    out.push_i64(first)?;
    out.push_str("..")?;
    let mut last = first;
    for next in others {
        if !goes_on(last, *next) {
            print_break(out, last, *next)?;
        }
        last = *next;
    }
    out.push_i64(last)?;
    Ok(())
}

/// Appends the end of a run and the begin of the next one.
fn print_break(out: &mut Text, last: i64, next: i64) -> Result<(), NoMemory>
    ensures { OnOk result (out.new ≡ out.old ++ run_break last next) }
{
    out.push_i64(last)?;
    out.push_str(", ")?;
    out.push_i64(next)?;
    out.push_str("..")?;
    Ok(())
}

/// Whether a number stands directly above another one.
fn goes_on(last: i64, next: i64) -> bool
    ensures { result ≡ int_eq (last +ℤ pos 1) next }
{
    last < next && last + 1 == next
}
