ghost use Rattle.std.specs.Prelude.{◌≡◌, ◌++◌, IfOk, OnOk, map};
ghost use Rattle.ess_semantics.specs.Names.{look};
ghost use Rattle.ess_core.specs.TableViews.{pure_named_table};
ghost use Rattle.eprime_eval.specs.KnownTables.{cells_of, named_table, table_at, IsKnown};

use crate::known::{Known, NamedGrid};
use crate::names::same_name;
use crate::{NoMemory, Row};
use eprime_eval_scalars::grid_of;
use eprime_tree::{PDecl, Text};
use ess_core::NamedTable;
use std::alloc::Global;

/// Given tables and found ones, by the numbers of declarations, of what is given first. `NoMemory` where there is no room
/// for them.
#[tactic(auto, using(crate::proofs::KnownTables::all_known))]
pub(crate) fn known_of(
    alloc: Global,
    givens: &[PDecl],
    finds: &[PDecl],
    given: &[NamedTable],
    found: &[NamedTable],
) -> Result<Known, NoMemory>
    ensures known { IfOk result (λ k. IsKnown k) }
    ensures names { IfOk result (λ k. k.names ≡ map (λ d. d.name) (givens.now ++ finds.now)) }
    ensures cells { IfOk result (λ k. cells_of k ≡ map pure_named_table (given.now ++ found.now)) }
{
    let mut names = Row::new(alloc);
    add_names(alloc, givens, &mut names)?;
    add_names(alloc, finds, &mut names)?;
    let mut tables = Row::new(alloc);
    add_tables(alloc, given, &mut tables)?;
    add_tables(alloc, found, &mut tables)?;
    let places = places_of(alloc, names.as_slice(), tables.as_slice())?;
    Ok(Known {
        names,
        places,
        tables,
    })
}

/// Puts the names of declarations behind others. `NoMemory` where there is no room for them.
#[tactic(auto, using(crate::proofs::KnownTables::names_more))]
fn add_names(alloc: Global, decls: &[PDecl], names: &mut Row<Text>) -> Result<(), NoMemory>
    ensures { OnOk result (names.new ≡ names.old ++ map (λ d. d.name) decls.now) }
{
    for decl in decls {
        names.push(decl.name.copy(alloc)?)?;
    }
    Ok(())
}

/// Puts tables behind others. `NoMemory` where there is no room for them.
#[tactic(auto, using(crate::proofs::KnownTables::grids_more))]
fn add_tables(
    alloc: Global,
    tables: &[NamedTable],
    grids: &mut Row<NamedGrid>,
) -> Result<(), NoMemory>
    ensures { OnOk result (map named_table grids.new ≡ map named_table grids.old ++ map pure_named_table tables.now) }
{
    for table in tables {
        grids.push(named_grid(alloc, table)?)?;
    }
    Ok(())
}

/// The grid of a table, with its name. `NoMemory` where there is no room for it.
fn named_grid(alloc: Global, table: &NamedTable) -> Result<NamedGrid, NoMemory>
    ensures { IfOk result (λ g. named_table g ≡ pure_named_table table.now) }
{
    let name = table.name.copy(alloc)?;
    let grid = grid_of(
        alloc,
        table.table.axes.as_slice(),
        table.table.items.as_slice(),
    )?;
    Ok(NamedGrid { name, grid })
}

/// Where the table of each name stands. `NoMemory` where there is no room for that.
#[tactic(auto, using(std::proofs::lemmas::List::map_more, std::proofs::lemmas::List::map_push))]
fn places_of(
    alloc: Global,
    names: &[Text],
    tables: &[NamedGrid],
) -> Result<Row<Option<usize>>, NoMemory>
    ensures { IfOk result (λ r. map (table_at tables.now) r ≡ map (look (map named_table tables.now)) names.now) }
{
    let mut places = Row::with_capacity(alloc, names.len())?;
    for name in names {
        places.push(place_of(tables, name))?;
    }
    Ok(places)
}

/// Where the table of a name stands: the first that has it.
#[tactic(auto, using(crate::proofs::KnownTables::looks))]
fn place_of(tables: &[NamedGrid], name: &Text) -> Option<usize>
    ensures { table_at tables.now result ≡ look (map named_table tables.now) name.now }
{
    for (place, table) in tables.iter().enumerate() {
        if same_name(&table.name, name) {
            return Some(place);
        }
    }
    None
}
