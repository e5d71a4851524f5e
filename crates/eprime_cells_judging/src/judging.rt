ghost use Rattle.std.specs.Prelude.{◌≡◌, IfOk};
ghost use Rattle.ess_semantics.specs.Names.{keys};
ghost use Rattle.eprime_cells_machine.specs.ValueViews.{pure_lettings};
ghost use Rattle.eprime_cells_parts.specs.DeclaredNames.{declared_names, HasPlaces};
ghost use Rattle.eprime_cells_judging.specs.declared.judging.FitNo.{FitNo};
ghost use Rattle.eprime_cells_judging.specs.Fitting.{judged_no, names_no, IsTableOf, AreTables, IsFit};

use crate::tables::{JudgeNo, table_of};
use eprime_cells_machine::CellLetting;
use eprime_cells_parts::{first_extra, first_missing, names_of, places_of, value_of};
use eprime_tree::PDecl;
use ess_core::{Cells, NamedTable, Table};
use ess_rows::{NoMemory, Row, Text};
use std::alloc::Global;
use std::collections::BTreeMap;

/// Why lettings aren't tables over declarations. Of several reasons the first in this order is given, but for `NoMemory`, which
/// may come at any point.
#[derive(Debug, Drop, PartialEq)]
pub enum FitNo {
    /// No letting has this declared name, which is the first such.
    Missing(Text),
    /// A letting has this name, which isn't declared or which an earlier letting has. It is the first such letting.
    Extra(Text),
    /// The value of this name stands for no table over its declaration. It is the first such name in order of declaration.
    OutOfDomain(Text),
    /// A number on the way to a declared domain lies outside 64 bits.
    Big,
    /// There was no room in memory.
    NoMemory,
}

impl From<NoMemory> for FitNo {
    ghost from_gives = { λ _ why. why ≡ FitNo.NoMemory };

    fn from(_: NoMemory) -> FitNo {
        FitNo::NoMemory
    }
}

/// The tables that lettings are over declarations, in order of declaration, where the domains of the declarations are those
/// under the given tables, which `known` declares.
///
/// `Missing` comes exactly where a declared name has no letting, else `Extra` exactly where a letting has a name that isn't
/// declared or that an earlier letting has, else `OutOfDomain` exactly where a value has another shape than the declared axes or
/// an item outside its domain. `Big` comes only where a number on the way to a declared domain lies outside 64 bits,
/// `NoMemory` for want of memory.
pub fn fit(
    alloc: Global,
    lettings: &Row<CellLetting>,
    decls: &Row<PDecl>,
    known: &Row<PDecl>,
    givens: &Cells,
) -> Result<Cells, FitNo>
    ensures { IsFit known.now givens.now decls.now (pure_lettings lettings.now) result }
{
    fit_over(alloc, lettings.as_slice(), decls.as_slice(), known, givens)
}

/// The tables that lettings are over declarations, in order of declaration.
fn fit_over(
    alloc: Global,
    lettings: &[CellLetting],
    decls: &[PDecl],
    known: &Row<PDecl>,
    givens: &Cells,
) -> Result<Cells, FitNo>
    ensures { IsFit known.now givens.now decls.now (pure_lettings lettings.now) result }
{
    let places = places_of(alloc, lettings)?;
    match first_name(alloc, lettings, &places, decls)? {
        Some(no) => Err(no),
        None => tables(alloc, lettings, &places, decls, known, givens),
    }
}

/// The first name that is missing, or else the first one too many, as a refusal. `NoMemory` where there is no room for the names.
#[tactic(auto, using(crate::proofs::TableAnswers::named_missing, crate::proofs::TableAnswers::named_extra, crate::proofs::TableAnswers::named_none))]
fn first_name(
    alloc: Global,
    lettings: &[CellLetting],
    places: &BTreeMap<Text, usize>,
    decls: &[PDecl],
) -> Result<Option<FitNo>, NoMemory>
    requires { HasPlaces (keys (pure_lettings lettings.now)) places.now }
    ensures { IfOk result (λ no. names_no (declared_names decls.now) (keys (pure_lettings lettings.now)) ≡ no) }
{
    if let Some(name) = first_missing(decls, lettings, places) {
        return Ok(Some(FitNo::Missing(name.copy(alloc)?)));
    }
    let declared = names_of(alloc, decls)?;
    match first_extra(&declared, lettings, places) {
        Some(name) => Ok(Some(FitNo::Extra(name.copy(alloc)?))),
        None => Ok(None),
    }
}

/// The tables in order of declaration. The places are those of the lettings.
fn tables(
    alloc: Global,
    lettings: &[CellLetting],
    places: &BTreeMap<Text, usize>,
    decls: &[PDecl],
    known: &Row<PDecl>,
    givens: &Cells,
) -> Result<Cells, FitNo>
    requires { HasPlaces (keys (pure_lettings lettings.now)) places.now }
    ensures { AreTables known.now givens.now decls.now (pure_lettings lettings.now) result }
{
    let mut list = Row::new(alloc);
    for decl in decls {
        let found = match table(alloc, lettings, places, decl, known, givens) {
            Ok(found) => found,
            Err(why) => return Err(no_of(why)),
        };
        match found {
            Some(table) => {
                let name = decl.name.copy(alloc)?;
                list.push(NamedTable { name, table })?;
            }
            None => return Err(FitNo::OutOfDomain(decl.name.copy(alloc)?)),
        }
    }
    Ok(Cells { list })
}

/// A refusal of one table as one of all.
fn no_of(why: JudgeNo) -> FitNo
    ensures { result ≡ judged_no why }
{
    match why {
        JudgeNo::Big => FitNo::Big,
        JudgeNo::NoMemory => FitNo::NoMemory,
    }
}

/// The table of a declaration. The places are those of the lettings.
fn table(
    alloc: Global,
    lettings: &[CellLetting],
    places: &BTreeMap<Text, usize>,
    decl: &PDecl,
    known: &Row<PDecl>,
    givens: &Cells,
) -> Result<Option<Table>, JudgeNo>
    requires { HasPlaces (keys (pure_lettings lettings.now)) places.now }
    ensures { IsTableOf known.now givens.now decl.now (pure_lettings lettings.now) result }
{
    match value_of(lettings, places, &decl.name) {
        Some(value) => table_of(alloc, decl, value, known, givens),
        None => Ok(None),
    }
}
