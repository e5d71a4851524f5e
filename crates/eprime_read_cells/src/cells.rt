ghost use Rattle.std.specs.Prelude.{◌≡◌};
ghost use Rattle.ess_grammar.specs.CellTexts.{IsCells};
ghost use Rattle.ess_parse.specs.Readers.{IsRefusedFirst, IsUnread, IsPlaced};
ghost use Rattle.eprime_read_cells.specs.CellAnswers.{read_no, behind_fit, as_read, IsOutcome, IsFitted, IsJudged};

use crate::lettings::read_lettings;
use eprime_cells_judging::{FitNo, fit};
use eprime_cells_machine::CellLetting;
use eprime_tree::PDecl;
use ess_core::Cells;
use ess_parse::ReadNo;
use ess_rows::{Row, Text};
use std::alloc::Global;

/// Why a text of cells isn't read as tables over declarations. Of several reasons the first in this order is given, but for
/// `NoMemory`, which may come at any point.
#[derive(Debug, Drop, PartialEq)]
pub enum CellsNo {
    /// The text is no text of cells, or is refused before its grammar is looked at. Never for want of memory.
    Read(ReadNo),
    /// No letting has this declared name.
    Missing(Text),
    /// A letting has this name, which isn't declared or which an earlier letting has.
    Extra(Text),
    /// The value of this name has another shape than the declared axes, or an item outside its domain.
    OutOfDomain(Text),
    /// A number on the way to a declared domain lies outside 64 bits.
    Big,
    /// There was no room in memory.
    NoMemory,
}

/// Reads a text of cells, as the files of parameters and of solutions of Essence Prime are, as the tables over declarations,
/// in order of declaration. The domains of the declarations are those under the given tables, which `known` declares.
///
/// `Read` comes exactly where the text is no text of cells, with the cause and the place that the other readers give. Else
/// `Missing` comes exactly where a declared name has no letting, for the first such name; `Extra` exactly where a letting has a
/// name that isn't declared or that an earlier letting has, for the first such letting; `OutOfDomain` exactly where a value
/// has another shape than the declared axes or an item outside its domain, for the first such name in order of declaration.
/// `Big` comes only where a number on the way to a declared domain lies outside 64 bits, `NoMemory` for want of memory.
pub fn read_cells(
    alloc: Global,
    text: &[u8],
    decls: &Row<PDecl>,
    known: &Row<PDecl>,
    givens: &Cells,
) -> Result<Cells, CellsNo>
    ensures refused { IsRefusedFirst text.now (as_read result) }
    ensures fitted { IsFitted known.now givens.now decls.now text.now result }
    ensures judged { IsJudged known.now givens.now decls.now text.now result }
    ensures unread { IsUnread IsCells text.now (as_read result) }
    ensures placed { IsPlaced IsCells text.now (as_read result) }
{
    answer(alloc, read_lettings(alloc, text), decls, known, givens)
}

/// The answer behind the reader of lettings.
fn answer(
    alloc: Global,
    lettings: Result<Row<CellLetting>, ReadNo>,
    decls: &Row<PDecl>,
    known: &Row<PDecl>,
    givens: &Cells,
) -> Result<Cells, CellsNo>
    ensures { IsOutcome known.now givens.now decls.now lettings result }
{
    match lettings {
        Ok(lettings) => fitted(fit(alloc, &lettings, decls, known, givens)),
        Err(why) => Err(unread(why)),
    }
}

/// The answer where the lettings are read.
fn fitted(cells: Result<Cells, FitNo>) -> Result<Cells, CellsNo>
    ensures { result ≡ behind_fit cells }
{
    match cells {
        Ok(cells) => Ok(cells),
        Err(FitNo::Missing(name)) => Err(CellsNo::Missing(name)),
        Err(FitNo::Extra(name)) => Err(CellsNo::Extra(name)),
        Err(FitNo::OutOfDomain(name)) => Err(CellsNo::OutOfDomain(name)),
        Err(FitNo::Big) => Err(CellsNo::Big),
        Err(FitNo::NoMemory) => Err(CellsNo::NoMemory),
    }
}

/// The answer where they aren't.
fn unread(why: ReadNo) -> CellsNo
    ensures { result ≡ read_no why }
{
    match why {
        ReadNo::NoMemory => CellsNo::NoMemory,
        _ => CellsNo::Read(why),
    }
}
