//! The solution for which cells of a model stand.
ghost use Rattle.std.specs.Prelude.{◌≡◌, List, None, Some, map, option_map, IfOk, IfErr, OnOk};
ghost use Rattle.std.specs.Option.{option_copied};
ghost use Rattle.ess_semantics.specs.Values.{Text as PureText};
ghost use Rattle.ess_semantics.specs.Plans.{values_stood_for};
ghost use Rattle.ess_semantics.specs.Satisfaction.{Sat};
ghost use Rattle.ess_semantics.specs.Solutions.{finds};
ghost use Rattle.ess_core.specs.StatementViews.{pure_stm};
ghost use Rattle.ess_core.specs.TableViews.{pure_cells};
ghost use Rattle.ess_domains.specs.Assignments.{pure_assignment};
ghost use Rattle.ess_translate_values.specs.StoodValues.{pure_stood};
ghost use Rattle.ess_translate_solutions.specs.CellFiles.{AreCells, IsSolved, IsNotSolved, first_without, IsWithout};
ghost use Rattle.ess_translate_solutions.specs.Refusals.{cells_no};
ghost use Rattle.ess_translate_files.specs.Wholes.{file_header, file_model, IsWhole, IsGivenFor};
ghost use Rattle.ess_translate.specs.declared.refusal.TransNo.{TransNo};

use crate::refusals::cells_no;
use crate::solution_texts::solution_text;
use eprime_read_cells::read_cells;
use eprime_verdicts::{EvalNo, PVerdict, satisfies};
use ess_core::{Cells, NoMemory, Row, Stm, Text};
use ess_translate::TransNo;
use ess_translate_files::{Given, ModelFile};
use ess_translate_values::{StoodFor, values_by};
use std::alloc::Global;

/// Reads a file of cells for a model's file with a given parameter, and gives the text of the solution for which they stand. First
/// the text is read as the tables that the model declares, then they are asked to satisfy the model, then each find's value by all
/// of its representations is asked. The errors are `Read` of `Solution`, `Unsatisfied` with what fails first, `NotRepresented` of the
/// first find that has no value, `Big` and `NoMemory`.
#[tactic(auto, using(crate::proofs::Cells::solved, crate::proofs::Cells::values_refused))]
pub fn solution_in(
    alloc: Global,
    file: &ModelFile,
    given: &Given,
    cells: &[u8],
) -> Result<Vec<u8>, TransNo>
    requires whole { IsWhole file.now }
    requires given { IsGivenFor file.now given.now }
    ensures ok { IfOk result (λ b. IsSolved (file_header file.now) (file_model file.now) (pure_assignment given.now.param)
        (pure_cells given.now.tables) cells.now b.items) }
    ensures refused { IfErr result (IsNotSolved (file_header file.now) (file_model file.now) (pure_assignment given.now.param)
        (pure_cells given.now.tables) cells.now) }
{
    let found = cells_in(alloc, file, given, cells)?;
    pass_model(alloc, file, given, &found)?;
    let vals = values_in(alloc, file, given, &found)?;
    pass_values(alloc, vals.as_slice())?;
    match solution_text(alloc, vals.as_slice(), &given.env) {
        Ok(text) => Ok(text),
        Err(_) => Err(TransNo::NoMemory),
    }
}

/// The tables of what is to be found that a text of cells stands for.
#[tactic(auto, using(crate::proofs::Cells::cells_are, crate::proofs::Cells::cells_refused))]
fn cells_in(alloc: Global, file: &ModelFile, given: &Given, cells: &[u8]) -> Result<Cells, TransNo>
    ensures ok { IfOk result (λ c. AreCells (file_model file.now) (pure_cells given.now.tables) cells.now (pure_cells c)) }
    ensures refused { IfErr result (IsNotSolved (file_header file.now) (file_model file.now) (pure_assignment given.now.param)
        (pure_cells given.now.tables) cells.now) }
{
    match read_cells(
        alloc,
        cells,
        &file.model.get().finds,
        &file.model.get().givens,
        &given.tables,
    ) {
        Ok(cells) => Ok(cells),
        Err(why) => Err(cells_no(why)),
    }
}

/// Refuses tables that don't satisfy the model. Those that a text of cells stands for are over the declarations, whose domains have a
/// meaning under given tables: so only a constraint can be false.
#[tactic(auto, using(crate::proofs::Cells::false_refused, crate::proofs::Cells::large_refused))]
fn pass_model(alloc: Global, file: &ModelFile, given: &Given, found: &Cells) -> Result<(), TransNo>
    ensures ok { OnOk result (Sat (file_model file.now) (pure_cells given.now.tables) (pure_cells found.now)) }
    ensures refused { IfErr result (λ why. (text : PureText)
        → AreCells (file_model file.now) (pure_cells given.now.tables) text (pure_cells found.now)
        → IsNotSolved (file_header file.now) (file_model file.now) (pure_assignment given.now.param)
        (pure_cells given.now.tables) text why) }
{
    match satisfies(alloc, file.model.get(), &given.tables, found) {
        Ok(PVerdict::Yes) => Ok(()),
        Ok(PVerdict::False(number)) => Err(TransNo::Unsatisfied(PVerdict::False(number))),
        Ok(other) => {
            drop(other);
            Err(TransNo::NoMemory)
        }
        Err(EvalNo::Big) => Err(TransNo::Big),
        Err(_) => Err(TransNo::NoMemory),
    }
}

/// The values of the finds for which tables stand.
#[tactic(auto, using(ess_translate_files::proofs::Solved::finds_of_file_ready))]
fn values_in(
    alloc: Global,
    file: &ModelFile,
    given: &Given,
    found: &Cells,
) -> Result<Row<StoodFor>, TransNo>
    requires whole { IsWhole file.now }
    requires given { IsGivenFor file.now given.now }
    requires satisfied { Sat (file_model file.now) (pure_cells given.now.tables) (pure_cells found.now) }
    ensures ok { IfOk result (λ vs. map pure_stood vs
        ≡ values_stood_for (file_header file.now).statements (file_header file.now).reprs (pure_assignment given.now.param)
        (pure_cells found.now)) }
    ensures stops { IfErr result (λ why. why ≡ TransNo.NoMemory) }
{
    let names = find_names(alloc, file.header.spec.spec.stms.as_slice())?;
    match values_by(
        alloc,
        file.plans.as_slice(),
        given.closed.as_slice(),
        names.as_slice(),
        found.list.as_slice(),
    ) {
        Ok(vals) => Ok(vals),
        Err(_) => Err(TransNo::NoMemory),
    }
}

/// The names of the finds, in order of declaration.
fn find_names(alloc: Global, stms: &[Stm]) -> Result<Row<Text>, NoMemory>
    ensures { IfOk result (λ ns. ns ≡ finds (map pure_stm stms.now)) }
{
    let mut names = Row::new(alloc);
    for stm in stms {
        if let Stm::Find(name, _) = stm {
            names.push(name.copy(alloc)?)?;
        }
    }
    Ok(names)
}

/// Refuses a find without a value.
fn pass_values(alloc: Global, vals: &[StoodFor]) -> Result<(), TransNo>
    ensures ok { OnOk result (first_without (map pure_stood vals.now) ≡ None) }
    ensures refused { IfErr result (IsWithout (map pure_stood vals.now)) }
{
    match without_value(vals) {
        Some(name) => match name.copy(alloc) {
            Ok(name) => Err(TransNo::NotRepresented(name)),
            Err(_) => Err(TransNo::NoMemory),
        },
        None => Ok(()),
    }
}

/// The first find without a value.
fn without_value(vals: &[StoodFor]) -> Option<&Text>
    ensures { option_copied result ≡ first_without (map pure_stood vals.now) }
{
    for found in vals {
        match &found.value {
            Some(_) => {}
            None => return Some(&found.name),
        }
    }
    None
}
