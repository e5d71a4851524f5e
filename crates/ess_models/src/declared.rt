//! The declarations of a model, givens first.
ghost use Rattle.std.specs.Prelude.{◌≡◌, map, IfOk};
ghost use Rattle.ess_semantics.specs.Plans.{finds_side, same_side};
ghost use Rattle.eprime_read_convert.specs.Lines.{scope_of};
ghost use Rattle.ess_model_shown.specs.Tables.{pure_shows};
ghost use Rattle.ess_translate_plans.specs.Views.{pure_side, pure_plan};
ghost use Rattle.ess_model_written.specs.DeclarationsWritten.{adding};
ghost use Rattle.ess_model_written.specs.Coming.{DeclsCome};
ghost use Rattle.ess_models.specs.Parts.{tables_on};
ghost use Rattle.ess_models.specs.Coming.{DeclarationsCome, GivensKnown};

use crate::parts::Part;
use eprime_read_convert::Lines;
use eprime_tree::PDecl;
use ess_model_declared::all_declared;
use ess_model_printed::Taken;
use ess_model_shown::Shows;
use ess_model_written::decls_written;
use ess_rows::{NoMemory, Row};
use ess_translate_plans::{Plan, Side};
use std::alloc::Global;

/// What a model declares, with the lines that know it.
#[derive(Drop)]
pub(crate) struct Declarations {
    pub(crate) givens: Row<PDecl>,
    pub(crate) finds: Row<PDecl>,
    pub(crate) lines: Lines,
}

/// What a model declares, or the part that can't be written.
#[derive(Drop)]
pub(crate) enum DeclaredParts {
    /// All is declared.
    All(Declarations),
    /// A table of this part can't be declared.
    Lacks(Part),
}

/// The declarations of a model by these plans.
#[tactic(auto, using(crate::proofs::Declaring::givens_known, crate::proofs::Declaring::givens_lack))]
pub(crate) fn declarations_written(
    alloc: Global,
    shows: &Shows,
    taken: &Taken,
    plans: &[Plan],
) -> Result<DeclaredParts, NoMemory>
    ensures { IfOk result (DeclarationsCome taken.now (pure_shows shows.now) (map pure_plan plans.now)) }
{
    let lines = Lines::new(alloc);
    match side_written(alloc, shows, taken, lines, plans, Side::Givens)? {
        Some((givens, lines)) => with_finds(alloc, shows, taken, plans, givens, lines),
        None => Ok(DeclaredParts::Lacks(Part::Givens)),
    }
}

/// The same where the givens are written.
#[tactic(auto, using(crate::proofs::Declaring::finds_known, crate::proofs::Declaring::finds_lack))]
fn with_finds(
    alloc: Global,
    shows: &Shows,
    taken: &Taken,
    plans: &[Plan],
    givens: Row<PDecl>,
    lines: Lines,
) -> Result<DeclaredParts, NoMemory>
    requires { GivensKnown taken.now (pure_shows shows.now) (map pure_plan plans.now) givens lines }
    ensures { IfOk result (DeclarationsCome taken.now (pure_shows shows.now) (map pure_plan plans.now)) }
{
    match side_written(alloc, shows, taken, lines, plans, Side::Finds)? {
        Some((finds, lines)) => Ok(DeclaredParts::All(Declarations {
            givens,
            finds,
            lines,
        })),
        None => Ok(DeclaredParts::Lacks(Part::Finds)),
    }
}

/// The declarations of one side, and the lines behind them.
fn side_written(
    alloc: Global,
    shows: &Shows,
    taken: &Taken,
    lines: Lines,
    plans: &[Plan],
    side: Side,
) -> Result<Option<(Row<PDecl>, Lines)>, NoMemory>
    ensures { IfOk result (λ o. DeclsCome (adding (same_side (pure_side side) finds_side)) taken.now shows.now.next (scope_of lines)
        (tables_on taken.now (pure_shows shows.now) (map pure_plan plans.now) (pure_side side)) o) }
{
    let decls = all_declared(alloc, shows, plans, side)?;
    let found = is_found(side);
    decls_written(alloc, shows, taken, lines, decls.as_slice(), found)
}

/// Whether a side is that of the finds.
fn is_found(side: Side) -> bool
    ensures { result ≡ same_side (pure_side side) finds_side }
{
    match side {
        Side::Givens => false,
        Side::Finds => true,
    }
}
