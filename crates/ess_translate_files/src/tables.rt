//! The given tables of a parameter.
ghost use Rattle.std.specs.Prelude.{◌≡◌, List, Some, None, map, option_map, IfOk, IfErr, OnOk};
ghost use Rattle.ess_semantics.specs.Assignments.{nothing_given, env_of};
ghost use Rattle.ess_semantics.specs.Parameters.{Param};
ghost use Rattle.ess_semantics.specs.Plans.{plans, given_tables};
ghost use Rattle.ess_core.specs.TableViews.{pure_cells};
ghost use Rattle.ess_eval_domains.specs.ClosedViews.{pure_closed};
ghost use Rattle.ess_domains.specs.Assignments.{pure_assignment};
ghost use Rattle.ess_translate_given_laws.specs.Counts.{too_many};
ghost use Rattle.ess_translate_members_laws.specs.PlanDomains.{plan_closed};
ghost use Rattle.ess_translate_members_laws.specs.DeclaresMembers.{DeclaresMembers};
ghost use Rattle.ess_translate_files.specs.GivenFiles.{HasTables, HasNoTables};
ghost use Rattle.ess_translate_files.specs.Wholes.{file_header, file_model, IsWhole, AreClosed};

use crate::models::ModelFile;
use eprime_eval_scalars::Stop;
use ess_core::{Boxed, Cells};
use ess_domains::Assignment;
use ess_eval_domains::Closed;
use ess_translate::TransNo;
use ess_translate_given::{first_too_many, given_tables};
use ess_translate_members::declares_members;
use std::alloc::Global;

/// The given tables of a parameter, where no given or find has too many cells and the model declares their members. `closed` are the
/// domains of the plans under the parameter.
pub(crate) fn tables_under(
    alloc: Global,
    file: &ModelFile,
    closed: &[Option<Boxed<Closed>>],
    param: &Assignment,
) -> Result<Cells, TransNo>
    requires whole { IsWhole file.now }
    requires closed { AreClosed file.now closed.now (pure_assignment param.now) }
    requires fits { Param (file_header file.now).statements (pure_assignment param.now) }
    ensures ok { IfOk result (λ q. HasTables (file_header file.now) (file_model file.now) (pure_assignment param.now) (pure_cells q)) }
    ensures refused { IfErr result (HasNoTables (file_header file.now) (file_model file.now) (pure_assignment param.now)) }
{
    pass_counts(alloc, file, closed, param)?;
    let tables = canonical_tables(alloc, file, closed, param)?;
    pass_members(alloc, file, closed, param, &tables)?;
    Ok(tables)
}

/// Refuses too many cells.
#[tactic(auto, using(crate::proofs::Refused::too_many_kept, crate::proofs::Refused::none_too_many))]
fn pass_counts(
    alloc: Global,
    file: &ModelFile,
    closed: &[Option<Boxed<Closed>>],
    param: &Assignment,
) -> Result<(), TransNo>
    requires whole { IsWhole file.now }
    requires closed { AreClosed file.now closed.now (pure_assignment param.now) }
    ensures ok { OnOk result (too_many (file_header file.now) (pure_assignment param.now) ≡ None) }
    ensures refused { IfErr result (HasNoTables (file_header file.now) (file_model file.now) (pure_assignment param.now)) }
{
    match first_too_many(alloc, file.plans.as_slice(), closed) {
        Ok(None) => Ok(()),
        Ok(Some((name, count))) => Err(TransNo::TooManyCells(name, count)),
        Err(_) => Err(TransNo::NoMemory),
    }
}

/// The canonical tables of the givens. A parameter that fits has them: else the answer is `NoMemory`.
fn canonical_tables(
    alloc: Global,
    file: &ModelFile,
    closed: &[Option<Boxed<Closed>>],
    param: &Assignment,
) -> Result<Cells, TransNo>
    requires whole { IsWhole file.now }
    requires closed { AreClosed file.now closed.now (pure_assignment param.now) }
    requires fits { Param (file_header file.now).statements (pure_assignment param.now) }
    ensures ok { IfOk result (λ q.
        given_tables (file_header file.now).statements (file_header file.now).reprs (pure_assignment param.now) ≡ Some (pure_cells q)) }
    ensures stops { IfErr result (λ why. why ≡ TransNo.NoMemory) }
{
    match given_tables(alloc, file.plans.as_slice(), closed, param) {
        Ok(Some(list)) => Ok(Cells { list }),
        Ok(None) => Err(TransNo::NoMemory),
        Err(_) => Err(TransNo::NoMemory),
    }
}

/// Refuses a model that declares other members than those of the header's tables.
#[tactic(auto, using(crate::proofs::Refused::members_large))]
fn pass_members(
    alloc: Global,
    file: &ModelFile,
    closed: &[Option<Boxed<Closed>>],
    param: &Assignment,
    tables: &Cells,
) -> Result<(), TransNo>
    requires whole { IsWhole file.now }
    requires closed { AreClosed file.now closed.now (pure_assignment param.now) }
    ensures ok { OnOk result (DeclaresMembers (file_header file.now) (file_model file.now) (pure_assignment param.now)
        (pure_cells tables.now)) }
    ensures refused { IfErr result (λ why. too_many (file_header file.now) (pure_assignment param.now) ≡ None
        → given_tables (file_header file.now).statements (file_header file.now).reprs (pure_assignment param.now)
        ≡ Some (pure_cells tables.now)
        → HasNoTables (file_header file.now) (file_model file.now) (pure_assignment param.now) why) }
{
    match declares_members(
        alloc,
        file.plans.as_slice(),
        closed,
        file.model.get(),
        tables.list.as_slice(),
    ) {
        Ok(true) => Ok(()),
        Ok(false) => Err(TransNo::HeaderBad),
        Err(Stop::Big) => Err(TransNo::Big),
        Err(Stop::NoMemory) => Err(TransNo::NoMemory),
    }
}
