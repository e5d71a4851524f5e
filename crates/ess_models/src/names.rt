//! The plans of a specification, what stands over tables in the place of its names, and the names that its tables take.
ghost use Rattle.std.specs.Prelude.{◌≡◌, ◌++◌, map, IfOk, OnOk};
ghost use Rattle.ess_semantics.specs.Names.{keys};
ghost use Rattle.ess_semantics.specs.Plans.{plans, names_of_plan, names_of_plans};
ghost use Rattle.ess_core.specs.StatementViews.{pure_stm, pure_spec};
ghost use Rattle.ess_parse.specs.NamedReprViews.{pure_named_reprs};
ghost use Rattle.conjure_model_laws.specs.Shown.{shows_nothing, shows_from};
ghost use Rattle.ess_model_shown.specs.Tables.{pure_shows, SameShows};
ghost use Rattle.ess_translate_plans.specs.Views.{pure_plan, pure_table_name};
ghost use Rattle.ess_models.specs.Checked.{IsChecked, Fit};

use ess_core::Stm;
use ess_model_printed::Taken;
use ess_model_shown::Shows;
use ess_model_shows::nothing_shown;
use ess_model_views::shows_behind;
use ess_parse::NamedReprs;
use ess_rows::{NoMemory, Row, Text};
use ess_translate_plans::{Plan, TableName, all_plans, declared_names};
use ess_types::Typed;
use std::alloc::Global;

/// The plans of a specification with these representations of its givens and finds.
pub(crate) fn plans_of(
    alloc: Global,
    spec: &Typed,
    reprs: &[NamedReprs],
) -> Result<Row<Plan>, NoMemory>
    ensures { IsChecked spec.now → Fit (pure_spec spec.now.spec) (map pure_named_reprs reprs.now) → IfOk result (λ ps. map pure_plan ps
        ≡ plans (pure_spec spec.now.spec) (map pure_named_reprs reprs.now)) }
{
    let declared = declared_names(alloc, spec.spec.stms.as_slice())?;
    all_plans(alloc, spec.prepared.stms.as_slice(), reprs, &declared)
}

/// What stands over tables in the place of names behind these statements.
pub(crate) fn shows_of(alloc: Global, plans: &[Plan], stms: &[Stm]) -> Result<Shows, NoMemory>
    ensures { IfOk result (λ s. SameShows (pure_shows s) (shows_from (map pure_plan plans.now) (map pure_stm stms.now) shows_nothing)) }
{
    let mut shows = nothing_shown(alloc);
    for stm in stms {
        shows_behind(alloc, plans, stm, &mut shows)?;
    }
    Ok(shows)
}

/// The names that the tables of plans take.
pub(crate) fn taken_names(alloc: Global, plans: &[Plan]) -> Result<Taken, NoMemory>
    ensures { IfOk result (λ t. t ≡ keys (names_of_plans (map pure_plan plans.now))) }
{
    let names = names_of(alloc, plans)?;
    Taken::from_names(alloc, names.as_slice())
}

/// The names of the tables of plans, in order.
#[tactic(auto, using(crate::proofs::Taking::names_more, crate::proofs::Taking::names_all))]
fn names_of(alloc: Global, plans: &[Plan]) -> Result<Row<Text>, NoMemory>
    ensures { IfOk result (λ ns. ns ≡ keys (names_of_plans (map pure_plan plans.now))) }
{
    let mut names = Row::new(alloc);
    for plan in plans {
        add_names(alloc, plan, &mut names)?;
    }
    Ok(names)
}

/// Adds the names of a plan's tables.
fn add_names(alloc: Global, plan: &Plan, names: &mut Row<Text>) -> Result<(), NoMemory>
    ensures { OnOk result (names.new ≡ names.old ++ keys (names_of_plan (pure_plan plan.now))) }
{
    match plan {
        Plan::Size(_, cell) => {
            let cell = cell.copy(alloc)?;
            names.push(cell)
        }
        Plan::Value(value) => add_tables(alloc, value.get().tables.as_slice(), names),
    }
}

/// Adds the names of tables.
fn add_tables(alloc: Global, tables: &[TableName], names: &mut Row<Text>) -> Result<(), NoMemory>
    ensures { OnOk result (names.new ≡ names.old ++ keys (map pure_table_name tables.now)) }
{
    for table in tables {
        let name = table.name.copy(alloc)?;
        names.push(name)?;
    }
    Ok(())
}
