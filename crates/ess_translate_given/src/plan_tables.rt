//! The tables of one plan under a parameter.
ghost use Rattle.std.specs.Prelude.{◌≡◌, ◌∷◌, [], pos, map, option_map, true, IfOk, Ok};
ghost use Rattle.ess_semantics.specs.Plans.{name_tables};
ghost use Rattle.ess_semantics.specs.Membership.{member};
ghost use Rattle.ess_semantics.specs.Positions.{with_positions as positions_put, domain_with_positions as domain_put};
ghost use Rattle.ess_semantics.specs.Canonical.{tables_of_value};
ghost use Rattle.ess_semantics.specs.Tables.{one_cell as cell_alone};
ghost use Rattle.ess_core.specs.TreeViews.{pure_repr};
ghost use Rattle.ess_core.specs.TableViews.{pure_table, pure_named_table};
ghost use Rattle.ess_core.specs.ValueViews.{pure_val};
ghost use Rattle.ess_eval_domains.specs.ClosedViews.{pure_closed};
ghost use Rattle.ess_domains.specs.Assignments.{pure_assignment};
ghost use Rattle.ess_repr_laws.specs.Rooms.{Roomy};
ghost use Rattle.ess_translate_plans.specs.declared.plans.Side.{Side};
ghost use Rattle.ess_translate_plans.specs.Views.{pure_table_name, pure_plan, pure_value_plan};
ghost use Rattle.ess_translate_given.specs.ReadyPlans.{HasRoom};
ghost use Rattle.ess_translate_given.specs.TablesBehind.{IsTable};

use ess_core::{Boxed, NamedTable, NoMemory, Repr, Row, Table, Text, Val};
use ess_domains::Assignment;
use ess_eval_domains::Closed;
use ess_repr_positions::{domain_with_positions, with_positions};
use ess_translate_layers::down_all;
use ess_translate_plans::{Plan, Side, TableName, ValuePlan};
use std::alloc::Global;

/// The tables that a plan adds to the given ones: of a given those of its representation, of a given enumerated type its number of
/// values; none of a find.
#[tactic(auto, using(crate::proofs::PlanTables::size_there, crate::proofs::PlanTables::size_not, crate::proofs::PlanTables::find_none))]
pub(crate) fn tables_of(
    alloc: Global,
    plan: &Plan,
    closed: &Option<Boxed<Closed>>,
    param: &Assignment,
) -> Result<Option<Row<NamedTable>>, NoMemory>
    ensures { IfOk result (IsTable (pure_assignment param.now) (pure_plan plan.now) (option_map pure_closed closed.now)) }
{
    match plan {
        Plan::Size(name, cell) => match param.type_of(name) {
            Some(given) => Ok(Some(size_table(alloc, cell, given.names.len())?)),
            None => Ok(None),
        },
        Plan::Value(plan) => match plan.get().side {
            Side::Givens => value_tables(alloc, plan.get(), closed, param),
            Side::Finds => Ok(Some(Row::new(alloc))),
        },
    }
}

/// The table with a number of values.
fn size_table(alloc: Global, cell: &Text, count: usize) -> Result<Row<NamedTable>, NoMemory>
    ensures { IfOk result (λ r. map pure_named_table r ≡ (cell.now, cell_alone (pos count)) ∷ []) }
{
    let number = match i64::try_from(count) {
        Ok(number) => number,
        Err(_) => return Err(NoMemory),
    };
    let name = cell.copy(alloc)?;
    let items = Row::from_array(alloc, [number])?;
    let table = Table {
        axes: Row::new(alloc),
        items,
    };
    Row::from_array(alloc, [NamedTable { name, table }])
}

/// The tables of a given.
#[tactic(auto, using(crate::proofs::PlanTables::value_made, crate::proofs::PlanTables::no_value, crate::proofs::PlanTables::no_domain))]
fn value_tables(
    alloc: Global,
    plan: &ValuePlan,
    closed: &Option<Boxed<Closed>>,
    param: &Assignment,
) -> Result<Option<Row<NamedTable>>, NoMemory>
    ensures { IfOk result (λ o. plan.now.side ≡ Side.Givens →
        IsTable (pure_assignment param.now) (pure_value_plan plan.now) (option_map pure_closed closed.now) o) }
{
    match closed {
        Some(domain) => match param.value_of(&plan.name) {
            Some(val) => named_tables(alloc, plan, domain.get(), val),
            None => Ok(None),
        },
        None => Ok(None),
    }
}

/// The tables of a value under their names.
#[tactic(auto, using(crate::proofs::PlanTables::named_there, crate::proofs::PlanTables::named_not))]
fn named_tables(
    alloc: Global,
    plan: &ValuePlan,
    domain: &Closed,
    val: &Val,
) -> Result<Option<Row<NamedTable>>, NoMemory>
    ensures { IfOk result (λ o. HasRoom (pure_repr plan.now.tree) (pure_closed domain.now) (pure_val val.now) →
        option_map (map pure_named_table) o ≡ option_map (name_tables (map pure_table_name plan.now.tables))
        (tables_of_value (pure_repr plan.now.tree) (domain_put (pure_closed domain.now)) (positions_put (pure_val val.now)))) }
{
    match canonical(alloc, plan.tree.get(), domain, val)? {
        Some(tables) => Ok(Some(with_names(alloc, plan.tables.as_slice(), tables)?)),
        None => Ok(None),
    }
}

/// The canonical tables of a value, at positions.
#[tactic(auto, using(crate::proofs::PlanTables::at_positions))]
fn canonical(
    alloc: Global,
    tree: &Repr,
    domain: &Closed,
    val: &Val,
) -> Result<Option<Row<Table>>, NoMemory>
    ensures { IfOk result (λ o. HasRoom (pure_repr tree.now) (pure_closed domain.now) (pure_val val.now) →
        option_map (map pure_table) o
        ≡ tables_of_value (pure_repr tree.now) (domain_put (pure_closed domain.now)) (positions_put (pure_val val.now))) }
{
    match domain_with_positions(alloc, domain) {
        Ok(domain) => {
            let found = at_domain(alloc, tree, &domain, val);
            drop(domain);
            found
        }
        Err(no) => Err(no),
    }
}

/// The canonical tables of a value with positions at a domain with positions.
#[tactic(auto, using(crate::proofs::PlanTables::at_value))]
fn at_domain(
    alloc: Global,
    tree: &Repr,
    domain: &Closed,
    val: &Val,
) -> Result<Option<Row<Table>>, NoMemory>
    ensures { IfOk result (λ o. Roomy (pure_repr tree.now) (pure_closed domain.now) →
        member (pure_closed domain.now) (positions_put (pure_val val.now)) ≡ true →
        option_map (map pure_table) o ≡ tables_of_value (pure_repr tree.now) (pure_closed domain.now) (positions_put (pure_val val.now))) }
{
    match with_positions(alloc, val) {
        Ok(val) => {
            let found = down_all(alloc, tree, domain, &val);
            drop(val);
            found
        }
        Err(no) => Err(no),
    }
}

/// Tables under their names, as far as both go.
#[tactic(auto, using(crate::proofs::NamedRows::naming))]
fn with_names(
    alloc: Global,
    names: &[TableName],
    tables: Row<Table>,
) -> Result<Row<NamedTable>, NoMemory>
    ensures { IfOk result (λ r. map pure_named_table r ≡ name_tables (map pure_table_name names.now) (map pure_table tables)) }
{
    let mut all = Row::with_capacity(alloc, names.len())?;
    let mut rest = names;
    for table in tables.into_vec() {
        match rest.split_first() {
            Some((first, more)) => {
                let name = first.name.copy(alloc);
                all.push(named(name, table)?)?;
                rest = more;
            }
            None => drop(table),
        }
    }
    Ok(all)
}

/// A table under a name that was made.
fn named(name: Result<Text, NoMemory>, table: Table) -> Result<NamedTable, NoMemory>
    ensures { IfOk result (λ t. (name ≡ Ok t.name) × (t.table ≡ table)) }
{
    match name {
        Ok(name) => Ok(NamedTable { name, table }),
        Err(no) => {
            drop(table);
            Err(no)
        }
    }
}
