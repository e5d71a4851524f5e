//! The declared tables of plans.
ghost use Rattle.std.specs.Prelude.{◌≡◌, [], ◌∷◌, pos, IfOk, filter, map};
ghost use Rattle.ess_semantics.specs.Lists.{append_all};
ghost use Rattle.ess_semantics.specs.Names.{keys};
ghost use Rattle.ess_semantics.specs.Plans.{side_of, same_side as are_one_side};
ghost use Rattle.ess_semantics.specs.Trees.{low_end, number_ex, no_exs, more_exs, int_dom};
ghost use Rattle.conjure_model_laws.specs.IsBuiltFrom.{declared_of, with_whole_names};
ghost use Rattle.ess_core_nodes.specs.NodeViews.{pure_dom};
ghost use Rattle.ess_declared_trees.specs.TableViews.{pure_declared};
ghost use Rattle.ess_model_shown.specs.Tables.{pure_shows};
ghost use Rattle.ess_repr_declare_laws.specs.DeclaredTrees.{decl};
ghost use Rattle.ess_translate_plans.specs.Views.{pure_plan, pure_side, pure_table_name};

use ess_core_nodes::{Ends, NodeDom, copy_doms};
use ess_declared_trees::{Declared, trees_below};
use ess_model_shown::Shows;
use ess_model_views::domain_shown;
use ess_node_building::{number, only};
use ess_rows::{Boxed, NoMemory, Row, Text};
use ess_translate_plans::{Plan, Side, TableName};
use std::alloc::Global;

/// The declared tables of a plan, before their bounds are refined. The number of values of a given type is at least 1. `NoMemory`
/// where there is no room for them.
pub fn declared_of(alloc: Global, shows: &Shows, plan: &Plan) -> Result<Row<Declared>, NoMemory>
    ensures { IfOk result (λ ts. map pure_declared ts ≡ declared_of (pure_shows shows.now) (pure_plan plan.now)) }
{
    match plan {
        Plan::Size(_, cell) => size_table(alloc, cell),
        Plan::Value(value) => {
            let dom = domain_shown(alloc, shows, plan)?;
            let value = value.get();
            let tables = trees_below(alloc, false, value.tree.get(), dom.get())?;
            named(alloc, value.tables.as_slice(), tables.as_slice())
        }
    }
}

/// Those of the plans of the givens, or of the finds, one plan behind the other. `NoMemory` where there is no room for them.
#[tactic(auto, using(crate::proofs::PlanSteps::one_plan_more, crate::proofs::PlanSteps::other_side))]
pub fn all_declared(
    alloc: Global,
    shows: &Shows,
    plans: &[Plan],
    side: Side,
) -> Result<Row<Declared>, NoMemory>
    ensures { IfOk result (λ ts. map pure_declared ts ≡ append_all (map (declared_of (pure_shows shows.now))
        (filter (λ p. are_one_side (side_of p) (pure_side side)) (map pure_plan plans.now)))) }
{
    let mut all = Row::new(alloc);
    for plan in plans {
        if is_of(plan, side) {
            let mut own = declared_of(alloc, shows, plan)?;
            all.append(&mut own)?;
        }
    }
    Ok(all)
}

/// Whether a plan is one of the givens, or of the finds.
fn is_of(plan: &Plan, side: Side) -> bool
    ensures { result ≡ are_one_side (side_of (pure_plan plan.now)) (pure_side side) }
{
    match plan {
        Plan::Size(_, _) => same_side(Side::Givens, side),
        Plan::Value(value) => same_side(value.get().side, side),
    }
}

/// Whether the two are one.
fn same_side(one: Side, other: Side) -> bool
    ensures { result ≡ are_one_side (pure_side one) (pure_side other) }
{
    match (one, other) {
        (Side::Givens, Side::Givens) => true,
        (Side::Givens, Side::Finds) => false,
        (Side::Finds, Side::Givens) => false,
        (Side::Finds, Side::Finds) => true,
    }
}

/// The table for the number of values of a type: it is at least 1.
fn size_table(alloc: Global, name: &Text) -> Result<Row<Declared>, NoMemory>
    ensures { IfOk result (λ ts. map pure_declared ts ≡ decl name.now [] (int_dom (low_end ∷ []) (more_exs (number_ex (pos 1)) no_exs)) ∷ []) }
{
    let one = number(alloc, 1)?;
    let bounds = only(alloc, one)?;
    let ends = Row::from_array(alloc, [Ends::Low])?;
    let cell = Boxed::new(alloc, NodeDom::Int(ends, bounds))?;
    let name = name.copy(alloc)?;
    let axes = Row::new(alloc);
    Row::from_array(alloc, [Declared { name, axes, cell }])
}

/// Copies of the tables with these names in the place of the ends of names.
#[tactic(auto, using(crate::proofs::NameSteps::one_name_more, crate::proofs::NameSteps::no_name_left, crate::proofs::NameSteps::no_table_left))]
fn named(alloc: Global, names: &[TableName], tables: &[Declared]) -> Result<Row<Declared>, NoMemory>
    ensures { IfOk result (λ ts. map pure_declared ts
        ≡ with_whole_names (keys (map pure_table_name names.now)) (map pure_declared tables.now)) }
{
    let mut all = Row::new(alloc);
    let mut i = 0;
    while i < names.len() {
        if i >= tables.len() {
            return Ok(all);
        }
        all.push(with_name(alloc, &names[i].name, &tables[i])?)?;
        i += 1;
    }
    Ok(all)
}

/// A copy of the table with this name.
fn with_name(alloc: Global, name: &Text, table: &Declared) -> Result<Declared, NoMemory>
    ensures { IfOk result (λ t. pure_declared t ≡ decl name.now (map pure_dom table.now.axes) (pure_dom table.now.cell)) }
{
    let axes = copy_doms(alloc, table.axes.as_slice())?;
    let cell = table.cell.get().copy(alloc)?;
    let name = name.copy(alloc)?;
    Ok(Declared { name, axes, cell })
}
