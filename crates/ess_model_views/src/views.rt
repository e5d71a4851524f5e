//! Views by plans.
ghost use Rattle.std.specs.Prelude.{◌≡◌, [], map, filter, IfOk};
ghost use Rattle.std.specs.Option.{option_copied};
ghost use Rattle.ess_semantics.specs.Names.{keys};
ghost use Rattle.ess_semantics.specs.Trees.{seen_ex, no_exs};
ghost use Rattle.ess_semantics.specs.Meaning.{is_bool_dom};
ghost use Rattle.ess_semantics.specs.Plans.{is_plan_for};
ghost use Rattle.ess_core.specs.TreeViews.{pure_repr, pure_dom as pure_code_dom};
ghost use Rattle.ess_core_nodes.specs.NodeViews.{pure_node, pure_dom};
ghost use Rattle.conjure_model_laws.specs.Shown.{view_by, domain_shown};
ghost use Rattle.ess_model_shown.specs.Tables.{pure_shows};
ghost use Rattle.ess_translate_plans.specs.Views.{pure_plan, pure_value_plan, pure_table_name};
ghost use Rattle.ess_model_views.specs.Scalars.{first_cell, scalar_cell};

use ess_core::{Dom, ReprKind};
use ess_core_nodes::{Node, NodeDom, Seen, dom_of};
use ess_model_shown::Shows;
use ess_model_shows::cell_node;
use ess_rows::{Boxed, NoMemory, Row, Text};
use ess_translate_plans::{Plan, TableName, ValuePlan};
use std::alloc::Global;
use std::cmp::Ordering;

/// The view by a plan whose domain over tables is this one. `NoMemory` where there is no room for it.
pub fn view_by(alloc: Global, dom: &NodeDom, plan: &Plan) -> Result<Boxed<Node>, NoMemory>
    ensures { IfOk result (λ n. pure_node n ≡ view_by (pure_dom dom.now) (pure_plan plan.now)) }
{
    match plan {
        Plan::Size(_, cell) => cell_node(alloc, false, cell),
        Plan::Value(value) => value_view(alloc, dom, value.get()),
    }
}

/// The domain of a plan over tables. `NoMemory` where there is no room for it.
pub fn domain_shown(alloc: Global, shows: &Shows, plan: &Plan) -> Result<Boxed<NodeDom>, NoMemory>
    ensures { IfOk result (λ d. pure_dom d ≡ domain_shown (pure_shows shows.now) (pure_plan plan.now)) }
{
    match plan {
        Plan::Size(_, _) => Boxed::new(alloc, NodeDom::Bool),
        Plan::Value(value) => match shows.doms.look(&value.get().name) {
            Some(dom) => dom.copy(alloc),
            None => dom_of(alloc, value.get().dom.get()),
        },
    }
}

/// The views of a given or find, in the order of its plans.
#[tactic(auto, using(crate::proofs::ViewLaws::one_more, crate::proofs::ViewLaws::none_more))]
pub(crate) fn views_of(
    alloc: Global,
    dom: &NodeDom,
    plans: &[Plan],
    name: &Text,
) -> Result<Row<Node>, NoMemory>
    ensures { IfOk result (λ ns. map pure_node ns ≡ map (view_by (pure_dom dom.now)) (filter (is_plan_for name.now) (map pure_plan plans.now))) }
{
    let mut views = Row::new(alloc);
    for plan in plans {
        if is_plan_for(plan, name) {
            let view = view_by(alloc, dom, plan)?;
            views.push(view.into_inner())?;
        }
    }
    Ok(views)
}

/// Whether a plan is one of this given or find.
fn is_plan_for(plan: &Plan, name: &Text) -> bool
    ensures { result ≡ is_plan_for name.now (pure_plan plan.now) }
{
    match plan {
        Plan::Size(_, _) => false,
        Plan::Value(value) => value.get().name.cmp(name) == Ordering::Equal,
    }
}

/// The view of a given or find: a scalar is a cell.
fn value_view(alloc: Global, dom: &NodeDom, value: &ValuePlan) -> Result<Boxed<Node>, NoMemory>
    ensures { IfOk result (λ n. pure_node n ≡ view_by (pure_dom dom.now) (pure_value_plan value.now)) }
{
    match scalar_cell(value) {
        Some(cell) => cell_node(alloc, is_bool(value.dom.get()), cell),
        None => seen_view(alloc, dom, value),
    }
}

/// The name of the cell of a scalar.
#[tactic(auto, using(ess_core::proofs::RepresentationEquations::pure_repr_is))]
fn scalar_cell(value: &ValuePlan) -> Option<&Text>
    ensures { option_copied result ≡ scalar_cell (pure_repr value.now.tree) (map pure_table_name value.now.tables) }
{
    match value.tree.get().kind {
        ReprKind::Atom => first_cell(value.tables.as_slice()),
        _ => None,
    }
}

/// The name of the first table.
fn first_cell(tables: &[TableName]) -> Option<&Text>
    ensures { option_copied result ≡ first_cell (map pure_table_name tables.now) }
{
    match tables.split_first() {
        None => None,
        Some((table, _)) => Some(&table.name),
    }
}

/// What the tables of a plan stand for.
fn seen_view(alloc: Global, dom: &NodeDom, value: &ValuePlan) -> Result<Boxed<Node>, NoMemory>
    ensures { IfOk result (λ n. pure_node n
        ≡ seen_ex (pure_repr value.now.tree) (pure_dom dom.now) (keys (map pure_table_name value.now.tables)) no_exs) }
{
    let dom = dom.copy(alloc)?;
    let cells = table_names(alloc, value.tables.as_slice())?;
    let repr = value.tree.get().copy(alloc)?;
    let at = Row::new(alloc);
    let seen = Boxed::new(
        alloc,
        Seen {
            repr,
            dom,
            cells,
            at,
        },
    )?;
    Boxed::new(alloc, Node::Seen(seen))
}

/// The names of tables.
fn table_names(alloc: Global, tables: &[TableName]) -> Result<Row<Text>, NoMemory>
    ensures { IfOk result (λ ns. ns ≡ keys (map pure_table_name tables.now)) }
{
    let mut names = Row::with_capacity(alloc, tables.len())?;
    for table in tables {
        let name = table.name.copy(alloc)?;
        names.push(name)?;
    }
    Ok(names)
}

/// Whether a domain is `bool`.
fn is_bool(dom: &Dom) -> bool
    ensures { result ≡ is_bool_dom (pure_code_dom dom.now) }
{
    match dom {
        Dom::Bool => true,
        _ => false,
    }
}
