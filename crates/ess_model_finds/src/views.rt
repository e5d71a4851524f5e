//! Trees of a find over its tables: structures, and that views are equal.
ghost use Rattle.std.specs.Prelude.{◌≡◌, ◌++◌, true, map, IfOk, OnOk};
ghost use Rattle.std.specs.Option.{option_copied};
ghost use Rattle.ess_semantics.specs.declared.words.Op2.{Op2};
ghost use Rattle.ess_semantics.specs.Names.{keys};
ghost use Rattle.ess_semantics.specs.Trees.{ex2, no_exs};
ghost use Rattle.ess_semantics.specs.Solutions.{find_of, finds};
ghost use Rattle.ess_semantics.specs.Plans.{is_plan_of, side_of, same_side, finds_side};
ghost use Rattle.ess_core.specs.TreeViews.{pure_repr};
ghost use Rattle.ess_core.specs.StatementViews.{pure_stm};
ghost use Rattle.ess_core_nodes.specs.NodeViews.{pure_node, pure_dom};
ghost use Rattle.ess_repr_laws.specs.Structure.{structure};
ghost use Rattle.ess_repr_declare_laws.specs.SizeTerms.{size_terms};
ghost use Rattle.conjure_model_laws.specs.ToldApart.{reserved};
ghost use Rattle.ess_model_shown.specs.Tables.{pure_shows};
ghost use Rattle.ess_translate_plans.specs.Views.{pure_side, pure_plan, pure_table_name};
ghost use Rattle.ess_model_finds.specs.Finds.{found_in, view_of, views_of, equal_first, is_atom, asked_of, structures_of, channels_of};

use ess_core::{Op2, ReprKind, Stm};
use ess_core_nodes::{Node, NodeDom};
use ess_model_shown::Shows;
use ess_model_views::{domain_shown, view_by};
use ess_node_building::{binary, truth};
use ess_rows::{Boxed, NoMemory, Row, Text};
use ess_structure::structure;
use ess_translate_plans::{Plan, Side, TableName, ValuePlan};
use std::alloc::Global;
use std::cmp::Ordering;

/// The constraints that the tables of the finds are canonical, plan by plan, `true` of a scalar. `NoMemory` where there is no room for them, or the
/// reserved names can't be counted.
#[tactic(auto, using(crate::proofs::Filtered::one_more, crate::proofs::Filtered::none_more))]
pub fn structure_trees(alloc: Global, shows: &Shows, plans: &[Plan]) -> Result<Row<Node>, NoMemory>
    ensures { IfOk result (λ ns. map pure_node ns ≡ structures_of (pure_shows shows.now) (map pure_plan plans.now)) }
{
    let mut trees = Row::new(alloc);
    for plan in plans {
        if is_found(plan) {
            let tree = asked(alloc, shows, plan)?;
            trees.push(tree.into_inner())?;
        }
    }
    Ok(trees)
}

/// That further views of the finds of these statements stand for what the first one does, find by find. `NoMemory` where there is no
/// room for them.
#[tactic(auto, using(crate::proofs::Channels::one_more))]
pub fn channel_trees(
    alloc: Global,
    shows: &Shows,
    stms: &[Stm],
    plans: &[Plan],
) -> Result<Row<Node>, NoMemory>
    ensures { IfOk result (λ ns. map pure_node ns
        ≡ channels_of (pure_shows shows.now) (map pure_plan plans.now) (finds (map pure_stm stms.now))) }
{
    let mut trees = Row::new(alloc);
    for stm in stms {
        add_statement(alloc, shows, plans, stm, &mut trees)?;
    }
    Ok(trees)
}

/// Adds that further views of what a statement finds stand for what the first one does.
#[tactic(auto, using(crate::proofs::Channels::found_adds, crate::proofs::Channels::none_adds))]
fn add_statement(
    alloc: Global,
    shows: &Shows,
    plans: &[Plan],
    stm: &Stm,
    trees: &mut Row<Node>,
) -> Result<(), NoMemory>
    ensures { OnOk result (map pure_node trees.new ≡ map pure_node trees.old
        ++ channels_of (pure_shows shows.now) (map pure_plan plans.now) (find_of (pure_stm stm.now))) }
{
    match found_name(stm) {
        Some(name) => {
            add_channels(alloc, shows, plans, name, trees)?;
            Ok(())
        }
        None => Ok(()),
    }
}

/// The name that a statement finds.
fn found_name(stm: &Stm) -> Option<&Text>
    ensures { option_copied result ≡ found_in (pure_stm stm.now) }
{
    match stm {
        Stm::Find(name, _) => Some(name),
        _ => None,
    }
}

/// Adds that further views of a find stand for what the first one does.
fn add_channels(
    alloc: Global,
    shows: &Shows,
    plans: &[Plan],
    name: &Text,
    trees: &mut Row<Node>,
) -> Result<(), NoMemory>
    ensures { OnOk result (map pure_node trees.new ≡ map pure_node trees.old
        ++ equal_first (views_of (pure_shows shows.now) (map pure_plan plans.now) name.now)) }
{
    let views = find_views(alloc, shows, plans, name)?;
    match views.as_slice().split_first() {
        Some((first, others)) => add_equal(alloc, first, others, trees),
        None => Ok(()),
    }
}

/// Adds that a view and each of others are equal.
fn add_equal(
    alloc: Global,
    first: &Node,
    others: &[Node],
    trees: &mut Row<Node>,
) -> Result<(), NoMemory>
    ensures { OnOk result (map pure_node trees.new ≡ map pure_node trees.old
        ++ map (ex2 true Op2.Eq (pure_node first.now)) (map pure_node others.now)) }
{
    for other in others {
        let tree = equal(alloc, first, other)?;
        trees.push(tree.into_inner())?;
    }
    Ok(())
}

/// That two views are equal.
fn equal(alloc: Global, first: &Node, other: &Node) -> Result<Boxed<Node>, NoMemory>
    ensures { IfOk result (λ n. pure_node n ≡ ex2 true Op2.Eq (pure_node first.now) (pure_node other.now)) }
{
    let first = first.copy(alloc)?;
    let other = other.copy(alloc)?;
    binary(alloc, true, Op2::Eq, first, other)
}

/// The views of a find, in the order of its plans.
#[tactic(auto, using(crate::proofs::Filtered::one_more, crate::proofs::Filtered::none_more))]
fn find_views(
    alloc: Global,
    shows: &Shows,
    plans: &[Plan],
    name: &Text,
) -> Result<Row<Node>, NoMemory>
    ensures { IfOk result (λ ns. map pure_node ns ≡ views_of (pure_shows shows.now) (map pure_plan plans.now) name.now) }
{
    let mut views = Row::new(alloc);
    for plan in plans {
        if is_plan_of(plan, name) {
            let view = plan_view(alloc, shows, plan)?;
            views.push(view.into_inner())?;
        }
    }
    Ok(views)
}

/// The view by a plan.
fn plan_view(alloc: Global, shows: &Shows, plan: &Plan) -> Result<Boxed<Node>, NoMemory>
    ensures { IfOk result (λ n. pure_node n ≡ view_of (pure_shows shows.now) (pure_plan plan.now)) }
{
    let dom = domain_shown(alloc, shows, plan)?;
    view_by(alloc, dom.get(), plan)
}

/// Whether a plan is one of this find.
fn is_plan_of(plan: &Plan, name: &Text) -> bool
    ensures { result ≡ is_plan_of name.now (pure_plan plan.now) }
{
    match plan {
        Plan::Size(_, _) => false,
        Plan::Value(value) => is_find(value.get().side)
            && value.get().name.cmp(name) == Ordering::Equal,
    }
}

/// Whether a plan is one of the finds.
fn is_found(plan: &Plan) -> bool
    ensures { result ≡ same_side (side_of (pure_plan plan.now)) finds_side }
{
    match plan {
        Plan::Size(_, _) => false,
        Plan::Value(value) => is_find(value.get().side),
    }
}

/// Whether a side is that of the finds.
fn is_find(side: Side) -> bool
    ensures { result ≡ same_side (pure_side side) finds_side }
{
    match side {
        Side::Givens => false,
        Side::Finds => true,
    }
}

/// What is asked of the tables of a plan: that they are canonical. Nothing is asked of a scalar.
#[tactic(auto, using(crate::proofs::Asking::scalar_asked, crate::proofs::Asking::others_asked))]
fn asked(alloc: Global, shows: &Shows, plan: &Plan) -> Result<Boxed<Node>, NoMemory>
    ensures { IfOk result (λ n. pure_node n ≡ asked_of (pure_shows shows.now) (pure_plan plan.now)) }
{
    match plan {
        Plan::Size(_, _) => truth(alloc, true),
        Plan::Value(value) => {
            if is_scalar(value.get()) {
                let tree = truth(alloc, true)?;
                Ok(tree)
            } else {
                let dom = domain_shown(alloc, shows, plan)?;
                let tree = value_structure(alloc, shows.next, dom.get(), value.get())?;
                Ok(tree)
            }
        }
    }
}

/// Whether a plan is one of a scalar.
#[tactic(auto, using(ess_core::proofs::RepresentationEquations::pure_repr_is))]
fn is_scalar(value: &ValuePlan) -> bool
    ensures { result ≡ is_atom (pure_repr value.now.tree) }
{
    match value.tree.get().kind {
        ReprKind::Atom => true,
        _ => false,
    }
}

/// That the tables of a find are canonical, where its domain over tables is this one, with reserved names from a number on.
fn value_structure(
    alloc: Global,
    number: u64,
    dom: &NodeDom,
    value: &ValuePlan,
) -> Result<Boxed<Node>, NoMemory>
    ensures { IfOk result (λ n. pure_node n ≡ structure reserved size_terms (pure_repr value.now.tree) (pure_dom dom.now)
        (keys (map pure_table_name value.now.tables)) number no_exs) }
{
    let names = table_names(alloc, value.tables.as_slice())?;
    structure(alloc, value.tree.get(), dom, names.as_slice(), number, &[])
}

/// The names of tables.
fn table_names(alloc: Global, tables: &[TableName]) -> Result<Row<Text>, NoMemory>
    ensures { IfOk result (λ ns. ns ≡ keys (map pure_table_name tables.now)) }
{
    let mut names = Row::with_capacity(alloc, tables.len())?;
    for table in tables {
        let name = table.name.copy(alloc)?;
        names.push(name)?;
    }
    Ok(names)
}
