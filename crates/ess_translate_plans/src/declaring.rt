//! Whether a model declares the tables of its header.
ghost use Rattle.std.specs.Prelude.{◌≡◌, ◌++◌, ◌∷◌, List, map, true, false};
ghost use Rattle.ess_semantics.specs.Plans as pure_plans;
ghost use Rattle.ess_semantics.specs.Plans.{same_side};
ghost use Rattle.ess_semantics.specs.Order.{same_text};
ghost use Rattle.ess_semantics.specs.TableNames.{Named};
ghost use Rattle.ess_semantics.specs.ModelTrees.{Header};
ghost use Rattle.ess_translate_tables_laws.specs.HeaderTables.{DeclaresTables};
ghost use Rattle.eprime_tree.specs.Views.{pure_model};
ghost use Rattle.ess_translate_plans.specs.Views.{pure_side, pure_table_name, pure_plan};
ghost use Rattle.ess_translate_plans.specs.SameTables.{are_same, same_named, pure_declared, names_on, names_on_side, are_left};

use crate::plans::{Plan, Side, TableName};
use eprime_tree::{PDecl, PModel};
use ess_core::Text;
use std::cmp::Ordering;

/// Whether a model declares the tables of the header whose plans these are: the names of its givens and of its finds, with their
/// numbers of axes, are in order those of the plans.
#[tactic(auto, using(crate::proofs::SideTables::declares_both, crate::proofs::SideTables::declares_not))]
pub fn declares(plans: &[Plan], model: &PModel) -> bool
    ensures yes { (H : Header) → map pure_plan plans.now ≡ pure_plans.plans H.statements H.reprs → result ≡ true →
        DeclaresTables H (pure_model model.now) }
    ensures no { (H : Header) → map pure_plan plans.now ≡ pure_plans.plans H.statements H.reprs → result ≡ false →
        DeclaresTables H (pure_model model.now) → ⊥ }
{
    declares_side(plans, Side::Givens, model.givens.as_slice())
        && declares_side(plans, Side::Finds, model.finds.as_slice())
}

/// Whether the declarations have the names of the plans of one side, in order.
fn declares_side(plans: &[Plan], side: Side, decls: &[PDecl]) -> bool
    ensures { result ≡ are_same (names_on_side (pure_side side) (map pure_plan plans.now)) (map pure_declared decls.now) }
{
    let mut rest = decls;
    for plan in plans {
        match behind_plan(plan, side, rest) {
            Some(more) => rest = more,
            None => return false,
        }
    }
    rest.is_empty()
}

/// The declarations behind those of a plan, where it is one of this side: None where they don't begin with its names.
#[tactic(auto, using(crate::proofs::SideTables::one_name))]
fn behind_plan<'a>(plan: &Plan, side: Side, rest: &'a [PDecl]) -> Option<&'a [PDecl]>
    ensures { (xs : List Named) → are_same (names_on (pure_side side) (pure_plan plan.now) ++ xs) (map pure_declared rest.now)
        ≡ are_left xs result }
{
    match plan {
        Plan::Size(_, cell) => {
            if is_side(Side::Givens, side) {
                behind_name(cell, 0, rest)
            } else {
                Some(rest)
            }
        }
        Plan::Value(plan) => {
            if is_side(plan.get().side, side) {
                behind_tables(plan.get().tables.as_slice(), rest)
            } else {
                Some(rest)
            }
        }
    }
}

/// Whether two sides are one.
fn is_side(a: Side, b: Side) -> bool
    ensures { result ≡ same_side (pure_side a) (pure_side b) }
{
    match a {
        Side::Givens => match b {
            Side::Givens => true,
            Side::Finds => false,
        },
        Side::Finds => match b {
            Side::Givens => false,
            Side::Finds => true,
        },
    }
}

/// The declarations behind those with these names.
fn behind_tables<'a>(tables: &[TableName], rest: &'a [PDecl]) -> Option<&'a [PDecl]>
    ensures { (xs : List Named) → are_same (map pure_table_name tables.now ++ xs) (map pure_declared rest.now) ≡ are_left xs result }
{
    let mut left = rest;
    for table in tables {
        match behind_name(&table.name, table.axes, left) {
            Some(more) => left = more,
            None => return None,
        }
    }
    Some(left)
}

/// The declarations behind one with this name and number of axes.
#[tactic(auto, using(crate::proofs::SideTables::first_same, crate::proofs::SideTables::first_other, crate::proofs::SideTables::first_lacks))]
fn behind_name<'a>(name: &Text, axes: usize, rest: &'a [PDecl]) -> Option<&'a [PDecl]>
    ensures { (xs : List Named) → are_same ((name.now, axes) ∷ xs) (map pure_declared rest.now) ≡ are_left xs result }
{
    match rest.split_first() {
        Some((decl, more)) => {
            if is_named(name, axes, decl) {
                Some(more)
            } else {
                None
            }
        }
        None => None,
    }
}

/// Whether a declaration has this name and number of axes.
fn is_named(name: &Text, axes: usize, decl: &PDecl) -> bool
    ensures { result ≡ same_named (name.now, axes) (pure_declared decl.now) }
{
    same_name(name, &decl.name) && axes == decl.axes.len()
}

/// Whether two names are equal.
fn same_name(a: &Text, b: &Text) -> bool
    ensures { result ≡ same_text a.now b.now }
{
    a.cmp(b) == Ordering::Equal
}
