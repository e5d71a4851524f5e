//! The plans of a header, one after the other.
ghost use Rattle.std.specs.Prelude.{◌≡◌, ◌++◌, ◌∷◌, [], List, map, codes, true, IfOk, OnOk};
ghost use Rattle.ess_semantics.specs.Contexts.{Each};
ghost use Rattle.ess_semantics.specs.TableNames.{free_name};
ghost use Rattle.ess_semantics.specs.Plans as pure_plans;
ghost use Rattle.ess_semantics.specs.Plans.{plans};
ghost use Rattle.ess_core.specs.TreeViews.{pure_repr, pure_dom};
ghost use Rattle.ess_core.specs.StatementViews.{pure_stm};
ghost use Rattle.ess_parse.specs.NamedReprViews.{pure_named_reprs};
ghost use Rattle.ess_translate_header.specs.Views.{pure_header};
ghost use Rattle.ess_translate_plans_laws.specs.Requests.{tables_of, all_tables_of, size_of, first_reprs, later_reprs, requests_of_stm, left_behind, requests, plans_for_all, IsRightRequest};
ghost use Rattle.ess_translate_plans_laws.specs.Laws.{taken_at_first};
ghost use Rattle.ess_translate_plans.specs.Views.{pure_side, pure_table_name, pure_value_plan, pure_plan, IsReadHeader};
ghost use Rattle.ess_translate_plans.specs.Adding.{Adds};

use crate::naming::free_tables;
use crate::plans::{Plan, Side, TableName, ValuePlan};
use crate::taken::{add_names, declared_names, first_names};
use ess_core::{Boxed, Dom, NoMemory, Repr, ReprKind, Row, Stm, Text};
use ess_parse::NamedReprs;
use ess_translate_header::Header;
use ess_types_scopes::NameSet;
use std::alloc::Global;

/// The plans of a header, in order of declaration: of each given and find the tables of each of its representations with their
/// names, of each given enumerated type the cell for its number of values. A name that a statement declares for something else, or
/// that an earlier table has, gets `_` appended until it is free. The names are looked up by hash. `NoMemory` where there is no room
/// for them.
pub fn plans_of(alloc: Global, header: &Header) -> Result<Row<Plan>, NoMemory>
    ensures { IsReadHeader header.now → IfOk result (λ ps. map pure_plan ps
        ≡ plans (pure_header header.now).statements (pure_header header.now).reprs) }
{
    let declared = declared_names(alloc, header.spec.spec.stms.as_slice())?;
    all_plans(
        alloc,
        header.spec.prepared.stms.as_slice(),
        header.reprs.as_slice(),
        &declared,
    )
}

/// The plans of prepared statements, with these representations of their givens and finds with a domain, in order, beside the names
/// that are declared. `NoMemory` where there is no room for them.
#[tactic(auto, using(crate::proofs::Added::plans_none))]
pub fn all_plans(
    alloc: Global,
    stms: &[Stm],
    reprs: &[NamedReprs],
    declared: &NameSet,
) -> Result<Row<Plan>, NoMemory>
    ensures { IfOk result (λ ps. Each (requests (map pure_stm stms.now) (map pure_named_reprs reprs.now)) IsRightRequest →
        map pure_plan ps ≡ plans_for_all (requests (map pure_stm stms.now) (map pure_named_reprs reprs.now)) declared.now taken_at_first) }
{
    let mut tables = first_names(alloc)?;
    let mut plans = Row::new(alloc);
    let mut rest = reprs;
    for stm in stms {
        rest = add_statement(alloc, stm, rest, declared, &mut tables, &mut plans)?;
    }
    Ok(plans)
}

/// Adds the plans of a statement, and answers the representations behind its own.
fn add_statement<'a>(
    alloc: Global,
    stm: &Stm,
    rest: &'a [NamedReprs],
    declared: &NameSet,
    tables: &mut NameSet,
    plans: &mut Row<Plan>,
) -> Result<&'a [NamedReprs], NoMemory>
    ensures left { IfOk result (λ more. map pure_named_reprs more.now ≡ left_behind (pure_stm stm.now) (map pure_named_reprs rest.now)) }
    ensures added { IfOk result (λ more. Adds (requests_of_stm (pure_stm stm.now) (map pure_named_reprs rest.now)) declared.now
        (map pure_plan plans.old) tables.old (map pure_plan plans.new) tables.new) }
{
    match stm {
        Stm::Given(name, dom) => add_name(
            alloc,
            Side::Givens,
            name,
            dom.get(),
            rest,
            declared,
            tables,
            plans,
        ),
        Stm::GivenEnum(name) => {
            add_size(alloc, name, declared, tables, plans)?;
            Ok(rest)
        }
        Stm::Find(name, dom) => add_name(
            alloc,
            Side::Finds,
            name,
            dom.get(),
            rest,
            declared,
            tables,
            plans,
        ),
        _ => Ok(rest),
    }
}

/// Adds the plans of a given or find by its representations, which stand first, and answers those behind them.
fn add_name<'a>(
    alloc: Global,
    side: Side,
    name: &Text,
    dom: &Dom,
    rest: &'a [NamedReprs],
    declared: &NameSet,
    tables: &mut NameSet,
    plans: &mut Row<Plan>,
) -> Result<&'a [NamedReprs], NoMemory>
    ensures left { IfOk result (λ more. map pure_named_reprs more.now ≡ later_reprs (map pure_named_reprs rest.now)) }
    ensures added { IfOk result (λ more. Adds (all_tables_of (pure_side side) name.now (pure_dom dom.now) (first_reprs
        (map pure_named_reprs rest.now)))
        declared.now (map pure_plan plans.old) tables.old (map pure_plan plans.new) tables.new) }
{
    match rest.split_first() {
        Some((named, more)) => {
            add_trees(
                alloc,
                side,
                name,
                dom,
                named.trees.as_slice(),
                declared,
                tables,
                plans,
            )?;
            Ok(more)
        }
        None => Ok(rest),
    }
}

/// Adds the plans of a given or find by several representations.
#[tactic(auto, using(crate::proofs::Added::trees_none, crate::proofs::Added::trees_more, crate::proofs::Added::trees_all))]
fn add_trees(
    alloc: Global,
    side: Side,
    name: &Text,
    dom: &Dom,
    trees: &[Repr],
    declared: &NameSet,
    tables: &mut NameSet,
    plans: &mut Row<Plan>,
) -> Result<(), NoMemory>
    ensures { OnOk result (Adds (all_tables_of (pure_side side) name.now (pure_dom dom.now) (map pure_repr trees.now)) declared.now
        (map pure_plan plans.old) tables.old (map pure_plan plans.new) tables.new) }
{
    for tree in trees {
        add_tables(alloc, side, name, dom, tree, declared, tables, plans)?;
    }
    Ok(())
}

/// Adds the plan of a given or find by one representation.
fn add_tables(
    alloc: Global,
    side: Side,
    name: &Text,
    dom: &Dom,
    tree: &Repr,
    declared: &NameSet,
    tables: &mut NameSet,
    plans: &mut Row<Plan>,
) -> Result<(), NoMemory>
    ensures { OnOk result (Adds (tables_of (pure_side side) name.now (pure_repr tree.now) (pure_dom dom.now) ∷ []) declared.now
        (map pure_plan plans.old) tables.old (map pure_plan plans.new) tables.new) }
{
    let names = free_tables(alloc, false, name, name, tree, dom, declared, tables)?;
    add_names(alloc, names.as_slice(), tables)?;
    let plan = value_plan(alloc, side, name, dom, tree, names)?;
    plans.push(Plan::Value(plan))
}

/// The plan of a given or find by one representation, with these names of its tables.
fn value_plan(
    alloc: Global,
    side: Side,
    name: &Text,
    dom: &Dom,
    tree: &Repr,
    tables: Row<TableName>,
) -> Result<Boxed<ValuePlan>, NoMemory>
    ensures { IfOk result (λ p. pure_value_plan p ≡ pure_plans.value_plan (pure_side side) name.now (pure_repr tree.now)
        (pure_dom dom.now) (map pure_table_name tables)) }
{
    let name = name.copy(alloc)?;
    let tree = boxed_tree(alloc, tree)?;
    let dom = boxed_dom(alloc, dom)?;
    Boxed::new(
        alloc,
        ValuePlan {
            side,
            name,
            tree,
            dom,
            tables,
        },
    )
}

/// A copy of a representation in a box.
fn boxed_tree(alloc: Global, tree: &Repr) -> Result<Boxed<Repr>, NoMemory>
    ensures { IfOk result (λ r. r ≡ tree.now) }
{
    Boxed::new(alloc, tree.copy(alloc)?)
}

/// A copy of a domain in a box.
fn boxed_dom(alloc: Global, dom: &Dom) -> Result<Boxed<Dom>, NoMemory>
    ensures { IfOk result (λ d. d ≡ dom.now) }
{
    Boxed::new(alloc, dom.copy(alloc)?)
}

/// Adds the plan of a given enumerated type: its cell for the number of values.
#[tactic(auto, using(crate::proofs::Added::size_added))]
fn add_size(
    alloc: Global,
    name: &Text,
    declared: &NameSet,
    tables: &mut NameSet,
    plans: &mut Row<Plan>,
) -> Result<(), NoMemory>
    ensures { OnOk result (Adds (size_of name.now ∷ []) declared.now (map pure_plan plans.old) tables.old
        (map pure_plan plans.new) tables.new) }
{
    let cell = size_cell(alloc, name, declared, tables)?;
    tables.add(alloc, &cell)?;
    plans.push(Plan::Size(name.copy(alloc)?, cell))
}

/// The name of the cell for the number of values of a given enumerated type: `TYPE_Size`, made free.
#[tactic(auto, using(crate::proofs::Added::first_name))]
fn size_cell(
    alloc: Global,
    name: &Text,
    declared: &NameSet,
    tables: &NameSet,
) -> Result<Text, NoMemory>
    ensures { IfOk result (λ a. a ≡ free_name (declared.now ++ tables.now) (name.now ++ codes "_Size")) }
{
    let names = size_tables(alloc, name, declared, tables)?;
    match names.as_slice().split_first() {
        Some((cell, _)) => cell.name.copy(alloc),
        None => Err(NoMemory),
    }
}

/// The same as the names of a representation's tables: of an atom's one table, with no axes.
#[tactic(auto, using(crate::proofs::Added::size_named))]
fn size_tables(
    alloc: Global,
    name: &Text,
    declared: &NameSet,
    tables: &NameSet,
) -> Result<Row<TableName>, NoMemory>
    ensures { IfOk result (λ ns. map pure_table_name ns ≡ (free_name (declared.now ++ tables.now) (name.now ++ codes "_Size"), 0) ∷ []) }
{
    let mut whole = name.copy(alloc)?;
    whole.push_str("_Size")?;
    let atom = Repr {
        kind: ReprKind::Atom,
        children: Row::new(alloc),
    };
    free_tables(
        alloc,
        true,
        name,
        &whole,
        &atom,
        &Dom::Bool,
        declared,
        tables,
    )
}
