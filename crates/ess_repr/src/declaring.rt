//! The tables that a representation declares.
ghost use Rattle.std.specs.Prelude.{◌≡◌, ◌++◌, IfOk, OnOk, map, [], ◌∷◌, false};
ghost use Rattle.ess_core.specs.TreeViews.{pure_repr, pure_dom};
ghost use Rattle.ess_core.specs.TableViews.{pure_decl};
ghost use Rattle.ess_semantics.specs.TableNames.{free_name};
ghost use Rattle.ess_repr_declare_laws.specs.DeclaredTrees.{decl, trees_below, below_layer, named_trees, declared_trees};
ghost use Rattle.ess_repr.specs.CellUses.{can_be_out};
ghost use Rattle.ess_repr.specs.Fronts.{decl_text, trees_of_named};

use crate::cells::CellUse;
use crate::doms::{boxed, push_copy, several};
use crate::layer_axes::{layer_axes, use_of_children};
use crate::layers::child_domains;
use crate::naming::{child_names, free_name};
use crate::own_tables::own_tables;
use ess_core::{Boxed, CellDecl, Dom, NoMemory, Repr, Row, Text};
use std::alloc::Global;

/// The tables that a representation of a domain declares for a name, in order: of each its name, the domains of its axes and that
/// of its cells. A name that is taken, or that an earlier table has, gets `_` appended until it is free. The representation fits the
/// domain. `NoMemory` where there is no room for them.
#[tactic(auto, using(crate::proofs::FreeNames::named_below))]
pub fn declare(
    alloc: Global,
    repr: &Repr,
    dom: &Dom,
    name: &Text,
    taken: &[Text],
) -> Result<Row<CellDecl>, NoMemory>
    ensures { IfOk result (λ ts. map pure_decl ts ≡ declared_trees (pure_repr repr.now) (pure_dom dom.now) name.now taken.now) }
{
    let mut tables = Row::new(alloc);
    add_tables(
        alloc,
        CellUse::AlwaysInUse,
        repr,
        dom,
        name,
        &[],
        &mut tables,
    )?;
    with_free_names(alloc, tables.as_slice(), taken)
}

/// Puts the tables of a representation behind others, with a name and axes in front of theirs. `NoMemory` where there is no room for
/// them; some may then stand behind the others.
#[cycle(tables)]
fn add_tables(
    alloc: Global,
    out: CellUse,
    repr: &Repr,
    dom: &Dom,
    name: &Text,
    axes: &[Dom],
    tables: &mut Row<CellDecl>,
) -> Result<(), NoMemory>
    ensures { OnOk result (map pure_decl tables.new ≡ map pure_decl tables.old
        ++ map (below_layer name.now (map pure_dom axes.now)) (trees_below (can_be_out out) (pure_repr repr.now) (pure_dom dom.now))) }
{
    let own = own_tables(alloc, out, repr.kind, dom)?;
    add_below(alloc, own.as_slice(), name, axes, tables)?;
    let names = child_names(alloc, repr.kind, dom)?;
    let doms = child_domains(alloc, repr.kind, dom)?;
    let layer = layer_axes(alloc, repr.kind, dom)?;
    let inner = joined(alloc, axes, layer.as_slice())?;
    let out = use_of_children(out, repr.kind);
    add_children(
        alloc,
        out,
        repr.children.as_slice(),
        names.as_slice(),
        doms.as_slice(),
        name,
        inner.as_slice(),
        tables,
    )
}

/// Puts the tables of the children behind others, each with what stands before its names, and all with these axes in front.
#[cycle(tables)]
#[tactic(auto, using(crate::proofs::DeclaredLayers::no_child_left))]
fn add_children(
    alloc: Global,
    out: CellUse,
    children: &[Repr],
    names: &[Text],
    doms: &[Dom],
    name: &Text,
    axes: &[Dom],
    tables: &mut Row<CellDecl>,
) -> Result<(), NoMemory>
    ensures { OnOk result (map pure_decl tables.new ≡ map pure_decl tables.old
        ++ map (below_layer name.now (map pure_dom axes.now))
        (trees_of_named (can_be_out out) (map pure_repr children.now) names.now (map pure_dom doms.now))) }
{
    let mut i = 0;
    while i < children.len() && i < names.len() && i < doms.len() {
        let front = joined_name(alloc, name, &names[i])?;
        add_tables(alloc, out, &children[i], &doms[i], &front, axes, tables)?;
        i += 1;
    }
    Ok(())
}

/// Puts tables behind others, with a name and axes in front of theirs.
#[tactic(auto, using(crate::proofs::DeclaredLayers::below_more, crate::proofs::DeclaredLayers::below_all))]
fn add_below(
    alloc: Global,
    own: &[CellDecl],
    name: &Text,
    axes: &[Dom],
    tables: &mut Row<CellDecl>,
) -> Result<(), NoMemory>
    ensures { OnOk result (map pure_decl tables.new ≡ map pure_decl tables.old
        ++ map (below_layer name.now (map pure_dom axes.now)) (map pure_decl own.now)) }
{
    for table in own {
        tables.push(below(alloc, table, name, axes)?.into_inner())?;
    }
    Ok(())
}

/// A copy of a table, with a name and axes in front of its own.
fn below(
    alloc: Global,
    table: &CellDecl,
    name: &Text,
    axes: &[Dom],
) -> Result<Boxed<CellDecl>, NoMemory>
    ensures { IfOk result (λ t. pure_decl t ≡ below_layer name.now (map pure_dom axes.now) (pure_decl table.now)) }
{
    let axes = joined(alloc, axes, table.axes.as_slice())?;
    let whole = joined_name(alloc, name, &table.name)?;
    let cell = boxed(alloc, &table.cell)?.into_inner();
    Boxed::new(
        alloc,
        CellDecl {
            name: whole,
            axes,
            cell,
        },
    )
}

/// A name and another one behind it.
fn joined_name(alloc: Global, name: &Text, more: &Text) -> Result<Text, NoMemory>
    ensures { IfOk result (λ a. a ≡ name.now ++ more.now) }
{
    let mut whole = name.copy(alloc)?;
    whole.push_str(more.as_str())?;
    Ok(whole)
}

/// Copies of domains, and of others behind them.
fn joined(alloc: Global, first: &[Dom], second: &[Dom]) -> Result<Row<Dom>, NoMemory>
    ensures { IfOk result (λ ds. ds ≡ first.now ++ second.now) }
{
    let mut doms = several(alloc, first)?;
    for dom in second {
        push_copy(alloc, &mut doms, dom)?;
    }
    Ok(doms)
}

/// Copies of the tables, whose names are free: each differs from those that are taken and from those of the tables before it.
#[tactic(auto, using(crate::proofs::FreeNames::named_more, crate::proofs::FreeNames::named_all))]
fn with_free_names(
    alloc: Global,
    tables: &[CellDecl],
    taken: &[Text],
) -> Result<Row<CellDecl>, NoMemory>
    ensures { IfOk result (λ ts. map pure_decl ts ≡ named_trees [] (map pure_decl tables.now) taken.now) }
{
    let mut named = Row::with_capacity(alloc, tables.len())?;
    for table in tables {
        let table = renamed(alloc, table, named.as_slice(), taken)?;
        named.push(table.into_inner())?;
    }
    Ok(named)
}

/// A copy of a table with a name that neither the others have nor is taken.
fn renamed(
    alloc: Global,
    table: &CellDecl,
    others: &[CellDecl],
    taken: &[Text],
) -> Result<Boxed<CellDecl>, NoMemory>
    ensures { IfOk result (λ t. pure_decl t ≡ decl (free_name (map decl_text others.now ++ taken.now) table.now.name)
        (map pure_dom table.now.axes) (pure_dom table.now.cell)) }
{
    let axes = several(alloc, table.axes.as_slice())?;
    let name = free_name(alloc, &table.name, others, taken)?;
    let cell = boxed(alloc, &table.cell)?.into_inner();
    Boxed::new(alloc, CellDecl { name, axes, cell })
}
