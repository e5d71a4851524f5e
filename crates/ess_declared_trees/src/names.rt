//! What stands between the name of a variable and the names of a child's tables.
ghost use Rattle.std.specs.Prelude.{◌≡◌, [], ◌∷◌, ◌++◌, codes, decimal, length, map, IfOk};
ghost use Rattle.ess_semantics.specs.declared.words.ReprKind.TheVariants.{Tuple, Rec, Matrix, FunctionND, FunctionNDPartial};
ghost use Rattle.ess_semantics.specs.Names.{keys};
ghost use Rattle.ess_semantics.specs.Kinds.{dom_list};
ghost use Rattle.ess_semantics.specs.TableNames.{child_names as names_of_children, numbered_names as numbered_components};
ghost use Rattle.ess_core_nodes.specs.NodeViews.{pure_dom, pure_doms};
ghost use Rattle.ess_declared_trees.specs.Endings.{numbered, field_endings};

use ess_core::ReprKind;
use ess_core_nodes::NodeDom;
use ess_rows::{NoMemory, Row, Text};
use std::alloc::Global;

/// What stands between the names, of each child of a layer of this kind.
pub(crate) fn child_names(
    alloc: Global,
    kind: ReprKind,
    dom: &NodeDom,
) -> Result<Row<Text>, NoMemory>
    ensures { IfOk result (λ ns. ns ≡ keys (names_of_children kind (pure_dom dom.now))) }
{
    match kind {
        ReprKind::Tuple => component_names(alloc, dom),
        ReprKind::Rec => field_names(alloc, dom),
        ReprKind::Matrix => item_name(alloc, dom),
        ReprKind::Explicit => one_name(alloc, "_Explicit"),
        ReprKind::ExplicitVarSizeWithMarker => one_name(alloc, "_ExplicitVarSizeWithMarker_Values"),
        ReprKind::ExplicitVarSizeWithFlags => one_name(alloc, "_ExplicitVarSizeWithFlags_Values"),
        ReprKind::MSetExplicitWithRepetition => one_name(
            alloc,
            "_MSetExplicitWithRepetition_Values",
        ),
        ReprKind::MSetExplicitWithFlags => one_name(alloc, "_MSetExplicitWithFlags_Values"),
        ReprKind::Function1D => one_name(alloc, "_Function1D"),
        ReprKind::Function1DPartial => one_name(alloc, "_Function1DPartial_Values"),
        ReprKind::FunctionND => value_name(alloc, dom),
        ReprKind::FunctionNDPartial => partial_value_name(alloc, dom),
        ReprKind::FunctionAsRelation => one_name(alloc, "_FunctionAsRelation"),
        ReprKind::RelationAsSet => one_name(alloc, "_RelationAsSet"),
        ReprKind::PartitionAsSet => one_name(alloc, "_PartitionAsSet"),
        _ => Ok(Row::new(alloc)),
    }
}

/// One name.
fn one_name(alloc: Global, name: &str) -> Result<Row<Text>, NoMemory>
    ensures { IfOk result (λ ns. ns ≡ name.now ∷ []) }
{
    let name = Text::from_str(alloc, name)?;
    Row::from_array(alloc, [name])
}

/// The numbers of a tuple's components.
fn component_names(alloc: Global, dom: &NodeDom) -> Result<Row<Text>, NoMemory>
    ensures { IfOk result (λ ns. ns ≡ keys (names_of_children Tuple (pure_dom dom.now))) }
{
    match dom {
        NodeDom::Tuple(parts) => numbers_of(alloc, parts.as_slice()),
        _ => Ok(Row::new(alloc)),
    }
}

/// The numbers of these components.
fn numbers_of(alloc: Global, parts: &[NodeDom]) -> Result<Row<Text>, NoMemory>
    ensures { IfOk result (λ ns. ns ≡ keys (numbered_components 1 (dom_list (pure_doms parts.now)))) }
{
    let names = numbered_names(alloc, parts.len())?;
    Ok(names)
}

/// So many numbers, from 1 on.
fn numbered_names(alloc: Global, count: usize) -> Result<Row<Text>, NoMemory>
    ensures { IfOk result (λ ns. ns ≡ numbered count) }
{
    let mut names = Row::new(alloc);
    let mut i = 0;
    while i < count {
        i += 1;
        names.push(number_name(alloc, i as u64)?)?;
    }
    Ok(names)
}

/// A number behind `_`.
fn number_name(alloc: Global, number: u64) -> Result<Text, NoMemory>
    ensures { IfOk result (λ n. n ≡ codes "_" ++ decimal number) }
{
    let mut name = Text::from_str(alloc, "_")?;
    name.push_u64(number)?;
    Ok(name)
}

/// The names of a record's fields.
fn field_names(alloc: Global, dom: &NodeDom) -> Result<Row<Text>, NoMemory>
    ensures { IfOk result (λ ns. ns ≡ keys (names_of_children Rec (pure_dom dom.now))) }
{
    match dom {
        NodeDom::Record(fields, _) => names_of_fields(alloc, fields.as_slice()),
        _ => Ok(Row::new(alloc)),
    }
}

/// The names of these fields.
fn names_of_fields(alloc: Global, fields: &[Text]) -> Result<Row<Text>, NoMemory>
    ensures { IfOk result (λ ns. ns ≡ keys (field_endings fields.now)) }
{
    let names = behind_bars(alloc, fields)?;
    Ok(names)
}

/// These names, each behind `_`.
fn behind_bars(alloc: Global, fields: &[Text]) -> Result<Row<Text>, NoMemory>
    ensures { IfOk result (λ ns. ns ≡ map (λ f. codes "_" ++ f) fields.now) }
{
    let mut names = Row::with_capacity(alloc, fields.len())?;
    for field in fields {
        names.push(behind_bar(alloc, field)?)?;
    }
    Ok(names)
}

/// A name behind `_`.
fn behind_bar(alloc: Global, field: &Text) -> Result<Text, NoMemory>
    ensures { IfOk result (λ n. n ≡ codes "_" ++ field.now) }
{
    let mut name = Text::from_str(alloc, "_")?;
    name.push_str(field.as_str())?;
    Ok(name)
}

/// Nothing stands before the items of a matrix.
fn item_name(alloc: Global, dom: &NodeDom) -> Result<Row<Text>, NoMemory>
    ensures { IfOk result (λ ns. ns ≡ keys (names_of_children Matrix (pure_dom dom.now))) }
{
    match dom {
        NodeDom::Matrix(_, _) => Row::from_array(alloc, [Text::new(alloc)]),
        _ => Ok(Row::new(alloc)),
    }
}

/// The values of a function of tuples.
fn value_name(alloc: Global, dom: &NodeDom) -> Result<Row<Text>, NoMemory>
    ensures { IfOk result (λ ns. ns ≡ keys (names_of_children FunctionND (pure_dom dom.now))) }
{
    match dom {
        NodeDom::Function(_, _, _, _) => one_name(alloc, "_FunctionND"),
        _ => Ok(Row::new(alloc)),
    }
}

/// The values of a partial one.
fn partial_value_name(alloc: Global, dom: &NodeDom) -> Result<Row<Text>, NoMemory>
    ensures { IfOk result (λ ns. ns ≡ keys (names_of_children FunctionNDPartial (pure_dom dom.now))) }
{
    match dom {
        NodeDom::Function(_, _, _, _) => one_name(alloc, "_FunctionNDPartial_Values"),
        _ => Ok(Row::new(alloc)),
    }
}
