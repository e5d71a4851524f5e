//! The names of tables: what stands before the names of a child's tables, and names that are free.
ghost use Rattle.std.specs.Prelude.{◌≡◌, ◌++◌, IfOk, map, codes, decimal, [], ◌∷◌};
ghost use Rattle.std.specs.List.{list_any};
ghost use Rattle.ess_semantics.specs.Order.{same_text};
ghost use Rattle.ess_semantics.specs.Names.{is_among, keys};
ghost use Rattle.ess_semantics.specs.Trees.{bool_dom};
ghost use Rattle.ess_semantics.specs.Kinds.{dom_list};
ghost use Rattle.ess_semantics.specs.TableNames.{child_names as names_of_children, numbered_names, free_within, free_name as free_name_among};
ghost use Rattle.ess_core.specs.TreeViews.{pure_dom, pure_doms, pure_field_dom};
ghost use Rattle.ess_repr.specs.Fronts.{decl_text};

use ess_core::{CellDecl, Dom, FieldDom, NoMemory, ReprKind, Row, Text};
use std::alloc::Global;
use std::cmp::Ordering;

/// What stands before the names of the tables of each child of a layer.
#[tactic(auto, using(crate::proofs::Fronts::names_alike))]
pub(crate) fn child_names(alloc: Global, kind: ReprKind, dom: &Dom) -> Result<Row<Text>, NoMemory>
    ensures { IfOk result (λ ns. ns ≡ keys (names_of_children kind (pure_dom dom.now))) }
{
    match kind {
        ReprKind::Tuple => match dom {
            Dom::Tuple(parts) => numbered(alloc, parts.as_slice()),
            _ => Ok(Row::new(alloc)),
        },
        ReprKind::Rec => match dom {
            Dom::Rec(fields) => named_fields(alloc, fields.as_slice()),
            _ => Ok(Row::new(alloc)),
        },
        ReprKind::Matrix => match dom {
            Dom::Matrix(_, _) => name(alloc, ""),
            _ => Ok(Row::new(alloc)),
        },
        ReprKind::FunctionND => match dom {
            Dom::Function(_, _, _) => name(alloc, "_FunctionND"),
            _ => Ok(Row::new(alloc)),
        },
        ReprKind::FunctionNDPartial => match dom {
            Dom::Function(_, _, _) => name(alloc, "_FunctionNDPartial_Values"),
            _ => Ok(Row::new(alloc)),
        },
        _ => slot_names(alloc, kind),
    }
}

/// A name alone.
fn name(alloc: Global, name: &str) -> Result<Row<Text>, NoMemory>
    ensures { IfOk result (λ ns. ns ≡ name.now ∷ []) }
{
    let name = Text::from_str(alloc, name)?;
    Row::from_array(alloc, [name])
}

/// What stands before the names of the one child of a kind that has a name of its own.
fn slot_names(alloc: Global, kind: ReprKind) -> Result<Row<Text>, NoMemory>
    ensures { IfOk result (λ ns. ns ≡ keys (names_of_children kind bool_dom)) }
{
    match kind {
        ReprKind::Explicit => name(alloc, "_Explicit"),
        ReprKind::ExplicitVarSizeWithMarker => name(alloc, "_ExplicitVarSizeWithMarker_Values"),
        ReprKind::ExplicitVarSizeWithFlags => name(alloc, "_ExplicitVarSizeWithFlags_Values"),
        ReprKind::MSetExplicitWithRepetition => name(alloc, "_MSetExplicitWithRepetition_Values"),
        ReprKind::MSetExplicitWithFlags => name(alloc, "_MSetExplicitWithFlags_Values"),
        ReprKind::Function1D => name(alloc, "_Function1D"),
        ReprKind::Function1DPartial => name(alloc, "_Function1DPartial_Values"),
        ReprKind::FunctionAsRelation => name(alloc, "_FunctionAsRelation"),
        ReprKind::RelationAsSet => name(alloc, "_RelationAsSet"),
        ReprKind::PartitionAsSet => name(alloc, "_PartitionAsSet"),
        _ => Ok(Row::new(alloc)),
    }
}

/// `_1`, `_2`, .. for the components of a tuple.
#[tactic(auto, using(crate::proofs::Fronts::numbers_step, crate::proofs::Fronts::numbers_all))]
fn numbered(alloc: Global, parts: &[Dom]) -> Result<Row<Text>, NoMemory>
    ensures { IfOk result (λ ns. ns ≡ keys (numbered_names 1 (dom_list (pure_doms parts.now)))) }
{
    let mut names = Row::with_capacity(alloc, parts.len())?;
    let mut i = 0;
    while i < parts.len() {
        let name = number_name(alloc, i + 1)?;
        names.push(name)?;
        i += 1;
    }
    Ok(names)
}

/// `_NUMBER`
fn number_name(alloc: Global, number: usize) -> Result<Text, NoMemory>
    ensures { IfOk result (λ a. a ≡ codes "_" ++ decimal number) }
{
    let mut name = Text::from_str(alloc, "_")?;
    name.push_u64(number as u64)?;
    Ok(name)
}

/// `_FIELD` for each field of a record.
#[tactic(auto, using(crate::proofs::Fronts::fields_step, crate::proofs::Fronts::fields_end))]
fn named_fields(alloc: Global, fields: &[FieldDom]) -> Result<Row<Text>, NoMemory>
    ensures { IfOk result (λ ns. ns ≡ map (λ a. codes "_" ++ a) (keys (map pure_field_dom fields.now))) }
{
    let mut names = Row::with_capacity(alloc, fields.len())?;
    for field in fields {
        let mut name = Text::from_str(alloc, "_")?;
        name.push_str(field.name.as_str())?;
        names.push(name)?;
    }
    Ok(names)
}

// ---- free names

/// The name, with `_` appended until it is neither taken nor that of one of the tables.
#[tactic(auto, using(crate::proofs::FreeNames::tries_in_turn))]
pub(crate) fn free_name(
    alloc: Global,
    name: &Text,
    tables: &[CellDecl],
    taken: &[Text],
) -> Result<Text, NoMemory>
    ensures { IfOk result (λ a. a ≡ free_name_among (map decl_text tables.now ++ taken.now) name.now) }
{
    let name = name.copy(alloc)?;
    let name = tried(name, tables.len(), tables, taken)?;
    let name = tried(name, taken.len(), tables, taken)?;
    tried(name, 1, tables, taken)
}

/// The name, with `_` appended while it is taken or that of one of the tables, at most so many times.
#[tactic(auto, using(crate::proofs::FreeNames::name_free, crate::proofs::FreeNames::name_taken))]
fn tried(name: Text, tries: usize, tables: &[CellDecl], taken: &[Text]) -> Result<Text, NoMemory>
    ensures { IfOk result (λ a. a ≡ free_within tries (map decl_text tables.now ++ taken.now) name) }
{
    let mut name = name;
    let mut left = tries;
    while left > 0 {
        if !has_name(tables, taken, &name) {
            return Ok(name);
        }
        name.push_str("_")?;
        left -= 1;
    }
    Ok(name)
}

/// Whether a name is that of one of the tables, or taken.
#[tactic(auto, using(crate::proofs::FreeNames::among_both))]
fn has_name(tables: &[CellDecl], taken: &[Text], name: &Text) -> bool
    ensures { result ≡ is_among (map decl_text tables.now ++ taken.now) name.now }
{
    has_table(tables, name) || is_taken(taken, name)
}

/// Whether two names are equal.
fn same_name(a: &Text, b: &Text) -> bool
    ensures { result ≡ same_text a.now b.now }
{
    a.cmp(b) == Ordering::Equal
}

/// Whether a name is that of one of the tables.
fn has_table(tables: &[CellDecl], name: &Text) -> bool
    ensures { result ≡ list_any (λ t. same_text t.name name.now) tables.now }
{
    tables.iter().any(|table| same_name(&table.name, name))
}

/// Whether a name is taken.
fn is_taken(taken: &[Text], name: &Text) -> bool
    ensures { result ≡ is_among taken.now name.now }
{
    taken.iter().any(|other| same_name(other, name))
}
