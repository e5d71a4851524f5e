//! The names of the tables of a view.
ghost use Rattle.std.specs.Prelude.{◌≡◌, [], ◌∷◌, IfOk, take, drop};
ghost use Rattle.ess_repr_laws.specs.StructureParts.{first_name};
ghost use Rattle.ess_repr_laws.specs.ViewParts.{shape_names};
ghost use Rattle.ess_structure_terms.specs.ShapeViews.{pure_shapes};

use ess_rows::{NoMemory, Row, Text};
use ess_structure_terms::Shape;
use std::alloc::Global;

/// The first so many names.
#[tactic(auto, using(std::proofs::lemmas::List::take_all))]
pub fn front(names: &[Text], count: usize) -> &[Text]
    ensures { result.now ≡ take count names.now }
{
    if count <= names.len() {
        &names[..count]
    } else {
        names
    }
}

/// The names behind the first so many.
#[tactic(auto, using(std::proofs::lemmas::List::drop_all))]
pub fn behind(names: &[Text], count: usize) -> &[Text]
    ensures { result.now ≡ drop count names.now }
{
    if count <= names.len() {
        &names[count..]
    } else {
        &[]
    }
}

/// A copy of the first name; no text where there is none.
pub(crate) fn first_name(alloc: Global, names: &[Text]) -> Result<Text, NoMemory>
    ensures { IfOk result (λ n. n ≡ first_name names.now) }
{
    match names.split_first() {
        None => Ok(Text::new(alloc)),
        Some((name, _)) => name.copy(alloc),
    }
}

/// The name, and the names of tables behind it.
pub(crate) fn with_names(alloc: Global, name: Text, tables: &[Shape]) -> Result<Row<Text>, NoMemory>
    ensures { IfOk result (λ ns. ns ≡ name ∷ shape_names (pure_shapes tables.now)) }
{
    let mut names = Row::new(alloc);
    names.push(name)?;
    let mut others = names_of(alloc, tables)?;
    names.append(&mut others)?;
    Ok(names)
}

/// The names of tables.
pub(crate) fn names_of(alloc: Global, tables: &[Shape]) -> Result<Row<Text>, NoMemory>
    ensures { IfOk result (λ ns. ns ≡ shape_names (pure_shapes tables.now)) }
{
    let mut names = Row::with_capacity(alloc, tables.len())?;
    for table in tables {
        let name = table.name.copy(alloc)?;
        names.push(name)?;
    }
    Ok(names)
}
