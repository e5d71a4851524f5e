ghost use Rattle.std.specs.Prelude.{◌≡◌, [], ◌∷◌, ◌++◌, List, length, IfOk, OnOk, option_map, slice_get, take};
ghost use Rattle.std.specs.Option.{option_copied};
ghost use Rattle.ess_semantics.specs.Values as values;
ghost use Rattle.ess_semantics.specs.Names.{keys, look, is_among};
ghost use Rattle.eprime_cells_laws.specs.TableReading.{first_extra as extra_of};
ghost use Rattle.eprime_cells_machine.specs.ValueViews.{pure_value, pure_lettings};
ghost use Rattle.eprime_cells_parts.specs.DeclaredNames.{missing_of, declared_names, HasPlaces};

use eprime_cells_machine::{CellLetting, CellValue};
use eprime_tree::PDecl;
use ess_bound_names::BoundNames;
use ess_rows::{NoMemory, Text};
use std::alloc::Global;
use std::collections::BTreeMap;

/// The place of the first letting of each name. `NoMemory` where there is no room for them.
pub fn places_of(alloc: Global, lettings: &[CellLetting]) -> Result<BTreeMap<Text, usize>, NoMemory>
    ensures { IfOk result (λ m. HasPlaces (keys (pure_lettings lettings.now)) m) }
{
    let mut places = BTreeMap::new(alloc);
    for (place, letting) in lettings.iter().enumerate() {
        put_place(alloc, &mut places, &letting.name, place)?;
    }
    Ok(places)
}

/// Puts the place of a name behind others, unless the name has one. `NoMemory` where there is no room for it.
fn put_place(
    alloc: Global,
    places: &mut BTreeMap<Text, usize>,
    name: &Text,
    place: usize,
) -> Result<(), NoMemory>
    ensures { OnOk result ((ns : List values.Text) → HasPlaces ns places.old → place ≡ length ns → HasPlaces (ns ++ name.now ∷ []) places.new) }
{
    if places.contains_key(name) {
        return Ok(());
    }
    let name = name.copy(alloc)?;
    places.insert(name, place)?;
    Ok(())
}

/// The declared names, each to be found by search. `NoMemory` where there is no room for them.
pub fn names_of(alloc: Global, decls: &[PDecl]) -> Result<BoundNames, NoMemory>
    ensures { IfOk result (λ ns. ns ≡ declared_names decls.now) }
{
    let mut names = BoundNames::new(alloc);
    for decl in decls {
        names = names.with(alloc, &decl.name)?;
    }
    Ok(names)
}

/// The first declared name that no letting names, if there is one. The places are those of the lettings.
pub fn first_missing<'a>(
    decls: &'a [PDecl],
    lettings: &[CellLetting],
    places: &BTreeMap<Text, usize>,
) -> Option<&'a Text>
    requires { HasPlaces (keys (pure_lettings lettings.now)) places.now }
    ensures { option_copied result ≡ missing_of (declared_names decls.now) (keys (pure_lettings lettings.now)) }
{
    for decl in decls {
        if !is_named(lettings, places, &decl.name) {
            return Some(&decl.name);
        }
    }
    None
}

/// The first name of a letting that isn't declared, or that an earlier letting names, if there is one. The places are those of
/// the lettings.
pub fn first_extra<'a>(
    declared: &BoundNames,
    lettings: &'a [CellLetting],
    places: &BTreeMap<Text, usize>,
) -> Option<&'a Text>
    requires { HasPlaces (keys (pure_lettings lettings.now)) places.now }
    ensures { option_copied result ≡ extra_of declared.now (keys (pure_lettings lettings.now)) }
{
    for (index, letting) in lettings.iter().enumerate() {
        if !declared.has(&letting.name) || is_named_before(lettings, places, index, &letting.name) {
            return Some(&letting.name);
        }
    }
    None
}

/// The value of the first letting of a name, if there is one. The places are those of the lettings.
pub fn value_of<'a>(
    lettings: &'a [CellLetting],
    places: &BTreeMap<Text, usize>,
    name: &Text,
) -> Option<&'a CellValue>
    requires { HasPlaces (keys (pure_lettings lettings.now)) places.now }
    ensures { option_map pure_value (option_copied result) ≡ look (pure_lettings lettings.now) name.now }
{
    match places.get(name) {
        Some(place) => value_at(lettings, *place),
        None => None,
    }
}

/// The value of the letting at a place, if there is one.
fn value_at(lettings: &[CellLetting], place: usize) -> Option<&CellValue>
    ensures { option_map pure_value (option_copied result) ≡ option_map (λ l. pure_value l.value) (slice_get lettings.now place) }
{
    match lettings.get(place) {
        Some(letting) => Some(&letting.value),
        None => None,
    }
}

/// Whether a letting has the name.
#[tactic(auto, using(crate::proofs::Places::named_there))]
fn is_named(lettings: &[CellLetting], places: &BTreeMap<Text, usize>, name: &Text) -> bool
    requires { HasPlaces (keys (pure_lettings lettings.now)) places.now }
    ensures { result ≡ is_among (keys (pure_lettings lettings.now)) name.now }
{
    places.contains_key(name)
}

/// Whether one of the first lettings has the name.
fn is_named_before(
    lettings: &[CellLetting],
    places: &BTreeMap<Text, usize>,
    count: usize,
    name: &Text,
) -> bool
    requires { HasPlaces (keys (pure_lettings lettings.now)) places.now }
    ensures { result ≡ is_among (keys (pure_lettings (take count lettings.now))) name.now }
{
    match places.get(name) {
        Some(place) => *place < count,
        None => false,
    }
}
