ghost use Rattle.std.specs.Prelude.{◌≡◌, ◌++◌, map, length, slice_get, string_bytes, None, IfOk, OnOk};
ghost use Rattle.std.specs.Map.{lookup};
ghost use Rattle.std.specs.Str.{bytes_eq};
ghost use Rattle.ess_semantics.specs.Meaning.{is_bool_dom};
ghost use Rattle.ess_grammar.specs.Models.{empty_scope};
ghost use Rattle.eprime_tree.specs.Views.{pure_dom};
ghost use Rattle.std.specs.Option.{option_copied};
ghost use Rattle.eprime_eval_kinds.specs.Shapes.{decl_shape, first_place};
ghost use Rattle.eprime_eval_kinds.specs.Places.{Places, Noted};

use eprime_tree::{PDecl, PDom};
use ess_rows::{NoMemory, Row, Text};
use indexmap::IndexMap;
use std::alloc::Global;
use std::marker::Model;

/// What the kinds of expressions ask of a declaration: its name, how many axes it has, and whether its cells are truth values.
#[derive(Drop, PartialEq)]
pub struct Shape {
    pub name: Text,
    pub axes: usize,
    pub truth: bool,
}

/// The shapes of declarations in order, found by name. Where several have one name, the first is found.
#[derive(Drop)]
pub struct Declared {
    shapes: Row<Shape>,
    places: IndexMap<String, usize>,
}

impl Model for Declared {
    ghost use Rattle.std.specs.Prelude.{List};
    ghost use Rattle.eprime_eval_kinds.specs.declared.declared.Shape.{Shape};
    ghost use Rattle.eprime_eval_kinds.specs.Places.{Places};

    ghost Value = { List Shape };

    ghost view = { λ d. d.shapes };

    ghost invariant = { λ d. Places d.shapes d.places.entries };
}

impl Declared {
    /// The shapes of the declarations of a model, of what is given first. `NoMemory` where there is no room for them.
    pub fn of(alloc: Global, givens: &[PDecl], finds: &[PDecl]) -> Result<Declared, NoMemory>
        ensures { IfOk result (λ d. d ≡ map decl_shape (givens.now ++ finds.now)) }
    {
        let mut shapes = Row::new(alloc);
        add_shapes(alloc, givens, &mut shapes)?;
        add_shapes(alloc, finds, &mut shapes)?;
        let places = places_of(alloc, shapes.as_slice())?;
        Ok(Declared { shapes, places })
    }

    /// How many declarations there are.
    pub fn len(&self) -> usize
        ensures { result ≡ length self.now }
    {
        self.shapes.len()
    }

    /// The number of the first declaration of a name, counted from 0.
    pub fn place(&self, name: &Text) -> Option<usize>
        ensures { result ≡ first_place self.now name.now }
    {
        place_in(&self.places, name)
    }

    /// The shape of the declaration with a number.
    pub fn shape_at(&self, place: usize) -> Option<&Shape>
        ensures { option_copied result ≡ slice_get self.now place }
    {
        self.shapes.get(place)
    }
}

/// Puts the shapes of declarations behind others.
#[tactic(auto, using(crate::proofs::DeclaredShapes::shapes_more))]
fn add_shapes(alloc: Global, decls: &[PDecl], shapes: &mut Row<Shape>) -> Result<(), NoMemory>
    ensures { OnOk result (shapes.new ≡ shapes.old ++ map decl_shape decls.now) }
{
    for decl in decls {
        shapes.push(shape_of(alloc, decl)?)?;
    }
    Ok(())
}

/// The shape of a declaration.
#[tactic(auto, using(crate::proofs::DeclaredShapes::axes_counted))]
fn shape_of(alloc: Global, decl: &PDecl) -> Result<Shape, NoMemory>
    ensures { IfOk result (λ s. s ≡ decl_shape decl.now) }
{
    Ok(Shape {
        name: decl.name.copy(alloc)?,
        axes: decl.axes.len(),
        truth: is_bool(&decl.cell),
    })
}

/// Whether a domain is that of the truth values.
fn is_bool(dom: &PDom) -> bool
    ensures { result ≡ is_bool_dom (pure_dom empty_scope dom.now) }
{
    match dom {
        PDom::Bool => true,
        PDom::Int(_) => false,
    }
}

/// The number of the first declaration of each name.
#[tactic(auto, using(crate::proofs::Places::places_none, crate::proofs::Places::places_more, crate::proofs::Places::places_all))]
fn places_of(alloc: Global, shapes: &[Shape]) -> Result<IndexMap<String, usize>, NoMemory>
    ensures { IfOk result (λ m. Places shapes.now m.entries) }
{
    let mut places = IndexMap::new(alloc);
    for (place, shape) in shapes.iter().enumerate() {
        note(alloc, &mut places, &shape.name, place)?;
    }
    Ok(places)
}

/// Notes the number of a declaration of a name, where none is noted yet.
#[tactic(auto, using(crate::proofs::Places::noted_old))]
fn note(
    alloc: Global,
    places: &mut IndexMap<String, usize>,
    name: &Text,
    place: usize,
) -> Result<(), NoMemory>
    ensures { OnOk result (Noted name.now place places.old.entries places.new.entries) }
{
    match place_in(places, name) {
        Some(_) => Ok(()),
        None => insert_new(alloc, places, name, place),
    }
}

/// Notes the number of the first declaration of a name.
fn insert_new(
    alloc: Global,
    places: &mut IndexMap<String, usize>,
    name: &Text,
    place: usize,
) -> Result<(), NoMemory>
    requires { lookup (λ k. bytes_eq name.now (string_bytes k)) places.old.entries ≡ None }
    ensures { OnOk result (Noted name.now place places.old.entries places.new.entries) }
{
    places.insert(String::from_str(alloc, name.as_str())?, place)?;
    Ok(())
}

/// The number that a map has for a name.
fn place_in(places: &IndexMap<String, usize>, name: &Text) -> Option<usize>
    ensures { result ≡ lookup (λ k. bytes_eq name.now (string_bytes k)) places.now.entries }
{
    places.get(name.as_str()).copied()
}
