//! Names with their types.
ghost use Rattle.std.specs.Prelude.{◌≡◌, [], ◌∷◌, option_map, reverse, IfOk, OnOk};
ghost use Rattle.std.specs.List.{find};
ghost use Rattle.std.specs.Option.{option_copied};
ghost use Rattle.ess_semantics.specs.Order.{same_text};
ghost use Rattle.ess_semantics.specs.Names.{look};
ghost use Rattle.ess_semantics.specs.Types.{bind_types as bind};
ghost use Rattle.ess_core.specs.TreeViews.{pure_pat};
ghost use Rattle.ess_core.specs.TypeViews.{pure_ty};
ghost use Rattle.ess_types_operators.specs.Parts.{newest_first};
ghost use Rattle.ess_node_types.specs.TypedNames.{pure_names};

use ess_core::{FieldTy, Pat, Ty};
use ess_rows::{Boxed, NoMemory, Row, Text};
use ess_types_operators::bind_types;
use std::alloc::Global;
use std::cmp::Ordering;

/// Names with their types, the newest last. Of a name that stands twice the newest counts.
#[derive(Drop)]
pub struct NameTypes {
    pub names: Row<FieldTy>,
}

impl NameTypes {
    /// No names. Nothing is allocated.
    pub fn new(alloc: Global) -> NameTypes
        ensures { pure_names result ≡ [] }
    {
        NameTypes {
            names: Row::new(alloc),
        }
    }

    /// Binds the names of a pattern, at the parts of a type. `NoMemory` where there is no room for it; some of them may be bound then.
    pub fn bind(&mut self, alloc: Global, pat: &Pat, ty: &Ty) -> Result<(), NoMemory>
        ensures { OnOk result (pure_names self.new ≡ bind (pure_pat pat.now) (pure_ty ty.now) (pure_names self.old)) }
    {
        bind_types(alloc, pat, ty, &mut self.names)
    }

    /// These names, with those of a pattern at the parts of a type. `NoMemory` where there is no room for them.
    pub fn with(&self, alloc: Global, pat: &Pat, ty: &Ty) -> Result<NameTypes, NoMemory>
        ensures { IfOk result (λ n. pure_names n ≡ bind (pure_pat pat.now) (pure_ty ty.now) (pure_names self.now)) }
    {
        let mut names = self.copy(alloc)?;
        names.bind(alloc, pat, ty)?;
        Ok(names)
    }

    /// These names, with one more of this type. `NoMemory` where there is no room for them.
    pub fn with_name(&self, alloc: Global, name: &Text, ty: &Ty) -> Result<NameTypes, NoMemory>
        ensures { IfOk result (λ n. pure_names n ≡ (name.now, pure_ty ty.now) ∷ pure_names self.now) }
    {
        let name = name.copy(alloc)?;
        self.with(alloc, &Pat::Name(name), ty)
    }

    /// A copy, which equals these names. `NoMemory` where there is no room for it.
    pub fn copy(&self, alloc: Global) -> Result<NameTypes, NoMemory>
        ensures { IfOk result (λ n. n ≡ self.now) }
    {
        let names = copy_names(alloc, self.names.as_slice())?;
        Ok(NameTypes { names })
    }

    /// The type of a name, if it is among these.
    pub fn look(&self, name: &Text) -> Option<&Ty>
        ensures { option_map pure_ty (option_copied result) ≡ look (pure_names self.now) name.now }
    {
        type_in(self.names.as_slice(), name)
    }
}

/// The type of the last of the names that is this one.
#[tactic(auto, using(crate::proofs::NewestNames::type_there, crate::proofs::NewestNames::type_none))]
fn type_in<'a>(names: &'a [FieldTy], name: &Text) -> Option<&'a Ty>
    ensures { option_map pure_ty (option_copied result) ≡ look (newest_first names.now) name.now }
{
    match newest(names, name) {
        Some(named) => Some(&named.ty),
        None => None,
    }
}

/// The last of the names that is this one.
fn newest<'a>(names: &'a [FieldTy], name: &Text) -> Option<&'a FieldTy>
    ensures { option_copied result ≡ find (λ f. same_text f.name name.now) (reverse names.now) }
{
    names
        .iter()
        .rev()
        .find(|named| same_name(&named.name, name))
}

/// Whether two names are equal.
fn same_name(a: &Text, b: &Text) -> bool
    ensures { result ≡ same_text a.now b.now }
{
    a.cmp(b) == Ordering::Equal
}

/// Copies of names with their types.
fn copy_names(alloc: Global, names: &[FieldTy]) -> Result<Row<FieldTy>, NoMemory>
    ensures { IfOk result (λ ns. ns ≡ names.now) }
{
    let mut copies = Row::with_capacity(alloc, names.len())?;
    for named in names {
        let copy = copy_name(alloc, named)?;
        copies.push(copy.into_inner())?;
    }
    Ok(copies)
}

/// A copy of a name with its type.
fn copy_name(alloc: Global, named: &FieldTy) -> Result<Boxed<FieldTy>, NoMemory>
    ensures { IfOk result (λ n. n ≡ named.now) }
{
    let name = named.name.copy(alloc)?;
    match named.ty.copy(alloc) {
        Ok(ty) => Boxed::new(alloc, FieldTy { name, ty }),
        Err(no) => Err(no),
    }
}
