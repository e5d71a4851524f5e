ghost use Rattle.std.specs.Prelude.{◌≡◌, ◌++◌, map, ◌∷◌, ◌≤◌, [], length, reverse, is_some, option_map, IfOk, OnOk, OnErr};
ghost use Rattle.std.specs.Option.{option_copied};
ghost use Rattle.std.specs.List.{find};
ghost use Rattle.std.specs.String.{string_eq};
ghost use Rattle.indexmap.specs.IndexMap.{IsUnique};
ghost use Rattle.ess_semantics.specs.Names.{look};
ghost use Rattle.ess_semantics.specs.Order.{same_text};
ghost use Rattle.ess_semantics.specs.Types.{bind_types};
ghost use Rattle.ess_core.specs.TreeViews.{pure_pat};
ghost use Rattle.ess_core.specs.TypeViews.{pure_ty, pure_field_ty};
ghost use Rattle.ess_types_names.specs.Maps.{entries_of};
ghost use Rattle.ess_types_names.specs.Tables.{Types, pure_table, pure_declared, pure_bound, declared_as, after_declared, unbound, Extends};

use ess_core::{Boxed, FieldTy, NoMemory, Pat, Row, Text, Ty};
use ess_types_operators::bound_types;
use indexmap::IndexMap;
use std::alloc::Global;
use std::cmp::Ordering;
use std::marker::Model;

/// The types of names: the declared ones, found by hash and kept in the order of their declaration, and those bound inside an
/// expression, which hide the declared ones. Of the bound names the newest counts.
#[derive(Drop)]
pub struct TypeTable {
    declared: IndexMap<String, Boxed<Ty>>,
    bound: Row<FieldTy>,
}

impl Model for TypeTable {
    ghost use Rattle.std.specs.String.{string_eq};
    ghost use Rattle.indexmap.specs.IndexMap.{IsUnique};
    ghost use Rattle.ess_core.specs.contracts.types.Ty as ty;
    ghost use Rattle.ess_core.specs.contracts.types.FieldTy as field;
    ghost use Rattle.ess_types_names.specs.Maps.{entries_of};
    ghost use Rattle.ess_types_names.specs.Tables.{Types, types_code};

    ghost Value = { Types };

    ghost coded = { types_code ty.the_row.coded field.the_row.coded };

    ghost view = { λ t. record { declared = entries_of t.declared.entries; bound = t.bound } };

    ghost invariant = { λ t. IsUnique string_eq t.declared };
}

/// Whether a name was declared.
#[derive(Clone, Copy, PartialEq, Eq, Debug)]
pub enum Declared {
    /// It is declared now.
    Added,
    /// It was declared before, and keeps the type that it had.
    Standing,
}

impl TypeTable {
    /// The table without names. Nothing is allocated.
    pub fn new(alloc: Global) -> TypeTable
        ensures { result ≡ record { declared = []; bound = [] } }
    {
        TypeTable {
            declared: IndexMap::new(alloc),
            bound: Row::new(alloc),
        }
    }

    /// Declares a name of this type. Where it is declared already nothing changes, as the answer says. Names that are bound stay
    /// in front of it. `NoMemory` where there is no room for it, and then nothing changes.
    pub fn declare(
        &mut self,
        alloc: Global,
        name: &Text,
        ty: Boxed<Ty>,
    ) -> Result<Declared, NoMemory>
        ensures answer { IfOk result (λ r. r ≡ declared_as self.old name.now) }
        ensures added { IfOk result (λ r. self.new ≡ after_declared r self.old name.now ty) }
        ensures err { OnErr result (self.new ≡ self.old) }
    {
        if declared_type(&self.declared, name).is_some() {
            return Ok(Declared::Standing);
        }
        insert_new(alloc, &mut self.declared, name, ty)?;
        Ok(Declared::Added)
    }

    /// Binds a name of this type. `NoMemory` where there is no room for it, and then nothing changes.
    pub fn bind(&mut self, name: Text, ty: Ty) -> Result<(), NoMemory>
        ensures names { OnOk result (pure_table self.new ≡ (name, pure_ty ty) ∷ pure_table self.old) }
        ensures kept { OnOk result (Extends self.old self.new) }
        ensures err { OnErr result (self.new ≡ self.old) }
    {
        self.bound.push(FieldTy { name, ty })
    }

    /// Binds the names of a pattern, at the parts of a type. `NoMemory` where there is no room for it, and then nothing changes.
    #[tactic(auto, using(crate::proofs::Bound::bind_apart))]
    pub fn bind_pattern(&mut self, alloc: Global, pat: &Pat, ty: &Ty) -> Result<(), NoMemory>
        ensures names { OnOk result (pure_table self.new ≡ bind_types (pure_pat pat.now) (pure_ty ty.now) (pure_table self.old)) }
        ensures kept { OnOk result (Extends self.old self.new) }
        ensures err { OnErr result (self.new ≡ self.old) }
    {
        let mut names = bound_types(alloc, pat, ty)?;
        self.append(&mut names)
    }

    /// Binds further names.
    #[tactic(auto, using(crate::proofs::Tables::appended, crate::proofs::Tables::appended_kept))]
    fn append(&mut self, names: &mut Row<FieldTy>) -> Result<(), NoMemory>
        ensures names { OnOk result (pure_table self.new ≡ reverse (map pure_field_ty names.old) ++ pure_table self.old) }
        ensures kept { OnOk result (Extends self.old self.new) }
        ensures err { OnErr result (self.new ≡ self.old) }
    {
        self.bound.append(names)
    }

    /// How many names are bound.
    pub fn bound_len(&self) -> usize
        ensures { result ≡ length self.now.bound }
    {
        self.bound.len()
    }

    /// Lets go of the bound names behind the first `len`.
    pub fn unbind(&mut self, len: usize)
        ensures { self.new ≡ unbound self.old len }
    {
        self.bound.truncate(len);
    }

    /// The type of a name, if the table has it.
    pub fn look(&self, name: &Text) -> Option<&Ty>
        ensures { option_map pure_ty (option_copied result) ≡ look (pure_table self.now) name.now }
    {
        look_in(&self.declared, self.bound.as_slice(), name)
    }

    /// Whether the table has a name.
    pub fn has(&self, name: &Text) -> bool
        ensures { result ≡ is_some (look (pure_table self.now) name.now) }
    {
        self.look(name).is_some()
    }
}

/// The type of a name among bound and declared ones.
#[tactic(auto, using(crate::proofs::Tables::bound_there, crate::proofs::Tables::bound_none))]
fn look_in<'a>(
    declared: &'a IndexMap<String, Boxed<Ty>>,
    bound: &'a [FieldTy],
    name: &Text,
) -> Option<&'a Ty>
    requires { IsUnique string_eq declared.now }
    ensures { option_map pure_ty (option_copied result) ≡ look (pure_bound bound.now ++ pure_declared (entries_of declared.now.entries)) name.now }
{
    match newest(bound, name) {
        Some(named) => Some(&named.ty),
        None => declared_type(declared, name),
    }
}

/// The last of the names that is this one.
fn newest<'a>(names: &'a [FieldTy], name: &Text) -> Option<&'a FieldTy>
    ensures { option_copied result ≡ find (λ f. same_text f.name name.now) (reverse names.now) }
{
    names
        .iter()
        .rev()
        .find(|named| same_name(&named.name, name))
}

/// Whether two names are equal.
fn same_name(a: &Text, b: &Text) -> bool
    ensures { result ≡ same_text a.now b.now }
{
    a.cmp(b) == Ordering::Equal
}

/// The type of a declared name.
#[tactic(auto, using(crate::proofs::Tables::declared_none))]
fn declared_type<'a>(declared: &'a IndexMap<String, Boxed<Ty>>, name: &Text) -> Option<&'a Ty>
    requires { IsUnique string_eq declared.now }
    ensures { option_map pure_ty (option_copied result) ≡ look (pure_declared (entries_of declared.now.entries)) name.now }
{
    match declared.get(name.as_str()) {
        Some(ty) => Some(ty.get()),
        None => None,
    }
}

/// Declares a name that isn't there.
fn insert_new(
    alloc: Global,
    declared: &mut IndexMap<String, Boxed<Ty>>,
    name: &Text,
    ty: Boxed<Ty>,
) -> Result<(), NoMemory>
    requires unique { IsUnique string_eq declared.old }
    requires absent { look (pure_declared (entries_of declared.old.entries)) name.now ≡ None }
    ensures ok { OnOk result (entries_of declared.new.entries ≡ entries_of declared.old.entries ++ (name.now, ty) ∷ []) }
    ensures err { OnErr result (declared.new.entries ≡ declared.old.entries) }
    ensures still { IsUnique string_eq declared.new }
{
    declared.insert(String::from_str(alloc, name.as_str())?, ty)?;
    Ok(())
}
