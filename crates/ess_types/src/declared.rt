//! The names that statements declare, with their types.
ghost use Rattle.std.specs.Prelude.{◌≡◌, ◌++◌, ◌∷◌, [], map, option_map, IfOk, OnOk};
ghost use Rattle.ess_semantics.specs.Types.{named_ty, type_of_dom as dom_type};
ghost use Rattle.ess_semantics.specs.Judgements.{declares};
ghost use Rattle.ess_core.specs.TypeViews.{pure_ty};
ghost use Rattle.ess_core.specs.TreeViews.{pure_dom};
ghost use Rattle.ess_core.specs.StatementViews.{pure_stm};
ghost use Rattle.ess_types.specs.Entering.{names_of};
ghost use Rattle.ess_types.specs.Progress.{pure_named_ty};

use ess_core::{Boxed, Dom, NoMemory, Row, Stm, Text, Ty};
use ess_types_operators::type_of_dom;
use std::alloc::Global;

/// A declared name with its type: that of its members, where it is a type or a domain.
#[derive(Drop)]
pub struct NamedTy {
    pub name: Text,
    pub ty: Ty,
}

/// The names that a statement declares. `NoMemory` where there is no room for them.
pub(crate) fn declared(alloc: Global, stm: &Stm) -> Result<Row<Text>, NoMemory>
    ensures { IfOk result (λ ns. ns ≡ declares (pure_stm stm.now)) }
{
    match stm {
        Stm::Given(name, _) => one_name(alloc, name),
        Stm::GivenEnum(name) => one_name(alloc, name),
        Stm::LetEx(name, _) => one_name(alloc, name),
        Stm::LetDom(name, _) => one_name(alloc, name),
        Stm::LetEnum(name, values) => with_values(alloc, name, values.as_slice()),
        Stm::LetUnnamed(name, _) => one_name(alloc, name),
        Stm::Find(name, _) => one_name(alloc, name),
        _ => Ok(Row::new(alloc)),
    }
}

/// One name.
fn one_name(alloc: Global, name: &Text) -> Result<Row<Text>, NoMemory>
    ensures { IfOk result (λ ns. ns ≡ name.now ∷ []) }
{
    with_values(alloc, name, &[])
}

/// A name with others behind it.
fn with_values(alloc: Global, name: &Text, values: &[Text]) -> Result<Row<Text>, NoMemory>
    ensures { IfOk result (λ ns. ns ≡ name.now ∷ values.now) }
{
    let mut names = Row::new(alloc);
    names.push(name.copy(alloc)?)?;
    for value in values {
        names.push(value.copy(alloc)?)?;
    }
    Ok(names)
}

/// Adds the names that a statement declares, with their types; `ty` is that of its expression. `NoMemory` where there is no room
/// for them; some of them may then be added.
pub(crate) fn add_names(
    alloc: Global,
    stm: &Stm,
    ty: Option<Boxed<Ty>>,
    names: &mut Row<NamedTy>,
) -> Result<(), NoMemory>
    ensures { OnOk result (map pure_named_ty names.new
        ≡ map pure_named_ty names.old ++ names_of (pure_stm stm.now) (option_map pure_ty ty)) }
{
    match stm {
        Stm::Given(name, dom) => add_in(alloc, name, dom.get(), names),
        Stm::GivenEnum(name) => add_named(alloc, name, name, names),
        Stm::LetEx(name, _) => match ty {
            Some(ty) => add_name(alloc, name, ty, names),
            None => Ok(()),
        },
        Stm::LetDom(name, dom) => add_in(alloc, name, dom.get(), names),
        Stm::LetEnum(name, values) => {
            add_named(alloc, name, name, names)?;
            add_values(alloc, name, values.as_slice(), names)
        }
        Stm::LetUnnamed(name, _) => add_named(alloc, name, name, names),
        Stm::Find(name, dom) => add_in(alloc, name, dom.get(), names),
        _ => Ok(()),
    }
}

/// Adds a name of this type.
#[tactic(auto, using(crate::proofs::Naming::name_added))]
fn add_name(
    alloc: Global,
    name: &Text,
    ty: Boxed<Ty>,
    names: &mut Row<NamedTy>,
) -> Result<(), NoMemory>
    ensures { OnOk result (map pure_named_ty names.new ≡ map pure_named_ty names.old ++ (name.now, pure_ty ty) ∷ []) }
{
    let name = name.copy(alloc)?;
    names.push(NamedTy {
        name,
        ty: ty.into_inner(),
    })
}

/// Adds a name of a domain's type.
fn add_in(alloc: Global, name: &Text, dom: &Dom, names: &mut Row<NamedTy>) -> Result<(), NoMemory>
    ensures { OnOk result (map pure_named_ty names.new ≡ map pure_named_ty names.old ++ (name.now, dom_type (pure_dom dom.now)) ∷ []) }
{
    let ty = type_of_dom(alloc, dom)?;
    add_name(alloc, name, ty, names)
}

/// Adds a name of the named type `of`.
fn add_named(
    alloc: Global,
    name: &Text,
    of: &Text,
    names: &mut Row<NamedTy>,
) -> Result<(), NoMemory>
    ensures { OnOk result (map pure_named_ty names.new ≡ map pure_named_ty names.old ++ (name.now, named_ty of.now) ∷ []) }
{
    let ty = Boxed::new(alloc, Ty::Named(of.copy(alloc)?))?;
    add_name(alloc, name, ty, names)
}

/// Adds the values of the enumerated type `of`.
#[tactic(auto, using(crate::proofs::Naming::values_none, crate::proofs::Naming::values_more, crate::proofs::Naming::values_all))]
fn add_values(
    alloc: Global,
    of: &Text,
    values: &[Text],
    names: &mut Row<NamedTy>,
) -> Result<(), NoMemory>
    ensures { OnOk result (map pure_named_ty names.new ≡ map pure_named_ty names.old ++ map (λ n. (n, named_ty of.now)) values.now) }
{
    for value in values {
        add_named(alloc, value, of, names)?;
    }
    Ok(())
}
