//! The types of names behind a statement.
ghost use Rattle.std.specs.Prelude.{◌≡◌, ◌++◌, ◌∷◌, [], true, false, map, option_map, is_some, IfOk, OnOk};
ghost use Rattle.ess_semantics.specs.Names.{look};
ghost use Rattle.ess_semantics.specs.Types.{named_ty, or_any, type_of_dom};
ghost use Rattle.ess_semantics.specs.Typing.{type_of};
ghost use Rattle.ess_semantics.specs.Lettings.{types_after};
ghost use Rattle.ess_core.specs.TypeViews.{pure_ty};
ghost use Rattle.ess_core.specs.TreeViews.{pure_ex, pure_dom};
ghost use Rattle.ess_core.specs.StatementViews.{pure_stm};
ghost use Rattle.ess_types_names.specs.Tables.{pure_table, pure_declared};
ghost use Rattle.ess_types_names.specs.declared.table.Declared.TheVariants as declared;
ghost use Rattle.ess_types_entering.specs.Behind.{typed_names, are_new};

use ess_core::{Boxed, Dom, Ex, NoMemory, Stm, Text, Ty};
use ess_types_names::{Declared, TypeTable, type_of};
use ess_types_operators::type_of_dom;
use std::alloc::Global;

/// Declares the types of the names that a statement with lettings put in declares, in a table without bound names.
/// Where one of them is declared already, or stands twice, it keeps its type, as the answer says, and perhaps others aren't
/// declared.
/// `NoMemory` where there is no room for them; the table may then have some of them.
#[tactic(auto, using(ess_types_names::proofs::Tables::no_bound, crate::proofs::Values::values_in_front))]
pub fn types_after(alloc: Global, stm: &Stm, table: &mut TypeTable) -> Result<Declared, NoMemory>
    ensures ok { table.old.bound ≡ []
        → IfOk result (λ r. r ≡ declared.Added → pure_table table.new ≡ types_after (pure_stm stm.now) (pure_table table.old)) }
    ensures standing { IfOk result (λ r. r ≡ declared.Standing
        → are_new (typed_names (pure_stm stm.now)) (pure_declared table.old.declared) ≡ false) }
    ensures bound { OnOk result (table.new.bound ≡ table.old.bound) }
{
    match stm {
        Stm::Given(name, dom) => declare_in(alloc, table, name, dom.get()),
        Stm::Find(name, dom) => declare_in(alloc, table, name, dom.get()),
        Stm::LetEx(name, ex) => declare_as(alloc, table, name, ex.get()),
        Stm::LetEnum(name, values) => { Ok(declare_values(alloc, table, name, values.as_slice())?) }
        _ => Ok(Declared::Added),
    }
}

/// Declares a name at the type of a domain.
#[tactic(auto, using(crate::proofs::Values::declared_or_standing))]
fn declare_in(
    alloc: Global,
    table: &mut TypeTable,
    name: &Text,
    dom: &Dom,
) -> Result<Declared, NoMemory>
    ensures ok { IfOk result (λ r. r ≡ declared.Added
        → pure_declared table.new.declared ≡ (name.now, type_of_dom (pure_dom dom.now)) ∷ pure_declared table.old.declared) }
    ensures standing { IfOk result (λ r. r ≡ declared.Standing → are_new (name.now ∷ []) (pure_declared table.old.declared) ≡ false) }
    ensures bound { OnOk result (table.new.bound ≡ table.old.bound) }
{
    let ty = type_of_dom(alloc, dom)?;
    table.declare(alloc, name, ty)
}

/// Declares a name at the type of an expression, or as that of the members of an empty literal where it has none.
#[tactic(auto, using(crate::proofs::Values::declared_or_standing))]
fn declare_as(
    alloc: Global,
    table: &mut TypeTable,
    name: &Text,
    ex: &Ex,
) -> Result<Declared, NoMemory>
    ensures ok { IfOk result (λ r. r ≡ declared.Added
        → pure_declared table.new.declared
        ≡ (name.now, or_any (type_of (pure_ex ex.now) (pure_table table.old))) ∷ pure_declared table.old.declared) }
    ensures standing { IfOk result (λ r. r ≡ declared.Standing → are_new (name.now ∷ []) (pure_declared table.old.declared) ≡ false) }
    ensures bound { OnOk result (table.new.bound ≡ table.old.bound) }
{
    let ty = some_or_any(alloc, type_of(alloc, ex, table)?)?;
    table.declare(alloc, name, ty)
}

/// The type, or that of the members of an empty literal.
fn some_or_any(alloc: Global, ty: Option<Boxed<Ty>>) -> Result<Boxed<Ty>, NoMemory>
    ensures { IfOk result (λ t. pure_ty t ≡ or_any (option_map pure_ty ty)) }
{
    match ty {
        Some(ty) => Ok(ty),
        None => Boxed::new(alloc, Ty::Any),
    }
}

/// Declares the values of an enumerated type, the last one first.
#[tactic(auto, using(crate::proofs::Values::values_more))]
fn declare_values(
    alloc: Global,
    table: &mut TypeTable,
    name: &Text,
    values: &[Text],
) -> Result<Declared, NoMemory>
    ensures ok { IfOk result (λ r. r ≡ declared.Added
        → pure_declared table.new.declared ≡ map (λ n. (n, named_ty name.now)) values.now ++ pure_declared table.old.declared) }
    ensures standing { IfOk result (λ r. r ≡ declared.Standing → are_new values.now (pure_declared table.old.declared) ≡ false) }
    ensures bound { OnOk result (table.new.bound ≡ table.old.bound) }
{
    for k in 0..values.len() {
        match declare_value(alloc, table, name, &values[values.len() - 1 - k])? {
            Declared::Added => {}
            Declared::Standing => return Ok(Declared::Standing),
        }
    }
    Ok(Declared::Added)
}

/// Declares one value of an enumerated type.
#[tactic(auto, using(crate::proofs::Values::declared_or_standing))]
fn declare_value(
    alloc: Global,
    table: &mut TypeTable,
    name: &Text,
    value: &Text,
) -> Result<Declared, NoMemory>
    ensures ok { IfOk result (λ r. r ≡ declared.Added
        → pure_declared table.new.declared ≡ (value.now, named_ty name.now) ∷ pure_declared table.old.declared) }
    ensures standing { IfOk result (λ r. r ≡ declared.Standing → is_some (look (pure_declared table.old.declared) value.now) ≡ true) }
    ensures bound { OnOk result (table.new.bound ≡ table.old.bound) }
{
    let ty = named_type(alloc, name)?;
    table.declare(alloc, value, ty)
}

/// The type of this name.
fn named_type(alloc: Global, name: &Text) -> Result<Boxed<Ty>, NoMemory>
    ensures { IfOk result (λ t. pure_ty t ≡ named_ty name.now) }
{
    Boxed::new(alloc, Ty::Named(name.copy(alloc)?))
}
