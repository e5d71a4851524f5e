//! Generators and conditions, resolved.
ghost use Rattle.std.specs.Prelude.{◌≡◌, [], ◌∷◌, map, option_map, if◌then◌else◌, IfOk, OnOk};
ghost use Rattle.ess_semantics.specs.Lists.{and_then};
ghost use Rattle.ess_semantics.specs.OperatorTypes.{member_ty};
ghost use Rattle.ess_semantics.specs.Types.{join, bool_ty, or_any, type_of_dom, bind_types};
ghost use Rattle.ess_semantics.specs.Typing.{types_under, source_ty};
ghost use Rattle.ess_semantics.specs.Trees.{over, from, cond, no_gens};
ghost use Rattle.ess_semantics.specs.Resolving.{resolve, resolve_dom};
ghost use Rattle.ess_core.specs.TypeViews.{pure_ty};
ghost use Rattle.ess_core.specs.TreeViews.{pure_ex, pure_dom, pure_pat, pure_gen, pure_gens, gens_of, over_item, from_item, cond_item};
ghost use Rattle.ess_types_names.specs.Tables.{pure_table, Extends};
ghost use Rattle.ess_types_names.specs.Generators.{under as under_of};
ghost use Rattle.ess_types_names.specs.declared.under.Under.TheVariants.{Fits, Misfits};
ghost use Rattle.ess_types_resolving.specs.Generators.{resolved_item, item_behind, resolved_items, names_behind, fits_of, both_fit};

use crate::domains::resolve_dom;
use crate::expressions::resolve_typed;
use ess_core::{Boxed, Dom, Ex, Gen, NoMemory, Pat, Row, Ty};
use ess_types_names::{TypeTable, Under};
use ess_types_operators::{fits_bool, member_type, type_of_dom};
use std::alloc::Global;

/// Generators and conditions, resolved, each under the names of those before it, and whether their types fit. Their names stay
/// bound at their types.
#[cycle(resolve)]
#[tactic(auto, using(crate::proofs::Comprehensions::trees_more, crate::proofs::Comprehensions::trees_all, crate::proofs::Comprehensions::names_more, crate::proofs::Comprehensions::names_all, crate::proofs::Comprehensions::types_more, crate::proofs::Comprehensions::types_all, ess_types_names::proofs::Tables::extends_itself, ess_types_names::proofs::Tables::extends_on))]
pub(crate) fn resolve_gens(
    alloc: Global,
    gens: &[Gen],
    table: &mut TypeTable,
) -> Result<(Row<Gen>, Under), NoMemory>
    ensures trees { IfOk result (λ r. map pure_gen r.0 ≡ resolved_items (map pure_gen gens.now) (pure_table table.old)) }
    ensures names { OnOk result (pure_table table.new ≡ names_behind (map pure_gen gens.now) (pure_table table.old)) }
    ensures types { IfOk result (λ r. types_under (pure_gens gens.now) (pure_table table.old) ≡ under_of r.1 (pure_table table.new)) }
    ensures kept { OnOk result (Extends table.old table.new) }
{
    let mut resolved = Row::new(alloc);
    let mut under = Under::Fits;
    for item in gens {
        let (made, fits) = enter(alloc, item, table)?;
        resolved.push(made.into_inner())?;
        under = both_fit(under, fits);
    }
    Ok((resolved, under))
}

/// Whether the types of the first and of the second fit.
fn both_fit(first: Under, second: Under) -> Under
    ensures { result ≡ both_fit first second }
{
    match first {
        Under::Fits => second,
        Under::Misfits => Under::Misfits,
    }
}

/// One generator or condition, resolved, and whether its types fit. Its names stay bound.
#[cycle(resolve)]
#[tactic(auto, using(ess_core::proofs::PartEquations::pure_gen_over, ess_core::proofs::PartEquations::pure_gen_from, ess_core::proofs::PartEquations::pure_gen_if))]
fn enter(alloc: Global, item: &Gen, table: &mut TypeTable) -> Result<(Boxed<Gen>, Under), NoMemory>
    ensures tree { IfOk result (λ r. pure_gen r.0 ≡ resolved_item (pure_gen item.now) (pure_table table.old)) }
    ensures names { OnOk result (pure_table table.new ≡ item_behind (pure_gen item.now) (pure_table table.old)) }
    ensures types { IfOk result (λ r. types_under (gens_of (pure_gen item.now ∷ [])) (pure_table table.old)
        ≡ under_of r.1 (pure_table table.new)) }
    ensures kept { OnOk result (Extends table.old table.new) }
{
    match item {
        Gen::Over(pat, dom) => enter_domain(alloc, dom, pat, table),
        Gen::From(pat, source) => enter_source(alloc, source, pat, table),
        Gen::If(condition) => enter_condition(alloc, condition, table),
    }
}

/// A generator over a domain.
#[cycle(resolve)]
fn enter_domain(
    alloc: Global,
    dom: &Dom,
    pat: &Pat,
    table: &mut TypeTable,
) -> Result<(Boxed<Gen>, Under), NoMemory>
    ensures tree { IfOk result (λ r. pure_gen r.0 ≡ over_item (pure_pat pat.now) (resolve_dom (pure_dom dom.now) (pure_table table.old))) }
    ensures names { OnOk result (pure_table table.new
        ≡ bind_types (pure_pat pat.now) (type_of_dom (pure_dom dom.now)) (pure_table table.old)) }
    ensures types { IfOk result (λ r. types_under (over (pure_pat pat.now) (pure_dom dom.now) no_gens) (pure_table table.old)
        ≡ under_of r.1 (pure_table table.new)) }
    ensures kept { OnOk result (Extends table.old table.new) }
{
    let resolved = resolve_dom(alloc, dom, table)?;
    let made = over_node(alloc, pat, resolved)?;
    let ty = type_of_dom(alloc, dom)?;
    table.bind_pattern(alloc, pat, ty.get())?;
    Ok((made, Under::Fits))
}

/// A generator over the members of a value.
#[cycle(resolve)]
#[tactic(auto, using(crate::proofs::Comprehensions::source_under))]
fn enter_source(
    alloc: Global,
    source: &Ex,
    pat: &Pat,
    table: &mut TypeTable,
) -> Result<(Boxed<Gen>, Under), NoMemory>
    ensures tree { IfOk result (λ r. pure_gen r.0 ≡ from_item (pure_pat pat.now) (resolve (pure_ex source.now) (pure_table table.old))) }
    ensures names { OnOk result (pure_table table.new
        ≡ bind_types (pure_pat pat.now) (source_ty (pure_ex source.now) (pure_table table.old)) (pure_table table.old)) }
    ensures types { IfOk result (λ r. types_under (from (pure_pat pat.now) (pure_ex source.now) no_gens) (pure_table table.old)
        ≡ under_of r.1 (pure_table table.new)) }
    ensures kept { OnOk result (Extends table.old table.new) }
{
    let (resolved, ty) = resolve_typed(alloc, source, table)?;
    let made = from_node(alloc, pat, resolved)?;
    let member = member_of(alloc, ty)?;
    let fits = fits_where(&member);
    let member = some_or_any(alloc, member)?;
    table.bind_pattern(alloc, pat, member.get())?;
    Ok((made, fits))
}

/// A condition.
#[cycle(resolve)]
#[tactic(auto, using(crate::proofs::Comprehensions::condition_under, ess_types_names::proofs::Tables::extends_itself))]
fn enter_condition(
    alloc: Global,
    condition: &Ex,
    table: &mut TypeTable,
) -> Result<(Boxed<Gen>, Under), NoMemory>
    ensures tree { IfOk result (λ r. pure_gen r.0 ≡ cond_item (resolve (pure_ex condition.now) (pure_table table.old))) }
    ensures names { OnOk result (pure_table table.new ≡ pure_table table.old) }
    ensures types { IfOk result (λ r. types_under (cond (pure_ex condition.now) no_gens) (pure_table table.old)
        ≡ under_of r.1 (pure_table table.new)) }
    ensures kept { OnOk result (Extends table.old table.new) }
{
    let (resolved, ty) = resolve_typed(alloc, condition, table)?;
    let fits = condition_fits(&ty);
    drop(ty);
    let made = if_node(alloc, resolved)?;
    Ok((made, fits))
}

/// A generator over a domain.
#[tactic(auto, using(ess_core::proofs::PartEquations::pure_gen_over))]
fn over_node(alloc: Global, pat: &Pat, dom: Boxed<Dom>) -> Result<Boxed<Gen>, NoMemory>
    ensures { IfOk result (λ x. pure_gen x ≡ over_item (pure_pat pat.now) (pure_dom dom)) }
{
    let pat = pat.copy(alloc)?;
    Boxed::new(alloc, Gen::Over(pat, dom.into_inner()))
}

/// A generator over the members of a value.
#[tactic(auto, using(ess_core::proofs::PartEquations::pure_gen_from))]
fn from_node(alloc: Global, pat: &Pat, ex: Boxed<Ex>) -> Result<Boxed<Gen>, NoMemory>
    ensures { IfOk result (λ x. pure_gen x ≡ from_item (pure_pat pat.now) (pure_ex ex)) }
{
    let pat = pat.copy(alloc)?;
    Boxed::new(alloc, Gen::From(pat, ex.into_inner()))
}

/// A condition.
#[tactic(auto, using(ess_core::proofs::PartEquations::pure_gen_if))]
fn if_node(alloc: Global, ex: Boxed<Ex>) -> Result<Boxed<Gen>, NoMemory>
    ensures { IfOk result (λ x. pure_gen x ≡ cond_item (pure_ex ex)) }
{
    Boxed::new(alloc, Gen::If(ex.into_inner()))
}

/// The type of the members of a type, where there is one.
fn member_of(alloc: Global, ty: Option<Boxed<Ty>>) -> Result<Option<Boxed<Ty>>, NoMemory>
    ensures { IfOk result (λ o. option_map pure_ty o ≡ and_then (option_map pure_ty ty) member_ty) }
{
    match ty {
        Some(ty) => member_type(alloc, ty.get()),
        None => Ok(None),
    }
}

/// Whether there is a type of members.
fn fits_where(member: &Option<Boxed<Ty>>) -> Under
    ensures { result ≡ fits_of (option_map pure_ty member.now) }
{
    match member {
        Some(_) => Under::Fits,
        None => Under::Misfits,
    }
}

/// The type, or that of the members of an empty literal.
fn some_or_any(alloc: Global, ty: Option<Boxed<Ty>>) -> Result<Boxed<Ty>, NoMemory>
    ensures { IfOk result (λ t. pure_ty t ≡ or_any (option_map pure_ty ty)) }
{
    match ty {
        Some(ty) => Ok(ty),
        None => Boxed::new(alloc, Ty::Any),
    }
}

/// Whether a condition of this type is a truth value.
#[tactic(auto, using(crate::proofs::Comprehensions::fits_some))]
fn condition_fits(ty: &Option<Boxed<Ty>>) -> Under
    ensures { result ≡ fits_of (and_then (option_map pure_ty ty.now) (λ t. join t bool_ty)) }
{
    match ty {
        Some(ty) => fitting(fits_bool(ty.get())),
        None => Under::Misfits,
    }
}

/// The answer of a test.
fn fitting(fits: bool) -> Under
    ensures { result ≡ if fits then Fits else Misfits }
{
    if fits { Under::Fits } else { Under::Misfits }
}
