ghost use Rattle.std.specs.Prelude.{◌≡◌, [], ◌∷◌, if◌then◌else◌, option_map, IfOk, OnOk};
ghost use Rattle.ess_semantics.specs.Lists.{and_then};
ghost use Rattle.ess_semantics.specs.OperatorTypes.{member_ty};
ghost use Rattle.ess_semantics.specs.Typing.{types_under};
ghost use Rattle.ess_semantics.specs.Trees.{over, from, cond, no_gens};
ghost use Rattle.ess_core.specs.TypeViews.{pure_ty};
ghost use Rattle.ess_core.specs.TreeViews.{pure_ex, pure_dom, pure_pat, pure_gen, pure_gens, gens_of};
ghost use Rattle.ess_types_names.specs.Tables.{pure_table, Extends};
ghost use Rattle.ess_types_names.specs.declared.under.Under.TheVariants.{Fits, Misfits};
ghost use Rattle.ess_types_names.specs.Generators.{under as under_of};

use crate::expressions::type_of;
use crate::table::TypeTable;
use ess_core::{Boxed, Dom, Ex, Gen, NoMemory, Pat, Ty};
use ess_types_operators::{fits_bool, member_type, type_of_dom};
use std::alloc::Global;

/// Whether the types of generators fit.
#[derive(Clone, Copy, PartialEq, Eq, Debug)]
pub enum Under {
    /// Each fits.
    Fits,
    /// Some source has no members, some condition isn't a truth value, or some part has no type.
    Misfits,
}

/// Binds the names of generators at their types, up to the first whose own types don't fit.
/// `NoMemory` where there is no room for it; the table may then hold further bound names.
#[cycle(type_of)]
#[tactic(auto, using(crate::proofs::Generators::gens_more, crate::proofs::Generators::gens_none, crate::proofs::Generators::gens_end, crate::proofs::Tables::extends_itself, crate::proofs::Tables::extends_on))]
pub fn types_under(alloc: Global, gens: &[Gen], table: &mut TypeTable) -> Result<Under, NoMemory>
    ensures ok { IfOk result (λ r. types_under (pure_gens gens.now) (pure_table table.old) ≡ under_of r (pure_table table.new)) }
    ensures kept { OnOk result (Extends table.old table.new) }
{
    for item in gens {
        match enter(alloc, item, table)? {
            Under::Fits => {}
            Under::Misfits => return Ok(Under::Misfits),
        }
    }
    Ok(Under::Fits)
}

/// Binds the names of one generator.
#[cycle(type_of)]
#[tactic(auto, using(ess_core::proofs::PartEquations::pure_gen_over, ess_core::proofs::PartEquations::pure_gen_from, ess_core::proofs::PartEquations::pure_gen_if))]
fn enter(alloc: Global, item: &Gen, table: &mut TypeTable) -> Result<Under, NoMemory>
    ensures ok { IfOk result (λ r. types_under (gens_of (pure_gen item.now ∷ [])) (pure_table table.old) ≡ under_of r (pure_table table.new)) }
    ensures kept { OnOk result (Extends table.old table.new) }
{
    match item {
        Gen::Over(pat, dom) => enter_domain(alloc, pat, dom, table),
        Gen::From(pat, source) => enter_source(alloc, source, pat, table),
        Gen::If(condition) => enter_condition(alloc, condition, table),
    }
}

/// Binds the names of a generator over a domain.
fn enter_domain(
    alloc: Global,
    pat: &Pat,
    dom: &Dom,
    table: &mut TypeTable,
) -> Result<Under, NoMemory>
    ensures ok { IfOk result (λ r. types_under (over (pure_pat pat.now) (pure_dom dom.now) no_gens) (pure_table table.old) ≡ under_of r (pure_table table.new)) }
    ensures kept { OnOk result (Extends table.old table.new) }
{
    let ty = type_of_dom(alloc, dom)?;
    table.bind_pattern(alloc, pat, ty.get())?;
    Ok(Under::Fits)
}

/// Binds the names of a generator over the members of a value.
#[cycle(type_of)]
#[tactic(auto, using(crate::proofs::Generators::source_none, crate::proofs::Generators::source_some, crate::proofs::Tables::extends_itself))]
fn enter_source(
    alloc: Global,
    source: &Ex,
    pat: &Pat,
    table: &mut TypeTable,
) -> Result<Under, NoMemory>
    ensures ok { IfOk result (λ r. types_under (from (pure_pat pat.now) (pure_ex source.now) no_gens) (pure_table table.old) ≡ under_of r (pure_table table.new)) }
    ensures kept { OnOk result (Extends table.old table.new) }
{
    let ty = type_of(alloc, source, table)?;
    match member_of(alloc, ty)? {
        Some(member) => {
            table.bind_pattern(alloc, pat, member.get())?;
            Ok(Under::Fits)
        }
        None => Ok(Under::Misfits),
    }
}

/// The type of the members of a type, where there is one.
fn member_of(alloc: Global, ty: Option<Boxed<Ty>>) -> Result<Option<Boxed<Ty>>, NoMemory>
    ensures { IfOk result (λ o. option_map pure_ty o ≡ and_then (option_map pure_ty ty) member_ty) }
{
    match ty {
        Some(ty) => member_type(alloc, ty.get()),
        None => Ok(None),
    }
}

/// Whether a condition is a truth value.
#[cycle(type_of)]
#[tactic(auto, using(crate::proofs::Generators::condition_none, crate::proofs::Generators::condition_some, crate::proofs::Tables::extends_itself))]
fn enter_condition(alloc: Global, condition: &Ex, table: &mut TypeTable) -> Result<Under, NoMemory>
    ensures ok { IfOk result (λ r. types_under (cond (pure_ex condition.now) no_gens) (pure_table table.old) ≡ under_of r (pure_table table.new)) }
    ensures kept { OnOk result (Extends table.old table.new) }
{
    match type_of(alloc, condition, table)? {
        Some(ty) => Ok(fitting(fits_bool(ty.get()))),
        None => Ok(Under::Misfits),
    }
}

/// The answer of a test.
fn fitting(fits: bool) -> Under
    ensures { result ≡ if fits then Fits else Misfits }
{
    if fits { Under::Fits } else { Under::Misfits }
}
