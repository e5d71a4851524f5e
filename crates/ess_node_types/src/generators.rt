//! The types of names behind generators.
ghost use Rattle.std.specs.Prelude.{◌≡◌, true, [], ◌∷◌, option_map, IfOk, OnOk};
ghost use Rattle.ess_semantics.specs.Lists.{and_then, when};
ghost use Rattle.ess_semantics.specs.OperatorTypes.{member_ty};
ghost use Rattle.ess_semantics.specs.NamesAt.{names_behind};
ghost use Rattle.ess_semantics.specs.Typing.{source_ty, types_under};
ghost use Rattle.ess_semantics.specs.Trees.{over, from, cond, no_gens};
ghost use Rattle.ess_core.specs.TypeViews.{pure_ty};
ghost use Rattle.ess_core.specs.TreeViews.{pure_pat, gens_of};
ghost use Rattle.ess_core_nodes.specs.NodeViews.{pure_node, pure_dom, pure_gen, pure_gens};
ghost use Rattle.ess_node_types.specs.TypedNames.{pure_names};

use crate::domains::type_of_dom;
use crate::expressions::type_of;
use crate::names::NameTypes;
use ess_core::{Pat, Ty};
use ess_core_nodes::{Gen, Node, NodeDom};
use ess_rows::{Boxed, NoMemory};
use ess_types_operators::{fits_bool, member_type};
use std::alloc::Global;

/// The types of names under generators, where the generators' own types fit. `NoMemory` where there is no room for them.
#[cycle(type_of)]
#[tactic(auto, using(crate::proofs::GeneratorTypes::gens_more, crate::proofs::GeneratorTypes::gens_none, crate::proofs::GeneratorTypes::gens_end))]
pub fn types_under(
    alloc: Global,
    gens: &[Gen],
    names: &NameTypes,
) -> Result<Option<NameTypes>, NoMemory>
    ensures { IfOk result (λ o. option_map pure_names o ≡ types_under (pure_gens gens.now) (pure_names names.now)) }
{
    let mut under = names.copy(alloc)?;
    for item in gens {
        if !enter(alloc, item, &mut under)? {
            return Ok(None);
        }
    }
    Ok(Some(under))
}

/// Binds the names of one generator, where its own types fit.
#[cycle(type_of)]
#[tactic(auto, using(ess_core_nodes::proofs::NodeEquations::pure_gen_over, ess_core_nodes::proofs::NodeEquations::pure_gen_from, ess_core_nodes::proofs::NodeEquations::pure_gen_if))]
fn enter(alloc: Global, item: &Gen, names: &mut NameTypes) -> Result<bool, NoMemory>
    ensures { IfOk result (λ r. types_under (gens_of (pure_gen item.now ∷ [])) (pure_names names.old) ≡ when r (pure_names names.new)) }
{
    match item {
        Gen::Over(pat, dom) => {
            enter_domain(alloc, pat, dom.get(), names)?;
            Ok(true)
        }
        Gen::From(pat, source) => enter_source(alloc, source.get(), pat, names),
        Gen::If(condition) => is_condition(alloc, condition.get(), names),
    }
}

/// Binds the names of a generator over a domain.
fn enter_domain(
    alloc: Global,
    pat: &Pat,
    dom: &NodeDom,
    names: &mut NameTypes,
) -> Result<(), NoMemory>
    ensures fits { OnOk result (types_under (over (pure_pat pat.now) (pure_dom dom.now) no_gens) (pure_names names.old) ≡ when true (pure_names names.new)) }
    ensures behind { OnOk result (names_behind (over (pure_pat pat.now) (pure_dom dom.now) no_gens) (pure_names names.old) ≡ pure_names names.new) }
{
    let ty = type_of_dom(alloc, dom)?;
    names.bind(alloc, pat, ty.get())
}

/// Binds the names of a generator over the members of a value, where it may have some.
#[cycle(type_of)]
#[tactic(auto, using(crate::proofs::GeneratorTypes::source_none, crate::proofs::GeneratorTypes::source_some))]
fn enter_source(
    alloc: Global,
    source: &Node,
    pat: &Pat,
    names: &mut NameTypes,
) -> Result<bool, NoMemory>
    ensures { IfOk result (λ r. types_under (from (pure_pat pat.now) (pure_node source.now) no_gens) (pure_names names.old) ≡ when r (pure_names names.new)) }
{
    let ty = type_of(alloc, source, names)?;
    match member_of(alloc, ty)? {
        Some(member) => {
            names.bind(alloc, pat, member.get())?;
            Ok(true)
        }
        None => Ok(false),
    }
}

/// The type of the members of a type, where there is one.
fn member_of(alloc: Global, ty: Option<Boxed<Ty>>) -> Result<Option<Boxed<Ty>>, NoMemory>
    ensures { IfOk result (λ o. option_map pure_ty o ≡ and_then (option_map pure_ty ty) member_ty) }
{
    match ty {
        Some(ty) => member_type(alloc, ty.get()),
        None => Ok(None),
    }
}

/// Whether a condition is a truth value.
#[cycle(type_of)]
#[tactic(auto, using(crate::proofs::GeneratorTypes::condition_none, crate::proofs::GeneratorTypes::condition_some))]
fn is_condition(alloc: Global, condition: &Node, names: &NameTypes) -> Result<bool, NoMemory>
    ensures { IfOk result (λ r. types_under (cond (pure_node condition.now) no_gens) (pure_names names.now) ≡ when r (pure_names names.now)) }
{
    match type_of(alloc, condition, names)? {
        Some(ty) => Ok(fits_bool(ty.get())),
        None => Ok(false),
    }
}

/// The type of what a generator takes from a source: that of the members of an empty literal, where the source has none. `NoMemory`
/// where there is no room for it.
pub fn source_type(alloc: Global, source: &Node, names: &NameTypes) -> Result<Boxed<Ty>, NoMemory>
    ensures { IfOk result (λ t. pure_ty t ≡ source_ty (pure_node source.now) (pure_names names.now)) }
{
    let ty = type_of(alloc, source, names)?;
    match member_of(alloc, ty)? {
        Some(member) => Ok(member),
        None => Boxed::new(alloc, Ty::Any),
    }
}

/// The types of names behind generators, whether these fit or not. `NoMemory` where there is no room for them.
#[tactic(auto, using(crate::proofs::GeneratorTypes::behind_more, crate::proofs::GeneratorTypes::behind_end))]
pub fn names_behind(alloc: Global, gens: &[Gen], names: &NameTypes) -> Result<NameTypes, NoMemory>
    ensures { IfOk result (λ n. pure_names n ≡ names_behind (pure_gens gens.now) (pure_names names.now)) }
{
    let mut behind = names.copy(alloc)?;
    for item in gens {
        pass(alloc, item, &mut behind)?;
    }
    Ok(behind)
}

/// Binds the names of one generator, whether it fits or not. `NoMemory` where there is no room for them; some may be bound then.
#[tactic(auto, using(ess_core_nodes::proofs::NodeEquations::pure_gen_over, ess_core_nodes::proofs::NodeEquations::pure_gen_from, ess_core_nodes::proofs::NodeEquations::pure_gen_if))]
pub fn pass(alloc: Global, item: &Gen, names: &mut NameTypes) -> Result<(), NoMemory>
    ensures { OnOk result (names_behind (gens_of (pure_gen item.now ∷ [])) (pure_names names.old) ≡ pure_names names.new) }
{
    match item {
        Gen::Over(pat, dom) => enter_domain(alloc, pat, dom.get(), names),
        Gen::From(pat, source) => pass_source(alloc, source.get(), pat, names),
        Gen::If(_) => Ok(()),
    }
}

/// Binds the names of a generator over the members of a value.
fn pass_source(
    alloc: Global,
    source: &Node,
    pat: &Pat,
    names: &mut NameTypes,
) -> Result<(), NoMemory>
    ensures { OnOk result (names_behind (from (pure_pat pat.now) (pure_node source.now) no_gens) (pure_names names.old) ≡ pure_names names.new) }
{
    let ty = source_type(alloc, source, names)?;
    names.bind(alloc, pat, ty.get())
}
