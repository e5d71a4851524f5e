//! A generator that binds a pattern over a value: a name over the value, and each pattern over a component.
ghost use Rattle.std.specs.Prelude.{◌≡◌, IfOk, option_map, map};
ghost use Rattle.ess_semantics.specs.Trees as pure;
ghost use Rattle.ess_semantics.specs.Trees.{comp_ex, name_pat};
ghost use Rattle.ess_core.specs.TypeViews.{pure_ty, pure_tys};
ghost use Rattle.ess_core.specs.TreeViews.{pure_pat, pats_of};
ghost use Rattle.ess_core_nodes.specs.NodeViews.{pure_node, pure_gens};
ghost use Rattle.ess_node_types.specs.TypedNames.{pure_names};
ghost use Rattle.ess_open_rules_laws.specs.OpenSources.{pattern_opened as opened_pattern, components_bound, tuple_parts};
ghost use Rattle.ess_rules_opening.specs.OpenedViews.{tuple_pats, component_bound};

use ess_core::{Pat, Ty};
use ess_core_nodes::{Gen, Node, copy_gens};
use ess_node_building::{component, comprehension, from, name};
use ess_node_types::{NameTypes, source_type};
use ess_rows::{Boxed, NoMemory, Row, Text};
use ess_rules_folds::forms::{comp_in, from_in};
use ess_rules_forms::is_truth;
use std::alloc::Global;

/// `[e | (p, q) <- s, hs]` as `[e | z <- s, p <- [z[1] | ], q <- [z[2] | ], hs]`; z is the name. `NoMemory` where there is no room for it.
#[tactic(auto, using(crate::proofs::PatternForms::pattern_by_parts))]
pub fn pattern_opened(
    alloc: Global,
    types: &NameTypes,
    bound: &Text,
    node: &Node,
) -> Result<Option<Boxed<Node>>, NoMemory>
    ensures { IfOk result (λ o. option_map pure_node o ≡ opened_pattern (pure_names types.now) bound.now (pure_node node.now)) }
{
    let Some((body, gens)) = comp_in(node) else {
        return Ok(None);
    };
    let Some((pat, source, rest)) = from_in(gens) else {
        return Ok(None);
    };
    let Some(pats) = tuple_in(pat) else {
        return Ok(None);
    };
    let ty = source_type(alloc, source, types)?;
    let Some(parts) = parts_in(ty.get()) else {
        return Ok(None);
    };
    let behind = components_bound(alloc, bound, 1, pats, parts, rest)?;
    match behind {
        Some(behind) => Ok(Some(bound_before(alloc, bound, source, behind, body)?)),
        None => Ok(None),
    }
}

/// `[e | z <- s, hs]`.
fn bound_before(
    alloc: Global,
    bound: &Text,
    source: &Node,
    mut behind: Row<Gen>,
    body: &Node,
) -> Result<Boxed<Node>, NoMemory>
    ensures { IfOk result (λ n. pure_node n
        ≡ comp_ex (pure_node body.now) (pure.from (name_pat bound.now) (pure_node source.now) (pure_gens behind))) }
{
    let source = source.copy(alloc)?;
    let mut all = Row::new(alloc);
    all.push(from(alloc, bound, source)?)?;
    all.append(&mut behind)?;
    let body = body.copy(alloc)?;
    comprehension(alloc, body, all)
}

/// The patterns of a tuple.
fn tuple_in(pat: &Pat) -> Option<&[Pat]>
    ensures { option_map (λ ps. pats_of (map pure_pat ps.now)) result ≡ tuple_pats (pure_pat pat.now) }
{
    match pat {
        Pat::Tuple(pats) => Some(pats.as_slice()),
        _ => None,
    }
}

/// The types of the components, where it is that of tuples.
#[tactic(auto, using(ess_core::proofs::TypeEquations::pure_rec))]
fn parts_in(ty: &Ty) -> Option<&[Ty]>
    ensures { option_map (λ ts. pure_tys ts.now) result ≡ tuple_parts (pure_ty ty.now) }
{
    match ty {
        Ty::Tuple(parts) => Some(parts.as_slice()),
        _ => None,
    }
}

/// A generator for each pattern, from the component of this number on, over the component of the name alone, before others.
#[tactic(auto, using(crate::proofs::PatternForms::none_bound, crate::proofs::PatternForms::none_left, crate::proofs::PatternForms::one_bound))]
fn components_bound(
    alloc: Global,
    bound: &Text,
    at: u64,
    pats: &[Pat],
    parts: &[Ty],
    rest: &[Gen],
) -> Result<Option<Row<Gen>>, NoMemory>
    ensures { IfOk result (λ o. option_map pure_gens o
        ≡ components_bound bound.now at (pats_of (map pure_pat pats.now)) (pure_tys parts.now) (pure_gens rest.now)) }
{
    let Some((pat, more)) = pats.split_first() else {
        return match parts.split_first() {
            None => Ok(Some(copy_gens(alloc, rest)?)),
            Some(_) => Ok(None),
        };
    };
    let Some((ty, types)) = parts.split_first() else {
        return Ok(None);
    };
    let Some(next) = at.checked_add(1) else {
        return Err(NoMemory);
    };
    let behind = components_bound(alloc, bound, next, more, types, rest)?;
    match behind {
        Some(behind) => Ok(Some(one_bound(alloc, bound, at, pat, ty, behind)?)),
        None => Ok(None),
    }
}

/// A generator for a pattern over a component of the name alone, before others.
fn one_bound(
    alloc: Global,
    bound: &Text,
    at: u64,
    pat: &Pat,
    ty: &Ty,
    mut behind: Row<Gen>,
) -> Result<Row<Gen>, NoMemory>
    ensures { IfOk result (λ gs. pure_gens gs
        ≡ component_bound bound.now at (pure_pat pat.now) (pure_ty ty.now) (pure_gens behind)) }
{
    let item = component(alloc, is_truth(ty), at, name(alloc, bound)?)?;
    let alone = comprehension(alloc, item, Row::new(alloc))?;
    let pat = pat.copy(alloc)?;
    let mut all = Row::new(alloc);
    all.push(Gen::From(pat, alone))?;
    all.append(&mut behind)?;
    Ok(all)
}
