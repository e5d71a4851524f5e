//! The names of patterns told apart.
ghost use Rattle.std.specs.Prelude.{◌≡◌, suc, IfOk, OnOk, map};
ghost use Rattle.ess_semantics.specs.Trees.{name_pat};
ghost use Rattle.ess_core.specs.TreeViews.{pure_pat, pats_of, over_item, from_item};
ghost use Rattle.ess_core_nodes.specs.NodeViews.{pure_node, pure_dom, pure_gen};
ghost use Rattle.conjure_model_laws.specs.ToldApart.{reserved, told_pat, told_pats};
ghost use Rattle.ess_model_names.specs.Renames.{pure_scope, Extends};

use crate::scopes::{Renamed, bind};
use ess_core::Pat;
use ess_core_nodes::{Gen, Node, NodeDom};
use ess_rows::{Boxed, NoMemory, Row, Text};
use std::alloc::Global;

/// A generator over a domain with the next reserved names, and what the names of its pattern have become bound behind the others.
#[tactic(auto, using(ess_core_nodes::proofs::NodeEquations::pure_gen_over))]
pub(crate) fn told_over(
    alloc: Global,
    pat: &Pat,
    dom: Boxed<NodeDom>,
    scope: &mut Row<Renamed>,
    next: &mut u64,
) -> Result<Boxed<Gen>, NoMemory>
    ensures tree { IfOk result (λ g. pure_gen g
        ≡ over_item (told_pat (pure_pat pat.now) (pure_scope scope.old) next.old).0 (pure_dom dom)) }
    ensures names { OnOk result (pure_scope scope.new ≡ (told_pat (pure_pat pat.now) (pure_scope scope.old) next.old).1) }
    ensures next { OnOk result (next.new ≡ (told_pat (pure_pat pat.now) (pure_scope scope.old) next.old).2) }
    ensures kept { OnOk result (Extends scope.old scope.new) }
{
    let pat = told_pat(alloc, pat, scope, next)?;
    Boxed::new(alloc, Gen::Over(pat.into_inner(), dom))
}

/// A generator over a value with the next reserved names, and what the names of its pattern have become bound behind the others.
#[tactic(auto, using(ess_core_nodes::proofs::NodeEquations::pure_gen_from))]
pub(crate) fn told_from(
    alloc: Global,
    pat: &Pat,
    value: Boxed<Node>,
    scope: &mut Row<Renamed>,
    next: &mut u64,
) -> Result<Boxed<Gen>, NoMemory>
    ensures tree { IfOk result (λ g. pure_gen g
        ≡ from_item (told_pat (pure_pat pat.now) (pure_scope scope.old) next.old).0 (pure_node value)) }
    ensures names { OnOk result (pure_scope scope.new ≡ (told_pat (pure_pat pat.now) (pure_scope scope.old) next.old).1) }
    ensures next { OnOk result (next.new ≡ (told_pat (pure_pat pat.now) (pure_scope scope.old) next.old).2) }
    ensures kept { OnOk result (Extends scope.old scope.new) }
{
    let pat = told_pat(alloc, pat, scope, next)?;
    Boxed::new(alloc, Gen::From(pat.into_inner(), value))
}

/// A pattern with the next reserved names, and what its names have become bound behind the others.
#[cycle(told_pat)]
fn told_pat(
    alloc: Global,
    pat: &Pat,
    scope: &mut Row<Renamed>,
    next: &mut u64,
) -> Result<Boxed<Pat>, NoMemory>
    ensures tree { IfOk result (λ p. pure_pat p ≡ (told_pat (pure_pat pat.now) (pure_scope scope.old) next.old).0) }
    ensures names { OnOk result (pure_scope scope.new ≡ (told_pat (pure_pat pat.now) (pure_scope scope.old) next.old).1) }
    ensures next { OnOk result (next.new ≡ (told_pat (pure_pat pat.now) (pure_scope scope.old) next.old).2) }
    ensures kept { OnOk result (Extends scope.old scope.new) }
{
    match pat {
        Pat::Name(name) => told_name(alloc, name, scope, next),
        Pat::Tuple(pats) => {
            let pats = told_pats(alloc, pats.as_slice(), scope, next)?;
            Boxed::new(alloc, Pat::Tuple(pats))
        }
    }
}

/// The same of several patterns.
#[cycle(told_pat)]
#[tactic(auto, using(crate::proofs::ScopeLaws::extends_itself, crate::proofs::ScopeLaws::extends_on))]
fn told_pats(
    alloc: Global,
    pats: &[Pat],
    scope: &mut Row<Renamed>,
    next: &mut u64,
) -> Result<Row<Pat>, NoMemory>
    ensures tree { IfOk result (λ ps. pats_of (map pure_pat ps)
        ≡ (told_pats (pats_of (map pure_pat pats.now)) (pure_scope scope.old) next.old).0) }
    ensures names { OnOk result (pure_scope scope.new ≡ (told_pats (pats_of (map pure_pat pats.now)) (pure_scope scope.old) next.old).1) }
    ensures next { OnOk result (next.new ≡ (told_pats (pats_of (map pure_pat pats.now)) (pure_scope scope.old) next.old).2) }
    ensures kept { OnOk result (Extends scope.old scope.new) }
{
    let mut told = Row::with_capacity(alloc, pats.len())?;
    for pat in pats {
        let item = told_pat(alloc, pat, scope, next)?;
        told.push(item.into_inner())?;
    }
    Ok(told)
}

/// A name with the next reserved name, and what it has become bound behind the others.
fn told_name(
    alloc: Global,
    name: &Text,
    scope: &mut Row<Renamed>,
    next: &mut u64,
) -> Result<Boxed<Pat>, NoMemory>
    ensures tree { IfOk result (λ p. pure_pat p ≡ (told_pat (name_pat name.now) (pure_scope scope.old) next.old).0) }
    ensures names { OnOk result (pure_scope scope.new ≡ (told_pat (name_pat name.now) (pure_scope scope.old) next.old).1) }
    ensures next { OnOk result (next.new ≡ (told_pat (name_pat name.now) (pure_scope scope.old) next.old).2) }
    ensures kept { OnOk result (Extends scope.old scope.new) }
{
    let to = reserved_name(alloc, *next)?;
    bind(alloc, scope, name, &to)?;
    *next = counted_on(*next)?;
    Boxed::new(alloc, Pat::Name(to))
}

/// The reserved name with a number.
fn reserved_name(alloc: Global, number: u64) -> Result<Text, NoMemory>
    ensures { IfOk result (λ t. t ≡ reserved number) }
{
    let mut name = Text::new(alloc);
    name.push_byte(b'#')?;
    name.push_u64(number)?;
    Ok(name)
}

/// The number after this one. `NoMemory` where it can't be counted.
fn counted_on(number: u64) -> Result<u64, NoMemory>
    ensures { IfOk result (λ n. n ≡ suc number) }
{
    match number.checked_add(1) {
        Some(next) => Ok(next),
        None => Err(NoMemory),
    }
}
