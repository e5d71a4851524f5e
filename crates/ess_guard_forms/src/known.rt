//! What is known of bound names: the domain that each runs over, where a single name runs over one.
ghost use Rattle.std.specs.Prelude.{◌≡◌, option_map, reverse, IfOk, OnOk, map};
ghost use Rattle.std.specs.List.{find};
ghost use Rattle.std.specs.Option.{option_copied};
ghost use Rattle.ess_semantics.specs.Order.{same_text};
ghost use Rattle.ess_semantics.specs.Names.{look};
ghost use Rattle.ess_guard_laws.specs.Origins.{with_any, with_all_any, with_over};
ghost use Rattle.ess_core.specs.TreeViews.{pure_pat, pats_of};
ghost use Rattle.ess_core_nodes.specs.NodeViews.{pure_dom};
ghost use Rattle.ess_guard_forms.specs.KnownNames.{pure_origin, pure_known};

use ess_core::Pat;
use ess_core_nodes::NodeDom;
use ess_rows::{Boxed, NoMemory, Row, Text};
use std::alloc::Global;
use std::cmp::Ordering;

/// A bound name, with the domain that it runs over, if one is known. The names that are bound around a tree stand in a row, the
/// innermost last.
#[derive(Drop)]
pub struct KnownName {
    pub name: Text,
    pub dom: Option<Boxed<NodeDom>>,
}

/// What is known of a name: that of the innermost binding. Nothing where it isn't bound.
#[tactic(auto, using(crate::proofs::Lookups::known_there, crate::proofs::Lookups::known_none))]
pub(crate) fn known_of<'a>(known: &'a [KnownName], name: &Text) -> Option<&'a KnownName>
    ensures { option_map (λ b. pure_origin b.dom) (option_copied result) ≡ look (pure_known known.now) name.now }
{
    newest(known, name)
}

/// The last of the names that is this one.
fn newest<'a>(known: &'a [KnownName], name: &Text) -> Option<&'a KnownName>
    ensures { option_copied result ≡ find (λ b. same_text b.name name.now) (reverse known.now) }
{
    known
        .iter()
        .rev()
        .find(|entry| same_name(&entry.name, name))
}

/// Whether two names are equal.
pub(crate) fn same_name(a: &Text, b: &Text) -> bool
    ensures { result ≡ same_text a.now b.now }
{
    a.cmp(b) == Ordering::Equal
}

/// Binds the names of a pattern, of which nothing is known. `NoMemory` where there is no room for them.
#[cycle(bind)]
#[tactic(auto, using(crate::proofs::Lookups::one_more, ess_core::proofs::PartEquations::pure_pat_name, ess_core::proofs::PartEquations::pure_pat_tuple))]
pub fn bind_any(alloc: Global, known: &mut Row<KnownName>, pat: &Pat) -> Result<(), NoMemory>
    ensures { OnOk result (pure_known known.new ≡ with_any (pure_pat pat.now) (pure_known known.old)) }
{
    match pat {
        Pat::Name(name) => {
            let name = name.copy(alloc)?;
            known.push(KnownName { name, dom: None })
        }
        Pat::Tuple(pats) => bind_all_any(alloc, known, pats.as_slice()),
    }
}

/// Binds the names of several patterns, of which nothing is known.
#[cycle(bind)]
fn bind_all_any(alloc: Global, known: &mut Row<KnownName>, pats: &[Pat]) -> Result<(), NoMemory>
    ensures { OnOk result (pure_known known.new ≡ with_all_any (pats_of (map pure_pat pats.now)) (pure_known known.old)) }
{
    for pat in pats {
        bind_any(alloc, known, pat)?;
    }
    Ok(())
}

/// Binds the names of a pattern over a domain: of the names of a tuple nothing is known. `NoMemory` where there is no room for them.
#[tactic(auto, using(crate::proofs::Lookups::one_more, ess_core::proofs::PartEquations::pure_pat_name, ess_core::proofs::PartEquations::pure_pat_tuple))]
pub fn bind_over(
    alloc: Global,
    known: &mut Row<KnownName>,
    pat: &Pat,
    dom: &NodeDom,
) -> Result<(), NoMemory>
    ensures { OnOk result (pure_known known.new ≡ with_over (pure_pat pat.now) (pure_dom dom.now) (pure_known known.old)) }
{
    match pat {
        Pat::Name(name) => {
            let name = name.copy(alloc)?;
            let dom = dom.copy(alloc)?;
            known.push(KnownName {
                name,
                dom: Some(dom),
            })
        }
        Pat::Tuple(pats) => bind_all_any(alloc, known, pats.as_slice()),
    }
}

/// A copy of what is known, in order. `NoMemory` where there is no room for it.
pub fn copy_known(alloc: Global, known: &[KnownName]) -> Result<Row<KnownName>, NoMemory>
    ensures { IfOk result (λ ks. ks ≡ known.now) }
{
    let mut copies = Row::with_capacity(alloc, known.len())?;
    for entry in known {
        let copy = entry.copy(alloc)?;
        copies.push(copy)?;
    }
    Ok(copies)
}

impl KnownName {
    /// A copy, which equals this entry. `NoMemory` where there is no room for it.
    pub fn copy(&self, alloc: Global) -> Result<KnownName, NoMemory>
        ensures { IfOk result (λ k. k ≡ self.now) }
    {
        let name = self.name.copy(alloc)?;
        match &self.dom {
            Some(dom) => {
                let dom = dom.get().copy(alloc)?;
                Ok(KnownName {
                    name,
                    dom: Some(dom),
                })
            }
            None => Ok(KnownName { name, dom: None }),
        }
    }
}
