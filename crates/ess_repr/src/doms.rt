//! Copies of domains in rows and boxes.
ghost use Rattle.std.specs.Prelude.{◌≡◌, IfOk, OnOk, [], ◌∷◌, ◌++◌, map};
ghost use Rattle.ess_semantics.specs.Kinds.{doms_of, dom_list};
ghost use Rattle.ess_core.specs.TreeViews.{field_values, pure_dom, pure_field_dom};

use ess_core::{Boxed, Dom, FieldDom, NoMemory, Row};
use std::alloc::Global;

/// A copy of a domain in a box.
pub(crate) fn boxed(alloc: Global, dom: &Dom) -> Result<Boxed<Dom>, NoMemory>
    ensures { IfOk result (λ d. d ≡ dom.now) }
{
    match dom.copy(alloc) {
        Ok(copy) => Boxed::new(alloc, copy),
        Err(no) => Err(no),
    }
}

/// A copy of a domain, alone in a row.
pub(crate) fn one(alloc: Global, dom: &Dom) -> Result<Row<Dom>, NoMemory>
    ensures { IfOk result (λ ds. ds ≡ dom.now ∷ []) }
{
    match dom.copy(alloc) {
        Ok(copy) => Row::from_array(alloc, [copy]),
        Err(no) => Err(no),
    }
}

/// Puts a copy of a domain behind the others. `NoMemory` where there is no room for it.
pub(crate) fn push_copy(alloc: Global, doms: &mut Row<Dom>, dom: &Dom) -> Result<(), NoMemory>
    ensures { OnOk result (doms.new ≡ doms.old ++ dom.now ∷ []) }
{
    match dom.copy(alloc) {
        Ok(copy) => doms.push(copy),
        Err(no) => Err(no),
    }
}

/// Copies of two domains.
pub(crate) fn two(alloc: Global, first: &Dom, second: &Dom) -> Result<Row<Dom>, NoMemory>
    ensures { IfOk result (λ ds. ds ≡ first.now ∷ second.now ∷ []) }
{
    let mut doms = one(alloc, first)?;
    push_copy(alloc, &mut doms, second)?;
    Ok(doms)
}

/// Copies of the domains.
pub(crate) fn several(alloc: Global, doms: &[Dom]) -> Result<Row<Dom>, NoMemory>
    ensures { IfOk result (λ ds. ds ≡ doms.now) }
{
    let mut copies = Row::with_capacity(alloc, doms.len())?;
    for dom in doms {
        push_copy(alloc, &mut copies, dom)?;
    }
    Ok(copies)
}

/// Copies of the domains of the fields.
#[tactic(auto, using(crate::proofs::ChildRows::fields_more, crate::proofs::ChildRows::fields_all))]
pub(crate) fn domains_of(alloc: Global, fields: &[FieldDom]) -> Result<Row<Dom>, NoMemory>
    ensures { IfOk result (λ ds. map pure_dom ds ≡ dom_list (doms_of (field_values (map pure_field_dom fields.now)))) }
{
    let mut copies = Row::with_capacity(alloc, fields.len())?;
    for field in fields {
        push_copy(alloc, &mut copies, &field.dom)?;
    }
    Ok(copies)
}
