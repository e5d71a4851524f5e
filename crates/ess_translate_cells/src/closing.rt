//! The domains that the declarations of a model denote.
ghost use Rattle.std.specs.Prelude.{◌≡◌, IfOk, map, true, false};
ghost use Rattle.std.specs.List.{list_all, list_any};
ghost use Rattle.std.specs.Option.{is_some};
ghost use Rattle.ess_semantics.specs.DeclaredTables.{TableDecl};
ghost use Rattle.ess_semantics.specs.ModelMeaning.{model_domain};
ghost use Rattle.ess_semantics.specs.ModelTrees.{all_decls};
ghost use Rattle.ess_semantics.specs.LargeModels.{dom_is_large, decl_is_large};
ghost use Rattle.ess_semantics.specs.Satisfaction.{domain_has_meaning};
ghost use Rattle.ess_grammar.specs.Models.{Scope};
ghost use Rattle.eprime_tree.specs.Views.{pure_dom, pure_decl, pure_decls};
ghost use Rattle.eprime_eval.specs.KnownTables.{IsKnown};
ghost use Rattle.eprime_eval.specs.declared.closing.EvalNo.TheVariants.{Undefined, Big};
ghost use Rattle.eprime_verdicts.specs.Denoting.{InModels, AreDenoted};
ghost use Rattle.ess_translate_cells.specs.ClosedTables.{IsClosedTable, AreClosedTables};

use eprime_eval::{Closed as CellDomain, EvalNo, Under, closed_in};
use eprime_tree::{PDecl, PDom};
use ess_core::Row;
use std::alloc::Global;

/// A declared table with the domains that its axes and its cells denote.
#[derive(Drop)]
pub struct ClosedTable {
    /// Those of its axes.
    pub axes: Row<CellDomain>,
    /// That of its cells.
    pub cell: CellDomain,
}

/// The domains that declarations denote. `Undefined` where one has no meaning, `Big` where a number on the way lies outside 64
/// bits, `NoMemory` where there is no room for them.
pub fn closed_tables(
    alloc: Global,
    decls: &[PDecl],
    under: &Under,
) -> Result<Row<ClosedTable>, EvalNo>
    requires known { IsKnown under.now.known }
    ensures ok { IfOk result (λ rs. AreClosedTables under.now decls.now rs) }
    ensures undefined { result ≡ Err Undefined
        → InModels under.now (λ E q s. (add : Scope → TableDecl → Scope) →
        list_all (domain_has_meaning E q) (pure_decls add s decls.now) ≡ false) }
    ensures big { result ≡ Err Big
        → InModels under.now (λ E q s. (add : Scope → TableDecl → Scope) →
        list_any (decl_is_large (all_decls E) q) (pure_decls add s decls.now) ≡ true) }
{
    let mut closed = Row::new(alloc);
    for decl in decls {
        closed.push(closed_table(alloc, decl, under)?)?;
    }
    Ok(closed)
}

/// The domains that a declaration denotes. The errors are those of `closed_tables`.
fn closed_table(alloc: Global, decl: &PDecl, under: &Under) -> Result<ClosedTable, EvalNo>
    requires known { IsKnown under.now.known }
    ensures ok { IfOk result (λ r. IsClosedTable under.now decl.now r) }
    ensures undefined { result ≡ Err Undefined → InModels under.now (λ E q s. domain_has_meaning E q (pure_decl s decl.now) ≡ false) }
    ensures big { result ≡ Err Big → InModels under.now (λ E q s. decl_is_large (all_decls E) q (pure_decl s decl.now) ≡ true) }
{
    let axes = closed_axes(alloc, decl.axes.as_slice(), under)?;
    let cell = closed_in(alloc, &decl.cell, under)?;
    Ok(ClosedTable { axes, cell })
}

/// The domains that axes denote. The errors are those of `closed_tables`.
fn closed_axes(alloc: Global, doms: &[PDom], under: &Under) -> Result<Row<CellDomain>, EvalNo>
    requires known { IsKnown under.now.known }
    ensures ok { IfOk result (λ rs. AreDenoted under.now doms.now rs) }
    ensures undefined { result ≡ Err Undefined
        → InModels under.now (λ E q s. list_all (λ a. is_some (model_domain (all_decls E) q a)) (map (pure_dom s) doms.now) ≡ false) }
    ensures big { result ≡ Err Big
        → InModels under.now (λ E q s. list_any (dom_is_large (all_decls E) q) (map (pure_dom s) doms.now) ≡ true) }
{
    let mut closed = Row::new(alloc);
    for dom in doms {
        closed.push(closed_in(alloc, dom, under)?)?;
    }
    Ok(closed)
}
