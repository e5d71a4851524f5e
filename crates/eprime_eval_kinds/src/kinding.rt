ghost use Rattle.std.specs.Prelude.{◌≡◌, [], List, map, IfOk};
ghost use Rattle.ess_semantics.specs.DeclaredTables.{TableDecl};
ghost use Rattle.ess_semantics.specs.ModelMeaning.{kinded as kinded_of, kinded_dom as kinded_dom_of};
ghost use Rattle.ess_grammar.specs.Models as models;
ghost use Rattle.eprime_tree.specs.Views.{pure_ex, pure_dom};
ghost use Rattle.eprime_eval_kinds.specs.KindedViews.{pure_kinded, pure_kdom};
ghost use Rattle.eprime_eval_kinds.specs.Shapes.{shape_of, names_of};

use crate::declared::Declared;
use crate::domains::kinded_domain;
use crate::expressions::kinded_ex;
use crate::nodes::KindedEx;
use crate::tree::KDom;
use eprime_tree::{PDom, PEx};
use ess_rows::{Boxed, NoMemory};
use std::alloc::Global;

/// An expression of a model as it is evaluated under these declarations, with its kind: its pure tree is that of the
/// definitions of the meaning, for every scope in which the expression was read. `NoMemory` where there is no room for it.
pub fn kinded(alloc: Global, ex: &PEx, declared: &Declared) -> Result<KindedEx, NoMemory>
    ensures { IfOk result (λ k. (ds : List TableDecl) (s : models.Scope) → map shape_of ds ≡ declared.now → pure_kinded (names_of declared.now) k ≡ kinded_of ds (pure_ex s ex.now) []) }
{
    kinded_ex(alloc, ex, declared, &[])
}

/// The same of a declared domain.
pub fn kinded_dom(alloc: Global, dom: &PDom, declared: &Declared) -> Result<Boxed<KDom>, NoMemory>
    ensures { IfOk result (λ k. (ds : List TableDecl) (s : models.Scope) → map shape_of ds ≡ declared.now → pure_kdom (names_of declared.now) k ≡ kinded_dom_of ds (pure_dom s dom.now) []) }
{
    kinded_domain(alloc, dom, declared, &[])
}
