//! What is in scope at a part of a statement.
ghost use Rattle.std.specs.Prelude.{◌≡◌, ◌++◌, OnOk};
ghost use Rattle.ess_semantics.specs.Names.{keys, is_among as is_name_among};
ghost use Rattle.ess_semantics.specs.Scopes.{names_in_scope, with_bound};
ghost use Rattle.ess_core.specs.TypeViews.{pure_ty};
ghost use Rattle.ess_core.specs.TreeViews.{pure_pat};
ghost use Rattle.ess_types_judging.specs.ScopeViews.{pure_scope, Deeper, left_at};

use crate::bounds::{Bound, draws, push_names};
use ess_core::{NoMemory, Pat, Row, Text, Ty};
use ess_types_names::TypeTable;
use ess_types_scopes::{Lettings, NameSet};
use std::alloc::Global;

/// What is in scope: the types of names; the lettings; the enumerated and the unnamed types, and the declared names that depend
/// on a find; the names bound inside an expression; and whether there is an objective.
#[derive(Drop)]
pub struct Scope {
    pub table: TypeTable,
    pub lettings: Lettings,
    pub enums: NameSet,
    pub unnamed: NameSet,
    pub finds: NameSet,
    pub bound: Row<Bound>,
    pub objective: bool,
}

/// Whether a name is one of a type or domain.
#[tactic(auto, using(crate::proofs::ScopeLemmas::among_three))]
pub(crate) fn knows_domain(scope: &Scope, name: &Text) -> bool
    ensures { result ≡ is_name_among ((pure_scope scope.now).enums ++ (pure_scope scope.now).unnamed ++ keys (pure_scope scope.now).lets.doms) name.now }
{
    let enumerated = scope.enums.has(name);
    let unnamed = scope.unnamed.has(name);
    let letting = scope.lettings.has_dom(name);
    (enumerated | unnamed) | letting
}

/// Whether a name is declared or bound.
#[tactic(auto, using(crate::proofs::ScopeLemmas::among_all))]
pub fn knows_name(scope: &Scope, name: &Text) -> bool
    ensures { result ≡ is_name_among (names_in_scope (pure_scope scope.now)) name.now }
{
    let typed = scope.table.has(name);
    let other = knows_domain(scope, name);
    typed | other
}

/// Whether a name depends on a find.
pub(crate) fn depends_on_finds(scope: &Scope, name: &Text) -> bool
    ensures { result ≡ is_name_among (pure_scope scope.now).depends_on_finds name.now }
{
    draws(scope.bound.as_slice(), &scope.finds, name)
}

/// Binds the names of a pattern at a type; `draws` says whether they depend on a find. `NoMemory` where there is no room for
/// them.
#[tactic(auto, using(crate::proofs::ScopeLemmas::finds_pushed, crate::proofs::ScopeLemmas::taken_back))]
pub(crate) fn enter(
    alloc: Global,
    pat: &Pat,
    ty: &Ty,
    draws: bool,
    scope: &mut Scope,
) -> Result<(), NoMemory>
    ensures entered { OnOk result (pure_scope scope.new ≡ with_bound draws (pure_pat pat.now) (pure_ty ty.now) (pure_scope scope.old)) }
    ensures kept { OnOk result (Deeper scope.old scope.new) }
{
    let mut names = Row::new(alloc);
    push_names(alloc, pat, &mut names)?;
    scope.table.bind_pattern(alloc, pat, ty)?;
    scope.bound.push(Bound { names, draws })
}

/// Lets go of the bound names behind the first: `types` of them, those of `generators` generators.
pub(crate) fn leave(scope: &mut Scope, types: usize, generators: usize)
    ensures { scope.new ≡ left_at scope.old types generators }
{
    scope.table.unbind(types);
    scope.bound.truncate(generators);
}
