//! Names in rows, and those that are bound inside an expression.
ghost use Rattle.std.specs.Prelude.{◌≡◌, ◌++◌, map, OnOk};
ghost use Rattle.ess_semantics.specs.Order.{same_text};
ghost use Rattle.ess_semantics.specs.Names.{is_among as is_name_among, all_distinct as are_all_distinct};
ghost use Rattle.ess_semantics.specs.Types.{pattern_names, all_pattern_names};
ghost use Rattle.ess_core.specs.TreeViews.{pure_pat, pats_of};
ghost use Rattle.ess_types_judging.specs.Bounds.{finds_under};

use ess_core::{NoMemory, Pat, Row, Text};
use ess_types_scopes::NameSet;
use std::alloc::Global;
use std::cmp::Ordering;

/// The names that a generator binds, with whether they depend on a find.
#[derive(Drop)]
pub struct Bound {
    pub names: Row<Text>,
    pub draws: bool,
}

/// Whether two names are equal.
pub(crate) fn same_name(a: &Text, b: &Text) -> bool
    ensures { result ≡ same_text a.now b.now }
{
    a.cmp(b) == Ordering::Equal
}

/// Whether a name is among these.
#[tactic(auto, using(crate::proofs::NameLemmas::among_here, crate::proofs::NameLemmas::among_later, crate::proofs::NameLemmas::among_none))]
pub(crate) fn is_among(names: &[Text], name: &Text) -> bool
    ensures { result ≡ is_name_among names.now name.now }
{
    for (i, other) in names.iter().enumerate() {
        if same_name(other, name) {
            return true;
        }
    }
    false
}

/// Whether no name stands twice.
#[tactic(auto, using(crate::proofs::NameLemmas::distinct_later, crate::proofs::NameLemmas::distinct_here, crate::proofs::NameLemmas::distinct_all))]
pub(crate) fn all_distinct(names: &[Text]) -> bool
    ensures { result ≡ are_all_distinct names.now }
{
    for (i, name) in names.iter().enumerate() {
        if is_among(&names[i + 1..], name) {
            return false;
        }
    }
    true
}

/// Whether a name depends on a find, under bound names; `finds` are those that do without them.
#[tactic(auto, using(crate::proofs::NameLemmas::draws_none, crate::proofs::NameLemmas::draws_bound, crate::proofs::NameLemmas::draws_other, crate::proofs::NameLemmas::draws_all))]
pub(crate) fn draws(bound: &[Bound], finds: &NameSet, name: &Text) -> bool
    ensures { result ≡ is_name_among (finds_under bound.now finds.now) name.now }
{
    let mut found = finds.has(name);
    for (i, one) in bound.iter().enumerate() {
        if is_among(one.names.as_slice(), name) {
            found = one.draws;
        }
    }
    found
}

/// Adds the names that a pattern binds behind others. `NoMemory` where there is no room for them.
#[cycle(pattern)]
pub(crate) fn push_names(alloc: Global, pat: &Pat, names: &mut Row<Text>) -> Result<(), NoMemory>
    ensures { OnOk result (names.new ≡ names.old ++ pattern_names (pure_pat pat.now)) }
{
    match pat {
        Pat::Name(name) => names.push(name.copy(alloc)?),
        Pat::Tuple(pats) => push_all_names(alloc, pats.as_slice(), names),
    }
}

/// Adds the names that several patterns bind.
#[cycle(pattern)]
#[tactic(auto, using(crate::proofs::NameLemmas::names_none, crate::proofs::NameLemmas::names_more, crate::proofs::NameLemmas::names_all))]
fn push_all_names(alloc: Global, pats: &[Pat], names: &mut Row<Text>) -> Result<(), NoMemory>
    ensures { OnOk result (names.new ≡ names.old ++ all_pattern_names (pats_of (map pure_pat pats.now))) }
{
    for (i, pat) in pats.iter().enumerate() {
        push_names(alloc, pat, names)?;
    }
    Ok(())
}
