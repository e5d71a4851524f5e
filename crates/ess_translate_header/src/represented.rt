//! Whether representations are those of the givens and finds of a specification.
ghost use Rattle.std.specs.Prelude.{◌≡◌, ◌++◌, ◌∷◌, map};
ghost use Rattle.std.specs.List.{list_all};
ghost use Rattle.ess_semantics.specs.Names.{Names};
ghost use Rattle.ess_semantics.specs.Order.{same_text};
ghost use Rattle.ess_semantics.specs.Kinds.{fits};
ghost use Rattle.ess_semantics.specs.Trees.{Dom as PureDom};
ghost use Rattle.ess_semantics.specs.Plans.{domain_of_stm};
ghost use Rattle.ess_core.specs.TreeViews.{pure_repr, pure_dom};
ghost use Rattle.ess_core.specs.StatementViews.{pure_stm};
ghost use Rattle.ess_parse.specs.NamedReprViews.{pure_named_reprs};
ghost use Rattle.ess_translate_header_laws.specs.Headers.{are_reprs_of};
ghost use Rattle.ess_translate_header.specs.Views.{represent, are_left, is_for};

use ess_core::{Dom, Repr, Stm, Text};
use ess_parse::NamedReprs;
use ess_repr::fits;
use std::cmp::Ordering;

/// Whether the representations are of exactly the givens and finds with a domain, in order, and fit their domains.
pub fn are_reprs_of(stms: &[Stm], reprs: &[NamedReprs]) -> bool
    ensures { result ≡ represent (map pure_stm stms.now) (map pure_named_reprs reprs.now) }
{
    let mut rest = reprs;
    for stm in stms {
        match behind_statement(stm, rest) {
            Some(more) => rest = more,
            None => return false,
        }
    }
    rest.is_empty()
}

/// The representations behind those of a statement: None where they don't begin with representations that are the statement's.
fn behind_statement<'a>(stm: &Stm, rest: &'a [NamedReprs]) -> Option<&'a [NamedReprs]>
    ensures { (xs : Names PureDom) → are_reprs_of (domain_of_stm (pure_stm stm.now) ++ xs) (map pure_named_reprs rest.now) ≡ are_left xs result }
{
    match stm {
        Stm::Given(name, dom) => behind_name(name, dom.get(), rest),
        Stm::Find(name, dom) => behind_name(name, dom.get(), rest),
        _ => Some(rest),
    }
}

/// The same of a given or find with its domain.
#[tactic(auto, using(crate::proofs::NamesFit::first_fits, crate::proofs::NamesFit::first_fails, crate::proofs::NamesFit::first_lacks))]
fn behind_name<'a>(name: &Text, dom: &Dom, rest: &'a [NamedReprs]) -> Option<&'a [NamedReprs]>
    ensures { (xs : Names PureDom) → are_reprs_of ((name.now, pure_dom dom.now) ∷ xs) (map pure_named_reprs rest.now) ≡ are_left xs result }
{
    match rest.split_first() {
        Some((named, more)) => {
            if is_for(name, dom, named) {
                Some(more)
            } else {
                None
            }
        }
        None => None,
    }
}

/// Whether named representations are those of a name with its domain: the names are equal, and each representation fits.
fn is_for(name: &Text, dom: &Dom, named: &NamedReprs) -> bool
    ensures { result ≡ is_for name.now (pure_dom dom.now) named.now }
{
    same_name(name, &named.name) && all_fit(named.trees.as_slice(), dom)
}

/// Whether two names are equal.
fn same_name(a: &Text, b: &Text) -> bool
    ensures { result ≡ same_text a.now b.now }
{
    a.cmp(b) == Ordering::Equal
}

/// Whether each representation fits the domain.
fn all_fit(trees: &[Repr], dom: &Dom) -> bool
    ensures { result ≡ list_all (λ r. fits (pure_repr r) (pure_dom dom.now)) trees.now }
{
    trees.iter().all(|tree| fits(tree, dom))
}
