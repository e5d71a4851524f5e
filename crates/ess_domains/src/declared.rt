ghost use Rattle.std.specs.Prelude.{◌≡◌};
ghost use Rattle.ess_semantics.specs.Names.{is_among as stands_among};
ghost use Rattle.ess_semantics.specs.Judgements.{declares as declared_by};
ghost use Rattle.ess_semantics.specs.Parameters.{given_of, given_enum_of, givens, given_enums, all_declared};
ghost use Rattle.ess_semantics.specs.Solutions.{find_of, finds};
ghost use Rattle.ess_core.specs.StatementViews.{pure_stm};
ghost use Rattle.ess_domains.specs.Walked.{pure_stms};

use crate::names::{is_among, same_name};
use ess_core::{Stm, Text};

/// Whether a name is a given of these statements.
#[tactic(auto, using(crate::proofs::DeclaredNames::givens_any))]
pub(crate) fn is_given(stms: &[Stm], name: &Text) -> bool
    ensures { result ≡ stands_among (givens (pure_stms stms.now)) name.now }
{
    for stm in stms {
        if is_given_of(stm, name) {
            return true;
        }
    }
    false
}

/// Whether a name is a given enumerated type of these statements.
#[tactic(auto, using(crate::proofs::DeclaredNames::given_enums_any))]
pub(crate) fn is_given_enum(stms: &[Stm], name: &Text) -> bool
    ensures { result ≡ stands_among (given_enums (pure_stms stms.now)) name.now }
{
    for stm in stms {
        if is_given_enum_of(stm, name) {
            return true;
        }
    }
    false
}

/// Whether a name is a find of these statements.
#[tactic(auto, using(crate::proofs::DeclaredNames::finds_any))]
pub(crate) fn is_find(stms: &[Stm], name: &Text) -> bool
    ensures { result ≡ stands_among (finds (pure_stms stms.now)) name.now }
{
    for stm in stms {
        if is_find_of(stm, name) {
            return true;
        }
    }
    false
}

/// Whether some statement declares a name.
#[tactic(auto, using(crate::proofs::DeclaredNames::declared_any))]
pub(crate) fn is_declared(stms: &[Stm], name: &Text) -> bool
    ensures { result ≡ stands_among (all_declared (pure_stms stms.now)) name.now }
{
    for stm in stms {
        if declares(stm, name) {
            return true;
        }
    }
    false
}

/// Whether a name is the given of a statement.
fn is_given_of(stm: &Stm, name: &Text) -> bool
    ensures { result ≡ stands_among (given_of (pure_stm stm.now)) name.now }
{
    match stm {
        Stm::Given(own, _) => same_name(own, name),
        Stm::GivenEnum(own) => same_name(own, name),
        _ => false,
    }
}

/// Whether a name is the given enumerated type of a statement.
fn is_given_enum_of(stm: &Stm, name: &Text) -> bool
    ensures { result ≡ stands_among (given_enum_of (pure_stm stm.now)) name.now }
{
    match stm {
        Stm::GivenEnum(own) => same_name(own, name),
        _ => false,
    }
}

/// Whether a name is the find of a statement.
fn is_find_of(stm: &Stm, name: &Text) -> bool
    ensures { result ≡ stands_among (find_of (pure_stm stm.now)) name.now }
{
    match stm {
        Stm::Find(own, _) => same_name(own, name),
        _ => false,
    }
}

/// Whether a statement declares a name.
fn declares(stm: &Stm, name: &Text) -> bool
    ensures { result ≡ stands_among (declared_by (pure_stm stm.now)) name.now }
{
    match stm {
        Stm::Given(own, _) => same_name(own, name),
        Stm::GivenEnum(own) => same_name(own, name),
        Stm::LetEx(own, _) => same_name(own, name),
        Stm::LetDom(own, _) => same_name(own, name),
        Stm::LetEnum(own, names) => same_name(own, name) || is_among(names.as_slice(), name),
        Stm::LetUnnamed(own, _) => same_name(own, name),
        Stm::Find(own, _) => same_name(own, name),
        _ => false,
    }
}
