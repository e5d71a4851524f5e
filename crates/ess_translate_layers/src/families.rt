//! Families of domains, each with layers in a crate of its own.
ghost use Rattle.std.specs.Prelude.{◌≡◌};
ghost use Rattle.ess_eval_domains.specs.ClosedViews.{pure_closed};
ghost use Rattle.ess_translate_layers.specs.Families.{family_of};

use ess_eval_domains::Closed;

/// Whose layers a domain has.
#[derive(Clone, Copy, Debug, PartialEq, Eq)]
pub(crate) enum Family {
    /// Atoms and matrices.
    Scalars,
    /// Sets and multisets.
    Collections,
    /// Functions.
    Functions,
    /// Relations and partitions.
    Relations,
    /// Tuples and records: their layers have a child for each component.
    Compounds,
}

/// The family of a domain.
#[tactic(auto, using(ess_eval_domains::proofs::ClosedEquations::pure_closed_tuple, ess_eval_domains::proofs::ClosedEquations::pure_closed_rec))]
pub(crate) fn domain_family(domain: &Closed) -> Family
    ensures { result ≡ family_of (pure_closed domain.now) }
{
    match domain {
        Closed::Bool => Family::Scalars,
        Closed::Int(_) => Family::Scalars,
        Closed::Named(_, _) => Family::Scalars,
        Closed::Matrix(_, _) => Family::Scalars,
        Closed::Set(_, _) => Family::Collections,
        Closed::MSet(_, _) => Family::Collections,
        Closed::Function(_, _, _) => Family::Functions,
        Closed::Relation(_, _) => Family::Relations,
        Closed::Partition(_, _) => Family::Relations,
        Closed::Tuple(_) => Family::Compounds,
        Closed::Rec(_) => Family::Compounds,
    }
}
