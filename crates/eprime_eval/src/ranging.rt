ghost use Rattle.std.specs.Prelude.{◌≡◌, IfOk, OnOk, true, map, option_map};
ghost use Rattle.ess_semantics.specs.Lists.{append_all};
ghost use Rattle.ess_semantics.specs.Meaning.{meaning, meanings, as_int, domain_of, spans_of};
ghost use Rattle.ess_semantics.specs.Large.{is_large, any_large, is_large_dom};
ghost use Rattle.eprime_tree.specs.Views.{exs_of};
ghost use Rattle.eprime_eval_kinds.specs.KindedViews.{pure_kex, pure_kdom, pure_krange};
ghost use Rattle.eprime_eval_scalars.specs.Runs.{pure_run};
ghost use Rattle.eprime_eval_scalars.specs.declared.Stop.TheVariants.{Big};
ghost use Rattle.eprime_eval.specs.KnownTables.{IsKnown};
ghost use Rattle.eprime_eval.specs.Environments.{env_at};
ghost use Rattle.eprime_eval.specs.Items.{Gathered};
ghost use Rattle.eprime_eval.specs.ClosedDomains.{pure_closed};

use crate::evaluating::value_at;
use crate::known::Known;
use crate::members::Closed;
use crate::names::Bound;
use crate::{Row, Run, Stop};
use eprime_eval_kinds::{KDom, KEx, KRange};
use eprime_eval_scalars::number_in;
use std::alloc::Global;

/// The domain that a domain expression denotes, where each bound has a meaning.
#[cycle(value)]
#[tactic(auto, using(crate::proofs::Ranges::closed_ranges))]
pub(crate) fn closed_at(
    alloc: Global,
    dom: &KDom,
    known: &Known,
    bound: &mut Row<Bound>,
) -> Result<Option<Closed>, Stop>
    requires known { IsKnown known.now }
    ensures ok { IfOk result (λ o. option_map pure_closed o ≡ domain_of (pure_kdom known.now.names dom.now) (env_at known.now bound.old)) }
    ensures kept { OnOk result (bound.new ≡ bound.old) }
    ensures big { result ≡ Err Big → is_large_dom (pure_kdom known.now.names dom.now) (env_at known.now bound.old) ≡ true }
{
    match dom {
        KDom::Bool => Ok(Some(Closed::Truths)),
        KDom::Int(ranges) => {
            let mut runs = Row::new(alloc);
            if add_ranges(alloc, ranges.as_slice(), known, bound, &mut runs)? {
                Ok(Some(Closed::Numbers(runs)))
            } else {
                Ok(None)
            }
        }
    }
}

/// Puts ranges with their bounds behind others. False where a bound has no meaning.
#[cycle(value)]
#[tactic(auto, using(crate::proofs::Gathering::gathered_on, crate::proofs::Excuses::large_first, crate::proofs::Excuses::large_later))]
fn add_ranges(
    alloc: Global,
    ranges: &[KRange],
    known: &Known,
    bound: &mut Row<Bound>,
    runs: &mut Row<Run>,
) -> Result<bool, Stop>
    requires known { IsKnown known.now }
    ensures ok { IfOk result (λ b. Gathered b (map pure_run runs.old) (map pure_run runs.new)
        (spans_of (map (λ r. r.0) (map (pure_krange known.now.names) ranges.now)) (meanings (exs_of (append_all (map (λ r. r.1) (map (pure_krange known.now.names) ranges.now)))) (env_at known.now bound.old)))) }
    ensures kept { OnOk result (bound.new ≡ bound.old) }
    ensures big { result ≡ Err Big
        → any_large (exs_of (append_all (map (λ r. r.1) (map (pure_krange known.now.names) ranges.now)))) (env_at known.now bound.old) ≡ true }
{
    match ranges.split_first() {
        None => Ok(true),
        Some((KRange::One(ex), rest)) => match number_at(alloc, ex.get(), known, bound)? {
            Some(number) => {
                runs.push(Run {
                    from: Some(number),
                    to: Some(number),
                })?;
                add_ranges(alloc, rest, known, bound, runs)
            }
            None => Ok(false),
        },
        Some((KRange::Between(from, to), rest)) => {
            let from = number_at(alloc, from.get(), known, bound)?;
            let to = number_at(alloc, to.get(), known, bound)?;
            match (from, to) {
                (Some(from), Some(to)) => {
                    runs.push(Run {
                        from: Some(from),
                        to: Some(to),
                    })?;
                    add_ranges(alloc, rest, known, bound, runs)
                }
                (_, _) => Ok(false),
            }
        }
        Some((KRange::From(from), rest)) => match number_at(alloc, from.get(), known, bound)? {
            Some(from) => {
                runs.push(Run {
                    from: Some(from),
                    to: None,
                })?;
                add_ranges(alloc, rest, known, bound, runs)
            }
            None => Ok(false),
        },
        Some((KRange::UpTo(to), rest)) => match number_at(alloc, to.get(), known, bound)? {
            Some(to) => {
                runs.push(Run {
                    from: None,
                    to: Some(to),
                })?;
                add_ranges(alloc, rest, known, bound, runs)
            }
            None => Ok(false),
        },
    }
}

/// The whole number that a bound reads.
#[cycle(value)]
fn number_at(
    alloc: Global,
    ex: &KEx,
    known: &Known,
    bound: &mut Row<Bound>,
) -> Result<Option<i64>, Stop>
    requires known { IsKnown known.now }
    ensures ok { IfOk result (λ o. o ≡ as_int (meaning (pure_kex known.now.names ex.now) (env_at known.now bound.old))) }
    ensures kept { OnOk result (bound.new ≡ bound.old) }
    ensures big { result ≡ Err Big → is_large (pure_kex known.now.names ex.now) (env_at known.now bound.old) ≡ true }
{
    match value_at(alloc, ex, known, bound)? {
        Some(scalar) => Ok(Some(number_in(scalar))),
        None => Ok(None),
    }
}
