ghost use Rattle.std.specs.Prelude.{◌≡◌, ℕ, ◌<◌, ◌≤◌, true, option_map, IfOk, IfErr};
ghost use Rattle.ess_semantics.specs.Declarations.{cell_count};
ghost use Rattle.ess_semantics.specs.Meaning.{domain_of as domain_meant};
ghost use Rattle.ess_semantics.specs.Large.{is_large_dom};
ghost use Rattle.ess_core.specs.TreeViews.{pure_dom, pure_repr};
ghost use Rattle.ess_core.specs.TableViews.{pure_env};
ghost use Rattle.ess_eval_domains.specs.ClosedViews.{pure_closed};
ghost use Rattle.ess_eval.specs.declared.calls.EvalNo.TheVariants.{Big, TooManyCells, Undefined};
ghost use Rattle.ess_domains_cells.specs.Kept.{kept as kept_of};

use crate::representations::cells_behind;
use ess_core::{Dom, Env, Repr};
use ess_eval::{EvalNo, domain_of};
use ess_eval_domains::Closed;
use std::alloc::Global;

/// The greatest number of cells that tables may have: 2^24.
const MOST_CELLS: u128 = 16777216;

/// How many cells the tables of a representation of a domain have: a table counts with its cells, or with the members of its
/// longest axis where these are more. No axis is listed. `TooManyCells` exactly where there are more than 2^24, with the number,
/// which is kept at 2^100; `Undefined` exactly where a bound, an attribute value or a named type in the domain has no meaning;
/// `Big` where a number in it lies outside 64 bits; `NoMemory` where there is no room for the domain's parts.
#[tactic(auto, using(crate::proofs::CellCounts::told_few, crate::proofs::CellCounts::told_many))]
pub fn cells(alloc: Global, repr: &Repr, dom: &Dom, env: &Env) -> Result<u64, EvalNo>
    ensures ok { IfOk result (λ n. option_map (cell_count (pure_repr repr.now)) (domain_meant (pure_dom dom.now) (pure_env env.now)) ≡ Some n) }
    ensures few { IfOk result (λ n. n ≤ 16777216) }
    ensures too_many { (k : ℕ) → result ≡ Err (TooManyCells k)
        → option_map (λ d. kept_of (cell_count (pure_repr repr.now) d)) (domain_meant (pure_dom dom.now) (pure_env env.now)) ≡ Some k }
    ensures many { (k : ℕ) → result ≡ Err (TooManyCells k) → 16777216 < k }
    ensures undefined { result ≡ Err Undefined → domain_meant (pure_dom dom.now) (pure_env env.now) ≡ None }
    ensures big { result ≡ Err Big → is_large_dom (pure_dom dom.now) (pure_env env.now) ≡ true }
{
    match domain_of(alloc, dom, env)? {
        Some(domain) => counted_cells(repr, domain.get()),
        None => Err(EvalNo::Undefined),
    }
}

/// How many cells the tables of a representation of a domain have, counted as `cells` counts them. `TooManyCells` exactly where there
/// are more than 2^24, with the number, which is kept at 2^100; there is no other error.
#[tactic(auto, using(crate::proofs::CellCounts::few_cells, crate::proofs::CellCounts::many_cells, crate::proofs::CellCounts::many_above))]
pub fn counted_cells(repr: &Repr, domain: &Closed) -> Result<u64, EvalNo>
    ensures ok { IfOk result (λ n. cell_count (pure_repr repr.now) (pure_closed domain.now) ≡ n) }
    ensures few { IfOk result (λ n. n ≤ 16777216) }
    ensures too_many { IfErr result (λ no. no ≡ TooManyCells (kept_of (cell_count (pure_repr repr.now) (pure_closed domain.now)))) }
    ensures many { IfErr result (λ no. 16777216 < kept_of (cell_count (pure_repr repr.now) (pure_closed domain.now))) }
{
    let count = cells_behind(repr, domain, 1, 0);
    if count <= MOST_CELLS {
        Ok(count as u64)
    } else {
        Err(EvalNo::TooManyCells(count))
    }
}
