ghost use Rattle.std.specs.Prelude.{◌≡◌, ◌++◌, true, map, IfOk, IfErr, OnOk};
ghost use Rattle.ess_semantics.specs.Assignments.{unnamed_size_at};
ghost use Rattle.ess_semantics.specs.LargeSpecifications.{declares_large_number};
ghost use Rattle.ess_core.specs.TableViews.{pure_env};
ghost use Rattle.ess_core.specs.StatementViews.{pure_stm};
ghost use Rattle.ess_eval.specs.Stops.{is_big_or_memory};
ghost use Rattle.ess_eval.specs.declared.calls.EvalNo.TheVariants.{Big};
ghost use Rattle.ess_domains.specs.Assignments.{pure_assignment};
ghost use Rattle.ess_domains.specs.Prepared.{sizes, has_large_declared};
ghost use Rattle.ess_domains.specs.Sizes.{pure_size};
ghost use Rattle.ess_domains.specs.Walked.{pure_stms, walked};

use crate::assignments::Assignment;
use crate::environments::{go_on, no_env, size_of};
use crate::rooms::with_room;
use crate::unnamed::TypeSize;
use ess_core::{Env, Row, Stm};
use ess_eval::{EvalNo, value};
use std::alloc::Global;

/// The unnamed types of a specification with their sizes, under a parameter and a solution.
#[tactic(auto, using(crate::proofs::Walks::sizes_walk))]
pub(crate) fn sizes_of(
    alloc: Global,
    stms: &[Stm],
    param: &Assignment,
    sol: &Assignment,
) -> Result<Row<TypeSize>, EvalNo>
    ensures ok { IfOk result (λ r. map pure_size r ≡ sizes (pure_stms stms.now) (pure_assignment param.now) (pure_assignment sol.now)) }
    ensures big { result ≡ Err Big → has_large_declared (walked stms.now param.now sol.now) ≡ true }
    ensures stops { IfErr result (λ no. is_big_or_memory no ≡ true) }
{
    let mut env = no_env(alloc);
    let mut found = Row::new(alloc);
    for stm in stms {
        add_size(alloc, stm, &env, &mut found)?;
        go_on(alloc, stm, param, sol, &mut env)?;
    }
    Ok(found)
}

/// Puts the unnamed type of a statement with its size behind others.
fn add_size(alloc: Global, stm: &Stm, env: &Env, found: &mut Row<TypeSize>) -> Result<(), EvalNo>
    ensures ok { OnOk result (map pure_size found.new
        ≡ map pure_size found.old ++ unnamed_size_at (pure_stm stm.now) (pure_env env.now)) }
    ensures big { result ≡ Err Big → declares_large_number (pure_stm stm.now) (pure_env env.now) ≡ true }
    ensures stops { IfErr result (λ no. is_big_or_memory no ≡ true) }
{
    match stm {
        Stm::LetUnnamed(name, size) => {
            let count = size_of(value(alloc, size.get(), env)?);
            let name = with_room(name.copy(alloc))?;
            with_room(found.push(TypeSize { name, count }))
        }
        _ => Ok(()),
    }
}
