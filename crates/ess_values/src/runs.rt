ghost use Rattle.std.specs.Prelude.{◌≡◌, List, [], ◌∷◌, ◌++◌, pos, ◌+ℤ◌, IfOk, OnOk};
ghost use Rattle.std.specs.Ordering.{int_eq};
ghost use Rattle.ess_core.specs.ValueViews.{pure_vals};
ghost use Rattle.ess_grammar.specs.ValueTexts.{Run as PureRun, runs_of, before_runs};
ghost use Rattle.ess_values.specs.Printing.{runs_before};
ghost use Rattle.ess_values.specs.Runs.{pure_run, pure_runs};

use ess_core::{NoMemory, Row, Val};
use std::alloc::Global;

/// A run of numbers, from the first to the last.
#[derive(Clone, Copy, Debug, PartialEq, Eq)]
pub struct Run {
    pub first: i64,
    pub last: i64,
}

/// The maximal runs of rising numbers. Other values count as no number. `NoMemory` where there is no room for them.
pub fn runs(alloc: Global, values: &[Val]) -> Result<Row<Run>, NoMemory>
    ensures { IfOk result (λ rs. pure_runs rs ≡ runs_of (pure_vals values.now)) }
{
    let mut runs = Row::new(alloc);
    for value in values {
        if let Val::Num(number) = value {
            add_number(&mut runs, *number)?;
        }
    }
    Ok(runs)
}

/// Puts a number behind runs: it goes on in the last one, or begins one of its own. `NoMemory` where there is no room.
fn add_number(runs: &mut Row<Run>, number: i64) -> Result<(), NoMemory>
    ensures { OnOk result ((ss : List PureRun) → runs_before (pure_runs runs.new) ss ≡ runs_before (pure_runs runs.old) (before_runs number ss)) }
{
    match runs.pop() {
        Some(run) => add_behind(runs, run, number),
        None => {
            runs.push(Run {
                first: number,
                last: number,
            })?;
            Ok(())
        }
    }
}

/// Puts a run and a number behind runs.
#[tactic(auto, using(crate::proofs::NumberRuns::grown, crate::proofs::NumberRuns::begun))]
fn add_behind(runs: &mut Row<Run>, run: Run, number: i64) -> Result<(), NoMemory>
    ensures { OnOk result ((ss : List PureRun) → runs_before (pure_runs runs.new) ss ≡ runs_before (pure_runs (runs.old ++ run ∷ [])) (before_runs number ss)) }
{
    if goes_on(run, number) {
        runs.push(Run {
            first: run.first,
            last: number,
        })?;
        return Ok(());
    }
    runs.push(run)?;
    runs.push(Run {
        first: number,
        last: number,
    })?;
    Ok(())
}

/// Whether a number stands directly above a run.
fn goes_on(run: Run, number: i64) -> bool
    ensures { result ≡ int_eq (run.last +ℤ pos 1) number }
{
    run.last < number && run.last + 1 == number
}
