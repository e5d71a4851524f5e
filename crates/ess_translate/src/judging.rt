ghost use Rattle.std.specs.Prelude.{◌≡◌, List, None, Err, map, true, IfOk, IfErr};
ghost use Rattle.ess_semantics.specs.Trees.{Stm as PureStm};
ghost use Rattle.ess_semantics.specs.Judgements.{fault};
ghost use Rattle.ess_semantics.specs.Prepared.{prepared};
ghost use Rattle.ess_semantics.specs.LargeSpecifications.{solution_is_large};
ghost use Rattle.ess_core.specs.StatementViews.{pure_stm, pure_spec};
ghost use Rattle.ess_parse.specs.LettingViews.{pure_letting};
ghost use Rattle.ess_domains.specs.Assignments.{pure_assignment};
ghost use Rattle.ess_translate_laws.specs.FileAssignments.{solution_in};
ghost use Rattle.ess_translate.specs.declared.refusal.WalkNo.TheVariants.{Big};
ghost use Rattle.ess_translate.specs.Answers.{IsTyped, IsJudged, IsNotJudged, JudgedOrNot};

use crate::refusal::{TransNo, WalkNo, Which, read_no, stop_no, walk_no};
use crate::side::Side;
use crate::texts::read_file;
use crate::walk::assignment_in;
use ess_core::Stm;
use ess_domains::{Assignment, Verdict, solves};
use ess_parse::Letting;
use ess_types::Typed;
use std::alloc::Global;

/// Reads a file of a solution, and judges it under a parameter. The errors are `Read` of `Solution`, `Big` and `NoMemory`.
pub fn verdict_of(
    alloc: Global,
    typed: &Typed,
    param: &Assignment,
    sol: &[u8],
) -> Result<Verdict, TransNo>
    requires { IsTyped typed.now }
    ensures ok { IfOk result (IsJudged (pure_spec typed.now.spec) (pure_assignment param.now) sol.now) }
    ensures refused { IfErr result (IsNotJudged (pure_spec typed.now.spec) (pure_assignment param.now) sol.now) }
{
    match read_file(alloc, sol) {
        Ok(file) => judged(
            alloc,
            typed.prepared.stms.as_slice(),
            param,
            file.list.as_slice(),
        ),
        Err(why) => Err(read_no(Which::Solution, why)),
    }
}

/// The verdict on the solution that a file stands for.
fn judged(
    alloc: Global,
    stms: &[Stm],
    param: &Assignment,
    file: &[Letting],
) -> Result<Verdict, TransNo>
    ensures { (S : List PureStm) → map pure_stm stms.now ≡ prepared S → fault S ≡ None
        → JudgedOrNot S (pure_assignment param.now) (map pure_letting file.now) result }
{
    match solution_in(alloc, stms, param, file) {
        Ok(sol) => match solves(alloc, stms, param, &sol) {
            Ok(verdict) => Ok(verdict),
            Err(why) => Err(stop_no(walk_no(why))),
        },
        Err(why) => Err(stop_no(why)),
    }
}

/// The solution that a file stands for under a parameter.
#[tactic(auto, using(crate::proofs::LargeWalks::large_solution))]
fn solution_in(
    alloc: Global,
    stms: &[Stm],
    param: &Assignment,
    file: &[Letting],
) -> Result<Assignment, WalkNo>
    ensures ok { IfOk result (λ a. (S : List PureStm) → map pure_stm stms.now ≡ prepared S
        → pure_assignment a ≡ solution_in S (pure_assignment param.now) (map pure_letting file.now)) }
    ensures big { result ≡ Err Big → (S : List PureStm) → map pure_stm stms.now ≡ prepared S → fault S ≡ None
        → solution_is_large S (pure_assignment param.now)
        (solution_in S (pure_assignment param.now) (map pure_letting file.now)) ≡ true }
{
    assignment_in(alloc, Side::Finds, file, param, stms)
}
