ghost use Rattle.std.specs.Prelude.{◌≡◌, List, None, Err, map, true, IfOk, IfErr};
ghost use Rattle.ess_semantics.specs.Trees.{Stm as PureStm};
ghost use Rattle.ess_semantics.specs.Judgements.{fault};
ghost use Rattle.ess_semantics.specs.Prepared.{prepared};
ghost use Rattle.ess_semantics.specs.Parameters.{fits_param, param_verdict};
ghost use Rattle.ess_semantics.specs.LargeSpecifications.{parameter_is_large};
ghost use Rattle.ess_core.specs.StatementViews.{pure_stm, pure_spec};
ghost use Rattle.ess_parse.specs.LettingViews.{pure_letting};
ghost use Rattle.ess_domains.specs.Assignments.{pure_assignment};
ghost use Rattle.ess_domains.specs.Verdicts.{pure_param_verdict, cut_param};
ghost use Rattle.ess_translate_laws.specs.FileAssignments.{parameter_in};
ghost use Rattle.ess_translate.specs.declared.refusal.WalkNo.TheVariants.{Big};
ghost use Rattle.ess_translate.specs.Answers.{IsTyped, IsParameter, IsNoParameter, FitsOrNot};

use crate::refusal::{TransNo, WalkNo, Which, read_no, stop_no, walk_no};
use crate::side::Side;
use crate::texts::read_file;
use crate::walk::assignment_in;
use ess_core::Stm;
use ess_domains::{Assignment, ParamVerdict, param_fits};
use ess_parse::Letting;
use ess_types::Typed;
use std::alloc::Global;

/// Reads a file of a parameter, and asks that it fits the specification. The errors are `Read` of `Param`,
/// `InvalidParameter`, `Big` and `NoMemory`.
pub fn parameter_of(alloc: Global, typed: &Typed, param: &[u8]) -> Result<Assignment, TransNo>
    requires { IsTyped typed.now }
    ensures ok { IfOk result (λ p. (F : List PureStm) × IsParameter (pure_spec typed.now.spec) param.now F (pure_assignment p)) }
    ensures refused { IfErr result (IsNoParameter (pure_spec typed.now.spec) param.now) }
{
    match read_file(alloc, param) {
        Ok(file) => fitting(alloc, typed.prepared.stms.as_slice(), file.list.as_slice()),
        Err(why) => Err(read_no(Which::Param, why)),
    }
}

/// The parameter that a file stands for, where it fits.
fn fitting(alloc: Global, stms: &[Stm], file: &[Letting]) -> Result<Assignment, TransNo>
    ensures { (S : List PureStm) → map pure_stm stms.now ≡ prepared S → fault S ≡ None
        → FitsOrNot S (map pure_letting file.now) result }
{
    match parameter_in(alloc, stms, file) {
        Ok(param) => match param_fits(alloc, stms, &param) {
            Ok(ParamVerdict::Fits) => Ok(param),
            Ok(why) => Err(TransNo::InvalidParameter(why)),
            Err(why) => Err(stop_no(walk_no(why))),
        },
        Err(why) => Err(stop_no(why)),
    }
}

/// The parameter that a file stands for.
#[tactic(auto, using(crate::proofs::LargeWalks::large_parameter))]
fn parameter_in(alloc: Global, stms: &[Stm], file: &[Letting]) -> Result<Assignment, WalkNo>
    ensures ok { IfOk result (λ p. (S : List PureStm) → map pure_stm stms.now ≡ prepared S
        → pure_assignment p ≡ parameter_in S (map pure_letting file.now)) }
    ensures big { result ≡ Err Big → (S : List PureStm) → map pure_stm stms.now ≡ prepared S → fault S ≡ None
        → parameter_is_large S (parameter_in S (map pure_letting file.now)) ≡ true }
{
    assignment_in(alloc, Side::Givens, file, &Assignment::nothing(alloc), stms)
}
