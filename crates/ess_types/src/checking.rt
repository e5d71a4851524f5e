//! The verdict on a specification.
ghost use Rattle.std.specs.Prelude.{◌≡◌, map, None, IfOk, IfErr};
ghost use Rattle.ess_semantics.specs.Judgements.{fault, declared_types};
ghost use Rattle.ess_semantics.specs.Prepared.{prepared};
ghost use Rattle.ess_core.specs.StatementViews.{pure_stm, pure_spec};
ghost use Rattle.ess_types.specs.Progress.{pure_named_ty};
ghost use Rattle.ess_types.specs.Refusals.{IsRefused};

use crate::declared::NamedTy;
use crate::progress::{Progress, no_progress, step};
use crate::refusal::{Judgement, TypeNo, refused};
use ess_core::{Row, Spec, Stm};
use std::alloc::Global;

/// A well typed specification: as it was read, and with lettings put in and resolved, in as many statements; and all its declared
/// names in order, each with its type, that of its members where it is a type or a domain.
#[derive(Drop)]
pub struct Typed {
    pub spec: Spec,
    pub prepared: Spec,
    pub names: Row<NamedTy>,
}

/// Judges a specification by the rules on scope and types of the Essence paper (2008). It is well typed exactly where each
/// statement meets all judgements, in the scope of the statements before it and with their lettings put in. Else the refusal
/// names the first statement that fails one, and the first judgement that it fails. `NoMemory` for want of memory.
pub fn check(alloc: Global, spec: Spec) -> Result<Typed, TypeNo>
    ensures typed { IfOk result (λ t. fault (pure_spec spec) ≡ None) }
    ensures read { IfOk result (λ t. t.spec ≡ spec) }
    ensures names { IfOk result (λ t. map pure_named_ty t.names ≡ declared_types (pure_spec spec)) }
    ensures prepared { IfOk result (λ t. pure_spec t.prepared ≡ prepared (pure_spec spec)) }
    ensures refused { IfErr result (IsRefused (pure_spec spec)) }
{
    let progress = run(alloc, spec.stms.as_slice())?;
    let Progress {
        scope: _,
        stems: _,
        names,
        prepared,
    } = progress;
    Ok(Typed {
        spec,
        prepared: Spec { stms: prepared },
        names,
    })
}

/// Goes over the statements, up to the first that fails a judgement.
#[tactic(auto, using(crate::proofs::Runs::all_judged))]
fn run(alloc: Global, stms: &[Stm]) -> Result<Progress, TypeNo>
    ensures typed { IfOk result (λ p. fault (map pure_stm stms.now) ≡ None) }
    ensures names { IfOk result (λ p. map pure_named_ty p.names ≡ declared_types (map pure_stm stms.now)) }
    ensures prepared { IfOk result (λ p. map pure_stm p.prepared ≡ prepared (map pure_stm stms.now)) }
    ensures refused { IfErr result (IsRefused (map pure_stm stms.now)) }
{
    let mut progress = no_progress(alloc);
    for (i, stm) in stms.iter().enumerate() {
        match step(alloc, stm, &mut progress)? {
            Some(judgement) => return Err(refused(judgement, i + 1)),
            None => {}
        }
    }
    Ok(progress)
}
