ghost use Rattle.std.specs.Prelude.{◌≡◌, IfOk, IfErr};
ghost use Rattle.ess_eval.specs.declared.calls.EvalNo.TheVariants as eval;

use ess_core::NoMemory;
use ess_eval::EvalNo;

/// The answer of a call that can want memory alone, with the error of an evaluation.
pub(crate) fn with_room<T: Drop>(made: Result<T, NoMemory>) -> Result<T, EvalNo>
    ensures ok { IfOk result (λ x. made ≡ Ok x) }
    ensures no { IfErr result (λ e. e ≡ eval.NoMemory) }
{
    match made {
        Ok(made) => Ok(made),
        Err(_) => Err(EvalNo::NoMemory),
    }
}
