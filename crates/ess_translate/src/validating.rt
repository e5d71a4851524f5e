ghost use Rattle.std.specs.Prelude.{◌≡◌, IfOk, IfErr};
ghost use Rattle.ess_translate.specs.Answers.{IsValidated, IsNotValidated};

use crate::judging::verdict_of;
use crate::parameters::parameter_of;
use crate::refusal::TransNo;
use crate::texts::specification;
use ess_domains::Verdict;
use std::alloc::Global;

/// The verdict on a solution, from the texts of the specification, the parameter and the solution (the Conjure manual, on
/// validating solutions).
///
/// The files are looked at in this order, each only where those before it aren't refused: `Read` where a text isn't read,
/// `Typing` where the specification is ill typed, `InvalidParameter` where the parameter doesn't fit. `Big` comes only where
/// a number in the specification lies outside 64 bits under these values, `NoMemory` for want of memory.
pub fn validate(alloc: Global, essence: &[u8], param: &[u8], sol: &[u8]) -> Result<Verdict, TransNo>
    ensures ok { IfOk result (IsValidated essence.now param.now sol.now) }
    ensures refused { IfErr result (IsNotValidated essence.now param.now sol.now) }
{
    let typed = match specification(alloc, essence) {
        Ok(typed) => typed,
        Err(why) => return Err(why),
    };
    let given = match parameter_of(alloc, &typed, param) {
        Ok(given) => given,
        Err(why) => return Err(why),
    };
    verdict_of(alloc, &typed, &given, sol)
}
