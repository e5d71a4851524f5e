//! Both translations from texts alone.
ghost use Rattle.std.specs.Prelude.{IfOk, IfErr};
ghost use Rattle.ess_translate_solutions.specs.Translations.{IsParameterText, AreNotGiven, IsSolutionText, IsNoSolutionText};

use crate::solution_in;
use ess_translate::TransNo;
use ess_translate_files::{given_in, given_text, model_file};
use std::alloc::Global;

/// The text of the tables of a parameter, from the texts of a model with its header and of a parameter of the header's specification
/// (the Conjure manual, on translating parameters). The files are looked at in this order, the second only where the first isn't
/// refused; the errors are those of `model_file` and `given_in`.
pub fn parameter(alloc: Global, model: &[u8], param: &[u8]) -> Result<Vec<u8>, TransNo>
    ensures ok { IfOk result (λ b. IsParameterText model.now param.now b.items) }
    ensures refused { IfErr result (AreNotGiven model.now param.now) }
{
    let file = match model_file(alloc, model) {
        Ok(file) => file,
        Err(why) => return Err(why),
    };
    match given_in(alloc, &file, param) {
        Ok(given) => {
            let text = given_text(alloc, &file, &given);
            drop(given);
            drop(file);
            text
        }
        Err(why) => {
            drop(file);
            Err(why)
        }
    }
}

/// The text of a solution, from the texts of a model with its header, of a parameter and of cells (the Conjure manual, on translating
/// solutions). The files are looked at in this order, each only where those before it aren't refused; the errors are those of
/// `model_file`, `given_in` and `solution_in`.
pub fn solution(alloc: Global, model: &[u8], param: &[u8], cells: &[u8]) -> Result<Vec<u8>, TransNo>
    ensures ok { IfOk result (λ b. IsSolutionText model.now param.now cells.now b.items) }
    ensures refused { IfErr result (IsNoSolutionText model.now param.now cells.now) }
{
    let file = match model_file(alloc, model) {
        Ok(file) => file,
        Err(why) => return Err(why),
    };
    match given_in(alloc, &file, param) {
        Ok(given) => {
            let text = solution_in(alloc, &file, &given, cells);
            drop(given);
            drop(file);
            text
        }
        Err(why) => {
            drop(file);
            Err(why)
        }
    }
}
