ghost use Rattle.std.specs.Prelude.{◌≡◌, IfOk, IfErr};
ghost use Rattle.ess_grammar.specs.Statements.{IsSpecification, IsLettingsFile};
ghost use Rattle.ess_core.specs.StatementViews.{pure_spec};
ghost use Rattle.ess_parse.specs.LettingViews.{pure_lettings};
ghost use Rattle.ess_translate.specs.Texts.{IsReadAs};
ghost use Rattle.ess_translate.specs.Answers.{IsTyped, IsEssence, IsNoEssence};

use crate::refusal::{TransNo, Which, read_no, typing_no};
use ess_core::Spec;
use ess_parse::{Lettings, ReadNo, read_lettings, read_spec};
use ess_types::{Typed, check};
use std::alloc::Global;

/// Reads a specification, and checks that it is well typed. The errors are `Read` of `Essence` and `Typing`, and `NoMemory`.
pub fn specification(alloc: Global, essence: &[u8]) -> Result<Typed, TransNo>
    ensures ok { IfOk result (λ typed. IsEssence essence.now (pure_spec typed.spec)) }
    ensures typed { IfOk result (λ typed. IsTyped typed) }
    ensures refused { IfErr result (IsNoEssence essence.now) }
{
    match read_essence(alloc, essence) {
        Ok(spec) => match check(alloc, spec) {
            Ok(typed) => Ok(typed),
            Err(why) => Err(typing_no(why)),
        },
        Err(why) => Err(read_no(Which::Essence, why)),
    }
}

/// Reads a specification.
fn read_essence(alloc: Global, text: &[u8]) -> Result<Spec, ReadNo>
    ensures { IsReadAs IsSpecification pure_spec text.now result }
{
    read_spec(alloc, text)
}

/// Reads a file of lettings.
pub(crate) fn read_file(alloc: Global, text: &[u8]) -> Result<Lettings, ReadNo>
    ensures { IsReadAs IsLettingsFile pure_lettings text.now result }
{
    read_lettings(alloc, text)
}
