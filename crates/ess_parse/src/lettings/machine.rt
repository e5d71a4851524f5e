ghost use Rattle.std.specs.Prelude.{◌≡◌, IfOk};
ghost use Rattle.std.specs.Option.{option_map};
ghost use Rattle.std.specs.Str.{IsAscii};
ghost use Rattle.ess_semantics.specs.Values.{Text};
ghost use Rattle.ess_grammar.specs.Kinds.{token};
ghost use Rattle.ess_lex.specs.Lexing.{IsNatural};
ghost use Rattle.ess_parse_laws.specs.Lettings.{may_stand, is_type_word};
ghost use Rattle.ess_parse.specs.LettingViews.{pure_lettings, view_machine};
ghost use Rattle.ess_parse.specs.Machines.{step_lettings, finish_lettings, start_lettings};

use super::statements::{Lettings, lettings_of};
use crate::parsing::statements_of;
use ess_core::NoMemory;
use ess_lex::Kind;
use ess_parse_machine::Parser;
use std::alloc::Global;

/// Reads a file of lettings token by token: a specification of words that may stand in such a file.
#[derive(Drop)]
pub(super) struct Machine {
    parser: Parser,
    /// Was the last token the word `type`?
    behind_type: bool,
}

impl Machine {
    /// A machine that has read nothing.
    pub(super) fn new(alloc: Global) -> Machine
        ensures { view_machine result ≡ start_lettings }
    {
        Machine {
            parser: Parser::specification(alloc),
            behind_type: false,
        }
    }

    /// Takes a token. None where no file goes on with it.
    pub(super) fn step(
        self,
        alloc: Global,
        kind: Kind,
        text: &[u8],
    ) -> Result<Option<Machine>, NoMemory>
        requires ascii { IsAscii text.now }
        requires natural { IsNatural kind }
        ensures { IfOk result (λ next. step_lettings (token kind text.now) (view_machine self) ≡ option_map view_machine next) }
    {
        let Machine {
            parser,
            behind_type,
        } = self;
        if !may_stand(behind_type, kind) {
            return Ok(None);
        }
        match parser.step(alloc, kind, text)? {
            Some(parser) => Ok(Some(Machine {
                parser,
                behind_type: is_type_word(kind),
            })),
            None => Ok(None),
        }
    }

    /// The lettings that were read, if they are whole.
    pub(super) fn finish(self, alloc: Global) -> Result<Option<Lettings>, NoMemory>
        ensures { IfOk result (λ lettings. finish_lettings (view_machine self) ≡ option_map pure_lettings lettings) }
    {
        let Machine {
            parser,
            behind_type: _,
        } = self;
        let Some(answer) = parser.finish(alloc)? else {
            return Ok(None);
        };
        match statements_of(answer) {
            Some(stms) => lettings_of(alloc, stms),
            None => Ok(None),
        }
    }
}

/// May a token of this kind stand in a file of lettings, behind the word `type` or not?
fn may_stand(behind_type: bool, kind: Kind) -> bool
    ensures { (bytes : Text) → result ≡ may_stand behind_type (token kind bytes) }
{
    match kind {
        Kind::Given | Kind::Find | Kind::Where | Kind::Such => false,
        Kind::Minimising | Kind::Maximising | Kind::Domain => false,
        Kind::Of => !behind_type,
        _ => true,
    }
}

/// Is it the word `type`?
fn is_type_word(kind: Kind) -> bool
    ensures { (bytes : Text) → result ≡ is_type_word (token kind bytes) }
{
    match kind {
        Kind::TypeWord => true,
        _ => false,
    }
}
