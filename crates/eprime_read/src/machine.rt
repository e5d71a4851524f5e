ghost use Rattle.std.specs.Prelude.{◌≡◌, IfOk, IfSome, IsTrue};
ghost use Rattle.std.specs.Option.{option_map};
ghost use Rattle.std.specs.Str.{IsAscii};
ghost use Rattle.ess_grammar.specs.Kinds.{token};
ghost use Rattle.ess_lex.specs.Lexing.{IsNatural};
ghost use Rattle.eprime_read_laws.specs.ModelMachine.{at_begin, first_part, model_step, model_finish};
ghost use Rattle.eprime_tree.specs.Views.{pure_model};
ghost use Rattle.eprime_read.specs.Drafts.{is_fit_token};
ghost use Rattle.eprime_read.specs.Views.{view_part, view_machine, IsPart, IsMachine};

use crate::drafts::Draft;
use crate::growing::new_draft;
use crate::language::step_language;
use crate::openings::{begins_part, opened_by};
use crate::parts::Part;
use crate::steps::{begin, end, step_part};
use eprime_tree::PModel;
use ess_lex::Kind;
use ess_rows::NoMemory;
use std::alloc::Global;

/// What was read of the language line, `language ESSENCE' 1.0`.
#[derive(Clone, Copy, Debug, PartialEq, Eq)]
pub(crate) enum LanguageLine {
    /// Nothing.
    Nothing,
    /// `language`
    Word,
    /// `language ESSENCE'`
    Prime,
    /// `language ESSENCE' 1`
    FirstNumber,
    /// `language ESSENCE' 1.`
    Dot,
}

/// Reads a model token by token.
#[derive(Drop)]
pub(crate) enum Machine {
    /// In the language line.
    Language(LanguageLine),
    /// Behind it.
    Headed,
    /// In a part.
    Part(Part),
}

/// The machine in a part, where there is one.
fn in_part(part: Option<Part>) -> Option<Machine>
    requires { IfSome part IsPart }
    ensures holds { IfSome result IsMachine }
    ensures stage { option_map view_machine result ≡ option_map view_part part }
{
    match part {
        Some(part) => Some(Machine::Part(part)),
        None => None,
    }
}

impl Machine {
    /// A machine that has read nothing.
    pub(crate) fn new() -> Machine
        ensures holds { IsMachine result }
        ensures stage { view_machine result ≡ at_begin }
    {
        Machine::Language(LanguageLine::Nothing)
    }

    /// Takes a token. None where no model goes on with it.
    pub(crate) fn step(
        self,
        alloc: Global,
        kind: Kind,
        text: &[u8],
    ) -> Result<Option<Machine>, NoMemory>
        requires holds { IsMachine self }
        requires ascii { IsAscii text.now }
        requires natural { IsNatural kind }
        requires fit { IsTrue (is_fit_token (token kind text.now)) }
        ensures holds { IfOk result (λ next. IfSome next IsMachine) }
        ensures stage { IfOk result (λ next. model_step (token kind text.now) (view_machine self) ≡ option_map view_machine next) }
    {
        match self {
            Machine::Language(read) => Ok(step_language(read, kind)),
            Machine::Headed => Ok(step_headed(alloc, kind)?),
            Machine::Part(part) => Ok(in_part(step_part(alloc, part, kind, text)?)),
        }
    }

    /// The model that was read, if it is whole. It has no header yet.
    pub(crate) fn finish(self, alloc: Global) -> Result<Option<PModel>, NoMemory>
        requires { IsMachine self }
        ensures { IfOk result (λ model. model_finish (view_machine self) ≡ option_map pure_model model) }
    {
        match self {
            Machine::Language(_) => Ok(None),
            Machine::Headed => Ok(Some(new_draft(alloc).into_model())),
            Machine::Part(part) => {
                let draft = end(alloc, part)?;
                Ok(Draft::model_in(draft))
            }
        }
    }
}

/// The first part behind the language line.
fn step_headed(alloc: Global, kind: Kind) -> Result<Option<Machine>, NoMemory>
    ensures holds { IfOk result (λ next. IfSome next IsMachine) }
    ensures stage { IfOk result (λ next. (bytes : _) → model_step (token kind bytes) first_part ≡ option_map view_machine next) }
{
    match opened_by(kind) {
        Some(opening) if begins_part(opening) => {
            Ok(in_part(begin(alloc, opening, new_draft(alloc))?))
        }
        _ => Ok(None),
    }
}
