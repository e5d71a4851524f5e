ghost use Rattle.std.specs.Prelude.{◌≡◌, IfSome};
ghost use Rattle.std.specs.Option.{option_map};
ghost use Rattle.ess_semantics.specs.Values.{Text};
ghost use Rattle.ess_grammar.specs.Kinds.{token};
ghost use Rattle.ess_lex.specs.Lexing.{IsNatural};
ghost use Rattle.eprime_read_laws.specs.ModelMachine.{model_step};
ghost use Rattle.eprime_read.specs.Views.{view_language, view_machine, IsMachine};

use crate::machine::{LanguageLine, Machine};
use ess_lex::Kind;

/// The machine behind a token in the language line, `language ESSENCE' 1.0`.
pub(crate) fn step_language(read: LanguageLine, kind: Kind) -> Option<Machine>
    requires natural { IsNatural kind }
    ensures holds { IfSome result IsMachine }
    ensures stage { (bytes : Text) → model_step (token kind bytes) (view_language read) ≡ option_map view_machine result }
{
    match read {
        LanguageLine::Nothing => match kind {
            Kind::Language => Some(Machine::Language(LanguageLine::Word)),
            _ => None,
        },
        LanguageLine::Word => match kind {
            Kind::PrimeWord => Some(Machine::Language(LanguageLine::Prime)),
            _ => None,
        },
        LanguageLine::Prime => match kind {
            Kind::Num(number) if number == 1 => Some(Machine::Language(LanguageLine::FirstNumber)),
            _ => None,
        },
        LanguageLine::FirstNumber => match kind {
            Kind::Dot => Some(Machine::Language(LanguageLine::Dot)),
            _ => None,
        },
        LanguageLine::Dot => match kind {
            Kind::Num(number) if number == 0 => Some(Machine::Headed),
            _ => None,
        },
    }
}
