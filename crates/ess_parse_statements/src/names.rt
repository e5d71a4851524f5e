#![tactic(auto)]

ghost use Rattle.std.specs.Prelude.{◌≡◌, ◌∷◌, IfOk, true};
ghost use Rattle.std.specs.Str.{IsAscii};
ghost use Rattle.ess_grammar.specs.Kinds.{token};
ghost use Rattle.ess_parse_laws.specs.StatementSteps.{step_names_wanted, step_name_read, step_given_new_read, step_given_type_read};
ghost use Rattle.ess_parse_frames.specs.Rows.{back_names, back_stms};
ghost use Rattle.ess_parse_frames.specs.Views.{Steps, is_given};
ghost use Rattle.ess_grammar.specs.Words.{word, new_word};

use ess_core::Stm;
use ess_grammar::Kind;
use ess_parse_frames::rows::with_statement;
use ess_parse_frames::stack::{alone, outside};
use ess_parse_frames::statements::{let_statements_go, no_state_behind};
use ess_parse_frames::{Declaring, Frame, Mode, Opening, State};
use ess_rows::{NoMemory, Row, Text};
use std::alloc::Global;

/// Puts a token's bytes behind names. `NoMemory` where there is no room for them.
#[tactic(auto, using(ess_parse_frames::proofs::RowLaws::names_push))]
pub(crate) fn with_token(
    alloc: Global,
    names: Row<Text>,
    text: &[u8],
) -> Result<Row<Text>, NoMemory>
    requires { IsAscii text.now }
    ensures { IfOk result (λ ns. back_names ns ≡ text.now ∷ back_names names) }
{
    let mut names = names;
    names.push(Text::from_ascii(alloc, text)?)?;
    Ok(names)
}

/// Where the name of a given or a find is wanted.
pub fn step_names_wanted(
    alloc: Global,
    kind: Kind,
    text: &[u8],
    word: Declaring,
    names: Row<Text>,
    stms: Row<Stm>,
) -> Result<Option<State>, NoMemory>
    requires { IsAscii text.now }
    ensures { IfOk result (Steps (step_names_wanted (token kind text.now) (is_given word) (back_names names) (back_stms stms))) }
{
    match kind {
        Kind::Name => match with_token(alloc, names, text) {
            Ok(names) => Ok(outside(alloc, Mode::NameRead(word, names, stms))),
            Err(no) => {
                let_statements_go(stms);
                Err(no)
            }
        },
        _ => Ok(no_state_behind(stms)),
    }
}

/// Behind that name.
pub fn step_name_read(
    alloc: Global,
    kind: Kind,
    word: Declaring,
    names: Row<Text>,
    stms: Row<Stm>,
) -> Result<Option<State>, NoMemory>
    ensures { IfOk result (λ p. (bytes : _) → Steps (step_name_read (token kind bytes) (is_given word) (back_names names) (back_stms stms)) p) }
{
    match kind {
        Kind::Comma => Ok(outside(alloc, Mode::NamesWanted(word, names, stms))),
        Kind::Colon => alone(
            alloc,
            Mode::DomainWanted,
            Frame::Declaration(word, names, stms),
        ),
        Kind::New => match word {
            Declaring::Given => Ok(begin_given_type(alloc, names, stms)),
            Declaring::Find => Ok(no_state_behind(stms)),
        },
        _ => Ok(no_state_behind(stms)),
    }
}

/// Behind `given NAMES new`: one name may be that of an enumerated type.
#[tactic(auto, using(crate::proofs::GivenNames::new_behind_none, crate::proofs::GivenNames::new_behind_one, crate::proofs::GivenNames::new_behind_more))]
fn begin_given_type(alloc: Global, names: Row<Text>, stms: Row<Stm>) -> Option<State>
    ensures { Steps (step_name_read (word new_word) true (back_names names) (back_stms stms)) result }
{
    let mut names = names;
    match names.pop() {
        Some(name) if names.is_empty() => outside(alloc, Mode::GivenNewRead(name, stms)),
        _ => no_state_behind(stms),
    }
}

/// Behind `given NAME new`.
pub fn step_given_new_read(alloc: Global, kind: Kind, name: Text, stms: Row<Stm>) -> Option<State>
    ensures { (bytes : _) → Steps (step_given_new_read (token kind bytes) name (back_stms stms)) result }
{
    match kind {
        Kind::TypeWord => outside(alloc, Mode::GivenTypeRead(name, stms)),
        _ => no_state_behind(stms),
    }
}

/// Behind `given NAME new type`.
pub fn step_given_type_read(
    alloc: Global,
    kind: Kind,
    name: Text,
    stms: Row<Stm>,
) -> Result<Option<State>, NoMemory>
    ensures { IfOk result (λ p. (bytes : _) → Steps (step_given_type_read (token kind bytes) name (back_stms stms)) p) }
{
    match kind {
        Kind::Enum => {
            let stms = with_statement(stms, Stm::GivenEnum(name))?;
            Ok(outside(alloc, Mode::StatementRead(Opening::Given, stms)))
        }
        _ => Ok(no_state_behind(stms)),
    }
}
