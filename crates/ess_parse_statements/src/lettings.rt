#![tactic(auto, using(ess_parse_frames::proofs::RowLaws::names_none, ess_parse_frames::proofs::RowLaws::names_closed))]

ghost use Rattle.std.specs.Prelude.{IfOk};
ghost use Rattle.std.specs.Str.{IsAscii};
ghost use Rattle.ess_grammar.specs.Kinds.{token};
ghost use Rattle.ess_parse_laws.specs.StatementSteps.{step_letting_wanted, step_letting_name_read, step_letting_new_read, step_letting_type_read, step_enum_read, step_value_name_wanted, step_value_name_read, step_of_read, step_such_read};
ghost use Rattle.ess_parse_frames.specs.Rows.{back_names, back_stms};
ghost use Rattle.ess_parse_frames.specs.Views.{Steps};

use crate::names::with_token;
use ess_core::Stm;
use ess_grammar::Kind;
use ess_parse_frames::rows::with_statement;
use ess_parse_frames::stack::{alone, outside};
use ess_parse_frames::statements::{let_statements_go, no_state_behind};
use ess_parse_frames::{Frame, Mode, Opening, State};
use ess_rows::{NoMemory, Row, Text};
use std::alloc::Global;

/// Where the name of a letting is wanted.
pub fn step_letting_wanted(
    alloc: Global,
    kind: Kind,
    text: &[u8],
    stms: Row<Stm>,
) -> Result<Option<State>, NoMemory>
    requires { IsAscii text.now }
    ensures { IfOk result (Steps (step_letting_wanted (token kind text.now) (back_stms stms))) }
{
    match kind {
        Kind::Name => match Text::from_ascii(alloc, text) {
            Ok(name) => Ok(outside(alloc, Mode::LettingNameRead(name, stms))),
            Err(no) => {
                let_statements_go(stms);
                Err(no)
            }
        },
        _ => Ok(no_state_behind(stms)),
    }
}

/// Behind that name.
pub fn step_letting_name_read(
    alloc: Global,
    kind: Kind,
    name: Text,
    stms: Row<Stm>,
) -> Option<State>
    ensures { (bytes : _) → Steps (step_letting_name_read (token kind bytes) name (back_stms stms)) result }
{
    match kind {
        Kind::Be => outside(alloc, Mode::BeRead(name, stms)),
        _ => no_state_behind(stms),
    }
}

/// Behind `letting NAME be new`.
pub fn step_letting_new_read(alloc: Global, kind: Kind, name: Text, stms: Row<Stm>) -> Option<State>
    ensures { (bytes : _) → Steps (step_letting_new_read (token kind bytes) name (back_stms stms)) result }
{
    match kind {
        Kind::TypeWord => outside(alloc, Mode::LettingTypeRead(name, stms)),
        _ => no_state_behind(stms),
    }
}

/// Behind `letting NAME be new type`.
pub fn step_letting_type_read(
    alloc: Global,
    kind: Kind,
    name: Text,
    stms: Row<Stm>,
) -> Option<State>
    ensures { (bytes : _) → Steps (step_letting_type_read (token kind bytes) name (back_stms stms)) result }
{
    match kind {
        Kind::Enum => outside(alloc, Mode::EnumRead(name, stms)),
        Kind::Of => outside(alloc, Mode::OfRead(name, stms)),
        _ => no_state_behind(stms),
    }
}

/// Behind `letting NAME be new type enum`.
pub fn step_enum_read(alloc: Global, kind: Kind, name: Text, stms: Row<Stm>) -> Option<State>
    ensures { (bytes : _) → Steps (step_enum_read (token kind bytes) name (back_stms stms)) result }
{
    match kind {
        Kind::OpenCurly => outside(alloc, Mode::ValueNameWanted(name, Row::new(alloc), stms)),
        _ => no_state_behind(stms),
    }
}

/// Where the name of a value of an enumerated type is wanted.
pub fn step_value_name_wanted(
    alloc: Global,
    kind: Kind,
    text: &[u8],
    name: Text,
    values: Row<Text>,
    stms: Row<Stm>,
) -> Result<Option<State>, NoMemory>
    requires { IsAscii text.now }
    ensures { IfOk result (Steps (step_value_name_wanted (token kind text.now) name (back_names values) (back_stms stms))) }
{
    match kind {
        Kind::Name => match with_token(alloc, values, text) {
            Ok(values) => Ok(outside(alloc, Mode::ValueNameRead(name, values, stms))),
            Err(no) => {
                let_statements_go(stms);
                Err(no)
            }
        },
        _ => Ok(no_state_behind(stms)),
    }
}

/// Behind that name.
pub fn step_value_name_read(
    alloc: Global,
    kind: Kind,
    name: Text,
    values: Row<Text>,
    stms: Row<Stm>,
) -> Result<Option<State>, NoMemory>
    ensures { IfOk result (λ p. (bytes : _) → Steps (step_value_name_read (token kind bytes) name (back_names values) (back_stms stms)) p) }
{
    match kind {
        Kind::Comma => Ok(outside(alloc, Mode::ValueNameWanted(name, values, stms))),
        Kind::CloseCurly => {
            let stms = with_statement(stms, Stm::LetEnum(name, values))?;
            Ok(outside(alloc, Mode::StatementRead(Opening::Letting, stms)))
        }
        _ => Ok(no_state_behind(stms)),
    }
}

/// Behind `letting NAME be new type of`. `size` is a plain name.
pub fn step_of_read(
    alloc: Global,
    kind: Kind,
    text: &[u8],
    name: Text,
    stms: Row<Stm>,
) -> Result<Option<State>, NoMemory>
    ensures { IfOk result (Steps (step_of_read (token kind text.now) name (back_stms stms))) }
{
    match kind {
        Kind::Name if text == b"size".as_slice() => alone(
            alloc,
            Mode::OperandWanted,
            Frame::Unnamed(name, stms),
        ),
        _ => Ok(no_state_behind(stms)),
    }
}

/// Behind `such`.
pub fn step_such_read(alloc: Global, kind: Kind, stms: Row<Stm>) -> Result<Option<State>, NoMemory>
    ensures { IfOk result (λ p. (bytes : _) → Steps (step_such_read (token kind bytes) (back_stms stms)) p) }
{
    match kind {
        Kind::That => alone(alloc, Mode::OperandWanted, Frame::SuchThat(stms)),
        _ => Ok(no_state_behind(stms)),
    }
}
