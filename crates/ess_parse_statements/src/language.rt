#![tactic(auto, using(ess_parse_frames::proofs::RowLaws::stms_none))]

ghost use Rattle.std.specs.Prelude.{◌≡◌, IfOk};
ghost use Rattle.ess_grammar.specs.Kinds.{token};
ghost use Rattle.ess_parse_laws.specs.StatementSteps.{step_nothing_read, step_language_read, step_language_name_read, step_first_number_read, step_language_dot_read};
ghost use Rattle.ess_parse_frames.specs.Views.{Steps};
ghost use Rattle.ess_parse_statements.specs.Beginnings.{is_language};

use crate::beginnings::step_statement_read;
use ess_grammar::Kind;
use ess_parse_frames::stack::outside;
use ess_parse_frames::{Mode, Opening, State};
use ess_rows::{NoMemory, Row};
use std::alloc::Global;

/// Whether a token of this kind is the word of the language line.
fn is_language(kind: Kind) -> bool
    ensures { (bytes : _) → result ≡ is_language (token kind bytes) }
{
    matches!(kind, Kind::Language)
}

/// At the first token: the language line, or the first statement.
#[tactic(auto, using(crate::proofs::OtherTokens::no_language, ess_parse_frames::proofs::RowLaws::stms_none))]
pub fn step_nothing_read(alloc: Global, kind: Kind, text: &[u8]) -> Result<Option<State>, NoMemory>
    ensures { IfOk result (Steps (step_nothing_read (token kind text.now))) }
{
    if is_language(kind) {
        return Ok(outside(alloc, Mode::LanguageRead));
    }
    step_statement_read(alloc, kind, text, Opening::Language, Row::new(alloc))
}

/// Behind `language`. `Essence` is a plain name.
pub fn step_language_read(alloc: Global, kind: Kind, text: &[u8]) -> Option<State>
    ensures { Steps (step_language_read (token kind text.now)) result }
{
    match kind {
        Kind::Name if text == b"Essence".as_slice() => outside(alloc, Mode::LanguageNameRead),
        _ => None,
    }
}

/// Behind `language Essence`.
pub fn step_language_name_read(alloc: Global, kind: Kind) -> Option<State>
    ensures { (bytes : _) → Steps (step_language_name_read (token kind bytes)) result }
{
    match kind {
        Kind::Num(_) => outside(alloc, Mode::FirstNumberRead),
        _ => None,
    }
}

/// Behind the first number of the language line.
pub fn step_first_number_read(alloc: Global, kind: Kind) -> Option<State>
    ensures { (bytes : _) → Steps (step_first_number_read (token kind bytes)) result }
{
    match kind {
        Kind::Dot => outside(alloc, Mode::LanguageDotRead),
        _ => None,
    }
}

/// Behind its dot.
pub fn step_language_dot_read(alloc: Global, kind: Kind) -> Option<State>
    ensures { (bytes : _) → Steps (step_language_dot_read (token kind bytes)) result }
{
    match kind {
        Kind::Num(_) => outside(
            alloc,
            Mode::StatementRead(Opening::Language, Row::new(alloc)),
        ),
        _ => None,
    }
}
