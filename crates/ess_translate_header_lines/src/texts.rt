//! The header with which a text begins.
ghost use Rattle.std.specs.Prelude.{IfOk, MatchOption};
ghost use Rattle.ess_semantics.specs.ModelTrees.{Header};
ghost use Rattle.ess_translate_header_laws.specs.Headers.{BeginsWith, StandsFirst};
ghost use Rattle.ess_translate_header_lines.specs.Views.{header_with};

use crate::language::begins_with_language_line;
use crate::reading::{HeaderLines, read_lines};
use eprime_read_headers::header_lines;
use ess_core::{NoMemory, Text};
use std::alloc::Global;

/// Reads the header with which the text of a model begins: the language line, and under it comments that are the version, one
/// for each statement, one for the representations of each name, and the end. What stands behind the end doesn't matter. None
/// exactly where the text begins with no such lines. `NoMemory` for want of memory.
#[tactic(auto, using(ess_translate_header_laws::proofs::WholeHeaders::no_language, crate::proofs::LanguageParts::free_of_refusals))]
pub fn read_header_lines(alloc: Global, text: &[u8]) -> Result<Option<HeaderLines>, NoMemory>
    ensures { IfOk result (λ o. MatchOption o ((H : Header) → BeginsWith text.now H → ⊥)
        (λ l. BeginsWith text.now (header_with l.statements l.reprs))) }
{
    if !begins_with_language_line(text) {
        return Ok(None);
    }
    let lines = header_lines(alloc, text)?;
    first_header(alloc, lines.as_slice())
}

/// The header whose lines stand first among these.
#[tactic(auto, using(crate::proofs::Answered::no_header_first))]
fn first_header(alloc: Global, lines: &[Text]) -> Result<Option<HeaderLines>, NoMemory>
    ensures { IfOk result (λ o. MatchOption o ((H : Header) → StandsFirst H lines.now → ⊥)
        (λ l. StandsFirst (header_with l.statements l.reprs) lines.now)) }
{
    match lines.split_first() {
        Some((first, rest)) => {
            if first.as_bytes() == b"conjure-header 1".as_slice() {
                read_lines(alloc, rest)
            } else {
                Ok(None)
            }
        }
        None => Ok(None),
    }
}
