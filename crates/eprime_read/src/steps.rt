ghost use Rattle.std.specs.Prelude.{◌≡◌, [], IfOk, IfSome, IsTrue};
ghost use Rattle.std.specs.Option.{option_map};
ghost use Rattle.std.specs.Str.{IsAscii};
ghost use Rattle.ess_grammar.specs.Kinds.{token};
ghost use Rattle.ess_lex.specs.Lexing.{IsNatural};
ghost use Rattle.ess_parse_laws.specs.StatementEnds.{begin_statement};
ghost use Rattle.ess_parse_laws.specs.Machine.{step, finish};
ghost use Rattle.ess_parse_machine.specs.Parsers.{view_parser};
ghost use Rattle.eprime_read_laws.specs.ModelMachine.{in_state, begin_part, part_step, part_ended, statement_word};
ghost use Rattle.eprime_read.specs.Openings.{word_of};
ghost use Rattle.eprime_read.specs.Drafts.{Fits, is_fit_token};
ghost use Rattle.eprime_read.specs.Views.{view_draft, view_part, IsPart};

use crate::drafts::Draft;
use crate::endings::with_part;
use crate::openings::{Opening, kind_of, may_follow, opened_by};
use crate::parts::Part;
use crate::statements::statements_of;
use ess_lex::Kind;
use ess_parse_machine::Parser;
use ess_rows::NoMemory;
use std::alloc::Global;

/// The part that begins with this word, behind a model in which it may stand.
pub(crate) fn begin(alloc: Global, opening: Opening, draft: Draft) -> Result<Option<Part>, NoMemory>
    requires { Fits (word_of opening) draft.model }
    ensures holds { IfOk result (λ p. IfSome p IsPart) }
    ensures stage { IfOk result (λ p. in_state (word_of opening) (view_draft draft) (begin_statement (word_of opening) []) ≡ option_map view_part p) }
{
    let before = Parser::specification(alloc);
    match before.step(alloc, kind_of(opening), b"".as_slice())? {
        Some(parser) => Ok(Some(Part {
            opening,
            draft,
            parser,
        })),
        None => Ok(None),
    }
}

/// The part behind a token inside it.
fn go_on(alloc: Global, part: Part, kind: Kind, text: &[u8]) -> Result<Option<Part>, NoMemory>
    requires holds { IsPart part }
    requires ascii { IsAscii text.now }
    requires natural { IsNatural kind }
    requires fit { IsTrue (is_fit_token (token kind text.now)) }
    ensures holds { IfOk result (λ p. IfSome p IsPart) }
    ensures stage { IfOk result (λ p. in_state (word_of part.opening) (view_draft part.draft) (step (token kind text.now) (view_parser part.parser).mode (view_parser part.parser).frames) ≡ option_map view_part p) }
{
    let Part {
        opening,
        draft,
        parser,
    } = part;
    match parser.step(alloc, kind, text)? {
        Some(parser) => Ok(Some(Part {
            opening,
            draft,
            parser,
        })),
        None => Ok(None),
    }
}

/// The model behind a part that ends, where it is a part of a model.
#[tactic(auto, using(crate::proofs::PartTokens::part_by, crate::proofs::PartTokens::end_readable))]
pub(crate) fn end(alloc: Global, part: Part) -> Result<Option<Draft>, NoMemory>
    requires { IsPart part }
    ensures model { IfOk result (λ d. part_ended (word_of part.opening) (view_draft part.draft) (finish (view_parser part.parser).mode (view_parser part.parser).frames) ≡ option_map view_draft d) }
    ensures fits { IfOk result (λ d. IfSome d (λ d. Fits (word_of part.opening) d.model)) }
{
    let Part {
        opening,
        draft,
        parser,
    } = part;
    let Some(answer) = parser.finish(alloc)? else {
        return Ok(None);
    };
    match statements_of(answer) {
        Some(stms) => Ok(with_part(alloc, opening, draft, stms)?),
        None => Ok(None),
    }
}

/// The part that begins with this word, behind another that ends.
#[tactic(auto, using(crate::proofs::PartTokens::fits_behind))]
fn begin_behind(alloc: Global, part: Part, opening: Opening) -> Result<Option<Part>, NoMemory>
    requires { IsPart part }
    ensures holds { IfOk result (λ p. IfSome p IsPart) }
    ensures stage { IfOk result (λ p. begin_part (word_of part.opening) (word_of opening) (part_ended (word_of part.opening) (view_draft part.draft) (finish (view_parser part.parser).mode (view_parser part.parser).frames)) ≡ option_map view_part p) }
{
    let before = part.opening;
    let Some(draft) = end(alloc, part)? else {
        return Ok(None);
    };
    if may_follow(before, opening) {
        Ok(begin(alloc, opening, draft)?)
    } else {
        Ok(None)
    }
}

/// The part behind a token: the same, or where the token begins a statement another.
pub(crate) fn step_part(
    alloc: Global,
    part: Part,
    kind: Kind,
    text: &[u8],
) -> Result<Option<Part>, NoMemory>
    requires holds { IsPart part }
    requires ascii { IsAscii text.now }
    requires natural { IsNatural kind }
    requires fit { IsTrue (is_fit_token (token kind text.now)) }
    ensures holds { IfOk result (λ p. IfSome p IsPart) }
    ensures stage { IfOk result (λ p. part_step (token kind text.now) (statement_word (token kind text.now)) (word_of part.opening) (view_draft part.draft) (view_parser part.parser).mode (view_parser part.parser).frames ≡ option_map view_part p) }
{
    match opened_by(kind) {
        Some(next) => Ok(begin_behind(alloc, part, next)?),
        None => Ok(go_on(alloc, part, kind, text)?),
    }
}
