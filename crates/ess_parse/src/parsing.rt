ghost use Rattle.std.specs.Prelude.{◌≡◌, Some, map};
ghost use Rattle.std.specs.Option.{option_map};
ghost use Rattle.ess_grammar.specs.Tokens.{lexed};
ghost use Rattle.ess_grammar.specs.Places.{end_place};
ghost use Rattle.ess_core.specs.TreeViews.{pure_dom};
ghost use Rattle.ess_core.specs.StatementViews.{pure_stm};
ghost use Rattle.ess_parse_frames.specs.Views.{view_answer};
ghost use Rattle.ess_parse_machine.specs.Parsers.{view_parser};
ghost use Rattle.ess_parse.specs.Runs.{IsAnswer, run_over};
ghost use Rattle.ess_parse.specs.Machines.{step_state, finish_state, domain_of, statements_of};

use crate::refusal::ReadNo;
use ess_core::{Dom, Row, Stm};
use ess_lex::{Lexer, end_place};
use ess_parse_machine::{Answer, Parser};
use std::alloc::Global;

/// Runs a parser over the tokens of a text.
pub(crate) fn parse(alloc: Global, text: &[u8], start: Parser) -> Result<Answer, ReadNo>
    ensures { IsAnswer view_answer (run_over step_state finish_state (end_place text.now) (lexed text.now) (view_parser start)) result }
{
    let mut lexer = Lexer::new(text);
    let mut parser = start;
    while let Some(token) = lexer.next()? {
        let Some(next) = parser.step(alloc, token.kind, token.text)? else {
            return Err(ReadNo::Syntax(token.place));
        };
        parser = next;
    }
    match parser.finish(alloc)? {
        Some(answer) => Ok(answer),
        None => Err(ReadNo::Syntax(end_place(text))),
    }
}

/// The domain of an answer, if it is one.
pub(crate) fn domain_of(answer: Answer) -> Option<Dom>
    ensures { domain_of (Some (view_answer answer)) ≡ option_map pure_dom result }
{
    match answer {
        Answer::Domain(dom) => Some(dom.into_inner()),
        other => {
            drop(other);
            None
        }
    }
}

/// The statements of an answer, if it has any.
pub(crate) fn statements_of(answer: Answer) -> Option<Row<Stm>>
    ensures { statements_of (Some (view_answer answer)) ≡ option_map (λ stms. map pure_stm stms) result }
{
    match answer {
        Answer::Specification(stms) => Some(stms),
        other => {
            drop(other);
            None
        }
    }
}
