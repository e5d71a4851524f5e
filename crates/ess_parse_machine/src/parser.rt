//! The parser itself: its start states, a step a token, and its answer.
#![tactic(auto, using(ess_parse_frames::proofs::StackLaws::frames_none))]

ghost use Rattle.std.specs.Prelude.{◌≡◌, [], IfOk};
ghost use Rattle.std.specs.Str.{IsAscii};
ghost use Rattle.ess_grammar.specs.Kinds.{token};
ghost use Rattle.ess_lex.specs.Lexing.{IsNatural};
ghost use Rattle.ess_parse_laws.specs.Modes.{operand_wanted, domain_wanted, nothing_read};
ghost use Rattle.ess_parse_laws.specs.Machine.{step, finish};
ghost use Rattle.ess_parse_frames.specs.Views.{Answers};
ghost use Rattle.ess_parse_machine.specs.Parsers.{view_parser, Parses};

use crate::finishing::finish_in;
use crate::names::name_of;
use crate::steps::step_in;
use ess_grammar::Kind;
use ess_parse_frames::stops::let_state_go;
use ess_parse_frames::{Answer, Mode, State};
use ess_rows::{NoMemory, Row};
use std::alloc::Global;

/// A text that is read token by token, from left to right.
pub struct Parser {
    state: State,
}

impl Drop for Parser {
    fn drop(self) {
        let Parser { state } = self;
        let_state_go(state);
    }
}

impl Parser {
    /// A parser of an expression, before its first token.
    pub fn expression(alloc: Global) -> Parser
        ensures { view_parser result ≡ record { mode = operand_wanted; frames = [] } }
    {
        Parser {
            state: State {
                frames: Row::new(alloc),
                mode: Mode::OperandWanted,
            },
        }
    }

    /// A parser of a domain, before its first token.
    pub fn domain(alloc: Global) -> Parser
        ensures { view_parser result ≡ record { mode = domain_wanted; frames = [] } }
    {
        Parser {
            state: State {
                frames: Row::new(alloc),
                mode: Mode::DomainWanted,
            },
        }
    }

    /// A parser of a specification, or of a file of lettings, before its first token.
    pub fn specification(alloc: Global) -> Parser
        ensures { view_parser result ≡ record { mode = nothing_read; frames = [] } }
    {
        Parser {
            state: State {
                frames: Row::new(alloc),
                mode: Mode::NothingRead,
            },
        }
    }

    /// Takes a token, of this kind and with these bytes. None: no text that the grammar derives begins with the tokens up to and
    /// with this one. The bytes count only where the token is a name. `NoMemory` where there is no room; the parser is then
    /// dropped.
    pub fn step(self, alloc: Global, kind: Kind, text: &[u8]) -> Result<Option<Parser>, NoMemory>
        requires ascii { IsAscii text.now }
        requires natural { IsNatural kind }
        ensures { IfOk result (Parses (step (token kind text.now) (view_parser self).mode (view_parser self).frames)) }
    {
        let Parser { state } = self;
        match name_of(alloc, kind, text) {
            Ok(name) => {
                let State { frames, mode } = state;
                match step_in(alloc, kind, name, mode, frames) {
                    Ok(Some(state)) => Ok(Some(Parser { state })),
                    Ok(None) => Ok(None),
                    Err(no) => Err(no),
                }
            }
            Err(no) => {
                let_state_go(state);
                Err(no)
            }
        }
    }

    /// The answer at the end of the tokens. None: they are no whole text. `NoMemory` where there is no room.
    pub fn finish(self, alloc: Global) -> Result<Option<Answer>, NoMemory>
        ensures { IfOk result (Answers (finish (view_parser self).mode (view_parser self).frames)) }
    {
        let Parser { state } = self;
        let State { frames, mode } = state;
        finish_in(alloc, mode, frames)
    }
}
