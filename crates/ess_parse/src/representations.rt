ghost use Rattle.std.specs.Prelude.{◌≡◌};
ghost use Rattle.ess_grammar.specs.Representations.{IsRepresentation};
ghost use Rattle.ess_core.specs.TreeViews.{pure_repr};
ghost use Rattle.ess_parse.specs.Readers.{IsRefusedFirst, IsDerived, IsAnswered, IsUnread, IsPlaced};
ghost use Rattle.ess_parse.specs.Runs.{IsReading};
ghost use Rattle.ess_parse.specs.Machines.{step_representation, finish_representation, start_representation};

mod kinds;
mod machine;
mod named;

use crate::first::pass_first;
use crate::refusal::ReadNo;
use ess_core::Repr;
use ess_lex::{Lexer, end_place};
use machine::Machine;
pub use named::{NamedReprs, read_named_reprs};
use std::alloc::Global;

/// Reads a representation, as `Explicit[Occurrence]`: the name of a kind as in the Conjure manual, and where it has
/// any its children in square brackets.
///
/// `BadByte`, `WideNumber`, `Unsupported` and `TooDeep` come exactly where the text is refused before its grammar is looked
/// at, in this order. Else the tree is answered exactly where one is derived, and `Syntax` exactly where none is: its place
/// is that of a token with which no text goes on that is read, or that of the end of the text. `NoMemory` for want of
/// memory.
pub fn read_repr(alloc: Global, text: &[u8]) -> Result<Repr, ReadNo>
    ensures refused { IsRefusedFirst text.now result }
    ensures derived { IsDerived IsRepresentation pure_repr text.now result }
    ensures answered { IsAnswered IsRepresentation pure_repr text.now result }
    ensures unread { IsUnread IsRepresentation text.now result }
    ensures placed { IsPlaced IsRepresentation text.now result }
{
    run(alloc, text)
}

/// Runs the machine over the tokens of a text.
fn run(alloc: Global, text: &[u8]) -> Result<Repr, ReadNo>
    ensures { IsReading step_representation finish_representation start_representation pure_repr text.now result }
{
    pass_first(text)?;
    let mut lexer = Lexer::new(text);
    let mut machine = Machine::new(alloc);
    while let Some(token) = lexer.next()? {
        let Some(next) = machine.step(alloc, token.kind, token.text)? else {
            return Err(ReadNo::Syntax(token.place));
        };
        machine = next;
    }
    match machine.finish(alloc) {
        Some(repr) => Ok(repr),
        None => Err(ReadNo::Syntax(end_place(text))),
    }
}
