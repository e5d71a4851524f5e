ghost use Rattle.std.specs.Prelude.{◌≡◌};
ghost use Rattle.ess_grammar.specs.Statements.{IsSpecification};
ghost use Rattle.ess_grammar.specs.Readable.{ReadableStms};
ghost use Rattle.ess_core.specs.StatementViews.{pure_spec};
ghost use Rattle.ess_parse.specs.Readers.{IsRefusedFirst, IsDerived, IsAnswered, IsUnread, IsPlaced, IsReadable};
ghost use Rattle.ess_parse.specs.Runs.{IsReading};
ghost use Rattle.ess_parse.specs.Machines.{step_state, finish_specification, start_specification};

use crate::first::pass_first;
use crate::parsing::{parse, statements_of};
use crate::refusal::ReadNo;
use ess_core::Spec;
use ess_lex::end_place;
use ess_parse_machine::Parser;
use std::alloc::Global;

/// Reads a specification: a language line or none, and statements (Essence, Constraints 13, 2008, its grammar of
/// specifications). A list in one statement is read as several statements.
///
/// `BadByte`, `WideNumber`, `Unsupported` and `TooDeep` come exactly where the text is refused before its grammar is looked
/// at, in this order. Else the tree is answered exactly where one is derived, and `Syntax` exactly where none is: its place
/// is that of a token with which no text goes on that is read, or that of the end of the text, and before each word that
/// begins a statement and stands before the place stands a whole specification. `NoMemory` for want of memory. The answer
/// is a readable tree.
pub fn read_spec(alloc: Global, text: &[u8]) -> Result<Spec, ReadNo>
    ensures refused { IsRefusedFirst text.now result }
    ensures derived { IsDerived IsSpecification pure_spec text.now result }
    ensures answered { IsAnswered IsSpecification pure_spec text.now result }
    ensures unread { IsUnread IsSpecification text.now result }
    ensures placed { IsPlaced IsSpecification text.now result }
    ensures readable { IsReadable ReadableStms pure_spec result }
{
    run(alloc, text)
}

/// Runs the parser over the tokens of a text, from its beginning.
fn run(alloc: Global, text: &[u8]) -> Result<Spec, ReadNo>
    ensures { IsReading step_state finish_specification start_specification pure_spec text.now result }
{
    pass_first(text)?;
    let answer = parse(alloc, text, Parser::specification(alloc))?;
    match statements_of(answer) {
        Some(stms) => Ok(Spec { stms }),
        None => Err(ReadNo::Syntax(end_place(text))),
    }
}
