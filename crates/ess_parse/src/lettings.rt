ghost use Rattle.std.specs.Prelude.{◌≡◌};
ghost use Rattle.ess_grammar.specs.Statements.{IsLettingsFile};
ghost use Rattle.ess_grammar.specs.Readable.{ReadableLettings};
ghost use Rattle.ess_parse.specs.LettingViews.{pure_lettings, view_machine};
ghost use Rattle.ess_parse.specs.Readers.{IsRefusedFirst, IsDerived, IsAnswered, IsUnread, IsPlaced, IsReadable};
ghost use Rattle.ess_parse.specs.Runs.{IsReading};
ghost use Rattle.ess_parse.specs.Machines.{step_lettings, finish_lettings, start_lettings};

mod machine;
mod statements;

use crate::first::pass_first;
use crate::refusal::ReadNo;
use ess_lex::{Lexer, end_place};
use machine::Machine;
pub use statements::{Letting, Lettings};
use std::alloc::Global;

/// Reads a file of lettings, as the files of parameters and of solutions are: lettings of values and of enumerated types
/// (the Conjure manual, on parameter and solution files).
///
/// `BadByte`, `WideNumber`, `Unsupported` and `TooDeep` come exactly where the text is refused before its grammar is looked
/// at, in this order. Else the lettings are answered exactly where the rules derive them, and `Syntax` exactly where they
/// derive none: its place is that of a token with which no text goes on that is read, or that of the end of the text, and
/// before each word that begins a statement and stands before the place stands a whole file. `NoMemory` for want of memory.
/// The answer is a readable tree.
pub fn read_lettings(alloc: Global, text: &[u8]) -> Result<Lettings, ReadNo>
    ensures refused { IsRefusedFirst text.now result }
    ensures derived { IsDerived IsLettingsFile pure_lettings text.now result }
    ensures answered { IsAnswered IsLettingsFile pure_lettings text.now result }
    ensures unread { IsUnread IsLettingsFile text.now result }
    ensures placed { IsPlaced IsLettingsFile text.now result }
    ensures readable { IsReadable ReadableLettings pure_lettings result }
{
    run(alloc, text)
}

/// Runs the machine over the tokens of a text.
fn run(alloc: Global, text: &[u8]) -> Result<Lettings, ReadNo>
    ensures { IsReading step_lettings finish_lettings start_lettings pure_lettings text.now result }
{
    pass_first(text)?;
    let mut lexer = Lexer::new(text);
    let mut machine = Machine::new(alloc);
    while let Some(token) = lexer.next()? {
        let Some(next) = machine.step(alloc, token.kind, token.text)? else {
            return Err(ReadNo::Syntax(token.place));
        };
        machine = next;
    }
    match machine.finish(alloc)? {
        Some(lettings) => Ok(lettings),
        None => Err(ReadNo::Syntax(end_place(text))),
    }
}
