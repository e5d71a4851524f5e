ghost use Rattle.ess_grammar.specs.CellTexts.{IsCells};
ghost use Rattle.ess_parse.specs.Readers.{IsRefusedFirst, IsDerived, IsAnswered, IsUnread, IsPlaced};
ghost use Rattle.ess_parse.specs.Runs.{IsReading};
ghost use Rattle.eprime_read_cells_laws.specs.CellMachine.{cells_step, cells_finish, cells_start};
ghost use Rattle.eprime_cells_machine.specs.ValueViews.{pure_lettings};

use eprime_cells_machine::{CellLetting, Machine};
use ess_lex::{Lexer, end_place};
use ess_parse::{ReadNo, pass_first};
use ess_rows::Row;
use std::alloc::Global;

/// Reads the lettings of a text of cells: any number of `letting NAME be VALUE` behind a language line or none, where a value
/// is a number, a truth value or a list with or without its index domain (the Conjure manual, chapter on its output).
///
/// `BadByte`, `WideNumber`, `Unsupported` and `TooDeep` come exactly where the text is refused before its grammar is looked
/// at, in this order. Else the lettings are answered exactly where the rules derive them, and `Syntax` exactly where they
/// derive none: its place is that of a token with which no text of cells goes on, or that of the end of the text, and before
/// each `letting` that stands before the place stands a whole text of cells. `NoMemory` for want of memory.
pub fn read_lettings(alloc: Global, text: &[u8]) -> Result<Row<CellLetting>, ReadNo>
    ensures refused { IsRefusedFirst text.now result }
    ensures derived { IsDerived IsCells pure_lettings text.now result }
    ensures answered { IsAnswered IsCells pure_lettings text.now result }
    ensures unread { IsUnread IsCells text.now result }
    ensures placed { IsPlaced IsCells text.now result }
{
    run(alloc, text)
}

/// Runs the machine over the tokens of a text.
fn run(alloc: Global, text: &[u8]) -> Result<Row<CellLetting>, ReadNo>
    ensures { IsReading cells_step cells_finish cells_start pure_lettings text.now result }
{
    pass_first(text)?;
    let mut lexer = Lexer::new(text);
    let mut machine = Machine::new(alloc);
    while let Some(token) = lexer.next()? {
        let Some(next) = machine.step(alloc, token.kind, token.text)? else {
            return Err(ReadNo::Syntax(token.place));
        };
        machine = next;
    }
    match machine.finish() {
        Some(lettings) => Ok(lettings),
        None => Err(ReadNo::Syntax(end_place(text))),
    }
}
