ghost use Rattle.std.specs.Prelude.{◌≡◌};
ghost use Rattle.ess_grammar.specs.Statements.{IsDomain};
ghost use Rattle.ess_grammar.specs.Readable.{ReadableDom};
ghost use Rattle.ess_core.specs.TreeViews.{pure_dom};
ghost use Rattle.ess_parse.specs.Readers.{IsRefusedFirst, IsDerived, IsAnswered, IsUnread, IsPlaced, IsReadable};
ghost use Rattle.ess_parse.specs.Runs.{IsReading};
ghost use Rattle.ess_parse.specs.Machines.{step_state, finish_domain, start_domain};

use crate::first::pass_first;
use crate::parsing::{domain_of, parse};
use crate::refusal::ReadNo;
use ess_core::Dom;
use ess_lex::end_place;
use ess_parse_machine::Parser;
use std::alloc::Global;

/// Reads a domain, as `set (size 2) of int(1..3)` (Essence, Constraints 13, 2008, its grammar of domains).
///
/// `BadByte`, `WideNumber`, `Unsupported` and `TooDeep` come exactly where the text is refused before its grammar is looked
/// at, in this order. Else the tree is answered exactly where one is derived, and `Syntax` exactly where none is: its place
/// is that of a token with which no text goes on that is read, or that of the end of the text. `NoMemory` for want of
/// memory. The answer is a readable tree.
pub fn read_dom(alloc: Global, text: &[u8]) -> Result<Dom, ReadNo>
    ensures refused { IsRefusedFirst text.now result }
    ensures derived { IsDerived IsDomain pure_dom text.now result }
    ensures answered { IsAnswered IsDomain pure_dom text.now result }
    ensures unread { IsUnread IsDomain text.now result }
    ensures placed { IsPlaced IsDomain text.now result }
    ensures readable { IsReadable ReadableDom pure_dom result }
{
    run(alloc, text)
}

/// Runs the parser over the tokens of a text, from where a domain is wanted.
fn run(alloc: Global, text: &[u8]) -> Result<Dom, ReadNo>
    ensures { IsReading step_state finish_domain start_domain pure_dom text.now result }
{
    pass_first(text)?;
    let answer = parse(alloc, text, Parser::domain(alloc))?;
    match domain_of(answer) {
        Some(dom) => Ok(dom),
        None => Err(ReadNo::Syntax(end_place(text))),
    }
}
