ghost use Rattle.std.specs.Prelude.{◌≡◌, IfOk, map};
ghost use Rattle.std.specs.Option.{option_map};
ghost use Rattle.std.specs.Str.{IsAscii};
ghost use Rattle.ess_grammar.specs.Kinds.{token};
ghost use Rattle.ess_core.specs.TreeViews.{pure_repr};
ghost use Rattle.ess_parse.specs.Readers.{IsRefusedFirst, IsDerived, IsAnswered, IsUnread, IsPlaced};
ghost use Rattle.ess_parse.specs.Runs.{IsReading};
ghost use Rattle.ess_parse.specs.NamedRepresentations.{IsRepresentationLine, step_line, finish_line, step_first, step_name, step_in_tree, next_tree, with_last, word_wanted};
ghost use Rattle.ess_parse.specs.NamedReprViews.{pure_named_reprs, view_line};
ghost use Rattle.ess_parse.specs.RepresentationViews.{view_machine};

use super::machine::Machine;
use crate::first::pass_first;
use crate::refusal::ReadNo;
use ess_core::{NoMemory, Repr, Row, Text};
use ess_lex::{Kind, Lexer, end_place};
use std::alloc::Global;

/// A given or find with its representations, in order.
#[derive(Drop, PartialEq)]
pub struct NamedReprs {
    pub name: Text,
    pub trees: Row<Repr>,
}

/// What is wanted next, or what was read.
#[derive(Drop)]
pub(super) enum Line {
    /// The word `repr` is wanted.
    WordWanted,
    /// The name is wanted.
    NameWanted,
    /// A representation was begun, behind those that were read.
    TreeBegun(NamedReprs, Machine),
}

/// Reads the line of a model's header that names the representations of a given or find, as `repr s Explicit[Occurrence] +
/// Occurrence`: the word, the name, and one or more representations with ` + ` between.
///
/// `BadByte`, `WideNumber`, `Unsupported` and `TooDeep` come exactly where the text is refused before its grammar is looked
/// at, in this order. Else the answer is what the rules derive, and `Syntax` comes exactly where they derive nothing: its
/// place is that of a token with which no line goes on that is read, or that of the end of the text. `NoMemory` for want of
/// memory.
pub fn read_named_reprs(alloc: Global, text: &[u8]) -> Result<NamedReprs, ReadNo>
    ensures refused { IsRefusedFirst text.now result }
    ensures derived { IsDerived IsRepresentationLine pure_named_reprs text.now result }
    ensures answered { IsAnswered IsRepresentationLine pure_named_reprs text.now result }
    ensures unread { IsUnread IsRepresentationLine text.now result }
    ensures placed { IsPlaced IsRepresentationLine text.now result }
{
    run(alloc, text)
}

/// Runs the machine over the tokens of a text.
fn run(alloc: Global, text: &[u8]) -> Result<NamedReprs, ReadNo>
    ensures { IsReading step_line finish_line word_wanted pure_named_reprs text.now result }
{
    pass_first(text)?;
    let mut lexer = Lexer::new(text);
    let mut line = Line::WordWanted;
    while let Some(token) = lexer.next()? {
        let Some(next) = line.step(alloc, token.kind, token.text)? else {
            return Err(ReadNo::Syntax(token.place));
        };
        line = next;
    }
    match line.finish(alloc)? {
        Some(named) => Ok(named),
        None => Err(ReadNo::Syntax(end_place(text))),
    }
}

impl Line {
    /// Takes a token. None where no line goes on with it.
    pub(super) fn step(
        self,
        alloc: Global,
        kind: Kind,
        text: &[u8],
    ) -> Result<Option<Line>, NoMemory>
        requires { IsAscii text.now }
        ensures { IfOk result (λ next. step_line (token kind text.now) (view_line self) ≡ option_map view_line next) }
    {
        match self {
            Line::WordWanted => Ok(take_word(kind, text)),
            Line::NameWanted => take_name(alloc, kind, text),
            Line::TreeBegun(named, machine) => step_in_tree(alloc, kind, text, named, machine),
        }
    }

    /// The name with its representations, where the last one is whole.
    pub(super) fn finish(self, alloc: Global) -> Result<Option<NamedReprs>, NoMemory>
        ensures { IfOk result (λ named. finish_line (view_line self) ≡ option_map pure_named_reprs named) }
    {
        match self {
            Line::WordWanted => Ok(None),
            Line::NameWanted => Ok(None),
            Line::TreeBegun(named, machine) => with_last(named, machine.finish(alloc)),
        }
    }
}

/// Takes the word `repr`.
fn take_word(kind: Kind, text: &[u8]) -> Option<Line>
    ensures { step_first (token kind text.now) ≡ option_map view_line result }
{
    match kind {
        Kind::Name => {
            if text == b"repr".as_slice() {
                Some(Line::NameWanted)
            } else {
                None
            }
        }
        _ => None,
    }
}

/// Takes the name behind the word.
fn take_name(alloc: Global, kind: Kind, text: &[u8]) -> Result<Option<Line>, NoMemory>
    requires { IsAscii text.now }
    ensures { IfOk result (λ next. step_name (token kind text.now) ≡ option_map view_line next) }
{
    match kind {
        Kind::Name => {
            let name = Text::from_ascii(alloc, text)?;
            let trees = Row::new(alloc);
            Ok(Some(Line::TreeBegun(NamedReprs { name, trees }, Machine::new(alloc))))
        }
        _ => Ok(None),
    }
}

/// Takes a token where a representation was begun.
fn step_in_tree(
    alloc: Global,
    kind: Kind,
    text: &[u8],
    named: NamedReprs,
    machine: Machine,
) -> Result<Option<Line>, NoMemory>
    ensures { IfOk result (λ next. step_in_tree (token kind text.now) named.name (map pure_repr named.trees) (view_machine machine) ≡ option_map view_line next) }
{
    match kind {
        Kind::Plus => begin_next(alloc, named, machine.finish(alloc)),
        _ => match machine.step(alloc, kind, text)? {
            Some(next) => Ok(Some(Line::TreeBegun(named, next))),
            None => Ok(None),
        },
    }
}

/// Begins the next representation behind one that is whole.
fn begin_next(
    alloc: Global,
    named: NamedReprs,
    last: Option<Repr>,
) -> Result<Option<Line>, NoMemory>
    ensures { IfOk result (λ next. next_tree named.name (map pure_repr named.trees) (option_map pure_repr last) ≡ option_map view_line next) }
{
    match with_last(named, last)? {
        Some(named) => Ok(Some(Line::TreeBegun(named, Machine::new(alloc)))),
        None => Ok(None),
    }
}

/// The name with one more representation, where it is whole.
fn with_last(named: NamedReprs, last: Option<Repr>) -> Result<Option<NamedReprs>, NoMemory>
    ensures { IfOk result (λ more. with_last named.name (map pure_repr named.trees) (option_map pure_repr last) ≡ option_map pure_named_reprs more) }
{
    let NamedReprs { name, mut trees } = named;
    match last {
        Some(tree) => {
            trees.push(tree)?;
            Ok(Some(NamedReprs { name, trees }))
        }
        None => Ok(None),
    }
}
