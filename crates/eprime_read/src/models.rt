ghost use Rattle.std.specs.Prelude.{◌≡◌, true, false, None, IfOk, OnOk, IfSome, MatchOption, IsTrue};
ghost use Rattle.std.specs.List.{list_all};
ghost use Rattle.ess_grammar.specs.Places.{end_place};
ghost use Rattle.ess_grammar.specs.Tokens.{lexed, first_outside};
ghost use Rattle.ess_grammar.specs.ModelTexts.{IsModel, header_lines};
ghost use Rattle.ess_grammar.specs.Models.{is_readable_model};
ghost use Rattle.ess_parse.specs.Readers.{IsRefusedFirst, IsDerived, IsAnswered, IsUnread, IsPlaced, IsReadable};
ghost use Rattle.ess_lex.specs.Lexing.{refusal};
ghost use Rattle.ess_parse.specs.declared.refusal.ReadNo.{ReadNo};
ghost use Rattle.ess_parse.specs.Runs.{IsAnswer, IsReading, run_over};
ghost use Rattle.eprime_read_laws.specs.ModelMachine.{at_begin, model_step, model_finish};
ghost use Rattle.eprime_tree.specs.Views.{pure_model};
ghost use Rattle.eprime_tree.specs.ModelText.{is_head_line};
ghost use Rattle.eprime_read.specs.Derived.{IsModelText, IsNoModelText};

use crate::machine::Machine;
use eprime_read_headers::header_lines;
use eprime_tree::PModel;
use ess_lex::{Lexer, end_place};
use ess_parse::{ReadNo, pass_first};
use ess_rows::{NoMemory, Row, Text};
use std::alloc::Global;

/// Reads a model in Essence Prime: the language line, the lines of its header, and its parts (the Conjure manual, chapter
/// on its output).
///
/// `BadByte`, `WideNumber`, `Unsupported` and `TooDeep` come exactly where the text is refused before its grammar is looked
/// at, in this order. Else the model is answered exactly where the rules derive one, and `Syntax` exactly where they derive
/// none: its place is that of a token with which no model goes on, or that of the end of the text, and before each word
/// that begins a statement and stands before the place stands a whole model. `NoMemory` for want of memory. The header has
/// the lines under the language line that begin with `$ `, up to the first that doesn't or isn't UTF-8. Each is one line in
/// UTF-8, so the answer can be printed.
pub fn read_model(alloc: Global, text: &[u8]) -> Result<PModel, ReadNo>
    ensures refused { IsRefusedFirst text.now result }
    ensures derived { IsDerived IsModel pure_model text.now result }
    ensures answered { IsAnswered IsModel pure_model text.now result }
    ensures unread { IsUnread IsModel text.now result }
    ensures placed { IsPlaced IsModel text.now result }
    ensures readable { IsReadable (λ m. IsTrue (is_readable_model m)) pure_model result }
    ensures head { IfOk result (λ m. m.head ≡ header_lines text.now) }
    ensures lines { IfOk result (λ m. IsTrue (list_all is_head_line m.head)) }
{
    run(alloc, text)
}

/// The model that the rules derive for a text, however deeply it is nested. None where they derive none, or a word of the text stands
/// outside the subset. `NoMemory` for want of memory. Its header has the lines that `read_model` finds.
#[tactic(auto, using(crate::proofs::DerivedModels::is_derived))]
pub fn derived_model(alloc: Global, text: &[u8]) -> Result<Option<PModel>, NoMemory>
    ensures derived { IfOk result (λ o. MatchOption o (IsNoModelText text.now) (λ m. IsModelText text.now (pure_model m))) }
    ensures head { IfOk result (λ o. IfSome o (λ m. m.head ≡ header_lines text.now)) }
{
    if !is_inside(text) {
        return Ok(None);
    }
    match over_tokens(alloc, text) {
        Ok(model) => Ok(Some(model)),
        Err(why) => {
            of_text(why)?;
            Ok(None)
        }
    }
}

/// Whether a refusal is one of the text: `NoMemory` where it isn't.
fn of_text(why: ReadNo) -> Result<(), NoMemory>
    ensures { OnOk result (why ≡ ReadNo.NoMemory → ⊥) }
{
    match why {
        ReadNo::NoMemory => Err(NoMemory),
        _ => Ok(()),
    }
}

/// Whether the lexer refuses nothing of a text, and no word of it stands outside the subset.
fn is_inside(text: &[u8]) -> bool
    ensures yes { result ≡ true → (refusal (lexed text.now) ≡ None) × (first_outside (lexed text.now) ≡ None) }
    ensures no { result ≡ false → refusal (lexed text.now) ≡ None → first_outside (lexed text.now) ≡ None → ⊥ }
{
    match ess_lex::first_outside(text) {
        Ok(None) => true,
        Ok(Some(_)) => false,
        Err(_) => false,
    }
}

/// Runs the machine over a text that isn't refused before its grammar is looked at.
#[tactic(auto, using(crate::proofs::FitTokens::unrefused, crate::proofs::FitTokens::without_outside))]
fn run(alloc: Global, text: &[u8]) -> Result<PModel, ReadNo>
    ensures reading { IsReading model_step model_finish at_begin pure_model text.now result }
    ensures head { IfOk result (λ m. m.head ≡ header_lines text.now) }
{
    pass_first(text)?;
    over_tokens(alloc, text)
}

/// Runs the machine over the tokens of a text.
#[tactic(auto, using(crate::proofs::FitTokens::unrefused_front))]
fn over_tokens(alloc: Global, text: &[u8]) -> Result<PModel, ReadNo>
    requires unrefused { refusal (lexed text.now) ≡ None }
    requires inside { first_outside (lexed text.now) ≡ None }
    ensures reading { IsAnswer pure_model (run_over model_step model_finish (end_place text.now) (lexed text.now) at_begin) result }
    ensures head { IfOk result (λ m. m.head ≡ header_lines text.now) }
{
    let mut lexer = Lexer::new(text);
    let mut machine = Machine::new();
    while let Some(token) = lexer.next()? {
        let Some(next) = machine.step(alloc, token.kind, token.text)? else {
            return Err(ReadNo::Syntax(token.place));
        };
        machine = next;
    }
    match machine.finish(alloc)? {
        Some(model) => Ok(with_head(model, header_lines(alloc, text)?)),
        None => Err(ReadNo::Syntax(end_place(text))),
    }
}

/// The model with the lines of its header.
fn with_head(model: PModel, head: Row<Text>) -> PModel
    ensures model { pure_model result ≡ pure_model model }
    ensures head { result.head ≡ head }
{
    let mut model = model;
    model.head = head;
    model
}
