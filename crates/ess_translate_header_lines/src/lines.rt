//! The lines of a header one by one.
ghost use Rattle.std.specs.Prelude.{◌≡◌, ◌∷◌, [], map, IfOk, OnOk, MatchOption};
ghost use Rattle.ess_parse.specs.declared.refusal.ReadNo.{ReadNo};
ghost use Rattle.ess_semantics.specs.Trees.{Stm as PureStm};
ghost use Rattle.ess_core.specs.TreeViews.{pure_repr};
ghost use Rattle.ess_core.specs.StatementViews.{pure_stm, pure_spec};
ghost use Rattle.ess_translate_header_laws.specs.HeadLines.{IsHeadLine, begins_with_language};
ghost use Rattle.ess_translate_header_laws.specs.HeadLines.{IsStatementLine, IsNoStatementLine, IsReprsLine, IsNoReprsLine};
ghost use Rattle.ess_translate_header_lines.specs.Views.{pure_line};
ghost use Rattle.ess_grammar.specs.Tokens.{lexed};

use ess_core::{Boxed, NoMemory, Spec, Stm, Text};
use ess_lex::{Kind, Lexer};
use ess_parse::{NamedReprs, ReadNo, read_named_reprs, read_spec};
use std::alloc::Global;

/// What a line of a header is.
#[derive(Drop)]
pub(crate) enum HeadLine {
    /// A statement.
    Statement(Boxed<Stm>),
    /// The representations of a given or find.
    Representations(NamedReprs),
    /// The line behind the last.
    End,
    /// None of these.
    Other,
}

/// What a line is.
#[tactic(auto, using(ess_translate_header_laws::proofs::HeadLines::neither))]
pub(crate) fn line_of(alloc: Global, line: &Text) -> Result<HeadLine, NoMemory>
    ensures { IfOk result (λ l. IsHeadLine line.now (pure_line l)) }
{
    if line.as_bytes() == b"end-header".as_slice() {
        return Ok(HeadLine::End);
    }
    if let Some(stm) = statement_of(alloc, line)? {
        return Ok(HeadLine::Statement(stm));
    }
    match reprs_of(alloc, line)? {
        Some(named) => Ok(HeadLine::Representations(named)),
        None => Ok(HeadLine::Other),
    }
}

/// The statement that a line is, if it is one.
#[tactic(auto, using(ess_translate_header_laws::proofs::HeadLines::language_no_statement))]
fn statement_of(alloc: Global, line: &Text) -> Result<Option<Boxed<Stm>>, NoMemory>
    ensures { IfOk result (λ o. MatchOption o (IsNoStatementLine line.now) (λ stm. IsStatementLine line.now (pure_stm stm))) }
{
    if begins_with_language(line) {
        return Ok(None);
    }
    match read_spec(alloc, line.as_bytes()) {
        Ok(spec) => only_statement(alloc, spec),
        Err(no) => {
            of_text(no)?;
            Ok(None)
        }
    }
}

/// The statement of a specification of one.
fn only_statement(alloc: Global, spec: Spec) -> Result<Option<Boxed<Stm>>, NoMemory>
    ensures { IfOk result (λ o. MatchOption o ((stm : PureStm) → pure_spec spec ≡ stm ∷ [] → ⊥)
        (λ stm. pure_spec spec ≡ pure_stm stm ∷ [])) }
{
    let mut stms = spec.stms;
    if stms.len() != 1 {
        return Ok(None);
    }
    match stms.pop() {
        Some(stm) => Ok(Some(Boxed::new(alloc, stm)?)),
        None => Ok(None),
    }
}

/// Whether a refusal is one of the text: `NoMemory` where it isn't.
fn of_text(no: ReadNo) -> Result<(), NoMemory>
    ensures { OnOk result (no ≡ ReadNo.NoMemory → ⊥) }
{
    match no {
        ReadNo::NoMemory => Err(NoMemory),
        _ => Ok(()),
    }
}

/// Whether the first token of a line is the word `language`.
fn begins_with_language(line: &Text) -> bool
    ensures { result ≡ begins_with_language (lexed line.now) }
{
    let mut lexer = Lexer::new(line.as_bytes());
    match lexer.next() {
        Ok(Some(token)) => token.kind == Kind::Language,
        Ok(None) => false,
        Err(_) => false,
    }
}

/// The representations of a name that a line has, if it has them.
#[tactic(auto, using(crate::proofs::ReadLines::named_read))]
fn reprs_of(alloc: Global, line: &Text) -> Result<Option<NamedReprs>, NoMemory>
    ensures { IfOk result (λ o. MatchOption o (IsNoReprsLine line.now) (λ n. IsReprsLine line.now n.name (map pure_repr n.trees))) }
{
    match read_named_reprs(alloc, line.as_bytes()) {
        Ok(named) => Ok(Some(named)),
        Err(no) => {
            of_text(no)?;
            Ok(None)
        }
    }
}
