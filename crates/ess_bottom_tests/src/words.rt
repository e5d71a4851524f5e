// Words of the language.
use crate::shown::put;
use ess_lex::Lexer;
use ess_rows::NoMemory;
use ess_semantics::words::{Fun, Key, Op1, Op2, ReprKind};

/// The text that each token of the kind of the text's first token has.
pub(crate) fn kind_text(out: &mut String, text: &[u8]) -> Result<(), NoMemory> {
    if let Ok(Some(token)) = Lexer::new(text).next() {
        put(out, &token.kind)?;
        put(out, &token.kind.text())?;
    }
    Ok(())
}

/// Whether words are equal, two of each kind.
pub(crate) fn told_apart(out: &mut String) -> Result<(), NoMemory> {
    put(out, &(Op1::Not == Op1::Minus))?;
    put(out, &(Op2::And == Op2::And))?;
    put(out, &(Fun::And == Fun::Or))?;
    put(out, &(Key::Size == Key::Size))?;
    put(out, &(ReprKind::Matrix == ReprKind::Occurrence))
}
