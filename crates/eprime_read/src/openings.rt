ghost use Rattle.std.specs.Prelude.{◌≡◌};
ghost use Rattle.std.specs.Option.{option_map};
ghost use Rattle.ess_semantics.specs.Values.{Text};
ghost use Rattle.ess_grammar.specs.Words.{word};
ghost use Rattle.ess_grammar.specs.Kinds.{token};
ghost use Rattle.ess_lex.specs.Lexing.{IsNatural};
ghost use Rattle.eprime_read_laws.specs.ModelMachine.{begins_part, may_follow, statement_word};
ghost use Rattle.eprime_read.specs.Openings.{word_of};

use ess_lex::Kind;

/// The words that begin statements.
#[derive(Clone, Copy, Debug, PartialEq, Eq)]
pub(crate) enum Opening {
    Given,
    Find,
    Letting,
    Where,
    Such,
    Minimising,
    Maximising,
}

/// The word that a token of this kind is, where it begins a statement.
pub(crate) fn opened_by(kind: Kind) -> Option<Opening>
    ensures { (bytes : Text) → statement_word (token kind bytes) ≡ option_map word_of result }
{
    match kind {
        Kind::Given => Some(Opening::Given),
        Kind::Find => Some(Opening::Find),
        Kind::Letting => Some(Opening::Letting),
        Kind::Where => Some(Opening::Where),
        Kind::Such => Some(Opening::Such),
        Kind::Minimising => Some(Opening::Minimising),
        Kind::Maximising => Some(Opening::Maximising),
        _ => None,
    }
}

/// The kind of a token that is this word.
pub(crate) fn kind_of(opening: Opening) -> Kind
    ensures word { (bytes : Text) → token result bytes ≡ word (word_of opening) }
    ensures natural { IsNatural result }
{
    match opening {
        Opening::Given => Kind::Given,
        Opening::Find => Kind::Find,
        Opening::Letting => Kind::Letting,
        Opening::Where => Kind::Where,
        Opening::Such => Kind::Such,
        Opening::Minimising => Kind::Minimising,
        Opening::Maximising => Kind::Maximising,
    }
}

/// Does the word begin a part of a model?
pub(crate) fn begins_part(opening: Opening) -> bool
    ensures { result ≡ begins_part (word_of opening) }
{
    !matches!(opening, Opening::Letting | Opening::Where)
}

/// May a part that begins with `next` stand behind one that begins with `before`?
pub(crate) fn may_follow(before: Opening, next: Opening) -> bool
    ensures { result ≡ may_follow (word_of before) (word_of next) }
{
    match before {
        Opening::Given => begins_part(next),
        Opening::Find => !matches!(next, Opening::Given) && begins_part(next),
        Opening::Minimising | Opening::Maximising => matches!(next, Opening::Such),
        Opening::Letting | Opening::Where | Opening::Such => false,
    }
}
