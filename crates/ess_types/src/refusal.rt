ghost use Rattle.std.specs.Prelude.{◌≡◌};
ghost use Rattle.ess_types.specs.declared.refusal.TypeNo.{TypeNo};
ghost use Rattle.ess_types.specs.Refusals.{pure_judgement, refusal, kept_number as kept_at_most};

use ess_core::NoMemory;
use thiserror::Error;

/// Why a specification isn't well typed: the judgement that a statement fails, with the statement's number, which is kept at
/// 2^32 - 1. It is the first statement that fails one, and of several judgements that it fails the first in this order.
/// `NoMemory` may come at any point.
#[derive(Clone, Copy, PartialEq, Eq, Debug, Error)]
pub enum TypeNo {
    /// A name is used before the statement that declares it, or nowhere declared, or a domain's name is no domain.
    #[error("statement {0}: unknown name")]
    UnknownName(u32),
    /// A name is declared or bound where it stands already, or a second objective stands.
    #[error("statement {0}: name declared twice")]
    DoubleName(u32),
    /// Types don't fit, or another rule of the statement's form is broken.
    #[error("statement {0}: ill typed")]
    IllTyped(u32),
    /// The domain of a find or of a generator is infinite.
    #[error("statement {0}: not finite")]
    NotFinite(u32),
    /// The members of a domain can't be listed where they are, or a number of a domain isn't fixed.
    #[error("statement {0}: not enumerable")]
    NotEnumerable(u32),
    /// A given's domain has members of unknown size.
    #[error("statement {0}: needs an unknown number of slots")]
    OpenGiven(u32),
    /// There was no room in memory.
    #[error("out of memory")]
    NoMemory,
}

impl From<NoMemory> for TypeNo {
    ghost from_gives = { λ _ no. no ≡ TypeNo.NoMemory };

    fn from(_: NoMemory) -> TypeNo {
        TypeNo::NoMemory
    }
}

/// The judgements of a statement, in order.
#[derive(Clone, Copy, PartialEq, Eq, Debug)]
pub(crate) enum Judgement {
    UnknownName,
    DoubleName,
    IllTyped,
    NotFinite,
    NotEnumerable,
    OpenGiven,
}

/// The number, kept at 2^32 - 1.
fn kept_number(number: usize) -> u32
    ensures { result ≡ kept_at_most number }
{
    u32::try_from(number).unwrap_or(u32::MAX)
}

/// The refusal of the statement of this number, which fails this judgement.
pub(crate) fn refused(judgement: Judgement, number: usize) -> TypeNo
    ensures { result ≡ refusal (pure_judgement judgement, number) }
{
    let number = kept_number(number);
    match judgement {
        Judgement::UnknownName => TypeNo::UnknownName(number),
        Judgement::DoubleName => TypeNo::DoubleName(number),
        Judgement::IllTyped => TypeNo::IllTyped(number),
        Judgement::NotFinite => TypeNo::NotFinite(number),
        Judgement::NotEnumerable => TypeNo::NotEnumerable(number),
        Judgement::OpenGiven => TypeNo::OpenGiven(number),
    }
}
