ghost use Rattle.std.specs.Prelude.{◌≡◌};
ghost use Rattle.ess_parse.specs.Refusals.{lexer_no};
ghost use Rattle.ess_parse.specs.declared.refusal.ReadNo.{ReadNo};

use ess_lex::LexNo;
use ess_rows::{NoMemory, Place};

/// Why a text isn't read. Of several reasons the first in this order is given, but for `NoMemory`, which may come at any
/// point.
#[derive(Clone, Copy, Debug, PartialEq, Eq)]
pub enum ReadNo {
    /// At this place stands a byte that begins no token.
    BadByte(Place),
    /// At this place begins a number above 2^63 - 1.
    WideNumber(Place),
    /// At this place stands the first word outside the subset of the language.
    Unsupported(Place),
    /// At the token at this place the load of the text first rises above 250.
    TooDeep(Place),
    /// The rules derive no tree. The place is that of a token, or that of the end of the text.
    Syntax(Place),
    /// There was no room in memory.
    NoMemory,
}

impl From<LexNo> for ReadNo {
    ghost from_gives = { λ why no. no ≡ lexer_no why };

    fn from(why: LexNo) -> ReadNo {
        match why {
            LexNo::BadByte(place) => ReadNo::BadByte(place),
            LexNo::WideNumber(place) => ReadNo::WideNumber(place),
        }
    }
}

impl From<NoMemory> for ReadNo {
    ghost from_gives = { λ _ no. no ≡ ReadNo.NoMemory };

    fn from(_: NoMemory) -> ReadNo {
        ReadNo::NoMemory
    }
}
