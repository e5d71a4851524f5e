ghost use Rattle.std.specs.Prelude.{◌≡◌};
ghost use Rattle.ess_translate.specs.Refusals.{read_no, typing_no, walk_no, stop_no};
ghost use Rattle.ess_translate.specs.declared.refusal.TransNo.{TransNo};

use eprime_verdicts::PVerdict;
use ess_core::{NoMemory, Text};
use ess_domains::{EvalNo, ParamVerdict};
use ess_parse::ReadNo;
use ess_types::TypeNo;

/// Of which file a refusal speaks.
#[derive(Clone, Copy, Debug, PartialEq, Eq)]
pub enum Which {
    /// That of a model.
    Model,
    /// That of a specification.
    Essence,
    /// That of a parameter.
    Param,
    /// That of a solution, or of its cells.
    Solution,
}

/// Why files aren't translated or judged. Of several reasons that of the first file is given, and of one file the first in
/// this order, but for `NoMemory`, which may come at any point.
#[derive(Debug, Drop)]
pub enum TransNo {
    /// The text of a model doesn't begin with a header of this tool, or the model declares other tables than its header has.
    HeaderBad,
    /// The text of this file isn't read. The reason is never want of memory.
    Read(Which, ReadNo),
    /// The specification is ill typed. The reason is never want of memory.
    Typing(TypeNo),
    /// The parameter doesn't fit the specification.
    InvalidParameter(ParamVerdict),
    /// The tables of this given or find have more than 2^24 cells under the parameter. Their number is kept at 2^100.
    TooManyCells(Text, u128),
    /// The cells don't satisfy the model: what they fail first, which is never that they do.
    Unsatisfied(PVerdict),
    /// The cells of this find stand for no value by all of its representations.
    NotRepresented(Text),
    /// A number lies below -(2^63 - 1) or above 2^63 - 1.
    Big,
    /// There was no room in memory.
    NoMemory,
}

impl From<NoMemory> for TransNo {
    ghost from_gives = { λ _ no. no ≡ TransNo.NoMemory };

    fn from(_: NoMemory) -> TransNo {
        TransNo::NoMemory
    }
}

/// The refusal of the text of a file.
pub(crate) fn read_no(file: Which, why: ReadNo) -> TransNo
    ensures { result ≡ read_no file why }
{
    match why {
        ReadNo::NoMemory => TransNo::NoMemory,
        _ => TransNo::Read(file, why),
    }
}

/// The refusal of a specification's types.
pub(crate) fn typing_no(why: TypeNo) -> TransNo
    ensures { result ≡ typing_no why }
{
    match why {
        TypeNo::NoMemory => TransNo::NoMemory,
        _ => TransNo::Typing(why),
    }
}

/// Why a walk over statements stops.
#[derive(Clone, Copy, Debug, PartialEq, Eq)]
pub(crate) enum WalkNo {
    /// A number lies outside 64 bits.
    Big,
    /// There was no room in memory.
    NoMemory,
}

impl From<NoMemory> for WalkNo {
    ghost use Rattle.std.specs.Prelude.{◌≡◌};
    ghost use Rattle.ess_translate.specs.declared.refusal.WalkNo.{WalkNo};

    ghost from_gives = { λ _ no. no ≡ WalkNo.NoMemory };

    fn from(_: NoMemory) -> WalkNo {
        WalkNo::NoMemory
    }
}

/// Why evaluation stops a walk.
pub(crate) fn walk_no(why: EvalNo) -> WalkNo
    ensures { result ≡ walk_no why }
{
    match why {
        EvalNo::Big => WalkNo::Big,
        EvalNo::NoMemory => WalkNo::NoMemory,
        EvalNo::Undefined => WalkNo::NoMemory,
        EvalNo::TooManyCells(_) => WalkNo::NoMemory,
    }
}

/// The refusal where a walk stops.
pub(crate) fn stop_no(why: WalkNo) -> TransNo
    ensures { result ≡ stop_no why }
{
    match why {
        WalkNo::Big => TransNo::Big,
        WalkNo::NoMemory => TransNo::NoMemory,
    }
}
