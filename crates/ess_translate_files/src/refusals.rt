//! The refusals of the parts as refusals of a translation.
ghost use Rattle.std.specs.Prelude.{◌≡◌};
ghost use Rattle.ess_translate.specs.Refusals.{read_no};
ghost use Rattle.ess_translate_files.specs.Refusals.{head_no, eval_no};

use ess_eval::EvalNo;
use ess_parse::ReadNo;
use ess_translate::{TransNo, Which};
use ess_translate_header::HeadNo;

/// The refusal of the text of this file.
pub fn read_no(file: Which, why: ReadNo) -> TransNo
    ensures { result ≡ read_no file why }
{
    match why {
        ReadNo::NoMemory => TransNo::NoMemory,
        _ => TransNo::Read(file, why),
    }
}

/// The refusal of a header.
pub(crate) fn head_no(why: HeadNo) -> TransNo
    ensures { result ≡ head_no why }
{
    match why {
        HeadNo::HeaderBad => TransNo::HeaderBad,
        HeadNo::NoMemory => TransNo::NoMemory,
    }
}

/// Why evaluation stops.
pub(crate) fn eval_no(why: EvalNo) -> TransNo
    ensures { result ≡ eval_no why }
{
    match why {
        EvalNo::Big => TransNo::Big,
        EvalNo::NoMemory => TransNo::NoMemory,
        EvalNo::Undefined => TransNo::NoMemory,
        EvalNo::TooManyCells(_) => TransNo::NoMemory,
    }
}
