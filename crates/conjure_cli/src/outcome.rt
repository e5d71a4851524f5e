// How a run of any command ends.
ghost use Rattle.std.specs.Prelude.{◌≡◌};
ghost use Rattle.conjure_cli.specs.Reasons.{read_status, refusal_status, verdict_status};
ghost use Rattle.conjure_cli.specs.Runs.{outcome_status};

use crate::ending::Ending;
use ess_domains::Verdict;
use ess_parse::ReadNo;
use ess_translate::TransNo;

/// How a run of the program ends.
#[derive(Debug, Drop)]
pub enum Outcome {
    /// As a run of any command may.
    Plain(Ending),
    /// With a verdict on a solution.
    Judged(Verdict),
    /// With the refusal of a text. Want of memory is a plain ending.
    Refused(TransNo),
    /// With the refusal of an item of the list of representations, by its number.
    BadItem(u64),
}

impl Outcome {
    /// The status of the program.
    pub(crate) fn status(&self) -> u8
        ensures { result ≡ outcome_status self.now }
    {
        match self {
            Outcome::Plain(ending) => ending.status(),
            Outcome::Judged(verdict) => verdict_status(verdict),
            Outcome::Refused(why) => refusal_status(why),
            Outcome::BadItem(_) => 3,
        }
    }
}

/// The status of a verdict.
fn verdict_status(verdict: &Verdict) -> u8
    ensures { result ≡ verdict_status verdict.now }
{
    match verdict {
        Verdict::Valid => 0,
        _ => 1,
    }
}

/// The status of a refusal.
fn refusal_status(why: &TransNo) -> u8
    ensures { result ≡ refusal_status why.now }
{
    match why {
        TransNo::HeaderBad => 3,
        TransNo::Read(_, why) => read_status(*why),
        TransNo::Typing(_) => 3,
        TransNo::InvalidParameter(_) => 3,
        TransNo::TooManyCells(_, _) => 5,
        TransNo::Unsatisfied(_) => 1,
        TransNo::NotRepresented(_) => 1,
        TransNo::Big => 5,
        TransNo::NoMemory => 6,
    }
}

/// The status of a text that isn't read.
fn read_status(why: ReadNo) -> u8
    ensures { result ≡ read_status why }
{
    match why {
        ReadNo::TooDeep(_) => 5,
        _ => 3,
    }
}
