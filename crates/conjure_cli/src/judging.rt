// Judging a solution: from the names of three files to a verdict.
ghost use Rattle.std.specs.Prelude.{◌≡◌, ℕ, ◌≤◌, List, IfOk, IfErr};
ghost use Rattle.ess_semantics.specs.Trees.{Stm};
ghost use Rattle.ess_core.specs.StatementViews.{pure_spec};
ghost use Rattle.ess_domains.specs.Assignments.{pure_assignment};
ghost use Rattle.ess_translate.specs.Answers.{IsTyped, IsNoEssence, IsNoParameter, IsNotJudged};
ghost use Rattle.ess_io.specs.Counts.{raised};
ghost use Rattle.conjure_cli.specs.Seen.{Took, IsLater, files_at};
ghost use Rattle.conjure_cli.specs.Tasks.{reads_more};
ghost use Rattle.conjure_cli.specs.Judging.{FileStops, StopsAt, StopCause, EssenceRead, ParamRead, SolutionRead, VerdictFound, file_of, refused};

use crate::ending::Ending;
use crate::outcome::Outcome;
use crate::refining::unread;
use ess_domains::{Assignment, Verdict};
use ess_io::Files;
use ess_translate::{TransNo, Which, parameter_of, specification, verdict_of};
use ess_types::Typed;
use std::alloc::Global;

/// The most bytes that a file may have.
const LIMIT: u64 = 16777216;

/// At which file a run stops, and how it ends.
#[derive(Drop)]
pub(crate) struct Stop {
    pub(crate) at: Which,
    pub(crate) outcome: Outcome,
}

/// The names of the files of a specification, a parameter and a solution.
#[derive(Clone, Copy)]
pub(crate) struct Names<'a> {
    pub(crate) essence: &'a str,
    pub(crate) param: &'a str,
    pub(crate) solution: &'a str,
}

impl<'a> Names<'a> {
    /// The name of the file that is looked at.
    pub(crate) fn file_of(self, at: Which) -> &'a str
        ensures { result.now ≡ file_of at self.entry.essence.now self.entry.param.now self.entry.solution.now }
    {
        match at {
            Which::Essence => self.essence,
            Which::Param => self.param,
            Which::Solution => self.solution,
            Which::Model => self.essence,
        }
    }
}

/// Reads a whole file.
pub(crate) fn whole<F: Files>(alloc: Global, name: &str, files: &mut F) -> Result<Vec<u8>, Ending>
    ensures ok { IfOk result (λ text. Took (F.tree files.old) name.now text.items) }
    ensures stops { IfErr result (λ ending. FileStops ending name.now
        (files_at (F.tree files.old) (F.faults files.old) (F.misses files.old))
        (files_at (F.tree files.new) (F.faults files.new) (F.misses files.new))) }
    ensures later { IsLater
        (files_at (F.tree files.old) (F.faults files.old) (F.misses files.old))
        (files_at (F.tree files.new) (F.faults files.new) (F.misses files.new)) }
    ensures reads { F.reads files.new ≡ raised (F.reads files.old) }
{
    match files.read(alloc, name, LIMIT) {
        Ok(text) => {
            if text.len() as u64 > LIMIT {
                Err(Ending::TooLong)
            } else {
                Ok(text)
            }
        }
        Err(no) => Err(unread(no)),
    }
}

/// The outcome of a refusal.
pub(crate) fn refused(why: TransNo) -> Outcome
    ensures { result ≡ refused why }
{
    match why {
        TransNo::NoMemory => Outcome::Plain(Ending::NoMemory),
        _ => Outcome::Refused(why),
    }
}

/// Reads the file of a specification.
fn essence_in<F: Files>(alloc: Global, name: &str, files: &mut F) -> Result<Typed, Outcome>
    ensures ok { IfOk result (λ typed. EssenceRead (F.tree files.old) name.now (pure_spec typed.spec)) }
    ensures typed { IfOk result (λ typed. IsTyped typed) }
    ensures stops { IfErr result (λ outcome. StopsAt outcome name.now
        (files_at (F.tree files.old) (F.faults files.old) (F.misses files.old))
        (files_at (F.tree files.new) (F.faults files.new) (F.misses files.new)) IsNoEssence) }
    ensures later { IsLater
        (files_at (F.tree files.old) (F.faults files.old) (F.misses files.old))
        (files_at (F.tree files.new) (F.faults files.new) (F.misses files.new)) }
    ensures reads { F.reads files.new ≡ raised (F.reads files.old) }
{
    match whole(alloc, name, files) {
        Ok(text) => match specification(alloc, &text) {
            Ok(typed) => Ok(typed),
            Err(why) => Err(refused(why)),
        },
        Err(ending) => Err(Outcome::Plain(ending)),
    }
}

/// Reads the file of a parameter.
fn param_in<F: Files>(
    alloc: Global,
    typed: &Typed,
    name: &str,
    files: &mut F,
) -> Result<Assignment, Outcome>
    requires { IsTyped typed.now }
    ensures ok { IfOk result (λ param. ParamRead (F.tree files.old) name.now (pure_spec typed.now.spec) (pure_assignment param)) }
    ensures stops { IfErr result (λ outcome. StopsAt outcome name.now
        (files_at (F.tree files.old) (F.faults files.old) (F.misses files.old))
        (files_at (F.tree files.new) (F.faults files.new) (F.misses files.new)) (IsNoParameter (pure_spec typed.now.spec))) }
    ensures later { IsLater
        (files_at (F.tree files.old) (F.faults files.old) (F.misses files.old))
        (files_at (F.tree files.new) (F.faults files.new) (F.misses files.new)) }
    ensures reads { F.reads files.new ≡ raised (F.reads files.old) }
{
    match whole(alloc, name, files) {
        Ok(text) => match parameter_of(alloc, typed, &text) {
            Ok(param) => Ok(param),
            Err(why) => Err(refused(why)),
        },
        Err(ending) => Err(Outcome::Plain(ending)),
    }
}

/// Reads the file of a solution, and judges it.
fn verdict_in<F: Files>(
    alloc: Global,
    typed: &Typed,
    param: &Assignment,
    name: &str,
    files: &mut F,
) -> Result<Verdict, Outcome>
    requires { IsTyped typed.now }
    ensures ok { IfOk result (SolutionRead (F.tree files.old) name.now (pure_spec typed.now.spec) (pure_assignment param.now)) }
    ensures stops { IfErr result (λ outcome. StopsAt outcome name.now
        (files_at (F.tree files.old) (F.faults files.old) (F.misses files.old))
        (files_at (F.tree files.new) (F.faults files.new) (F.misses files.new))
        (IsNotJudged (pure_spec typed.now.spec) (pure_assignment param.now))) }
    ensures later { IsLater
        (files_at (F.tree files.old) (F.faults files.old) (F.misses files.old))
        (files_at (F.tree files.new) (F.faults files.new) (F.misses files.new)) }
    ensures reads { F.reads files.new ≡ raised (F.reads files.old) }
{
    match whole(alloc, name, files) {
        Ok(text) => match verdict_of(alloc, typed, param, &text) {
            Ok(verdict) => Ok(verdict),
            Err(why) => Err(refused(why)),
        },
        Err(ending) => Err(Outcome::Plain(ending)),
    }
}

/// Reads the three files one after another, and judges the solution.
pub(crate) fn verdict_on<F: Files>(
    alloc: Global,
    names: Names,
    files: &mut F,
) -> Result<Verdict, Stop>
    ensures ok { IfOk result (VerdictFound (F.tree files.old) names.entry.essence.now names.entry.param.now names.entry.solution.now) }
    ensures stops { IfErr result (λ stop. StopCause stop.at stop.outcome names.entry.essence.now names.entry.param.now names.entry.solution.now
        (files_at (F.tree files.old) (F.faults files.old) (F.misses files.old))
        (files_at (F.tree files.new) (F.faults files.new) (F.misses files.new))) }
    ensures same { F.tree files.new ≡ F.tree files.old }
    ensures reads { (k : ℕ) × (k ≤ 3) × (F.reads files.new ≡ reads_more k (F.reads files.old)) }
{
    let typed = match essence_in(alloc, names.essence, files) {
        Ok(typed) => typed,
        Err(outcome) => return Err(Stop {
            at: Which::Essence,
            outcome,
        }),
    };
    let param = match param_in(alloc, &typed, names.param, files) {
        Ok(param) => param,
        Err(outcome) => return Err(Stop {
            at: Which::Param,
            outcome,
        }),
    };
    match verdict_in(alloc, &typed, &param, names.solution, files) {
        Ok(verdict) => Ok(verdict),
        Err(outcome) => Err(Stop {
            at: Which::Solution,
            outcome,
        }),
    }
}
