ghost use Rattle.std.specs.Prelude.{◌≡◌, Some, map};
ghost use Rattle.std.specs.Option.{option_map};
ghost use Rattle.ess_core.specs.TreeViews.{pure_ex};
ghost use Rattle.ess_core.specs.StatementViews.{pure_stm};
ghost use Rattle.ess_parse_frames.specs.Views.{view_answer};
ghost use Rattle.ess_parse.specs.Machines.{statements_of};
ghost use Rattle.eprime_read.specs.Statements.{only, given_in, find_in, least_in, greatest_in, pure_named};

use ess_core::{Dom, Ex, Stm};
use ess_parse_frames::Answer;
use ess_rows::{Boxed, Row, Text};

/// The statements of an answer, if it has any.
pub(crate) fn statements_of(answer: Answer) -> Option<Row<Stm>>
    ensures { statements_of (Some (view_answer answer)) ≡ option_map (λ stms. map pure_stm stms) result }
{
    match answer {
        Answer::Specification(stms) => Some(stms),
        other => {
            drop(other);
            None
        }
    }
}

/// The statement, if it is one alone.
pub(crate) fn only(stms: Row<Stm>) -> Option<Stm>
    ensures { result ≡ only stms }
{
    let mut stms = stms;
    let stm = stms.pop()?;
    if stms.is_empty() {
        return Some(stm);
    }
    drop(stm);
    None
}

/// The name and the domain of a given.
pub(crate) fn given_in(stm: Stm) -> Option<(Text, Boxed<Dom>)>
    ensures { given_in (pure_stm stm) ≡ option_map pure_named result }
{
    match stm {
        Stm::Given(name, dom) => Some((name, dom)),
        other => {
            drop(other);
            None
        }
    }
}

/// The name and the domain of a find.
pub(crate) fn find_in(stm: Stm) -> Option<(Text, Boxed<Dom>)>
    ensures { find_in (pure_stm stm) ≡ option_map pure_named result }
{
    match stm {
        Stm::Find(name, dom) => Some((name, dom)),
        other => {
            drop(other);
            None
        }
    }
}

/// What is to be as low as it can.
pub(crate) fn least_in(stm: Stm) -> Option<Boxed<Ex>>
    ensures { least_in (pure_stm stm) ≡ option_map pure_ex result }
{
    match stm {
        Stm::Minimise(ex) => Some(ex),
        other => {
            drop(other);
            None
        }
    }
}

/// What is to be as high as it can.
pub(crate) fn greatest_in(stm: Stm) -> Option<Boxed<Ex>>
    ensures { greatest_in (pure_stm stm) ≡ option_map pure_ex result }
{
    match stm {
        Stm::Maximise(ex) => Some(ex),
        other => {
            drop(other);
            None
        }
    }
}
