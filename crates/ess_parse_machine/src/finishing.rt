//! The answer at the end of the tokens.
#![tactic(auto, using(ess_parse_frames::proofs::RowLaws::stms_none, ess_parse_frames::proofs::RowLaws::stms_closed, ess_parse_frames::proofs::StackLaws::frames_none))]

ghost use Rattle.std.specs.Prelude.{◌≡◌, ◌∷◌, Err, IfOk};
ghost use Rattle.std.specs.Option.{option_map};
ghost use Rattle.ess_parse_laws.specs.Machine.{finish, whole_expression, whole_domain, whole_reduced_domain, as_specification};
ghost use Rattle.ess_parse_laws.specs.Reducing.{reduce_domain};
ghost use Rattle.ess_core.specs.TreeViews.{pure_ex, pure_dom};
ghost use Rattle.ess_parse_frames.specs.Rows.{back_stms};
ghost use Rattle.ess_parse_frames.specs.Patterns.{view_operand, is_pattern_operand};
ghost use Rattle.ess_parse_frames.specs.Views.{view_frame, view_mode, view_frames, Answers};
ghost use Rattle.ess_parse_laws.specs.Modes.{operand_read};

use ess_core::{Dom, Ex, Stm};
use ess_parse_frames::domain_parts::whole_int;
use ess_parse_frames::reducing::{Reduced, ReducedDomain, reduce, reduce_domain};
use ess_parse_frames::stack::{Top, innermost};
use ess_parse_frames::statements::{declared, stated};
use ess_parse_frames::stops::{let_frames_go, let_mode_go};
use ess_parse_frames::{Answer, Frame, Mode, Operand};
use ess_rows::{Boxed, NoMemory, Row};
use std::alloc::Global;

/// The answer at the end of the tokens, in a mode and inside these frames.
pub(crate) fn finish_in(
    alloc: Global,
    mode: Mode,
    frames: Row<Frame>,
) -> Result<Option<Answer>, NoMemory>
    ensures { IfOk result (Answers (finish (view_mode mode) (view_frames frames))) }
{
    match mode {
        Mode::OperandRead(operand) => finish_operand(alloc, operand, frames),
        Mode::DomainRead(domain) => finish_domain(alloc, domain, frames),
        Mode::IntRead => {
            match whole_int(alloc) {
                Ok(domain) => finish_domain(alloc, domain, frames),
                Err(no) => refuse_answer(no, frames),
            }
        }
        Mode::NothingRead => {
            let_frames_go(frames);
            Ok(Some(Answer::Specification(Row::new(alloc))))
        }
        Mode::StatementRead(_opening, stms) => {
            let_frames_go(frames);
            Ok(Some(Answer::Specification(stms)))
        }
        other => {
            let_frames_go(frames);
            let_mode_go(other);
            Ok(None)
        }
    }
}

/// There is no room.
fn refuse_answer(no: NoMemory, frames: Row<Frame>) -> Result<Option<Answer>, NoMemory>
    ensures { result ≡ Err no }
{
    let_frames_go(frames);
    Err(no)
}

/// The answer behind statements that have ended, where they have.
fn specification(ended: Option<Row<Stm>>) -> Option<Answer>
    ensures { Answers (as_specification (option_map back_stms ended)) result }
{
    match ended {
        Some(stms) => Some(Answer::Specification(stms)),
        None => None,
    }
}

/// The answer behind an expression.
fn finish_operand(
    alloc: Global,
    operand: Operand,
    frames: Row<Frame>,
) -> Result<Option<Answer>, NoMemory>
    ensures { IfOk result (Answers (finish (operand_read (is_pattern_operand operand) (view_operand operand)) (view_frames frames))) }
{
    match reduce(alloc, 0, frames, operand) {
        Ok(
            Reduced {
                frames,
                ends_in_body: _,
                level: _,
                operand,
            },
        ) => finish_reduced(alloc, operand, frames),
        Err(no) => Err(no),
    }
}

/// The answer behind an expression, inside the frames that stay open.
fn finish_reduced(
    alloc: Global,
    operand: Operand,
    frames: Row<Frame>,
) -> Result<Option<Answer>, NoMemory>
    ensures { IfOk result (Answers (whole_expression (view_frames frames) (view_operand operand))) }
{
    match operand.into_expression(alloc) {
        Ok(expression) => match innermost(frames) {
            Some(top) => finish_stated(top, expression),
            None => Ok(Some(Answer::Expression(expression))),
        },
        Err(no) => refuse_answer(no, frames),
    }
}

/// The answer behind an expression in this innermost frame.
fn finish_stated(top: Top, expression: Boxed<Ex>) -> Result<Option<Answer>, NoMemory>
    ensures { IfOk result (Answers (whole_expression (view_frame top.frame ∷ view_frames top.frames) (pure_ex expression))) }
{
    let Top { frame, frames } = top;
    let_frames_go(frames);
    match stated(frame, expression) {
        Ok(ended) => Ok(specification(ended)),
        Err(no) => Err(no),
    }
}

/// The answer behind a domain.
fn finish_domain(
    alloc: Global,
    domain: Boxed<Dom>,
    frames: Row<Frame>,
) -> Result<Option<Answer>, NoMemory>
    ensures { IfOk result (Answers (whole_reduced_domain (reduce_domain (view_frames frames) (pure_dom domain)))) }
{
    match reduce_domain(alloc, frames, domain) {
        Ok(ReducedDomain { frames, domain }) => match innermost(frames) {
            Some(top) => finish_declared(alloc, top, domain),
            None => Ok(Some(Answer::Domain(domain))),
        },
        Err(no) => Err(no),
    }
}

/// The answer behind a domain in this innermost frame.
fn finish_declared(alloc: Global, top: Top, domain: Boxed<Dom>) -> Result<Option<Answer>, NoMemory>
    ensures { IfOk result (Answers (whole_domain (view_frame top.frame ∷ view_frames top.frames) (pure_dom domain))) }
{
    let Top { frame, frames } = top;
    let_frames_go(frames);
    match declared(alloc, frame, domain) {
        Ok(ended) => Ok(specification(ended)),
        Err(no) => Err(no),
    }
}
