//! Steps behind an atom.
ghost use Rattle.std.specs.Prelude.{◌≡◌, IfOk};
ghost use Rattle.ess_grammar.specs.Words.{Text};
ghost use Rattle.ess_grammar.specs.Kinds.{token};
ghost use Rattle.ess_parse_laws.specs.Modes.{operand_read};
ghost use Rattle.ess_parse_laws.specs.Machine.{step};
ghost use Rattle.ess_parse_laws.specs.Operands.{continues_atom};
ghost use Rattle.ess_parse_laws.specs.Reducing.{precedence};
ghost use Rattle.ess_parse_frames.specs.Patterns.{view_operand, is_pattern_operand};
ghost use Rattle.ess_parse_frames.specs.Views.{view_frames, Steps};

use ess_grammar::Kind;
use ess_parse_expressions::after_operand::operand_then;
use ess_parse_expressions::words::continue_atom;
use ess_parse_frames::kinds::operator_of;
use ess_parse_frames::levels::level_of;
use ess_parse_frames::reducing::reduce;
use ess_parse_frames::{Frame, Operand, State};
use ess_rows::{NoMemory, Row};
use std::alloc::Global;

/// The level of a token: that of an operator, and 0 of any other.
fn precedence(kind: Kind) -> u8
    ensures { (bytes : Text) → result ≡ precedence (token kind bytes) }
{
    match operator_of(kind) {
        Some(operator) => level_of(operator),
        None => 0,
    }
}

/// Does the token go on with an atom, by an index or an application?
fn continues_atom(kind: Kind) -> bool
    ensures { (bytes : Text) → result ≡ continues_atom (token kind bytes) }
{
    matches!(kind, Kind::OpenRound | Kind::OpenSquare)
}

/// Behind an atom.
pub(crate) fn step_operand_read(
    alloc: Global,
    kind: Kind,
    operand: Operand,
    frames: Row<Frame>,
) -> Result<Option<State>, NoMemory>
    ensures { (bytes : Text) → IfOk result (Steps (step (token kind bytes) (operand_read (is_pattern_operand operand) (view_operand operand)) (view_frames frames))) }
{
    if continues_atom(kind) {
        return continue_atom(alloc, kind, operand, frames);
    }
    let reduced = reduce(alloc, precedence(kind), frames, operand)?;
    operand_then(alloc, kind, reduced)
}
