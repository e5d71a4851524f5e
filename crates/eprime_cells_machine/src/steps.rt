ghost use Rattle.std.specs.Prelude.{◌≡◌, [], ◌∷◌, IfOk};
ghost use Rattle.std.specs.Option.{option_map};
ghost use Rattle.ess_semantics.specs.Values.{Text};
ghost use Rattle.ess_grammar.specs.Kinds.{token};
ghost use Rattle.ess_lex.specs.Lexing.{IsNatural};
ghost use Rattle.eprime_read_cells_laws.specs.CellMachine.{step_value_wanted, step_first_wanted, step_digits, step_item_read, step_int_wanted, step_open_wanted, step_close, step_value};
ghost use Rattle.eprime_cells_machine.specs.ValueViews.{pure_lettings, all_ends, all_bounds};
ghost use Rattle.eprime_cells_machine.specs.MachineViews.{view_state, view_stage, view_lists};

use crate::closing::{close, list_value, with_value};
use crate::numbers::{minus, plain};
use crate::ranges::step_ranges;
use crate::stages::{Begun, RangeStage, Stage, State};
use crate::values::{CellRange, CellValue};
use ess_lex::Kind;
use ess_rows::{NoMemory, Row};
use std::alloc::Global;

/// The state behind a token where a value is wanted.
fn value_wanted(kind: Kind, begun: Begun) -> Result<Option<State>, NoMemory>
    requires { IsNatural kind }
    ensures { IfOk result (λ next. (bytes : Text) → step_value_wanted (token kind bytes) (pure_lettings begun.done) begun.name (view_lists begun.lists) ≡ option_map view_state next) }
{
    match kind {
        Kind::Num(n) => Ok(Some(with_value(begun, CellValue::Number(plain(n)))?)),
        Kind::Minus => Ok(Some(State::InValue(begun, Stage::DigitsWanted))),
        Kind::True => Ok(Some(with_value(begun, CellValue::Truth(true))?)),
        Kind::False => Ok(Some(with_value(begun, CellValue::Truth(false))?)),
        Kind::OpenSquare => Ok(Some(State::InValue(begun, Stage::FirstWanted))),
        _ => Ok(None),
    }
}

/// With a list of no items open inside the others.
fn with_list(alloc: Global, begun: Begun) -> Result<Begun, NoMemory>
    ensures done { IfOk result (λ o. o.done ≡ begun.done) }
    ensures name { IfOk result (λ o. o.name ≡ begun.name) }
    ensures lists { IfOk result (λ o. view_lists o.lists ≡ [] ∷ view_lists begun.lists) }
{
    let Begun { done, name, lists } = begun;
    let mut lists = lists;
    lists.push(Row::new(alloc))?;
    Ok(Begun { done, name, lists })
}

/// The state behind the first token of the first value of a list.
fn first_value(alloc: Global, kind: Kind, begun: Begun) -> Result<Option<State>, NoMemory>
    requires { IsNatural kind }
    ensures { IfOk result (λ next. (bytes : Text) → step_value_wanted (token kind bytes) (pure_lettings begun.done) begun.name ([] ∷ view_lists begun.lists) ≡ option_map view_state next) }
{
    value_wanted(kind, with_list(alloc, begun)?)
}

/// The state behind a token that stands behind `[`.
fn first_wanted(alloc: Global, kind: Kind, begun: Begun) -> Result<Option<State>, NoMemory>
    requires { IsNatural kind }
    ensures { IfOk result (λ next. (bytes : Text) → step_first_wanted (token kind bytes) (pure_lettings begun.done) begun.name (view_lists begun.lists) ≡ option_map view_state next) }
{
    match kind {
        Kind::CloseSquare => {
            let list = list_value(alloc, Row::new(alloc), None)?;
            Ok(Some(with_value(begun, list)?))
        }
        _ => first_value(alloc, kind, begun),
    }
}

/// The state behind a token that stands behind `-`.
fn digits_wanted(kind: Kind, begun: Begun) -> Result<Option<State>, NoMemory>
    requires { IsNatural kind }
    ensures { IfOk result (λ next. (bytes : Text) → step_digits (token kind bytes) (pure_lettings begun.done) begun.name (view_lists begun.lists) ≡ option_map view_state next) }
{
    match kind {
        Kind::Num(n) => Ok(Some(with_value(begun, CellValue::Number(minus(n)))?)),
        _ => Ok(None),
    }
}

/// The state behind a token that stands behind an item of a list.
#[tactic(auto, using(crate::proofs::StateSteps::item_closed))]
fn item_read(alloc: Global, kind: Kind, begun: Begun) -> Result<Option<State>, NoMemory>
    ensures { IfOk result (λ next. (bytes : Text) → step_item_read (token kind bytes) (pure_lettings begun.done) begun.name (view_lists begun.lists) ≡ option_map view_state next) }
{
    match kind {
        Kind::Comma => Ok(Some(State::InValue(begun, Stage::ValueWanted))),
        Kind::Semicolon => Ok(Some(State::InValue(begun, Stage::IntWanted))),
        Kind::CloseSquare => close(alloc, begun, None),
        _ => Ok(None),
    }
}

/// The state behind a token that stands behind the `;` of a list.
fn int_wanted(kind: Kind, begun: Begun) -> Option<State>
    ensures { (bytes : Text) → step_int_wanted (token kind bytes) (pure_lettings begun.done) begun.name (view_lists begun.lists) ≡ option_map view_state result }
{
    match kind {
        Kind::Int => Some(State::InValue(begun, Stage::OpenWanted)),
        _ => None,
    }
}

/// The state behind a token that stands behind the `int` of a list.
fn open_wanted(alloc: Global, kind: Kind, begun: Begun) -> Option<State>
    ensures { (bytes : Text) → step_open_wanted (token kind bytes) (pure_lettings begun.done) begun.name (view_lists begun.lists) ≡ option_map view_state result }
{
    match kind {
        Kind::OpenRound => Some(State::InValue(
            begun,
            Stage::InRanges(Row::new(alloc), RangeStage::LowWanted),
        )),
        _ => None,
    }
}

/// The state behind a token that stands behind the ranges of a list.
#[tactic(auto, using(crate::proofs::StateSteps::ranges_closed))]
fn close_wanted(
    alloc: Global,
    kind: Kind,
    begun: Begun,
    ranges: Row<CellRange>,
) -> Result<Option<State>, NoMemory>
    ensures { IfOk result (λ next. (bytes : Text) → step_close (token kind bytes) (pure_lettings begun.done) begun.name (view_lists begun.lists) (all_ends ranges) (all_bounds ranges) ≡ option_map view_state next) }
{
    match kind {
        Kind::CloseSquare => close(alloc, begun, Some(ranges)),
        _ => Ok(None),
    }
}

/// The state behind a token in the ranges of a list.
fn in_ranges(
    kind: Kind,
    begun: Begun,
    ranges: Row<CellRange>,
    stage: RangeStage,
) -> Result<Option<State>, NoMemory>
    requires { IsNatural kind }
    ensures { IfOk result (λ next. (bytes : Text) → step_value (token kind bytes) (pure_lettings begun.done) begun.name (view_lists begun.lists) (view_stage (Stage.InRanges ranges stage)) ≡ option_map view_state next) }
{
    match step_ranges(kind, ranges, stage)? {
        Some(stage) => Ok(Some(State::InValue(begun, stage))),
        None => Ok(None),
    }
}

/// The state behind a token in a value. None where no text goes on with it.
pub(crate) fn step_value(
    alloc: Global,
    kind: Kind,
    begun: Begun,
    stage: Stage,
) -> Result<Option<State>, NoMemory>
    requires { IsNatural kind }
    ensures { IfOk result (λ next. (bytes : Text) → step_value (token kind bytes) (pure_lettings begun.done) begun.name (view_lists begun.lists) (view_stage stage) ≡ option_map view_state next) }
{
    match stage {
        Stage::ValueWanted => value_wanted(kind, begun),
        Stage::FirstWanted => first_wanted(alloc, kind, begun),
        Stage::DigitsWanted => digits_wanted(kind, begun),
        Stage::ItemRead => item_read(alloc, kind, begun),
        Stage::IntWanted => Ok(int_wanted(kind, begun)),
        Stage::OpenWanted => Ok(open_wanted(alloc, kind, begun)),
        Stage::InRanges(ranges, stage) => in_ranges(kind, begun, ranges, stage),
        Stage::CloseWanted(ranges) => close_wanted(alloc, kind, begun, ranges),
    }
}
