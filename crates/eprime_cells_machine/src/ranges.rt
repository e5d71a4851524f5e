ghost use Rattle.std.specs.Prelude.{◌≡◌, [], ◌∷◌, ◌++◌, Some, IfOk, List};
ghost use Rattle.std.specs.Option.{option_map};
ghost use Rattle.ess_semantics.specs.Values.{Text};
ghost use Rattle.ess_semantics.specs.Names.{Names};
ghost use Rattle.ess_semantics.specs.Trees.{one_value, both_ends, Ex};
ghost use Rattle.ess_grammar.specs.Kinds.{token};
ghost use Rattle.ess_lex.specs.Lexing.{IsNatural};
ghost use Rattle.eprime_read_cells_laws.specs.CellMachine.{step_behind_range, step_low_wanted, step_low_digits, step_low_read, step_high_wanted, step_high_digits, step_ranges};
ghost use Rattle.eprime_cells_machine.specs.ValueViews.{pure_number, all_ends, all_bounds};
ghost use Rattle.eprime_cells_machine.specs.MachineViews.{view_range_stage, in_stage};

use crate::numbers::{minus, plain};
use crate::stages::{RangeStage, Stage};
use crate::values::{CellRange, Number};
use ess_lex::Kind;
use ess_rows::{NoMemory, Row};

/// The stage behind a token that stands behind a whole range.
fn behind_range(kind: Kind, ranges: Row<CellRange>) -> Option<Stage>
    ensures { (bytes a : Text) (cs : Names Ex) (fs : List (List Ex)) → step_behind_range (token kind bytes) cs a fs (all_ends ranges) (all_bounds ranges) ≡ option_map (in_stage cs a fs) result }
{
    match kind {
        Kind::Comma => Some(Stage::InRanges(ranges, RangeStage::LowWanted)),
        Kind::CloseRound => Some(Stage::CloseWanted(ranges)),
        _ => None,
    }
}

/// The stage behind a token that stands where the first number of a range is wanted.
fn low_wanted(kind: Kind, ranges: Row<CellRange>) -> Option<Stage>
    requires { IsNatural kind }
    ensures { (bytes a : Text) (cs : Names Ex) (fs : List (List Ex)) → step_low_wanted (token kind bytes) cs a fs (all_ends ranges) (all_bounds ranges) ≡ option_map (in_stage cs a fs) result }
{
    match kind {
        Kind::Num(n) => Some(Stage::InRanges(ranges, RangeStage::LowRead(plain(n)))),
        Kind::Minus => Some(Stage::InRanges(ranges, RangeStage::LowDigitsWanted)),
        _ => None,
    }
}

/// The stage behind a token that stands behind the `-` of the first number.
fn low_digits(kind: Kind, ranges: Row<CellRange>) -> Option<Stage>
    requires { IsNatural kind }
    ensures { (bytes a : Text) (cs : Names Ex) (fs : List (List Ex)) → step_low_digits (token kind bytes) cs a fs (all_ends ranges) (all_bounds ranges) ≡ option_map (in_stage cs a fs) result }
{
    match kind {
        Kind::Num(n) => Some(Stage::InRanges(ranges, RangeStage::LowRead(minus(n)))),
        _ => None,
    }
}

/// The ranges with one more of one number.
#[tactic(auto, using(crate::proofs::StateSteps::ends_push, crate::proofs::StateSteps::bounds_push))]
fn with_number(ranges: Row<CellRange>, number: Number) -> Result<Row<CellRange>, NoMemory>
    ensures ends { IfOk result (λ rs. all_ends rs ≡ all_ends ranges ++ one_value ∷ []) }
    ensures bounds { IfOk result (λ rs. all_bounds rs ≡ all_bounds ranges ++ pure_number number ∷ []) }
{
    let mut ranges = ranges;
    ranges.push(CellRange::One(number))?;
    Ok(ranges)
}

/// The stage behind a token that stands behind the first number of a range.
fn low_read(kind: Kind, ranges: Row<CellRange>, low: Number) -> Result<Option<Stage>, NoMemory>
    ensures { IfOk result (λ next. (bytes a : Text) (cs : Names Ex) (fs : List (List Ex)) → step_low_read (token kind bytes) cs a fs (all_ends ranges) (all_bounds ranges) (pure_number low) ≡ option_map (in_stage cs a fs) next) }
{
    match kind {
        Kind::Dots => Ok(Some(Stage::InRanges(ranges, RangeStage::HighWanted(low)))),
        _ => Ok(behind_range(kind, with_number(ranges, low)?)),
    }
}

/// The ranges with one more of two numbers.
#[tactic(auto, using(crate::proofs::StateSteps::ends_push, crate::proofs::StateSteps::bounds_push))]
fn with_numbers(
    ranges: Row<CellRange>,
    low: Number,
    high: Number,
) -> Result<Row<CellRange>, NoMemory>
    ensures ends { IfOk result (λ rs. all_ends rs ≡ all_ends ranges ++ both_ends ∷ []) }
    ensures bounds { IfOk result (λ rs. all_bounds rs ≡ all_bounds ranges ++ pure_number low ∷ pure_number high ∷ []) }
{
    let mut ranges = ranges;
    ranges.push(CellRange::Span(low, high))?;
    Ok(ranges)
}

/// The stage behind a token that stands where the second number of a range is wanted.
fn high_wanted(kind: Kind, ranges: Row<CellRange>, low: Number) -> Result<Option<Stage>, NoMemory>
    requires { IsNatural kind }
    ensures { IfOk result (λ next. (bytes a : Text) (cs : Names Ex) (fs : List (List Ex)) → step_high_wanted (token kind bytes) cs a fs (all_ends ranges) (all_bounds ranges) (pure_number low) ≡ option_map (in_stage cs a fs) next) }
{
    match kind {
        Kind::Num(n) => {
            let ranges = with_numbers(ranges, low, plain(n))?;
            Ok(Some(Stage::InRanges(ranges, RangeStage::RangeRead)))
        },
        Kind::Minus => Ok(Some(Stage::InRanges(ranges, RangeStage::HighDigitsWanted(low)))),
        _ => Ok(None),
    }
}

/// The stage behind a token that stands behind the `-` of the second number.
fn high_digits(kind: Kind, ranges: Row<CellRange>, low: Number) -> Result<Option<Stage>, NoMemory>
    requires { IsNatural kind }
    ensures { IfOk result (λ next. (bytes a : Text) (cs : Names Ex) (fs : List (List Ex)) → step_high_digits (token kind bytes) cs a fs (all_ends ranges) (all_bounds ranges) (pure_number low) ≡ option_map (in_stage cs a fs) next) }
{
    match kind {
        Kind::Num(n) => {
            let ranges = with_numbers(ranges, low, minus(n))?;
            Ok(Some(Stage::InRanges(ranges, RangeStage::RangeRead)))
        },
        _ => Ok(None),
    }
}

/// The stage behind a token in the ranges of a list. None where no text goes on with it.
pub(crate) fn step_ranges(
    kind: Kind,
    ranges: Row<CellRange>,
    stage: RangeStage,
) -> Result<Option<Stage>, NoMemory>
    requires { IsNatural kind }
    ensures { IfOk result (λ next. (bytes a : Text) (cs : Names Ex) (fs : List (List Ex)) → step_ranges (token kind bytes) cs a fs (all_ends ranges) (all_bounds ranges) (view_range_stage stage) ≡ option_map (in_stage cs a fs) next) }
{
    match stage {
        RangeStage::LowWanted => Ok(low_wanted(kind, ranges)),
        RangeStage::LowDigitsWanted => Ok(low_digits(kind, ranges)),
        RangeStage::LowRead(low) => low_read(kind, ranges, low),
        RangeStage::HighWanted(low) => high_wanted(kind, ranges, low),
        RangeStage::HighDigitsWanted(low) => high_digits(kind, ranges, low),
        RangeStage::RangeRead => Ok(behind_range(kind, ranges)),
    }
}
