//! Parts of lists, ranges, attributes, literals and records that an operand ends.
ghost use Rattle.std.specs.Prelude.{◌≡◌, ◌∷◌, ◌&&◌, false, map, IfOk};
ghost use Rattle.ess_semantics.specs.Trees.{Exs, no_exs, more_exs, one_value, both_ends, high_end, valued};
ghost use Rattle.ess_grammar.specs.Grammar.{pair_ex};
ghost use Rattle.ess_parse_laws.specs.Frames.{list_frame};
ghost use Rattle.ess_parse_laws.specs.Reversed.{reverse_exs};
ghost use Rattle.ess_core.specs.TreeViews.{pure_ex, pure_exs, pure_step};
ghost use Rattle.ess_parse_frames.specs.Rows.{back_pairs, back_field_names, back_field_values, back_ends, back_bounds, back_marks, back_numbers};
ghost use Rattle.ess_parse_frames.specs.Patterns.{view_operand, is_pattern_operand, back_listed, are_patterns};
ghost use Rattle.ess_parse_frames.specs.Views.{view_frame, view_listing, list_end, list_start};
ghost use Rattle.ess_parse_frames.specs.Steps.{step_by};

use crate::operands::{expressions_in, with_operand};
use crate::rows::{with_bounds, with_field, with_high, with_number, with_pair, with_value};
use crate::{Frame, Listed, Listing, Operand};
use ess_core::{Attr, Ex, FieldEx, Key, PairEx, Range, Step};
use ess_rows::{Boxed, NoMemory, Row, Text};
use std::alloc::Global;

/// An operand that isn't written as a pattern. `NoMemory` where there is no room for it.
pub fn other_operand(alloc: Global, expression: Ex) -> Result<Operand, NoMemory>
    ensures pattern { IfOk result (λ o. is_pattern_operand o ≡ false) }
    ensures same { IfOk result (λ o. view_operand o ≡ pure_ex expression) }
{
    let expression = Boxed::new(alloc, expression)?;
    Ok(Operand::Other(expression))
}

/// The frame of a list with another item. `NoMemory` where there is no room for it.
pub fn list_with(
    alloc: Global,
    listing: Listing,
    listed: Listed,
    operand: Operand,
) -> Result<Frame, NoMemory>
    ensures { IfOk result (λ f. view_frame f ≡ list_frame (view_listing listing) (list_end listing) (are_patterns listed && is_pattern_operand operand) (more_exs (view_operand operand) (back_listed listed (list_start listing)))) }
{
    match with_operand(alloc, listed, operand) {
        Ok(listed) => Ok(Frame::List(listing, listed)),
        Err(no) => {
            drop(listing);
            Err(no)
        }
    }
}

/// The expressions of a list with the last one, as a row. `NoMemory` where there is no room for them.
#[tactic(auto, using(crate::proofs::ListEnds::exs_with))]
pub fn expressions_with(alloc: Global, listed: Listed, last: Operand) -> Result<Row<Ex>, NoMemory>
    ensures { IfOk result (λ es. (before : Exs) → reverse_exs (back_listed listed before) (more_exs (view_operand last) no_exs) ≡ reverse_exs before (pure_exs es)) }
{
    let listed = with_operand(alloc, listed, last)?;
    expressions_in(alloc, listed)
}

/// The steps of an index by these values. `NoMemory` where there is no room for them.
#[tactic(auto, using(ess_core::proofs::PartEquations::pure_step_value, std::proofs::lemmas::List::map_push))]
pub fn steps_by(alloc: Global, values: Row<Ex>) -> Result<Row<Step>, NoMemory>
    ensures { IfOk result (λ ss. map pure_step ss ≡ map step_by values) }
{
    let mut steps = Row::with_capacity(alloc, values.len())?;
    for value in values.into_vec() {
        steps.push(Step::Value(value))?;
    }
    Ok(steps)
}

/// The pairs of a function literal with the last one. `NoMemory` where there is no room for it.
pub fn pairs_with(
    alloc: Global,
    pairs: Row<PairEx>,
    from: Boxed<Ex>,
    to: Operand,
) -> Result<Row<PairEx>, NoMemory>
    ensures { IfOk result (λ r. back_pairs r ≡ more_exs (pair_ex (pure_ex from) (view_operand to)) (back_pairs pairs)) }
{
    let to = to.into_expression(alloc)?;
    with_pair(pairs, from, to)
}

/// The fields of a record literal with the last one. `NoMemory` where there is no room for it.
pub fn fields_with(
    alloc: Global,
    fields: Row<FieldEx>,
    name: Text,
    value: Operand,
) -> Result<Row<FieldEx>, NoMemory>
    ensures names { IfOk result (λ r. back_field_names r ≡ name ∷ back_field_names fields) }
    ensures values { IfOk result (λ r. back_field_values r ≡ more_exs (view_operand value) (back_field_values fields)) }
{
    let value = value.into_expression(alloc)?;
    with_field(fields, name, value)
}

/// The attributes of a domain with the last one, which has a number. `NoMemory` where there is no room for it.
pub fn attributes_with(
    alloc: Global,
    attributes: Row<Attr>,
    key: Key,
    number: Operand,
) -> Result<Row<Attr>, NoMemory>
    ensures marks { IfOk result (λ r. back_marks r ≡ valued key ∷ back_marks attributes) }
    ensures numbers { IfOk result (λ r. back_numbers r ≡ more_exs (view_operand number) (back_numbers attributes)) }
{
    let number = number.into_expression(alloc)?;
    with_number(attributes, key, number)
}

/// The ranges of an int domain with the last one, which is a value. `NoMemory` where there is no room for it.
pub fn ranges_with(
    alloc: Global,
    ranges: Row<Range>,
    value: Operand,
) -> Result<Row<Range>, NoMemory>
    ensures ends { IfOk result (λ r. back_ends r ≡ one_value ∷ back_ends ranges) }
    ensures bounds { IfOk result (λ r. back_bounds r ≡ more_exs (view_operand value) (back_bounds ranges)) }
{
    let value = value.into_expression(alloc)?;
    with_value(ranges, value)
}

/// The ranges of an int domain with the last one, which has both bounds. `NoMemory` where there is no room for it.
pub fn ranges_between(
    alloc: Global,
    ranges: Row<Range>,
    low: Boxed<Ex>,
    high: Operand,
) -> Result<Row<Range>, NoMemory>
    ensures ends { IfOk result (λ r. back_ends r ≡ both_ends ∷ back_ends ranges) }
    ensures bounds { IfOk result (λ r. back_bounds r ≡ more_exs (view_operand high) (more_exs (pure_ex low) (back_bounds ranges))) }
{
    let high = high.into_expression(alloc)?;
    with_bounds(ranges, low, high)
}

/// The ranges of an int domain with the last one, which has an upper bound alone. `NoMemory` where there is no room for it.
pub fn ranges_up_to(
    alloc: Global,
    ranges: Row<Range>,
    high: Operand,
) -> Result<Row<Range>, NoMemory>
    ensures ends { IfOk result (λ r. back_ends r ≡ high_end ∷ back_ends ranges) }
    ensures bounds { IfOk result (λ r. back_bounds r ≡ more_exs (view_operand high) (back_bounds ranges)) }
{
    let high = high.into_expression(alloc)?;
    with_high(ranges, high)
}
