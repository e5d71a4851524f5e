//! The items of quantifiers and comprehensions behind another part.
#![tactic(auto, using(crate::proofs::PatternLaws::pats_none, crate::proofs::PatternLaws::pats_push, crate::proofs::PatternLaws::pats_whole, crate::proofs::RowLaws::gens_none))]

ghost use Rattle.std.specs.Prelude.{◌≡◌, ◌++◌, IfOk};
ghost use Rattle.ess_semantics.specs.Trees.{no_exs, more_exs, no_gens};
ghost use Rattle.ess_grammar.specs.Patterns.{all_bound_by};
ghost use Rattle.ess_parse_laws.specs.Frames.{items_frame, generator_source_frame, generator_domain_frame};
ghost use Rattle.ess_parse_laws.specs.Items.{settled_head, item_ended};
ghost use Rattle.ess_parse_laws.specs.Reversed.{push_conditions, push_all_from, reverse_gens, reverse_exs};
ghost use Rattle.ess_core.specs.TreeViews.{pure_ex, pure_gens, pure_pat};
ghost use Rattle.ess_parse_frames.specs.Rows.{back_gens};
ghost use Rattle.ess_parse_frames.specs.Patterns.{pattern_ex, back_pats, pats_in_order, view_operand, is_pattern_operand};
ghost use Rattle.ess_parse_frames.specs.Views.{view_frame, view_head};

use crate::generators::{from_each, with_all_names, with_conditions};
use crate::{Frame, Head, Operand};
use ess_bound_names::BoundNames;
use ess_core::{Ex, Fun, Gen, Pat};
use ess_rows::{Boxed, NoMemory, Row};
use std::alloc::Global;

/// What items belong to behind their first generator.
pub fn settled(head: Head) -> Head
    ensures { view_head result ≡ settled_head (view_head head) }
{
    match head {
        Head::Sum => Head::Quantifier(Fun::Sum),
        other => other,
    }
}

/// The patterns that wait, with another. `NoMemory` where there is no room for it.
fn with_pattern(patterns: Row<Pat>, pattern: Pat) -> Result<Row<Pat>, NoMemory>
    ensures back { IfOk result (λ ps. back_pats ps no_exs ≡ more_exs (pattern_ex (pure_pat pattern)) (back_pats patterns no_exs)) }
    ensures whole { IfOk result (λ ps. pats_in_order ps ≡ reverse_exs (back_pats patterns no_exs) (more_exs (pattern_ex (pure_pat pattern)) no_exs)) }
{
    let mut patterns = patterns;
    patterns.push(pattern)?;
    Ok(patterns)
}

/// The frame behind a generator's sign, before its value. `NoMemory` where there is no room for it.
pub fn source_begun(
    head: Head,
    names: BoundNames,
    items: Row<Gen>,
    patterns: Row<Pat>,
    pattern: Pat,
) -> Result<Frame, NoMemory>
    ensures { IfOk result (λ f. view_frame f ≡ generator_source_frame (settled_head (view_head head)) names (back_gens items) (reverse_exs (back_pats patterns no_exs) (more_exs (pattern_ex (pure_pat pattern)) no_exs))) }
{
    match with_pattern(patterns, pattern) {
        Ok(patterns) => Ok(Frame::GeneratorSource(settled(head), names, items, patterns)),
        Err(no) => {
            drop(head);
            Err(no)
        }
    }
}

/// The frame behind a generator's colon, before its domain. `NoMemory` where there is no room for it.
pub fn domain_begun(
    head: Head,
    names: BoundNames,
    items: Row<Gen>,
    patterns: Row<Pat>,
    pattern: Pat,
) -> Result<Frame, NoMemory>
    ensures { IfOk result (λ f. view_frame f ≡ generator_domain_frame (settled_head (view_head head)) names (back_gens items) (reverse_exs (back_pats patterns no_exs) (more_exs (pattern_ex (pure_pat pattern)) no_exs))) }
{
    match with_pattern(patterns, pattern) {
        Ok(patterns) => Ok(Frame::GeneratorDomain(settled(head), names, items, patterns)),
        Err(no) => {
            drop(head);
            Err(no)
        }
    }
}

/// The frame behind an item that is no generator. `NoMemory` where there is no room for it.
pub fn item_ended(
    alloc: Global,
    head: Head,
    names: BoundNames,
    items: Row<Gen>,
    patterns: Row<Pat>,
    operand: Operand,
) -> Result<Frame, NoMemory>
    ensures { IfOk result (λ f. view_frame f ≡ item_ended (view_head head) names (back_gens items) (back_pats patterns no_exs) (is_pattern_operand operand) (view_operand operand)) }
{
    match operand {
        Operand::Pattern(pattern) => match with_pattern(patterns, pattern) {
            Ok(patterns) => Ok(Frame::Items(head, names, items, patterns)),
            Err(no) => {
                drop(head);
                Err(no)
            }
        },
        Operand::Other(condition) => match with_conditions(alloc, items, &patterns, condition) {
            Ok(items) => Ok(Frame::Items(head, names, items, Row::new(alloc))),
            Err(no) => {
                drop(head);
                Err(no)
            }
        },
    }
}

/// The names and the items behind a generator over a value.
#[derive(Drop)]
struct Bound {
    names: BoundNames,
    items: Row<Gen>,
}

/// The names and the items behind a generator over a value. `NoMemory` where there is no room for them.
fn bound_from(
    alloc: Global,
    names: BoundNames,
    items: Row<Gen>,
    patterns: Row<Pat>,
    value: Operand,
) -> Result<Bound, NoMemory>
    ensures names { IfOk result (λ b. b.names ≡ names ++ all_bound_by (pats_in_order patterns)) }
    ensures items { IfOk result (λ b. back_gens b.items ≡ push_all_from (pats_in_order patterns) (view_operand value) (back_gens items)) }
{
    let value = value.into_expression(alloc)?;
    let names = with_all_names(alloc, names, &patterns)?;
    let items = from_each(alloc, items, patterns, value)?;
    Ok(Bound { names, items })
}

/// The frame behind a generator over a value. `NoMemory` where there is no room for it.
pub fn generator_ended(
    alloc: Global,
    head: Head,
    names: BoundNames,
    items: Row<Gen>,
    patterns: Row<Pat>,
    value: Operand,
) -> Result<Frame, NoMemory>
    ensures { IfOk result (λ f. view_frame f ≡ items_frame (view_head head) (names ++ all_bound_by (pats_in_order patterns)) (push_all_from (pats_in_order patterns) (view_operand value) (back_gens items)) no_exs) }
{
    match bound_from(alloc, names, items, patterns, value) {
        Ok(Bound { names, items }) => Ok(Frame::Items(head, names, items, Row::new(alloc))),
        Err(no) => {
            drop(head);
            Err(no)
        }
    }
}

/// All items in order, the last of which are patterns and an expression as conditions. `NoMemory` where there is no room.
#[tactic(auto, using(crate::proofs::SharedItems::items_in_order))]
pub fn all_conditions(
    alloc: Global,
    items: Row<Gen>,
    patterns: Row<Pat>,
    last: Boxed<Ex>,
) -> Result<Row<Gen>, NoMemory>
    ensures { IfOk result (λ gs. pure_gens gs ≡ reverse_gens (push_conditions (more_exs (pure_ex last) (back_pats patterns no_exs)) (back_gens items)) no_gens) }
{
    let items = with_conditions(alloc, items, &patterns, last)?;
    Ok(items)
}

/// All items in order, the last of which are generators over the value. `NoMemory` where there is no room.
#[tactic(auto, using(crate::proofs::SharedItems::items_in_order))]
pub fn all_from(
    alloc: Global,
    items: Row<Gen>,
    patterns: Row<Pat>,
    value: Boxed<Ex>,
) -> Result<Row<Gen>, NoMemory>
    ensures { IfOk result (λ gs. pure_gens gs ≡ reverse_gens (push_all_from (pats_in_order patterns) (pure_ex value) (back_gens items)) no_gens) }
{
    let items = from_each(alloc, items, patterns, value)?;
    Ok(items)
}
