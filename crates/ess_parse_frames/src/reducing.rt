#![tactic(auto, using(crate::proofs::StackLaws::frames_push, crate::proofs::StackLaws::frames_none))]

ghost use Rattle.std.specs.Prelude.{◌≡◌, IfOk, false};
ghost use Rattle.ess_grammar.specs.Grammar.{unary_ex, binary_ex, quantified};
ghost use Rattle.ess_parse_laws.specs.Reducing.{reduce, reduce_domain, inner_domain};
ghost use Rattle.ess_semantics.specs.Trees.{matrix_dom, function_dom};
ghost use Rattle.ess_core.specs.TreeViews.{pure_ex, pure_dom, pure_doms, pure_gens};
ghost use Rattle.ess_parse_frames.specs.Rows.{marks_of, numbers_of};
ghost use Rattle.ess_parse_frames.specs.Patterns.{view_operand, is_pattern_operand};
ghost use Rattle.ess_parse_frames.specs.Views.{view_frames, view_inner};
ghost use Rattle.ess_parse_frames.specs.Reduced.{Reduces, ReducesDomain};

use crate::levels::{least_on_the_right, level_of};
use crate::{Frame, Inner, Operand};
use ess_core::{Attr, Dom, Ex, Fun, Gen, Op1, Op2};
use ess_rows::{Boxed, NoMemory, Row};
use std::alloc::Global;

/// An expression before a token that goes on with none of its atoms.
#[derive(Drop)]
pub struct Reduced {
    /// The frames that stay open.
    pub frames: Row<Frame>,
    /// Does it end in a quantifier's body?
    pub ends_in_body: bool,
    /// Its level.
    pub level: u8,
    /// The expression itself.
    pub operand: Operand,
}

/// A domain before a token that doesn't go on with it.
#[derive(Drop)]
pub struct ReducedDomain {
    /// The frames that stay open.
    pub frames: Row<Frame>,
    /// The domain itself.
    pub domain: Boxed<Dom>,
}

/// A prefix operator's, or a bar's, expression. `NoMemory` where there is no room for it.
#[tactic(auto, using(ess_core::proofs::ExpressionEquations::pure_one))]
pub fn one_operand(alloc: Global, operator: Op1, operand: Boxed<Ex>) -> Result<Boxed<Ex>, NoMemory>
    ensures { IfOk result (λ e. pure_ex e ≡ unary_ex operator (pure_ex operand)) }
{
    Boxed::new(alloc, Ex::One(operator, operand))
}

/// A binary operator's expression. `NoMemory` where there is no room for it.
#[tactic(auto, using(ess_core::proofs::ExpressionEquations::pure_two))]
pub fn two_operands(
    alloc: Global,
    operator: Op2,
    left: Boxed<Ex>,
    right: Boxed<Ex>,
) -> Result<Boxed<Ex>, NoMemory>
    ensures { IfOk result (λ e. pure_ex e ≡ binary_ex operator (pure_ex left) (pure_ex right)) }
{
    Boxed::new(alloc, Ex::Two(operator, left, right))
}

/// A quantifier: a fold over a comprehension. `NoMemory` where there is no room for it.
#[tactic(auto, using(ess_core::proofs::ExpressionEquations::pure_call, ess_core::proofs::ExpressionEquations::pure_comp))]
pub fn quantifier(
    alloc: Global,
    fold: Fun,
    items: Row<Gen>,
    body: Boxed<Ex>,
) -> Result<Boxed<Ex>, NoMemory>
    ensures { IfOk result (λ e. pure_ex e ≡ quantified fold (pure_gens items) (pure_ex body)) }
{
    let operands = Row::from_array(alloc, [Ex::Comp(body, items)])?;
    Boxed::new(alloc, Ex::Call(false, fold, operands))
}

/// Closes the frames whose right operand ends before an operator of the level `least`. Before a token that is no operator
/// that is 0. `NoMemory` where there is no room.
pub fn reduce(
    alloc: Global,
    least: u8,
    frames: Row<Frame>,
    operand: Operand,
) -> Result<Reduced, NoMemory>
    ensures { IfOk result (Reduces (reduce least (view_frames frames) false (is_pattern_operand operand) 10 (view_operand operand))) }
{
    let mut frames = frames;
    let mut ends_in_body = false;
    let mut level = 10;
    let mut operand = operand;
    while let Some(frame) = frames.pop() {
        let ended = match frame {
            Frame::Minus if least < 9 => {
                level = 9;
                one_operand(alloc, Op1::Minus, operand.into_expression(alloc)?)?
            }
            Frame::Not if least < 9 => {
                level = 9;
                one_operand(alloc, Op1::Not, operand.into_expression(alloc)?)?
            }
            Frame::Binary(operator, left) if least < least_on_the_right(operator) => {
                level = level_of(operator);
                two_operands(alloc, operator, left, operand.into_expression(alloc)?)?
            }
            Frame::Body(fold, items) if least < 1 => {
                level = 10;
                ends_in_body = true;
                quantifier(alloc, fold, items, operand.into_expression(alloc)?)?
            }
            other => {
                frames.push(other)?;
                break;
            }
        };
        operand = Operand::Other(ended);
    }
    Ok(Reduced {
        frames,
        ends_in_body,
        level,
        operand,
    })
}

/// A domain of a kind with one inner domain. `NoMemory` where there is no room for it.
#[tactic(auto, using(ess_core::proofs::DomainEquations::pure_set, ess_core::proofs::DomainEquations::pure_mset, ess_core::proofs::DomainEquations::pure_partition), unfolding(crate::specs::Rows::marks_of, crate::specs::Rows::numbers_of))]
pub fn one_domain(
    alloc: Global,
    inner: Inner,
    attributes: Row<Attr>,
    domain: Boxed<Dom>,
) -> Result<Boxed<Dom>, NoMemory>
    ensures { IfOk result (λ d. pure_dom d ≡ inner_domain (view_inner inner) (marks_of attributes) (numbers_of attributes) (pure_dom domain)) }
{
    match inner {
        Inner::Set => Boxed::new(alloc, Dom::Set(attributes, domain)),
        Inner::MSet => Boxed::new(alloc, Dom::MSet(attributes, domain)),
        Inner::Partition => Boxed::new(alloc, Dom::Partition(attributes, domain)),
    }
}

/// A matrix of such items. `NoMemory` where there is no room for it.
#[tactic(auto, using(ess_core::proofs::DomainEquations::pure_matrix))]
fn matrix_domain(alloc: Global, axes: Row<Dom>, item: Boxed<Dom>) -> Result<Boxed<Dom>, NoMemory>
    ensures { IfOk result (λ d. pure_dom d ≡ matrix_dom (pure_doms axes) (pure_dom item)) }
{
    Boxed::new(alloc, Dom::Matrix(axes, item))
}

/// A function between domains. `NoMemory` where there is no room for it.
#[tactic(auto, using(ess_core::proofs::DomainEquations::pure_function), unfolding(crate::specs::Rows::marks_of, crate::specs::Rows::numbers_of))]
fn function_domain(
    alloc: Global,
    attributes: Row<Attr>,
    from: Boxed<Dom>,
    to: Boxed<Dom>,
) -> Result<Boxed<Dom>, NoMemory>
    ensures { IfOk result (λ d. pure_dom d ≡ function_dom (marks_of attributes) (numbers_of attributes) (pure_dom from) (pure_dom to)) }
{
    Boxed::new(alloc, Dom::Function(attributes, from, to))
}

/// Closes the frames that end with a domain. `NoMemory` where there is no room.
pub fn reduce_domain(
    alloc: Global,
    frames: Row<Frame>,
    domain: Boxed<Dom>,
) -> Result<ReducedDomain, NoMemory>
    ensures { IfOk result (ReducesDomain (reduce_domain (view_frames frames) (pure_dom domain))) }
{
    let mut frames = frames;
    let mut domain = domain;
    while let Some(frame) = frames.pop() {
        match frame {
            Frame::InnerDomain(inner, attributes) => {
                domain = one_domain(alloc, inner, attributes, domain)?;
            }
            Frame::Element(axes) => {
                domain = matrix_domain(alloc, axes, domain)?;
            }
            Frame::FunctionTo(attributes, from) => {
                domain = function_domain(alloc, attributes, from, domain)?;
            }
            other => {
                frames.push(other)?;
                break;
            }
        }
    }
    Ok(ReducedDomain { frames, domain })
}
