ghost use Rattle.std.specs.Prelude.{◌≡◌, ◌&&◌, false, map, IfOk};
ghost use Rattle.ess_semantics.specs.Trees.{Exs, more_exs};
ghost use Rattle.ess_core.specs.TreeViews.{pure_ex, pure_pat};
ghost use Rattle.ess_parse_frames.specs.Rows.{back_exs};
ghost use Rattle.ess_parse_frames.specs.Patterns.{pattern_ex, view_pats, view_operand, is_pattern_operand, back_listed, are_patterns};

use ess_core::{Ex, Pat};
use ess_rows::{Boxed, NoMemory, Row};
use std::alloc::Global;

/// An expression with no operator outside brackets.
#[derive(Drop)]
pub enum Operand {
    /// One that is written as a pattern: a name, or two or more patterns in round brackets. It may belong to a generator.
    Pattern(Pat),
    /// Any other.
    Other(Boxed<Ex>),
}

/// Expressions of a list.
#[derive(Drop)]
pub enum Listed {
    /// All are written as patterns.
    Patterns(Row<Pat>),
    /// Maybe not all.
    Expressions(Row<Ex>),
}

/// The expression that is written as this pattern. `NoMemory` where there is no room for it.
#[tactic(auto, using(ess_core::proofs::ExpressionEquations::pure_name, ess_core::proofs::ExpressionEquations::pure_tuple, ess_core::proofs::PartEquations::pure_pat_name, ess_core::proofs::PartEquations::pure_pat_tuple, crate::proofs::PatternLaws::pats_are_exs))]
#[cycle(pattern)]
pub fn expression_of(alloc: Global, pattern: &Pat) -> Result<Ex, NoMemory>
    ensures { IfOk result (λ e. pure_ex e ≡ pattern_ex (pure_pat pattern.now)) }
{
    match pattern {
        Pat::Name(name) => Ok(Ex::Name(name.copy(alloc)?)),
        Pat::Tuple(parts) => Ok(Ex::Tuple(expressions_of(alloc, parts)?)),
    }
}

/// The expressions that are written as these patterns. `NoMemory` where there is no room for them.
#[cycle(pattern)]
#[tactic(auto, using(std::proofs::lemmas::List::map_more, std::proofs::lemmas::List::map_push))]
pub fn expressions_of(alloc: Global, patterns: &Row<Pat>) -> Result<Row<Ex>, NoMemory>
    ensures { IfOk result (λ es. map pure_ex es ≡ view_pats patterns.now) }
{
    let mut expressions = Row::with_capacity(alloc, patterns.len())?;
    for pattern in patterns.as_slice() {
        expressions.push(expression_of(alloc, pattern)?)?;
    }
    Ok(expressions)
}

impl Operand {
    /// Is it written as a pattern?
    pub fn is_pattern(&self) -> bool
        ensures { result ≡ is_pattern_operand self.now }
    {
        matches!(self, Operand::Pattern(_))
    }

    /// Its expression. `NoMemory` where there is no room for it.
    #[tactic(auto, using(ess_core::proofs::ExpressionEquations::pure_name, ess_core::proofs::PartEquations::pure_pat_name))]
    pub fn into_expression(self, alloc: Global) -> Result<Boxed<Ex>, NoMemory>
        ensures { IfOk result (λ e. pure_ex e ≡ view_operand self) }
    {
        match self {
            Operand::Other(expression) => Ok(expression),
            Operand::Pattern(pattern) => match pattern {
                Pat::Name(name) => Boxed::new(alloc, Ex::Name(name)),
                tuple => {
                    let expression = expression_of(alloc, &tuple);
                    drop(tuple);
                    Boxed::new(alloc, expression?)
                }
            },
        }
    }
}

/// Puts an expression behind others. `NoMemory` where there is no room for it.
#[tactic(auto, using(crate::proofs::RowLaws::exs_push))]
fn with_last(expressions: Row<Ex>, last: Boxed<Ex>) -> Result<Listed, NoMemory>
    ensures patterns { IfOk result (λ r. are_patterns r ≡ false) }
    ensures items { IfOk result (λ r. (before : Exs) → back_listed r before ≡ more_exs (pure_ex last) (back_exs expressions before)) }
{
    let mut expressions = expressions;
    expressions.push(last.into_inner())?;
    Ok(Listed::Expressions(expressions))
}

/// Puts a pattern behind the expressions of a list. `NoMemory` where there is no room for it.
#[tactic(auto, using(crate::proofs::PatternLaws::pats_push))]
fn with_pattern(alloc: Global, listed: Listed, pattern: Pat) -> Result<Listed, NoMemory>
    ensures patterns { IfOk result (λ r. are_patterns r ≡ are_patterns listed) }
    ensures items { IfOk result (λ r. (before : Exs) → back_listed r before ≡ more_exs (pattern_ex (pure_pat pattern)) (back_listed listed before)) }
{
    match listed {
        Listed::Patterns(patterns) => {
            let mut patterns = patterns;
            patterns.push(pattern)?;
            Ok(Listed::Patterns(patterns))
        }
        Listed::Expressions(expressions) => {
            let last = Operand::Pattern(pattern).into_expression(alloc)?;
            with_last(expressions, last)
        }
    }
}

/// Puts an expression behind the expressions of a list. `NoMemory` where there is no room for it.
fn with_expression(alloc: Global, listed: Listed, last: Boxed<Ex>) -> Result<Listed, NoMemory>
    ensures patterns { IfOk result (λ r. are_patterns r ≡ false) }
    ensures items { IfOk result (λ r. (before : Exs) → back_listed r before ≡ more_exs (pure_ex last) (back_listed listed before)) }
{
    let expressions = expressions_in(alloc, listed)?;
    with_last(expressions, last)
}

/// Puts an operand behind the expressions of a list. `NoMemory` where there is no room for it.
pub fn with_operand(alloc: Global, listed: Listed, operand: Operand) -> Result<Listed, NoMemory>
    ensures patterns { IfOk result (λ r. are_patterns r ≡ are_patterns listed && is_pattern_operand operand) }
    ensures items { IfOk result (λ r. (before : Exs) → back_listed r before ≡ more_exs (view_operand operand) (back_listed listed before)) }
{
    match operand {
        Operand::Pattern(pattern) => with_pattern(alloc, listed, pattern),
        Operand::Other(expression) => with_expression(alloc, listed, expression),
    }
}

/// The expressions of a list as a row. `NoMemory` where there is no room for it.
#[tactic(auto, using(crate::proofs::PatternLaws::pats_as_exs))]
pub fn expressions_in(alloc: Global, listed: Listed) -> Result<Row<Ex>, NoMemory>
    ensures { IfOk result (λ es. (before : Exs) → back_exs es before ≡ back_listed listed before) }
{
    match listed {
        Listed::Patterns(patterns) => expressions_of(alloc, &patterns),
        Listed::Expressions(expressions) => Ok(expressions),
    }
}
