//! Small terms: numbers, arithmetic, and the number of members of a domain counted one by one.
ghost use Rattle.std.specs.Prelude.{◌≡◌, IfOk, [], ◌∷◌, codes};
ghost use Rattle.ess_semantics.specs.Trees.{number_ex, ex2, is_truth_op2 as is_truth};
ghost use Rattle.ess_core.specs.declared.expressions.Gen.TheVariants.{Over};
ghost use Rattle.ess_core.specs.declared.expressions.Pat.TheVariants.{Name};
ghost use Rattle.ess_core.specs.TreeViews.{pure_ex, pure_dom};
ghost use Rattle.ess_repr_declare_laws.specs.SizeTerms.{next_ex, at_least_0_ex, listed_ex};

use ess_core::{Boxed, Dom, Ex, Fun, Gen, NoMemory, Op2, Pat, Row, Text};
use std::alloc::Global;

/// A number.
pub(crate) fn number(alloc: Global, number: i64) -> Result<Boxed<Ex>, NoMemory>
    ensures { IfOk result (λ e. pure_ex e ≡ number_ex number) }
{
    Boxed::new(alloc, Ex::Num(number))
}

/// A copy of a term.
pub(crate) fn copied(alloc: Global, ex: &Ex) -> Result<Boxed<Ex>, NoMemory>
    ensures { IfOk result (λ e. e ≡ ex.now) }
{
    match ex.copy(alloc) {
        Ok(copy) => Boxed::new(alloc, copy),
        Err(no) => Err(no),
    }
}

/// An operator between two terms.
pub(crate) fn two(
    alloc: Global,
    op: Op2,
    first: Boxed<Ex>,
    second: Boxed<Ex>,
) -> Result<Boxed<Ex>, NoMemory>
    ensures { IfOk result (λ e. pure_ex e ≡ ex2 (is_truth op) op (pure_ex first) (pure_ex second)) }
{
    Boxed::new(alloc, Ex::Two(op, first, second))
}

/// One more than the term.
pub(crate) fn next(alloc: Global, ex: Boxed<Ex>) -> Result<Boxed<Ex>, NoMemory>
    ensures { IfOk result (λ e. pure_ex e ≡ next_ex (pure_ex ex)) }
{
    let one = number(alloc, 1)?;
    two(alloc, Op2::Plus, ex, one)
}

/// The term, or 0 where that is more.
pub(crate) fn at_least_0(alloc: Global, ex: Boxed<Ex>) -> Result<Boxed<Ex>, NoMemory>
    ensures { IfOk result (λ e. pure_ex e ≡ at_least_0_ex (pure_ex ex)) }
{
    let items = Row::from_array(alloc, [Ex::Num(0), ex.into_inner()])?;
    let list = Row::from_array(alloc, [Ex::Matrix(items, None)])?;
    Boxed::new(alloc, Ex::Call(false, Fun::Max, list))
}

/// How many members a domain has, counted one by one: `sum([1 | x : D])`.
#[tactic(auto, using(crate::proofs::Made::listed_made))]
pub(crate) fn listed(alloc: Global, dom: &Dom) -> Result<Boxed<Ex>, NoMemory>
    ensures { IfOk result (λ e. pure_ex e ≡ listed_ex (pure_dom dom.now)) }
{
    let one = number(alloc, 1)?;
    let gens = over(alloc, dom)?;
    let list = Row::from_array(alloc, [Ex::Comp(one, gens)])?;
    Boxed::new(alloc, Ex::Call(false, Fun::Sum, list))
}

/// A generator over a copy of the domain, with a name that no text has.
fn over(alloc: Global, dom: &Dom) -> Result<Row<Gen>, NoMemory>
    ensures { IfOk result (λ gs. gs ≡ Over (Name (codes "#")) dom.now ∷ []) }
{
    let name = Text::from_str(alloc, "#")?;
    match dom.copy(alloc) {
        Ok(copy) => Row::from_array(alloc, [Gen::Over(Pat::Name(name), copy)]),
        Err(no) => Err(no),
    }
}
