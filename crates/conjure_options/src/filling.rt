//! Children of a representation that are left out.
ghost use Rattle.std.specs.Prelude.{◌≡◌, map, IfOk};
ghost use Rattle.ess_semantics.specs.Choice.{reprs_of};
ghost use Rattle.ess_core.specs.TreeViews.{pure_repr, pure_dom};
ghost use Rattle.conjure_options.specs.Filled.{filled, children_filled, all_filled, defaults};

use ess_core::{Dom, NoMemory, Repr, Row};
use ess_repr::{children, choose};
use std::alloc::Global;

/// A representation of a domain with the children that are left out: where a kind has none, each of its children takes its default.
/// `NoMemory` where there is no room for it.
#[cycle(filled)]
#[tactic(auto, using(crate::proofs::Fillings::whole))]
pub fn filled(alloc: Global, repr: &Repr, dom: &Dom) -> Result<Repr, NoMemory>
    ensures { IfOk result (λ r. pure_repr r ≡ filled (pure_repr repr.now) (pure_dom dom.now)) }
{
    let doms = children(alloc, repr, dom)?;
    let children = children_filled(alloc, repr.children.as_slice(), doms.as_slice());
    drop(doms);
    let children = children?;
    Ok(Repr {
        kind: repr.kind,
        children,
    })
}

/// The children that are given, or the defaults where none is.
#[cycle(filled)]
#[tactic(auto, using(crate::proofs::Fillings::none_given, crate::proofs::Fillings::some_given))]
fn children_filled(alloc: Global, given: &[Repr], doms: &[Dom]) -> Result<Row<Repr>, NoMemory>
    ensures { IfOk result (λ rs. reprs_of (map pure_repr rs)
        ≡ children_filled (reprs_of (map pure_repr given.now)) (map pure_dom doms.now)) }
{
    if given.is_empty() {
        return defaults(alloc, doms);
    }
    all_filled(alloc, given, doms)
}

/// The default of each domain.
#[tactic(auto, using(crate::proofs::Fillings::defaults_more, crate::proofs::Fillings::defaults_all))]
fn defaults(alloc: Global, doms: &[Dom]) -> Result<Row<Repr>, NoMemory>
    ensures { IfOk result (λ rs. reprs_of (map pure_repr rs) ≡ defaults (map pure_dom doms.now)) }
{
    let mut chosen = Row::with_capacity(alloc, doms.len())?;
    for dom in doms {
        chosen.push(choose(alloc, dom)?)?;
    }
    Ok(chosen)
}

/// Each child filled at the domain beside it, as far as there are any.
#[cycle(filled)]
#[tactic(auto, using(crate::proofs::Fillings::filled_more, crate::proofs::Fillings::copied_more, crate::proofs::Fillings::filled_all))]
fn all_filled(alloc: Global, given: &[Repr], doms: &[Dom]) -> Result<Row<Repr>, NoMemory>
    ensures { IfOk result (λ rs. reprs_of (map pure_repr rs) ≡ all_filled (reprs_of (map pure_repr given.now)) (map pure_dom doms.now)) }
{
    let mut filled_ones = Row::with_capacity(alloc, given.len())?;
    for (i, repr) in given.iter().enumerate() {
        if i < doms.len() {
            filled_ones.push(filled(alloc, repr, &doms[i])?)?;
        } else {
            filled_ones.push(repr.copy(alloc)?)?;
        }
    }
    Ok(filled_ones)
}
