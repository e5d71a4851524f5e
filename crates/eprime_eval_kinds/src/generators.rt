ghost use Rattle.std.specs.Prelude.{IfOk};
ghost use Rattle.eprime_tree.specs.declared.expressions.PGen.TheVariants.{Over};
ghost use Rattle.eprime_eval_kinds.specs.BoundNames.{scope_kinds};
ghost use Rattle.eprime_eval_kinds.specs.Kinding.{AreKindedGens, IsKindedGen};

use crate::declared::Declared;
use crate::domains::{kind_of_dom, kinded_domain};
use crate::expressions::kinded_ex;
use crate::scope::{BoundName, bind};
use crate::tree::KGen;
use eprime_tree::{PDom, PGen};
use ess_rows::{NoMemory, Row, Text};
use std::alloc::Global;

/// Generators and conditions, each inside those before it. The names that they bind are put into the scope.
#[cycle(kinded)]
#[tactic(auto, using(crate::proofs::Comprehensions::gens_none, crate::proofs::Comprehensions::gens_more, crate::proofs::Comprehensions::gens_all))]
pub(crate) fn kinded_gens(
    alloc: Global,
    gens: &[PGen],
    declared: &Declared,
    scope: &mut Row<BoundName>,
) -> Result<Row<KGen>, NoMemory>
    ensures { IfOk result (λ ks. AreKindedGens declared.now (scope_kinds scope.old) gens.now ks (scope_kinds scope.new)) }
{
    let mut items = Row::with_capacity(alloc, gens.len())?;
    for item in gens {
        items.push(kinded_gen(alloc, item, declared, scope)?)?;
    }
    Ok(items)
}

/// A generator or a condition. The name that it binds is put into the scope.
#[cycle(kinded)]
#[tactic(auto, using(crate::proofs::Comprehensions::if_kinded))]
fn kinded_gen(
    alloc: Global,
    item: &PGen,
    declared: &Declared,
    scope: &mut Row<BoundName>,
) -> Result<KGen, NoMemory>
    ensures { IfOk result (λ k. IsKindedGen declared.now (scope_kinds scope.old) item.now k (scope_kinds scope.new)) }
{
    match item {
        PGen::Over(name, dom) => kinded_over(alloc, name, dom, declared, scope),
        PGen::If(ex) => Ok(KGen::If(kinded_ex(alloc, ex, declared, scope.as_slice())?.ex)),
    }
}

/// A generator over a domain.
#[cycle(kinded)]
#[tactic(auto, using(crate::proofs::Comprehensions::over_kinded))]
fn kinded_over(
    alloc: Global,
    name: &Text,
    dom: &PDom,
    declared: &Declared,
    scope: &mut Row<BoundName>,
) -> Result<KGen, NoMemory>
    ensures { IfOk result (λ k. IsKindedGen declared.now (scope_kinds scope.old) (Over name.now dom.now) k (scope_kinds scope.new)) }
{
    let domain = kinded_domain(alloc, dom, declared, scope.as_slice())?;
    bind(alloc, scope, name, kind_of_dom(dom))?;
    Ok(KGen::Over(name.copy(alloc)?, domain))
}
