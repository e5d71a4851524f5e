//! Lettings put into generators.
ghost use Rattle.std.specs.Prelude.{◌≡◌, true, [], ◌∷◌, map, IfOk, OnOk};
ghost use Rattle.ess_semantics.specs.Typing.{types_under};
ghost use Rattle.ess_core.specs.TreeViews.{over_item, from_item, cond_item, gens_of, pure_ex, pure_dom, pure_pat, pure_gen, pure_gens};
ghost use Rattle.ess_types_names.specs.Tables.{pure_table, Extends};
ghost use Rattle.ess_types_names.specs.Generators.{under as under_of};
ghost use Rattle.ess_types_scopes.specs.Kept.{pure_lettings};
ghost use Rattle.ess_types_lettings.specs.Putting.{put_item, item_behind, put_items, names_behind};

use crate::domains::put_dom;
use crate::expressions::put_typed;
use ess_core::{Boxed, Dom, Ex, Gen, NoMemory, Pat, Row};
use ess_types_names::{TypeTable, Under};
use ess_types_nodes::{
    both_fit, condition_fits, fits_where, from_node, if_node, member_of, or_any, over_node,
};
use ess_types_operators::type_of_dom;
use ess_types_scopes::Lettings;
use std::alloc::Global;

/// Generators and conditions with lettings put in, each under the names of those before it, which are bound, and whether their
/// types fit, where this is asked.
#[cycle(put)]
#[tactic(auto, using(crate::proofs::Steps::gens_put))]
pub(crate) fn put_gens(
    alloc: Global,
    gens: &[Gen],
    asked: bool,
    lettings: &Lettings,
    table: &mut TypeTable,
) -> Result<(Row<Gen>, Under), NoMemory>
    ensures ok { IfOk result (λ r. map pure_gen r.0
        ≡ put_items (map pure_gen gens.now) (pure_lettings lettings.now) (pure_table table.old)) }
    ensures types { IfOk result (λ r. asked ≡ true
        → types_under (pure_gens r.0) (pure_table table.old) ≡ under_of r.1 (pure_table table.new)) }
    ensures names { OnOk result (pure_table table.new
        ≡ names_behind (map pure_gen gens.now) (pure_lettings lettings.now) (pure_table table.old)) }
    ensures kept { OnOk result (Extends table.old table.new) }
{
    let mut puts = Row::with_capacity(alloc, gens.len())?;
    let mut under = Under::Fits;
    for item in gens {
        let (put, fits) = put_gen(alloc, item, asked, lettings, table)?;
        puts.push(put.into_inner())?;
        under = both_fit(under, fits);
    }
    Ok((puts, under))
}

/// A generator or condition with lettings put in, and whether its types fit, where this is asked. Its names are bound.
#[cycle(put)]
#[tactic(auto, using(crate::proofs::Steps::kinds_of_gens))]
fn put_gen(
    alloc: Global,
    item: &Gen,
    asked: bool,
    lettings: &Lettings,
    table: &mut TypeTable,
) -> Result<(Boxed<Gen>, Under), NoMemory>
    ensures ok { IfOk result (λ r. pure_gen r.0 ≡ put_item (pure_gen item.now) (pure_lettings lettings.now) (pure_table table.old)) }
    ensures types { IfOk result (λ r. asked ≡ true
        → types_under (gens_of (pure_gen r.0 ∷ [])) (pure_table table.old) ≡ under_of r.1 (pure_table table.new)) }
    ensures names { OnOk result (pure_table table.new
        ≡ item_behind (pure_gen item.now) (pure_lettings lettings.now) (pure_table table.old)) }
    ensures kept { OnOk result (Extends table.old table.new) }
{
    match item {
        Gen::Over(pat, dom) => put_over(alloc, dom, pat, lettings, table),
        Gen::From(pat, source) => put_from(alloc, source, pat, lettings, table),
        Gen::If(condition) => put_condition(alloc, condition, asked, lettings, table),
    }
}

/// A generator over a domain with lettings put in. Its types fit.
#[cycle(put)]
#[tactic(auto, using(ess_types_nodes::proofs::Fitting::over_under))]
fn put_over(
    alloc: Global,
    dom: &Dom,
    pat: &Pat,
    lettings: &Lettings,
    table: &mut TypeTable,
) -> Result<(Boxed<Gen>, Under), NoMemory>
    ensures ok { IfOk result (λ r. pure_gen r.0
        ≡ put_item (over_item (pure_pat pat.now) (pure_dom dom.now)) (pure_lettings lettings.now) (pure_table table.old)) }
    ensures types { IfOk result (λ r. types_under (gens_of (pure_gen r.0 ∷ [])) (pure_table table.old)
        ≡ under_of r.1 (pure_table table.new)) }
    ensures names { OnOk result (pure_table table.new
        ≡ item_behind (over_item (pure_pat pat.now) (pure_dom dom.now)) (pure_lettings lettings.now) (pure_table table.old)) }
    ensures kept { OnOk result (Extends table.old table.new) }
{
    let dom = put_dom(alloc, dom, lettings, table)?;
    let ty = type_of_dom(alloc, dom.get())?;
    table.bind_pattern(alloc, pat, ty.get())?;
    let put = over_node(alloc, pat, dom)?;
    Ok((put, Under::Fits))
}

/// A generator over the members of a value with lettings put in, and whether its types fit.
#[cycle(put)]
#[tactic(auto, using(ess_types_nodes::proofs::Fitting::source_under))]
fn put_from(
    alloc: Global,
    source: &Ex,
    pat: &Pat,
    lettings: &Lettings,
    table: &mut TypeTable,
) -> Result<(Boxed<Gen>, Under), NoMemory>
    ensures ok { IfOk result (λ r. pure_gen r.0
        ≡ put_item (from_item (pure_pat pat.now) (pure_ex source.now)) (pure_lettings lettings.now) (pure_table table.old)) }
    ensures types { IfOk result (λ r. types_under (gens_of (pure_gen r.0 ∷ [])) (pure_table table.old)
        ≡ under_of r.1 (pure_table table.new)) }
    ensures names { OnOk result (pure_table table.new
        ≡ item_behind (from_item (pure_pat pat.now) (pure_ex source.now)) (pure_lettings lettings.now) (pure_table table.old)) }
    ensures kept { OnOk result (Extends table.old table.new) }
{
    let (source, ty) = put_typed(alloc, source, true, lettings, table)?;
    let member = member_of(alloc, ty)?;
    let fits = fits_where(&member);
    let member = or_any(alloc, member)?;
    table.bind_pattern(alloc, pat, member.get())?;
    let put = from_node(alloc, pat, source)?;
    Ok((put, fits))
}

/// A condition with lettings put in, and whether it is a truth value, where this is asked.
#[cycle(put)]
#[tactic(auto, using(ess_types_nodes::proofs::Fitting::condition_under, ess_types_names::proofs::Tables::extends_itself))]
fn put_condition(
    alloc: Global,
    condition: &Ex,
    asked: bool,
    lettings: &Lettings,
    table: &mut TypeTable,
) -> Result<(Boxed<Gen>, Under), NoMemory>
    ensures ok { IfOk result (λ r. pure_gen r.0
        ≡ put_item (cond_item (pure_ex condition.now)) (pure_lettings lettings.now) (pure_table table.old)) }
    ensures types { IfOk result (λ r. asked ≡ true
        → types_under (gens_of (pure_gen r.0 ∷ [])) (pure_table table.old) ≡ under_of r.1 (pure_table table.new)) }
    ensures names { OnOk result (pure_table table.new ≡ pure_table table.old) }
    ensures kept { OnOk result (Extends table.old table.new) }
{
    let (condition, ty) = put_typed(alloc, condition, asked, lettings, table)?;
    let fits = condition_fits(&ty);
    drop(ty);
    let put = if_node(alloc, condition)?;
    Ok((put, fits))
}
