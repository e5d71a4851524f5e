//! What stands in the place of names behind a statement.
ghost use Rattle.std.specs.Prelude.{◌≡◌, map, IfOk, OnOk};
ghost use Rattle.std.specs.Option.{option_copied};
ghost use Rattle.ess_semantics.specs.Trees.{given_enum};
ghost use Rattle.ess_core.specs.TreeViews.{pure_dom as pure_code_dom};
ghost use Rattle.ess_core.specs.StatementViews.{pure_stm};
ghost use Rattle.conjure_laws.specs.ModelsOfSets.{size_name};
ghost use Rattle.conjure_model_laws.specs.Shown.{with_declared, shows_behind};
ghost use Rattle.ess_model_shown.specs.Tables.{pure_shows, SameShows};
ghost use Rattle.ess_translate_plans.specs.Views.{pure_plan};
ghost use Rattle.ess_model_views.specs.Sizes.{size_cell};

use crate::views::views_of;
use ess_core::{Dom, Stm};
use ess_model_shown::Shows;
use ess_model_shows::{
    cell_node, enter_domain, enter_number, enter_size, enter_values, enter_views,
};
use ess_rows::{NoMemory, Text};
use ess_translate_plans::Plan;
use std::alloc::Global;
use std::cmp::Ordering;

/// Enters what a statement declares. `NoMemory` where there is no room for it, or the reserved names can't be counted; part of it may
/// then be there.
pub fn shows_behind(
    alloc: Global,
    plans: &[Plan],
    stm: &Stm,
    shows: &mut Shows,
) -> Result<(), NoMemory>
    ensures { OnOk result (SameShows (pure_shows shows.new) (shows_behind (map pure_plan plans.now) (pure_stm stm.now) (pure_shows shows.old))) }
{
    match stm {
        Stm::Given(name, dom) => declared(alloc, plans, name, dom.get(), shows),
        Stm::Find(name, dom) => declared(alloc, plans, name, dom.get(), shows),
        Stm::GivenEnum(name) => given_type(alloc, plans, name, shows),
        Stm::LetEnum(name, values) => enter_values(alloc, name, values.as_slice(), shows),
        Stm::LetUnnamed(name, size) => enter_size(alloc, name, size.get(), shows),
        _ => Ok(()),
    }
}

/// Enters a given or find with its domain and with its views.
#[tactic(auto, using(ess_model_shows::proofs::Behind::declared_entered))]
fn declared(
    alloc: Global,
    plans: &[Plan],
    name: &Text,
    dom: &Dom,
    shows: &mut Shows,
) -> Result<(), NoMemory>
    ensures { OnOk result (SameShows (pure_shows shows.new)
        (with_declared (map pure_plan plans.now) name.now (pure_code_dom dom.now) (pure_shows shows.old))) }
{
    let over = enter_domain(alloc, name, dom, shows)?;
    let views = views_of(alloc, over.get(), plans, name)?;
    enter_views(alloc, name, views.as_slice(), shows)
}

/// Enters a given enumerated type with the cell for its number of values.
fn given_type(alloc: Global, plans: &[Plan], name: &Text, shows: &mut Shows) -> Result<(), NoMemory>
    ensures { OnOk result (SameShows (pure_shows shows.new)
        (shows_behind (map pure_plan plans.now) (given_enum name.now) (pure_shows shows.old))) }
{
    let cell = size_name(alloc, plans, name)?;
    let size = cell_node(alloc, false, &cell)?;
    enter_number(alloc, name, size, shows)
}

/// The name of the table with the number of values of a given type, or an empty one.
#[tactic(auto, using(crate::proofs::Sizes::size_there, crate::proofs::Sizes::size_behind))]
fn size_name(alloc: Global, plans: &[Plan], name: &Text) -> Result<Text, NoMemory>
    ensures { IfOk result (λ t. t ≡ size_name (map pure_plan plans.now) name.now) }
{
    for plan in plans {
        if let Some(cell) = size_cell(plan, name) {
            return cell.copy(alloc);
        }
    }
    Ok(Text::new(alloc))
}

/// The name of the table of a plan for the number of values of this type.
fn size_cell<'a>(plan: &'a Plan, name: &Text) -> Option<&'a Text>
    ensures { option_copied result ≡ size_cell (pure_plan plan.now) name.now }
{
    match plan {
        Plan::Size(of, cell) if of.cmp(name) == Ordering::Equal => Some(cell),
        _ => None,
    }
}
