//! The representations of all givens and finds.
ghost use Rattle.std.specs.Prelude.{◌≡◌, ◌++◌, ◌∷◌, [], map, option_map, IfOk, OnOk};
ghost use Rattle.ess_core.specs.TreeViews.{pure_repr, pure_dom};
ghost use Rattle.ess_semantics.specs.Plans.{chosen_reprs, domain_of_stm};
ghost use Rattle.ess_semantics.specs.Order.{same_text};
ghost use Rattle.ess_semantics.specs.Names.{look};
ghost use Rattle.ess_core.specs.StatementViews.{pure_stm};
ghost use Rattle.ess_parse.specs.NamedReprViews.{pure_named_reprs};
ghost use Rattle.conjure_options.specs.Items.{domains_of};
ghost use Rattle.conjure_options.specs.Chosen.{chosen_for};

use ess_core::{Dom, NoMemory, Repr, Row, Stm, Text};
use ess_parse::NamedReprs;
use ess_repr::choose;
use std::alloc::Global;
use std::cmp::Ordering;

/// The representations of the givens and finds with a domain of prepared statements, in order: those that the options name, else
/// the default. `NoMemory` where there is no room for them.
#[tactic(auto, using(crate::proofs::ChosenLaws::reprs_none, crate::proofs::ChosenLaws::reprs_more, crate::proofs::ChosenLaws::reprs_all))]
pub fn reprs_of(
    alloc: Global,
    stms: &[Stm],
    options: &[NamedReprs],
) -> Result<Row<NamedReprs>, NoMemory>
    ensures { IfOk result (λ rs. map pure_named_reprs rs
        ≡ chosen_for (map pure_named_reprs options.now) (domains_of (map pure_stm stms.now))) }
{
    let mut reprs = Row::new(alloc);
    for stm in stms {
        add_of(alloc, options, stm, &mut reprs)?;
    }
    Ok(reprs)
}

/// Adds the representations of the given or find of a statement, if it is one.
#[tactic(auto, using(crate::proofs::ChosenLaws::nothing_added))]
fn add_of(
    alloc: Global,
    options: &[NamedReprs],
    stm: &Stm,
    reprs: &mut Row<NamedReprs>,
) -> Result<(), NoMemory>
    ensures { OnOk result (map pure_named_reprs reprs.new
        ≡ map pure_named_reprs reprs.old ++ chosen_for (map pure_named_reprs options.now) (domain_of_stm (pure_stm stm.now))) }
{
    match stm {
        Stm::Given(name, dom) => add(alloc, options, name, dom.get(), reprs),
        Stm::Find(name, dom) => add(alloc, options, name, dom.get(), reprs),
        _ => Ok(()),
    }
}

/// Adds the representations of a given or find.
#[tactic(auto, using(crate::proofs::ChosenLaws::added))]
fn add(
    alloc: Global,
    options: &[NamedReprs],
    name: &Text,
    dom: &Dom,
    reprs: &mut Row<NamedReprs>,
) -> Result<(), NoMemory>
    ensures { OnOk result (map pure_named_reprs reprs.new
        ≡ map pure_named_reprs reprs.old ++ chosen_for (map pure_named_reprs options.now) ((name.now, pure_dom dom.now) ∷ [])) }
{
    let trees = trees_for(alloc, options, name, dom)?;
    let name = name.copy(alloc)?;
    reprs.push(NamedReprs { name, trees })
}

/// Whether two names are equal.
fn same_name(a: &Text, b: &Text) -> bool
    ensures { result ≡ same_text a.now b.now }
{
    a.cmp(b) == Ordering::Equal
}

/// The representations that an option names for this name.
#[tactic(auto, using(crate::proofs::ChosenLaws::look_here, crate::proofs::ChosenLaws::look_more, crate::proofs::ChosenLaws::look_all))]
fn named<'a>(options: &'a [NamedReprs], name: &Text) -> Option<&'a [Repr]>
    ensures { option_map (λ rs. map pure_repr rs.now) result ≡ look (map pure_named_reprs options.now) name.now }
{
    for option in options {
        if same_name(&option.name, name) {
            return Some(option.trees.as_slice());
        }
    }
    None
}

/// The representations of a name with this domain.
#[tactic(auto, using(crate::proofs::ChosenLaws::by_option, crate::proofs::ChosenLaws::by_default))]
fn trees_for(
    alloc: Global,
    options: &[NamedReprs],
    name: &Text,
    dom: &Dom,
) -> Result<Row<Repr>, NoMemory>
    ensures { IfOk result (λ rs. map pure_repr rs ≡ chosen_reprs (map pure_named_reprs options.now) name.now (pure_dom dom.now)) }
{
    match named(options, name) {
        Some(trees) => copies(alloc, trees),
        None => Row::from_array(alloc, [choose(alloc, dom)?]),
    }
}

/// Copies of representations.
#[tactic(auto, using(crate::proofs::ChosenLaws::copies_more, crate::proofs::ChosenLaws::copies_all))]
fn copies(alloc: Global, trees: &[Repr]) -> Result<Row<Repr>, NoMemory>
    ensures { IfOk result (λ rs. rs ≡ trees.now) }
{
    let mut copied = Row::with_capacity(alloc, trees.len())?;
    for tree in trees {
        copied.push(tree.copy(alloc)?)?;
    }
    Ok(copied)
}
