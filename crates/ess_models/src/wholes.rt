//! The whole model.
ghost use Rattle.std.specs.Prelude.{◌≡◌, map, IfOk};
ghost use Rattle.ess_semantics.specs.Solutions.{finds};
ghost use Rattle.ess_core.specs.StatementViews.{pure_spec};
ghost use Rattle.ess_parse.specs.NamedReprViews.{pure_named_reprs};
ghost use Rattle.ess_model_shown.specs.Tables.{pure_shows};
ghost use Rattle.ess_translate_plans.specs.Views.{pure_plan};
ghost use Rattle.ess_models.specs.Checked.{IsChecked, Fit};
ghost use Rattle.ess_models.specs.Coming.{AreKnown, ModelComes};
ghost use Rattle.ess_models.specs.Modelled.{IsModelled};

use crate::declared::{Declarations, DeclaredParts, declarations_written};
use crate::headers::header_lines;
use crate::names::{plans_of, shows_of, taken_names};
use crate::parts::Part;
use crate::rules::{RuledParts, Rules, rules_written};
use eprime_tree::PModel;
use ess_model_printed::Taken;
use ess_model_shown::Shows;
use ess_parse::NamedReprs;
use ess_rows::{Boxed, NoMemory, Row, Text};
use ess_translate_header::are_reprs_of;
use ess_translate_plans::Plan;
use ess_types::Typed;
use std::alloc::Global;

/// The model of a specification, or why there is none.
#[derive(Drop)]
pub enum Modelled {
    /// The model.
    Model(Boxed<PModel>),
    /// The representations aren't those of the givens and finds in order, or one doesn't fit its domain.
    Misfit,
    /// Something of this part can't be written.
    Lacks(Part),
}

/// The model of a well typed specification with these representations of its givens and finds. `Misfit` where these aren't of exactly
/// the givens and finds with a domain, in order, or one doesn't fit. `Lacks` where something of the named part can't be written:
/// refining it was given up, since something abstract is left and none of the rules that are asked fires any more; or no tree of a model
/// stands for what is left. `NoMemory` where there is no room for it, or the reserved names can't be counted.
pub fn model_of(alloc: Global, spec: &Typed, reprs: &[NamedReprs]) -> Result<Modelled, NoMemory>
    ensures { IsChecked spec.now → IfOk result (IsModelled (pure_spec spec.now.spec) (map pure_named_reprs reprs.now)) }
{
    if are_reprs_of(spec.prepared.stms.as_slice(), reprs) {
        fitting_model(alloc, spec, reprs)
    } else {
        Ok(Modelled::Misfit)
    }
}

/// The same where the representations are those of the givens and finds and fit.
fn fitting_model(alloc: Global, spec: &Typed, reprs: &[NamedReprs]) -> Result<Modelled, NoMemory>
    ensures { IsChecked spec.now → Fit (pure_spec spec.now.spec) (map pure_named_reprs reprs.now)
        → IfOk result (IsModelled (pure_spec spec.now.spec) (map pure_named_reprs reprs.now)) }
{
    let plans = plans_of(alloc, spec, reprs)?;
    let taken = taken_names(alloc, plans.as_slice())?;
    let head = header_lines(alloc, spec.spec.stms.as_slice(), reprs)?;
    let shows = shows_of(alloc, plans.as_slice(), spec.prepared.stms.as_slice())?;
    let model = planned_model(alloc, spec, plans.as_slice(), &shows, &taken, head);
    drop(shows);
    model
}

/// The model by these plans, with these lines of its header.
#[tactic(auto, using(crate::proofs::WholeParts::declared_lacks))]
fn planned_model(
    alloc: Global,
    spec: &Typed,
    plans: &[Plan],
    shows: &Shows,
    taken: &Taken,
    head: Row<Text>,
) -> Result<Modelled, NoMemory>
    ensures { IfOk result (ModelComes taken.now (pure_shows shows.now) (map pure_plan plans.now) (finds (pure_spec spec.now.spec))
        (pure_spec spec.now.prepared) head) }
{
    match declarations_written(alloc, shows, taken, plans)? {
        DeclaredParts::All(declared) => {
            declared_model(alloc, spec, plans, shows, taken, head, declared)
        }
        DeclaredParts::Lacks(part) => Ok(Modelled::Lacks(part)),
    }
}

/// The same where its declarations are written.
#[tactic(auto, using(crate::proofs::WholeParts::are_parts, crate::proofs::WholeParts::ruled_lacks))]
fn declared_model(
    alloc: Global,
    spec: &Typed,
    plans: &[Plan],
    shows: &Shows,
    taken: &Taken,
    head: Row<Text>,
    declared: Declarations,
) -> Result<Modelled, NoMemory>
    requires { AreKnown taken.now (pure_shows shows.now) (map pure_plan plans.now) declared }
    ensures { IfOk result (ModelComes taken.now (pure_shows shows.now) (map pure_plan plans.now) (finds (pure_spec spec.now.spec))
        (pure_spec spec.now.prepared) head) }
{
    match rules_written(alloc, shows, taken, &declared.lines, spec, plans)? {
        RuledParts::All(ruled) => {
            let model = whole(alloc, head, declared, ruled)?;
            Ok(Modelled::Model(model))
        }
        RuledParts::Lacks(part) => Ok(Modelled::Lacks(part)),
    }
}

/// The model of its parts.
fn whole(
    alloc: Global,
    head: Row<Text>,
    declared: Declarations,
    ruled: Rules,
) -> Result<Boxed<PModel>, NoMemory>
    ensures { IfOk result (λ m. m ≡ record {
      head = head;
      givens = declared.givens;
      finds = declared.finds;
      goal = ruled.goal;
      rules = ruled.rules;
    }) }
{
    let Declarations {
        givens,
        finds,
        lines,
    } = declared;
    let Rules { goal, rules } = ruled;
    drop(lines);
    Boxed::new(
        alloc,
        PModel {
            head,
            givens,
            finds,
            goal,
            rules,
        },
    )
}
