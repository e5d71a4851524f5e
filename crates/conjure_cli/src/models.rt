//! The model of the self-test's specification, with the number of its constraints.
ghost use Rattle.std.specs.Prelude.{◌≡◌, map, None, IfOk, IfErr};
ghost use Rattle.ess_core.specs.StatementViews.{pure_spec};
ghost use Rattle.ess_parse.specs.NamedReprViews.{pure_named_reprs};
ghost use Rattle.ess_translate.specs.Answers.{IsTyped};
ghost use Rattle.conjure_modelling.specs.Modelled.{IsUnmodelled, IsNoModelFor, IsUnwritten};
ghost use Rattle.conjure_modelling.specs.Refusals.{of_specification};
ghost use Rattle.conjure_cli.specs.Counted.{IsPrinted, IsMadeWith, IsMade, IsMadeFor};

use conjure_modelling::ModelNo;
use conjure_options::reprs_of;
use eprime_tree::{PModel, print_model};
use ess_core::{NoMemory, Row};
use ess_models::{Modelled, model_of};
use ess_parse::NamedReprs;
use ess_translate::{TransNo, specification};
use ess_types::Typed;
use std::alloc::Global;

/// The text of a model, and the number of its constraints.
#[derive(Drop)]
pub(crate) struct Made {
    pub text: Vec<u8>,
    pub rules: u64,
}

/// The refusal of a specification.
fn of_specification(why: TransNo) -> ModelNo
    ensures { result ≡ of_specification why }
{
    match why {
        TransNo::NoMemory => ModelNo::NoMemory,
        _ => ModelNo::Specification(why),
    }
}

/// The model's text and the number of its constraints.
fn printed(alloc: Global, model: &PModel) -> Result<Made, NoMemory>
    ensures { IfOk result (λ m. IsPrinted model.now m.text.items m.rules) }
{
    let text = print_model(alloc, model)?;
    Ok(Made {
        text,
        rules: model.rules.len() as u64,
    })
}

/// The model of a well typed specification with these representations.
#[tactic(auto, using(crate::proofs::Made::checked, crate::proofs::Made::lacks, crate::proofs::Made::misfit))]
fn made_with(alloc: Global, typed: &Typed, reprs: &[NamedReprs]) -> Result<Made, ModelNo>
    requires { IsTyped typed.now }
    ensures ok { IfOk result (λ m. IsMadeWith (pure_spec typed.now.spec) (map pure_named_reprs reprs.now) m.text.items m.rules) }
    ensures refused { IfErr result (IsUnwritten (pure_spec typed.now.spec) (map pure_named_reprs reprs.now)) }
{
    match model_of(alloc, typed, reprs)? {
        Modelled::Model(model) => Ok(printed(alloc, model.get())?),
        Modelled::Misfit => Err(ModelNo::NotYet),
        Modelled::Lacks(_) => Err(ModelNo::NotYet),
    }
}

/// The model of a well typed specification.
#[tactic(auto, using(crate::proofs::Made::made_by_default, crate::proofs::Made::not_made))]
fn made_for(alloc: Global, typed: &Typed) -> Result<Made, ModelNo>
    requires { IsTyped typed.now }
    ensures ok { IfOk result (λ m. IsMade (pure_spec typed.now.spec) m.text.items m.rules) }
    ensures refused { IfErr result (IsNoModelFor (pure_spec typed.now.spec) None) }
{
    let stms = typed.prepared.stms.as_slice();
    let reprs = reprs_of(alloc, stms, &[])?;
    made_with(alloc, typed, reprs.as_slice())
}

/// The model of the specification that a text is. The errors are those of `conjure_modelling::model_of` without a list,
/// save that the model's text isn't read again.
#[tactic(auto, using(crate::proofs::Made::not_made_for, crate::proofs::Made::refused))]
pub(crate) fn model_made(alloc: Global, text: &[u8]) -> Result<Made, ModelNo>
    ensures ok { IfOk result (λ m. IsMadeFor text.now m.text.items m.rules) }
    ensures refused { IfErr result (IsUnmodelled text.now None) }
{
    match specification(alloc, text) {
        Ok(typed) => {
            let made = made_for(alloc, &typed);
            drop(typed);
            made
        }
        Err(why) => Err(of_specification(why)),
    }
}
