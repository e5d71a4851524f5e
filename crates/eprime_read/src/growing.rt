ghost use Rattle.std.specs.Prelude.{◌≡◌, IfOk, IfSome, IsTrue};
ghost use Rattle.std.specs.Option.{option_map};
ghost use Rattle.ess_semantics.specs.ModelTrees.{least, greatest};
ghost use Rattle.ess_grammar.specs.Words.{given_word, find_word};
ghost use Rattle.ess_grammar.specs.Readable.{is_name_token, ReadableEx, ReadableDom};
ghost use Rattle.ess_core.specs.TreeViews.{pure_ex as read_ex, pure_dom as read_dom};
ghost use Rattle.eprime_read_laws.specs.ModelMachine.{empty_model, more_given, more_find, with_objective, readable};
ghost use Rattle.eprime_read.specs.Drafts.{Fits};
ghost use Rattle.eprime_read.specs.Views.{view_draft};

use crate::converting::model_expression;
use crate::drafts::Draft;
use eprime_read_convert::declarations::convert_decl;
use eprime_read_convert::{Lines, Scopes};
use eprime_tree::{PGoal, PModel};
use ess_core::{Dom, Ex};
use ess_rows::{NoMemory, Row, Text};
use std::alloc::Global;

/// A model without any part.
pub(crate) fn new_draft(alloc: Global) -> Draft
    ensures model { view_draft result ≡ empty_model }
    ensures fits { Fits given_word result.model }
{
    Draft {
        model: PModel {
            head: Row::new(alloc),
            givens: Row::new(alloc),
            finds: Row::new(alloc),
            goal: PGoal::Free,
            rules: Row::new(alloc),
        },
        lines: Lines::new(alloc),
    }
}

/// The model with one given more, where it is then one.
#[tactic(auto, using(crate::proofs::Growth::given_found))]
pub(crate) fn with_given(
    alloc: Global,
    draft: Draft,
    name: &Text,
    dom: &Dom,
) -> Result<Option<Draft>, NoMemory>
    requires fits { Fits given_word draft.model }
    requires name { IsTrue (is_name_token name.now) }
    requires domain { ReadableDom (read_dom dom.now) }
    ensures model { IfOk result (λ d. readable (more_given (view_draft draft) name.now (read_dom dom.now)) ≡ option_map view_draft d) }
    ensures fits { IfOk result (λ d. IfSome d (λ d. Fits given_word d.model)) }
{
    match convert_decl(alloc, &draft.lines, name, dom)? {
        Some(decl) => Ok(Some(draft.push_given(alloc, decl)?)),
        None => Ok(None),
    }
}

/// The model with one find more, where it is then one.
#[tactic(auto, using(crate::proofs::Growth::find_found))]
pub(crate) fn with_find(
    alloc: Global,
    draft: Draft,
    name: &Text,
    dom: &Dom,
) -> Result<Option<Draft>, NoMemory>
    requires fits { Fits find_word draft.model }
    requires name { IsTrue (is_name_token name.now) }
    requires domain { ReadableDom (read_dom dom.now) }
    ensures model { IfOk result (λ d. readable (more_find (view_draft draft) name.now (read_dom dom.now)) ≡ option_map view_draft d) }
    ensures fits { IfOk result (λ d. IfSome d (λ d. Fits find_word d.model)) }
{
    match convert_decl(alloc, &draft.lines, name, dom)? {
        Some(decl) => Ok(Some(draft.push_find(alloc, decl)?)),
        None => Ok(None),
    }
}

/// The model with an objective that is to be as low as it can, where it is then one.
pub(crate) fn with_least(alloc: Global, draft: Draft, ex: &Ex) -> Result<Option<Draft>, NoMemory>
    requires { ReadableEx (read_ex ex.now) }
    ensures { IfOk result (λ d. readable (with_objective (view_draft draft) (least (read_ex ex.now))) ≡ option_map view_draft d) }
{
    let bound = Scopes::new(alloc);
    match model_expression(alloc, &draft.lines, true, &bound, ex)? {
        Some(ex) => Ok(Some(draft.with_goal(PGoal::Minimise(ex)))),
        None => Ok(None),
    }
}

/// The model with an objective that is to be as high as it can, where it is then one.
pub(crate) fn with_greatest(alloc: Global, draft: Draft, ex: &Ex) -> Result<Option<Draft>, NoMemory>
    requires { ReadableEx (read_ex ex.now) }
    ensures { IfOk result (λ d. readable (with_objective (view_draft draft) (greatest (read_ex ex.now))) ≡ option_map view_draft d) }
{
    let bound = Scopes::new(alloc);
    match model_expression(alloc, &draft.lines, true, &bound, ex)? {
        Some(ex) => Ok(Some(draft.with_goal(PGoal::Maximise(ex)))),
        None => Ok(None),
    }
}
