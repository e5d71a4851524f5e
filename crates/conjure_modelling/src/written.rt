//! What is written for a specification with its representations.
ghost use Rattle.std.specs.Prelude.{◌≡◌, true, false, map, IfOk, IfErr, IsTrue};
ghost use Rattle.std.specs.List.{list_all};
ghost use Rattle.ess_grammar.specs.Readable.{ReadableStms};
ghost use Rattle.ess_grammar.specs.Models.{is_readable_model};
ghost use Rattle.ess_core.specs.StatementViews.{pure_spec};
ghost use Rattle.ess_parse.specs.NamedReprViews.{pure_named_reprs};
ghost use Rattle.ess_translate.specs.Answers.{IsTyped};
ghost use Rattle.eprime_read.specs.Derived.{IsModelText};
ghost use Rattle.eprime_tree.specs.Views.{pure_model};
ghost use Rattle.eprime_tree.specs.ModelText.{model_text, is_head_line};
ghost use Rattle.conjure_modelling.specs.Represented.{have_reprs};
ghost use Rattle.conjure_modelling.specs.Modelled.{IsUnreadable, IsWritten, IsUnwritten};

use crate::refusal::ModelNo;
use eprime_equality::same_model;
use eprime_read::derived_model;
use eprime_tree::{PModel, print_model};
use ess_core::NoMemory;
use ess_models::{Modelled, model_of};
use ess_parse::NamedReprs;
use ess_types::Typed;
use std::alloc::Global;

/// Whether the text of this model is it by the rules of models, however deeply it is nested. Where it isn't, no text is. `NoMemory` for want
/// of memory.
#[tactic(auto, using(crate::proofs::DerivedAgain::is_it, crate::proofs::DerivedAgain::is_other, crate::proofs::DerivedAgain::is_none))]
fn is_readable(alloc: Global, text: &[u8], model: &PModel) -> Result<bool, NoMemory>
    requires text { text.now ≡ model_text model.now.head (pure_model model.now) }
    requires head { IsTrue (list_all is_head_line model.now.head) }
    ensures yes { IfOk result (λ b. b ≡ true → IsModelText text.now (pure_model model.now)) }
    ensures no { IfOk result (λ b. b ≡ false → is_readable_model (pure_model model.now) ≡ false) }
{
    match derived_model(alloc, text)? {
        Some(derived) => {
            let same = same_model(&derived, model);
            drop(derived);
            Ok(same)
        }
        None => Ok(false),
    }
}

/// The text of a model. `NotYet` where it is none that a text has; `NoMemory` for want of memory.
fn printed(alloc: Global, model: &PModel) -> Result<Vec<u8>, ModelNo>
    requires head { IsTrue (list_all is_head_line model.now.head) }
    ensures text { IfOk result (λ text. text.items ≡ model_text model.now.head (pure_model model.now)) }
    ensures derived { IfOk result (λ text. IsModelText text.items (pure_model model.now)) }
    ensures refused { IfErr result (IsUnreadable (pure_model model.now)) }
{
    let text = print_model(alloc, model)?;
    let readable = is_readable(alloc, text.as_slice(), model)?;
    if readable {
        Ok(text)
    } else {
        Err(ModelNo::NotYet)
    }
}

/// The text of the model of a specification with these representations, one or more of each name. `NotYet` where a part of it can't be
/// written, or no text has the model that is built. How deeply the model is nested doesn't matter.
#[tactic(auto, using(crate::proofs::WhatIsWritten::checked, crate::proofs::WhatIsWritten::lacks, crate::proofs::WhatIsWritten::misfit))]
pub(crate) fn written(
    alloc: Global,
    typed: &Typed,
    reprs: &[NamedReprs],
) -> Result<Vec<u8>, ModelNo>
    requires typed { IsTyped typed.now }
    requires readable { ReadableStms (pure_spec typed.now.spec) }
    requires represented { have_reprs (map pure_named_reprs reprs.now) ≡ true }
    ensures ok { IfOk result (λ text. IsWritten (pure_spec typed.now.spec) (map pure_named_reprs reprs.now) text.items) }
    ensures refused { IfErr result (IsUnwritten (pure_spec typed.now.spec) (map pure_named_reprs reprs.now)) }
{
    match model_of(alloc, typed, reprs)? {
        Modelled::Model(model) => {
            let text = printed(alloc, model.get());
            drop(model);
            text
        }
        Modelled::Misfit => Err(ModelNo::NotYet),
        Modelled::Lacks(_) => Err(ModelNo::NotYet),
    }
}
