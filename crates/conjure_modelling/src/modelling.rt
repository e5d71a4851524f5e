//! The model of a text.
ghost use Rattle.std.specs.Prelude.{◌≡◌, map, option_map, IfOk, IfErr};
ghost use Rattle.ess_grammar.specs.Readable.{ReadableStms};
ghost use Rattle.ess_core.specs.StatementViews.{pure_stm, pure_spec};
ghost use Rattle.ess_parse.specs.NamedReprViews.{pure_named_reprs};
ghost use Rattle.conjure_options.specs.Items.{domains_of};
ghost use Rattle.ess_translate.specs.Answers.{IsTyped};
ghost use Rattle.conjure_modelling.specs.Modelled.{AreOptionsOf, IsNoOptionOf, IsModelFor, IsNoModelFor, IsModelled, IsUnmodelled};

use crate::refusal::{ModelNo, of_options, of_specification};
use crate::written::written;
use conjure_options::{OptionsNo, options_of, reprs_of};
use ess_core::{Row, Stm};
use ess_parse::NamedReprs;
use ess_translate::specification;
use ess_types::Typed;
use std::alloc::Global;

/// What a list names, where there is one.
fn options_in(alloc: Global, stms: &[Stm], list: Option<&str>) -> Result<Row<NamedReprs>, OptionsNo>
    ensures ok { IfOk result (λ o. AreOptionsOf (domains_of (map pure_stm stms.now)) (option_map (λ l. l.now) list.entry)
        (map pure_named_reprs o)) }
    ensures refused { IfErr result (IsNoOptionOf (domains_of (map pure_stm stms.now)) (option_map (λ l. l.now) list.entry)) }
{
    match list {
        Some(list) => options_of(alloc, stms, list.as_bytes()),
        None => Ok(Row::new(alloc)),
    }
}

/// The text of the model of a well typed specification.
#[tactic(auto, using(crate::proofs::WhatIsWritten::unlisted, crate::proofs::WhatIsWritten::unwritten, crate::proofs::WhatIsWritten::written, crate::proofs::Represented::all_have))]
fn model_for(alloc: Global, typed: &Typed, list: Option<&str>) -> Result<Vec<u8>, ModelNo>
    requires typed { IsTyped typed.now }
    requires readable { ReadableStms (pure_spec typed.now.spec) }
    ensures ok { IfOk result (λ text. IsModelFor (pure_spec typed.now.spec) (option_map (λ l. l.now) list.entry) text.items) }
    ensures refused { IfErr result (IsNoModelFor (pure_spec typed.now.spec) (option_map (λ l. l.now) list.entry)) }
{
    let stms = typed.prepared.stms.as_slice();
    let options = match options_in(alloc, stms, list) {
        Ok(options) => options,
        Err(why) => return Err(of_options(why)),
    };
    let reprs = reprs_of(alloc, stms, options.as_slice())?;
    written(alloc, typed, reprs.as_slice())
}

/// The text of the model of the specification that a text is, with the representations that a list names, and else the defaults.
///
/// `Specification` comes exactly where the text is no well typed specification, else `BadRepresentation` exactly where an item of the
/// list isn't taken, else `NotYet` where a part of the model can't be written yet, or no text has the model that is built: what is answered
/// is this model by the rules of models, behind its header, however deeply either is nested. `NoMemory` for want of memory.
#[tactic(auto, using(crate::proofs::WhatIsWritten::readable, crate::proofs::WhatIsWritten::modelled, crate::proofs::WhatIsWritten::unmodelled, crate::proofs::WhatIsWritten::refused))]
pub fn model_of(alloc: Global, text: &[u8], list: Option<&str>) -> Result<Vec<u8>, ModelNo>
    ensures ok { IfOk result (λ model. IsModelled text.now (option_map (λ l. l.now) list.entry) model.items) }
    ensures refused { IfErr result (IsUnmodelled text.now (option_map (λ l. l.now) list.entry)) }
{
    match specification(alloc, text) {
        Ok(typed) => {
            let model = model_for(alloc, &typed, list);
            drop(typed);
            model
        }
        Err(why) => Err(of_specification(why)),
    }
}
