// The model of any text.
ghost use Rattle.std.specs.Prelude.{◌≡◌, option_map, IfOk, IfErr};
ghost use Rattle.conjure_cli.specs.Whole.{IsModelFor, IsUnmodelledFor};

use crate::model::{self, model_of};
use conjure_modelling::ModelNo;
use std::alloc::Global;

/// The text of the model of a specification, with the representations that a list names: a text of the small grammar that has no list
/// is read by its own reader, every other one by that of the whole language. The errors are those of `conjure_modelling::model_of`,
/// and but for `NoMemory` they come only where the text isn't one of the small grammar or has a list.
pub fn model_for(alloc: Global, text: &[u8], list: Option<&str>) -> Result<Vec<u8>, ModelNo>
    ensures model { IfOk result (λ model. IsModelFor (option_map (λ l. l.now) list.entry) text.now model.items) }
    ensures refused { IfErr result (IsUnmodelledFor (option_map (λ l. l.now) list.entry) text.now) }
{
    if list.is_some() {
        return conjure_modelling::model_of(alloc, text, list);
    }
    match model_of(alloc, text) {
        Ok(model) => Ok(model),
        Err(model::ModelNo::NoMemory) => Err(ModelNo::NoMemory),
        Err(model::ModelNo::NotYet) => conjure_modelling::model_of(alloc, text, None),
    }
}
