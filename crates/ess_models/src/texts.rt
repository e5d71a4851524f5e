//! The text of a model.
ghost use Rattle.std.specs.Prelude.{map, IfOk};
ghost use Rattle.ess_core.specs.StatementViews.{pure_spec};
ghost use Rattle.ess_parse.specs.NamedReprViews.{pure_named_reprs};
ghost use Rattle.ess_models.specs.Checked.{IsChecked};
ghost use Rattle.ess_models.specs.Modelled.{IsSpelled};

use crate::parts::Part;
use crate::wholes::{Modelled, model_of};
use eprime_tree::print_model;
use ess_parse::NamedReprs;
use ess_rows::NoMemory;
use ess_types::Typed;
use std::alloc::Global;

/// The text of the model of a specification, or why there is none.
#[derive(Drop)]
pub enum Spelled {
    /// The text.
    Text(Vec<u8>),
    /// The representations aren't those of the givens and finds in order, or one doesn't fit its domain.
    Misfit,
    /// Something of this part can't be written.
    Lacks(Part),
}

/// The text of the model of a well typed specification with these representations of its givens and finds. `Misfit`, `Lacks` and
/// `NoMemory` come as from `model_of`.
pub fn model_text(alloc: Global, spec: &Typed, reprs: &[NamedReprs]) -> Result<Spelled, NoMemory>
    ensures { IsChecked spec.now → IfOk result (IsSpelled (pure_spec spec.now.spec) (map pure_named_reprs reprs.now)) }
{
    match model_of(alloc, spec, reprs)? {
        Modelled::Model(model) => {
            let text = print_model(alloc, model.get())?;
            Ok(Spelled::Text(text))
        }
        Modelled::Misfit => Ok(Spelled::Misfit),
        Modelled::Lacks(part) => Ok(Spelled::Lacks(part)),
    }
}
