// The model of a text.
ghost use Rattle.std.specs.Prelude.{◌≡◌, List, IfOk, IsErrOf};
ghost use Rattle.conjure_cli_laws.specs.SmallGrammar.{Statement, Reads, IsInSmallGrammar};
ghost use Rattle.conjure_cli_laws.specs.ModelText.{IsModelOf, model_text};
ghost use Rattle.conjure_cli.specs.declared.model.ModelNo.TheVariants.{NoMemory as no_memory};

use crate::names::are_well_named;
use crate::reader::read_lines;
use crate::writer::print_model;
use ess_rows::NoMemory;
use std::alloc::{AllocError, AllocFailed, Global};

/// Why a text has no model.
#[derive(Clone, Copy, Debug, PartialEq, Eq)]
pub enum ModelNo {
    /// The text isn't one of the small grammar.
    NotYet,
    /// Memory ran out.
    NoMemory,
}

impl From<NoMemory> for ModelNo {
    ghost from_gives = { λ _ e. e ≡ no_memory };

    fn from(_e: NoMemory) -> ModelNo {
        ModelNo::NoMemory
    }
}

impl From<AllocError> for ModelNo {
    ghost from_gives = { λ _ e. e ≡ no_memory };

    fn from(_e: AllocError) -> ModelNo {
        ModelNo::NoMemory
    }
}

impl<T: Drop> From<AllocFailed<T>> for ModelNo {
    ghost from_gives = { λ _ e. e ≡ no_memory };

    fn from(_e: AllocFailed<T>) -> ModelNo {
        ModelNo::NoMemory
    }
}

/// The model of a text of the small grammar. `NotYet` comes exactly where the text is no such text.
pub fn model_of(alloc: Global, text: &[u8]) -> Result<Vec<u8>, ModelNo>
    ensures model { IfOk result (λ model. IsModelOf text.now model.items) }
    // The text says the same, however it is read.
    ensures only { IfOk result (λ model. (said : List Statement) → Reads text.now said → model.items ≡ model_text said) }
    ensures not_yet { IsErrOf result ModelNo.NotYet → ¬ IsInSmallGrammar text.now }
{
    let lines = read_lines(alloc, text)?;
    if !are_well_named(alloc, &lines)? {
        return Err(ModelNo::NotYet);
    }
    Ok(print_model(alloc, &lines)?)
}
