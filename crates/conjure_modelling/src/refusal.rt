//! Why a text has no model.
ghost use Rattle.std.specs.Prelude.{◌≡◌};
ghost use Rattle.conjure_modelling.specs.Refusals.{of_specification, of_options};
ghost use Rattle.conjure_modelling.specs.declared.refusal.ModelNo.TheVariants.{NoMemory as no_memory};

use conjure_options::OptionsNo;
use ess_core::NoMemory;
use ess_translate::TransNo;

/// Why a text has no model.
#[derive(Debug, Drop)]
pub enum ModelNo {
    /// The specification is well typed and each item of the list is taken, but a part of the model can't be written yet, or no text has
    /// the model that is built.
    NotYet,
    /// The text is refused, or a statement fails a judgement.
    Specification(TransNo),
    /// The item of the list of this number, counted from 1, is the first that is refused.
    BadRepresentation(u64),
    /// There was no room in memory.
    NoMemory,
}

impl From<NoMemory> for ModelNo {
    ghost from_gives = { λ _ no. no ≡ no_memory };

    fn from(_: NoMemory) -> ModelNo {
        ModelNo::NoMemory
    }
}

/// The refusal of a specification.
pub(crate) fn of_specification(why: TransNo) -> ModelNo
    ensures { result ≡ of_specification why }
{
    match why {
        TransNo::NoMemory => ModelNo::NoMemory,
        _ => ModelNo::Specification(why),
    }
}

/// The refusal of a list.
pub(crate) fn of_options(why: OptionsNo) -> ModelNo
    ensures { result ≡ of_options why }
{
    match why {
        OptionsNo::BadItem(number) => ModelNo::BadRepresentation(number),
        OptionsNo::NoMemory => ModelNo::NoMemory,
    }
}
