//! The text of given tables.
ghost use Rattle.std.specs.Prelude.{◌≡◌, true, IfOk, IfErr};
ghost use Rattle.ess_semantics.specs.ModelTrees.{all_decls};
ghost use Rattle.ess_core.specs.TableViews.{pure_cells};
ghost use Rattle.eprime_cells_laws.specs.CellsText.{cells_text};
ghost use Rattle.eprime_cells_laws.specs.Laws.{ReadsAsTables};
ghost use Rattle.ess_translate_given_laws.specs.Printable.{are_in_64_bits};
ghost use Rattle.ess_translate.specs.declared.refusal.TransNo.{TransNo};
ghost use Rattle.ess_translate_files.specs.Wholes.{file_model, IsWhole, IsGivenFor};

use crate::givens::Given;
use crate::models::ModelFile;
use eprime_tree::print_cells;
use ess_translate::TransNo;
use std::alloc::Global;

/// The text of given tables as a parameter of the model. Where their numbers lie in 64 bits, the text is read as these tables, and as
/// nothing else. `NoMemory` where there is no room for it.
pub fn given_text(alloc: Global, file: &ModelFile, given: &Given) -> Result<Vec<u8>, TransNo>
    ensures ok { IfOk result (λ b. b.items ≡ cells_text (file_model file.now).givens (pure_cells given.now.tables)) }
    ensures read { IsWhole file.now → IsGivenFor file.now given.now → are_in_64_bits (pure_cells given.now.tables) ≡ true →
        IfOk result (λ b. ReadsAsTables b.items (all_decls (file_model file.now)) (pure_cells given.now.tables)
        (file_model file.now).givens (pure_cells given.now.tables)) }
    ensures refused { IfErr result (λ why. why ≡ TransNo.NoMemory) }
{
    match print_cells(alloc, &given.tables, &file.model.get().givens) {
        Ok(text) => Ok(text),
        Err(_) => Err(TransNo::NoMemory),
    }
}
