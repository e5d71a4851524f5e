//! The file of a model: its header with the plans, and the model behind it.
ghost use Rattle.std.specs.Prelude.{◌≡◌, true, Err, IfOk, IfErr};
ghost use Rattle.ess_grammar.specs.ModelTexts.{IsModel};
ghost use Rattle.ess_grammar.specs.Models.{is_readable_model};
ghost use Rattle.eprime_tree.specs.Views.{pure_model};
ghost use Rattle.ess_translate_given_laws.specs.Ready.{Ready};
ghost use Rattle.ess_translate_header_laws.specs.Headers.{HasHeader};
ghost use Rattle.ess_translate_header.specs.Views.{pure_header};
ghost use Rattle.ess_translate_plans.specs.Views.{IsReadHeader};
ghost use Rattle.ess_translate_tables_laws.specs.HeaderTables.{DeclaresTables};
ghost use Rattle.ess_translate.specs.declared.refusal.TransNo.TheVariants.{HeaderBad};
ghost use Rattle.ess_translate.specs.Texts.{IsReadAs};
ghost use Rattle.ess_translate_files.specs.ModelFiles.{IsModelFile, IsNoModelFile};
ghost use Rattle.ess_translate_files.specs.Refusals.{is_bad_or_memory};
ghost use Rattle.ess_translate_files.specs.Wholes.{file_header, file_model, IsWhole};

use crate::refusals::{head_no, read_no};
use eprime_read::read_model;
use eprime_tree::PModel;
use ess_core::{Boxed, Row};
use ess_parse::ReadNo;
use ess_translate::{TransNo, Which};
use ess_translate_header::{Header, read_header};
use ess_translate_plans::{Plan, declares, plans_of};
use std::alloc::Global;

/// A model's file: its header, the header's plans, and the model.
#[derive(Drop)]
pub struct ModelFile {
    pub header: Header,
    pub plans: Row<Plan>,
    pub model: Boxed<PModel>,
}

/// Reads a model's file. First the header is looked at, then the text is read, then the names and numbers of axes of the tables that
/// the model declares are. The errors are `HeaderBad` where the text begins with no header of this tool or the model declares other
/// tables, `Read` of `Model`, and `NoMemory`.
pub fn model_file(alloc: Global, text: &[u8]) -> Result<ModelFile, TransNo>
    ensures ok { IfOk result (λ m. IsModelFile text.now (file_header m) (file_model m)) }
    ensures whole { IfOk result IsWhole }
    ensures refused { IfErr result (IsNoModelFile text.now) }
{
    match read_header(alloc, text) {
        Ok(header) => behind_header(alloc, text, header),
        Err(why) => Err(head_no(why)),
    }
}

/// The file of the model behind this header of its text.
#[tactic(auto, using(crate::proofs::Files::model_refused, crate::proofs::Files::other_tables, crate::proofs::Files::header_ready))]
fn behind_header(alloc: Global, text: &[u8], header: Header) -> Result<ModelFile, TransNo>
    requires begins { HasHeader text.now (pure_header header) }
    requires read { IsReadHeader header }
    ensures ok { IfOk result (λ m. IsModelFile text.now (file_header m) (file_model m)) }
    ensures whole { IfOk result IsWhole }
    ensures refused { IfErr result (IsNoModelFile text.now) }
{
    match model_in(alloc, text) {
        Ok(model) => with_plans(alloc, header, model),
        Err(why) => Err(read_no(Which::Model, why)),
    }
}

/// Reads a model.
fn read_in(alloc: Global, text: &[u8]) -> Result<PModel, ReadNo>
    ensures read { IsReadAs IsModel pure_model text.now result }
    ensures readable { IfOk result (λ m. is_readable_model (pure_model m) ≡ true) }
{
    read_model(alloc, text)
}

/// Reads a model, which is then easily let go.
fn model_in(alloc: Global, text: &[u8]) -> Result<Boxed<PModel>, ReadNo>
    ensures read { IsReadAs IsModel pure_model text.now result }
    ensures readable { IfOk result (λ m. is_readable_model (pure_model m) ≡ true) }
{
    match read_in(alloc, text) {
        Ok(model) => Ok(Boxed::new(alloc, model)?),
        Err(why) => Err(why),
    }
}

/// The file of this header and model, where the model declares the header's tables.
fn with_plans(alloc: Global, header: Header, model: Boxed<PModel>) -> Result<ModelFile, TransNo>
    requires read { IsReadHeader header }
    requires ready { Ready (pure_header header).statements }
    requires readable { is_readable_model (pure_model model) ≡ true }
    ensures header { IfOk result (λ m. m.header ≡ header) }
    ensures model { IfOk result (λ m. m.model ≡ model) }
    ensures whole { IfOk result IsWhole }
    ensures bad { result ≡ Err HeaderBad → DeclaresTables (pure_header header) (pure_model model) → ⊥ }
    ensures stops { IfErr result (λ why. is_bad_or_memory why ≡ true) }
{
    let plans = plans_of(alloc, &header)?;
    if declares(plans.as_slice(), model.get()) {
        Ok(ModelFile {
            header,
            plans,
            model,
        })
    } else {
        Err(TransNo::HeaderBad)
    }
}
