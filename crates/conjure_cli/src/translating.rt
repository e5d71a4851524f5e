// Translating a parameter or cells: from the names of files to the bytes of the translation.
ghost use Rattle.std.specs.Prelude.{◌≡◌, List, IfOk, IfErr, option_map};
ghost use Rattle.ess_core.specs.TableViews.{pure_cells};
ghost use Rattle.ess_domains.specs.Assignments.{pure_assignment};
ghost use Rattle.ess_translate_files.specs.ModelFiles.{IsNoModelFile};
ghost use Rattle.ess_translate_files.specs.GivenFiles.{IsNotGiven};
ghost use Rattle.ess_translate_solutions.specs.CellFiles.{IsNotSolved};
ghost use Rattle.ess_translate_files.specs.Wholes.{file_header, file_model, IsWhole, IsGivenFor};
ghost use Rattle.ess_io.specs.Counts.{raised};
ghost use Rattle.conjure_cli.specs.Seen.{IsLater, files_at};
ghost use Rattle.conjure_cli.specs.Tasks.{ReadsUpTo};
ghost use Rattle.conjure_cli.specs.Judging.{StopsAt};
ghost use Rattle.conjure_cli.specs.Translating.{ModelRead, GivenRead, SolvedRead, IsTranslation, TranslatesFor, Translates};
ghost use Rattle.conjure_cli.specs.Translating.{BytesStop, StopsFor, SourceCause, told_source};

use crate::judging::{Stop, refused, whole};
use crate::outcome::Outcome;
use ess_io::Files;
use ess_translate_files::{Given, ModelFile, TransNo, Which, given_in, given_text, model_file};
use ess_translate_solutions::solution_in;
use std::alloc::Global;

/// The names of the files of a model, of a parameter, and of cells where those are translated.
#[derive(Clone, Copy)]
pub(crate) struct Sources<'a> {
    pub(crate) model: &'a str,
    pub(crate) param: &'a str,
    pub(crate) cells: Option<&'a str>,
}

impl<'a> Sources<'a> {
    /// The name of the file that is told where a run stops: that of the model where it has no header of this tool, else the one that
    /// is looked at.
    pub(crate) fn told(self, stop: &Stop) -> &'a str
        ensures { result.now ≡ told_source stop.now.outcome stop.now.at self.entry.model.now self.entry.param.now
            (option_map (λ file. file.now) self.entry.cells) }
    {
        if let Outcome::Refused(TransNo::HeaderBad) = stop.outcome {
            return self.model;
        }
        match stop.at {
            Which::Model => self.model,
            Which::Param => self.param,
            Which::Solution => match self.cells {
                Some(cells) => cells,
                None => "",
            },
            Which::Essence => self.model,
        }
    }
}

/// Reads the file of a model.
fn model_in<F: Files>(alloc: Global, name: &str, files: &mut F) -> Result<ModelFile, Outcome>
    ensures ok { IfOk result (λ file. ModelRead (F.tree files.old) name.now (file_header file) (file_model file)) }
    ensures whole { IfOk result (λ file. IsWhole file) }
    ensures stops { IfErr result (λ outcome. StopsAt outcome name.now
        (files_at (F.tree files.old) (F.faults files.old) (F.misses files.old))
        (files_at (F.tree files.new) (F.faults files.new) (F.misses files.new)) IsNoModelFile) }
    ensures later { IsLater
        (files_at (F.tree files.old) (F.faults files.old) (F.misses files.old))
        (files_at (F.tree files.new) (F.faults files.new) (F.misses files.new)) }
    ensures reads { F.reads files.new ≡ raised (F.reads files.old) }
{
    match whole(alloc, name, files) {
        Ok(text) => match model_file(alloc, &text) {
            Ok(file) => Ok(file),
            Err(why) => Err(refused(why)),
        },
        Err(ending) => Err(Outcome::Plain(ending)),
    }
}

/// Reads the file of a parameter.
fn param_in<F: Files>(
    alloc: Global,
    file: &ModelFile,
    name: &str,
    files: &mut F,
) -> Result<Given, Outcome>
    requires { IsWhole file.now }
    ensures ok { IfOk result (λ given. GivenRead (F.tree files.old) name.now (file_header file.now) (file_model file.now)
        (pure_assignment given.param) (pure_cells given.tables)) }
    ensures given { IfOk result (IsGivenFor file.now) }
    ensures stops { IfErr result (λ outcome. StopsAt outcome name.now
        (files_at (F.tree files.old) (F.faults files.old) (F.misses files.old))
        (files_at (F.tree files.new) (F.faults files.new) (F.misses files.new))
        (IsNotGiven (file_header file.now) (file_model file.now))) }
    ensures later { IsLater
        (files_at (F.tree files.old) (F.faults files.old) (F.misses files.old))
        (files_at (F.tree files.new) (F.faults files.new) (F.misses files.new)) }
    ensures reads { F.reads files.new ≡ raised (F.reads files.old) }
{
    match whole(alloc, name, files) {
        Ok(text) => match given_in(alloc, file, &text) {
            Ok(given) => Ok(given),
            Err(why) => Err(refused(why)),
        },
        Err(ending) => Err(Outcome::Plain(ending)),
    }
}

/// Reads the file of cells, and gives the text of the solution for which they stand.
fn cells_in<F: Files>(
    alloc: Global,
    file: &ModelFile,
    given: &Given,
    name: &str,
    files: &mut F,
) -> Result<Vec<u8>, Outcome>
    requires whole { IsWhole file.now }
    requires given { IsGivenFor file.now given.now }
    ensures ok { IfOk result (λ bytes. SolvedRead (F.tree files.old) name.now (file_header file.now) (file_model file.now)
        (pure_assignment given.now.param) (pure_cells given.now.tables) bytes.items) }
    ensures stops { IfErr result (λ outcome. StopsAt outcome name.now
        (files_at (F.tree files.old) (F.faults files.old) (F.misses files.old))
        (files_at (F.tree files.new) (F.faults files.new) (F.misses files.new))
        (IsNotSolved (file_header file.now) (file_model file.now) (pure_assignment given.now.param) (pure_cells given.now.tables))) }
    ensures later { IsLater
        (files_at (F.tree files.old) (F.faults files.old) (F.misses files.old))
        (files_at (F.tree files.new) (F.faults files.new) (F.misses files.new)) }
    ensures reads { F.reads files.new ≡ raised (F.reads files.old) }
{
    match whole(alloc, name, files) {
        Ok(text) => match solution_in(alloc, file, given, &text) {
            Ok(bytes) => Ok(bytes),
            Err(why) => Err(refused(why)),
        },
        Err(ending) => Err(Outcome::Plain(ending)),
    }
}

/// The bytes of the translation, where the model and the parameter are read: the text of the given tables, or that of the solution for
/// which the file of cells stands.
#[tactic(auto, using(crate::proofs::TranslatingLaws::printed_stops, crate::proofs::TranslatingLaws::cells_stops, crate::proofs::TaskLaws::one_read))]
fn bytes_for<F: Files>(
    alloc: Global,
    file: &ModelFile,
    given: &Given,
    cells: Option<&str>,
    files: &mut F,
) -> Result<Vec<u8>, Stop>
    requires whole { IsWhole file.now }
    requires given { IsGivenFor file.now given.now }
    ensures ok { IfOk result (λ bytes. IsTranslation (F.tree files.old) (option_map (λ name. name.now) cells.entry)
        (file_header file.now) (file_model file.now) (pure_assignment given.now.param) (pure_cells given.now.tables) bytes.items) }
    ensures stops { IfErr result (λ stop. BytesStop stop.at stop.outcome (option_map (λ name. name.now) cells.entry)
        (files_at (F.tree files.old) (F.faults files.old) (F.misses files.old))
        (files_at (F.tree files.new) (F.faults files.new) (F.misses files.new))
        (file_header file.now) (file_model file.now) (pure_assignment given.now.param) (pure_cells given.now.tables)) }
    ensures later { IsLater
        (files_at (F.tree files.old) (F.faults files.old) (F.misses files.old))
        (files_at (F.tree files.new) (F.faults files.new) (F.misses files.new)) }
    ensures reads { ReadsUpTo 1 (F.reads files.old) (F.reads files.new) }
{
    let Some(name) = cells else {
        return match given_text(alloc, file, given) {
            Ok(bytes) => Ok(bytes),
            Err(why) => Err(Stop {
                at: Which::Param,
                outcome: refused(why),
            }),
        };
    };
    match cells_in(alloc, file, given, name, files) {
        Ok(bytes) => Ok(bytes),
        Err(outcome) => Err(Stop {
            at: Which::Solution,
            outcome,
        }),
    }
}

/// Reads the files behind that of a model, and gives the translation.
#[tactic(auto, using(crate::proofs::TranslatingLaws::stop_param, crate::proofs::TranslatingLaws::stop_behind_param, crate::proofs::TaskLaws::one_read))]
fn translation_for<F: Files>(
    alloc: Global,
    file: &ModelFile,
    sources: Sources,
    files: &mut F,
) -> Result<Vec<u8>, Stop>
    requires { IsWhole file.now }
    ensures ok { IfOk result (λ bytes. TranslatesFor (F.tree files.old) sources.entry.param.now
        (option_map (λ name. name.now) sources.entry.cells) (file_header file.now) (file_model file.now) bytes.items) }
    ensures stops { IfErr result (λ stop. StopsFor stop.at stop.outcome sources.entry.param.now
        (option_map (λ name. name.now) sources.entry.cells)
        (files_at (F.tree files.old) (F.faults files.old) (F.misses files.old))
        (files_at (F.tree files.new) (F.faults files.new) (F.misses files.new))
        (file_header file.now) (file_model file.now)) }
    ensures later { IsLater
        (files_at (F.tree files.old) (F.faults files.old) (F.misses files.old))
        (files_at (F.tree files.new) (F.faults files.new) (F.misses files.new)) }
    ensures reads { ReadsUpTo 2 (F.reads files.old) (F.reads files.new) }
{
    match param_in(alloc, file, sources.param, files) {
        Ok(given) => {
            let bytes = bytes_for(alloc, file, &given, sources.cells, files);
            drop(given);
            bytes
        }
        Err(outcome) => Err(Stop {
            at: Which::Param,
            outcome,
        }),
    }
}

/// Reads the files one after another, and gives the translation.
#[tactic(auto, using(crate::proofs::TranslatingLaws::stop_model, crate::proofs::TranslatingLaws::stop_behind_model, crate::proofs::TranslatingLaws::made_behind_model, crate::proofs::TaskLaws::one_read))]
pub(crate) fn translation_of<F: Files>(
    alloc: Global,
    sources: Sources,
    files: &mut F,
) -> Result<Vec<u8>, Stop>
    ensures ok { IfOk result (λ bytes. Translates (F.tree files.old) sources.entry.model.now sources.entry.param.now
        (option_map (λ name. name.now) sources.entry.cells) bytes.items) }
    ensures stops { IfErr result (λ stop. SourceCause stop.at stop.outcome sources.entry.model.now sources.entry.param.now
        (option_map (λ name. name.now) sources.entry.cells)
        (files_at (F.tree files.old) (F.faults files.old) (F.misses files.old))
        (files_at (F.tree files.new) (F.faults files.new) (F.misses files.new))) }
    ensures later { IsLater
        (files_at (F.tree files.old) (F.faults files.old) (F.misses files.old))
        (files_at (F.tree files.new) (F.faults files.new) (F.misses files.new)) }
    ensures reads { ReadsUpTo 3 (F.reads files.old) (F.reads files.new) }
{
    match model_in(alloc, sources.model, files) {
        Ok(file) => {
            let bytes = translation_for(alloc, &file, sources, files);
            drop(file);
            bytes
        }
        Err(outcome) => Err(Stop {
            at: Which::Model,
            outcome,
        }),
    }
}
