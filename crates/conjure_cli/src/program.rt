// The program: from the words to the status.
ghost use Rattle.std.specs.Prelude.{◌≡◌, map, None, Some, true, string_bytes, option_map};
ghost use Rattle.conjure_cli.specs.Seen.{files_at, sink_at};
ghost use Rattle.conjure_cli.specs.Tasks.{begins_with_dash, file_named, takes_memory, task_of, asked, ReadsAfter};
ghost use Rattle.conjure_cli.specs.Ending.{IsRefusal};
ghost use Rattle.conjure_cli.specs.Runs.{outcome_status, Ends, KeepsAllElse, UsageIsTwo, MissingBy, DecidesBy};
ghost use Rattle.conjure_cli.specs.Standing.{ModelStands, ModelIsThere};
ghost use Rattle.conjure_cli.specs.Holding.{SaysWhetherSolution};
ghost use Rattle.conjure_cli.specs.Testing.{TestEnds, SaysTest};
ghost use Rattle.conjure_cli.specs.Translating.{SaysTranslation};

use crate::ending::{Ending, MODEL_FILE, report};
use crate::judging::Names;
use crate::outcome::Outcome;
use crate::refining::{modelling, refine_into};
use crate::telling::tell_refined;
use crate::testing::tested;
use crate::translating::Sources;
use crate::validating::judged;
use crate::writing::translated;
use conjure_cli_words::{Command, Options, WordsNo, words_of};
use ess_io::{Files, Sink};
use std::alloc::Global;

/// What the program ends with: 0 where the work is done or the solution is valid, 1 where it isn't valid or the cells stand for no
/// solution, 2 where the words don't fit, 3 where an input is refused or isn't supported yet, 4 where a file is missing, a read or a
/// write failed, 5 where a limit is met, and 6 for want of memory.
#[derive(Clone, Copy, Debug, PartialEq, Eq)]
pub struct Status(pub u8);

fn begins_with_dash(word: &str) -> bool
    ensures { result ≡ begins_with_dash word.now }
{
    matches!(word.as_bytes(), [b'-', ..])
}

/// The file of the words `modelling FILE`.
fn file_named(words: &[String]) -> Option<&str>
    ensures { option_map (λ file. file.now) result ≡ file_named (map string_bytes words.now) }
{
    match words {
        [command, file] if command.as_str() == "modelling" && !begins_with_dash(file.as_str()) => {
            Some(file.as_str())
        }
        _ => None,
    }
}

/// The list of representations.
fn list_of(options: &Options) -> Option<&str>
    ensures { option_map (λ list. list.now) result ≡ options.now.use_repr }
{
    match &options.use_repr {
        Some(list) => Some(list.as_str()),
        None => None,
    }
}

/// Does what a command asks for.
fn command_done<F: Files, O: Sink, E: Sink>(
    alloc: Global,
    command: &Command,
    files: &mut F,
    out: &mut O,
    err: &mut E,
) -> Outcome
    ensures ended { Ends result (outcome_status result) (Some (task_of command.now)) true
        (files_at (F.tree files.old) (F.faults files.old) (F.misses files.old))
        (files_at (F.tree files.new) (F.faults files.new) (F.misses files.new))
        (sink_at (O.bytes out.old) (O.faults out.old)) (sink_at (O.bytes out.new) (O.faults out.new))
        (sink_at (E.bytes err.old) (E.faults err.old)) (sink_at (E.bytes err.new) (E.faults err.new)) }
    ensures reads { ReadsAfter (Some (task_of command.now)) true (outcome_status result) (F.reads files.old) (F.reads files.new) }
{
    match command {
        Command::Modelling(folder, file, options) => {
            let list = list_of(options);
            refine_into(alloc, folder.as_str(), file.as_str(), list, files, out, err)
        }
        Command::Parameter(model, from, to) => {
            let sources = Sources {
                model: model.as_str(),
                param: from.as_str(),
                cells: None,
            };
            translated(alloc, sources, to.as_str(), files, out, err)
        }
        Command::Solution(model, param, from, to) => {
            let sources = Sources {
                model: model.as_str(),
                param: param.as_str(),
                cells: Some(from.as_str()),
            };
            translated(alloc, sources, to.as_str(), files, out, err)
        }
        Command::Validate(essence, param, solution) => {
            let names = Names {
                essence: essence.as_str(),
                param: param.as_str(),
                solution: solution.as_str(),
            };
            judged(alloc, names, files, out, err)
        }
        Command::Selftest(number) => tested(alloc, *number, out, err),
    }
}

/// Does what words ask for which may take memory to be read.
fn words_done<F: Files, O: Sink, E: Sink>(
    alloc: Global,
    words: &[String],
    files: &mut F,
    out: &mut O,
    err: &mut E,
) -> Outcome
    ensures ended { Ends result (outcome_status result) (asked (map string_bytes words.now)) true
        (files_at (F.tree files.old) (F.faults files.old) (F.misses files.old))
        (files_at (F.tree files.new) (F.faults files.new) (F.misses files.new))
        (sink_at (O.bytes out.old) (O.faults out.old)) (sink_at (O.bytes out.new) (O.faults out.new))
        (sink_at (E.bytes err.old) (E.faults err.old)) (sink_at (E.bytes err.new) (E.faults err.new)) }
    ensures reads { ReadsAfter (asked (map string_bytes words.now)) true (outcome_status result) (F.reads files.old) (F.reads files.new) }
{
    match words_of(alloc, words) {
        Ok(command) => command_done(alloc, &command, files, out, err),
        Err(WordsNo::Usage) => {
            report(err, "", "", Ending::Usage);
            Outcome::Plain(Ending::Usage)
        }
        Err(WordsNo::NoMemory) => {
            report(err, "", "", Ending::NoMemory);
            Outcome::Plain(Ending::NoMemory)
        }
    }
}

/// Does what the words ask for.
fn done<F: Files, O: Sink, E: Sink>(
    alloc: Global,
    words: &[String],
    files: &mut F,
    out: &mut O,
    err: &mut E,
) -> Outcome
    ensures ended { Ends result (outcome_status result) (asked (map string_bytes words.now)) (takes_memory (map string_bytes words.now))
        (files_at (F.tree files.old) (F.faults files.old) (F.misses files.old))
        (files_at (F.tree files.new) (F.faults files.new) (F.misses files.new))
        (sink_at (O.bytes out.old) (O.faults out.old)) (sink_at (O.bytes out.new) (O.faults out.new))
        (sink_at (E.bytes err.old) (E.faults err.old)) (sink_at (E.bytes err.new) (E.faults err.new)) }
    ensures reads { ReadsAfter (asked (map string_bytes words.now)) (takes_memory (map string_bytes words.now)) (outcome_status result)
        (F.reads files.old) (F.reads files.new) }
{
    let Some(file) = file_named(words) else {
        return words_done(alloc, words, files, out, err);
    };
    let outcome = modelling(alloc, file, MODEL_FILE, None, files, out);
    tell_refined(alloc, outcome, file, MODEL_FILE, err)
}

/// Runs the program on the words after its name, and answers the status to end with.
///
/// The words are those of `conjure_cli_words::words_of`. With `modelling [-o DIR] [--use-repr LIST] FILE` the model of FILE is written
/// to `DIR/model000001.eprime`, and a line on `out` says so; DIR is `conjure-output` where it isn't given, and representations that
/// LIST doesn't name are the defaults. With
/// `validate-solution --essence E --param P --solution S` a line on `out` says `valid`, or `not valid` and why. With
/// `translate-parameter --eprime M --essence-param P --eprime-param Q` the given tables of the model M under the parameter P are
/// written to Q, and with `translate-solution --eprime M --essence-param P --eprime-solution C --essence-solution S` the solution for
/// which the cells C stand is written to S; a line on `out` says so. With `selftest N` a specification, a
/// parameter and a solution are made from the number N, and a line on `out` tells what is counted while they are modelled, translated
/// and validated: `statements A, cells B, constraints C, members D`. Where something stands against it, a line on `err` says what.
pub fn run<F: Files, O: Sink, E: Sink>(
    alloc: Global,
    words: &[String],
    files: &mut F,
    out: &mut O,
    err: &mut E,
) -> Status
    // Each ending has its status, its cause and its text, and leaves what it may.
    ensures ended { (outcome : Outcome) × Ends outcome result.0 (asked (map string_bytes words.now))
        (takes_memory (map string_bytes words.now))
        (files_at (F.tree files.old) (F.faults files.old) (F.misses files.old))
        (files_at (F.tree files.new) (F.faults files.new) (F.misses files.new))
        (sink_at (O.bytes out.old) (O.faults out.old)) (sink_at (O.bytes out.new) (O.faults out.new))
        (sink_at (E.bytes err.old) (E.faults err.old)) (sink_at (E.bytes err.new) (E.faults err.new)) }

    // Where a model of a text of the small grammar without a list is written, or that of a specification of scalars and sets of atoms,
    // each constraint flat and total over the scalars or a membership, it is one of the specification that was read, and each solution
    // has exactly one assignment.
    ensures stands { result.0 ≡ 0 → ModelStands (asked (map string_bytes words.now))
        (files_at (F.tree files.old) (F.faults files.old) (F.misses files.old))
        (files_at (F.tree files.new) (F.faults files.new) (F.misses files.new)) }

    // Where any model is written, its place holds the model of the text that was read.
    ensures built { result.0 ≡ 0 → ModelIsThere (asked (map string_bytes words.now))
        (files_at (F.tree files.old) (F.faults files.old) (F.misses files.old))
        (files_at (F.tree files.new) (F.faults files.new) (F.misses files.new)) }

    // Where a solution is judged, status 0 says that it is one, and status 1 that it is none.
    ensures judged { SaysWhetherSolution result.0 (asked (map string_bytes words.now))
        (files_at (F.tree files.old) (F.faults files.old) (F.misses files.old)) }

    // Where something is translated, status 0 says that its place holds the translation.
    ensures translated { SaysTranslation result.0 (asked (map string_bytes words.now))
        (files_at (F.tree files.old) (F.faults files.old) (F.misses files.old))
        (files_at (F.tree files.new) (F.faults files.new) (F.misses files.new)) }

    // Status 2 comes exactly where the words don't fit, but for want of memory.
    ensures usage { UsageIsTwo result.0 (asked (map string_bytes words.now)) }

    // A self-test meets no limit: status 4 comes only for a fault of `out`, else 0, or 6 for want of memory.
    ensures limitless { TestEnds result.0 (asked (map string_bytes words.now))
        (sink_at (O.bytes out.old) (O.faults out.old)) (sink_at (O.bytes out.new) (O.faults out.new)) }

    // Where a self-test is run, status 0 says that `out` has grown by a line of its counts.
    ensures tested { SaysTest result.0 (asked (map string_bytes words.now))
        (sink_at (O.bytes out.old) (O.faults out.old)) (sink_at (O.bytes out.new) (O.faults out.new)) }

    // A missing file gives status 4, and what is read of another file decides, where no fault comes.
    ensures missing { MissingBy result.0 (asked (map string_bytes words.now)) (takes_memory (map string_bytes words.now))
        (files_at (F.tree files.old) (F.faults files.old) (F.misses files.old))
        (files_at (F.tree files.new) (F.faults files.new) (F.misses files.new)) }
    ensures decided { DecidesBy result.0 (asked (map string_bytes words.now))
        (files_at (F.tree files.old) (F.faults files.old) (F.misses files.old))
        (files_at (F.tree files.new) (F.faults files.new) (F.misses files.new))
        (sink_at (O.bytes out.old) (O.faults out.old)) (sink_at (O.bytes out.new) (O.faults out.new)) }

    // A refusal touches no file, and no run touches another file than the model's.
    ensures refused { IsRefusal result.0 → F.tree files.new ≡ F.tree files.old }
    ensures others { KeepsAllElse (asked (map string_bytes words.now))
        (files_at (F.tree files.old) (F.faults files.old) (F.misses files.old))
        (files_at (F.tree files.new) (F.faults files.new) (F.misses files.new)) }

    // A file that is to be refined is read once, and nothing else is read.
    ensures read_once { ReadsAfter (asked (map string_bytes words.now)) (takes_memory (map string_bytes words.now)) result.0
        (F.reads files.old) (F.reads files.new) }
{
    Status(done(alloc, words, files, out, err).status())
}
