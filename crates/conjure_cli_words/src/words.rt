// The command that words ask for.
ghost use Rattle.std.specs.Prelude.{◌≡◌, IfOk, Err, None, Some, map, option_and_then, option_map, string_bytes};
ghost use Rattle.conjure_cli_words.specs.Forms.{read_as};
ghost use Rattle.conjure_cli_words.specs.Commands.{command_named, command_of, modelling_form, modelling_of, parameter_form, parameter_of};
ghost use Rattle.conjure_cli_words.specs.Commands.{selftest_form, selftest_of};
ghost use Rattle.conjure_cli_words.specs.Commands.{solution_form, solution_of, validate_form, validate_of};

use crate::command::{Command, Options};
use crate::no::WordsNo;
use crate::numbers::number_of;
use crate::parsers::{self, read, value, value_or};
use ess_rows::Text;
use std::alloc::Global;

/// The command `modelling` with these words behind its name. `Usage` where they don't fit its form.
fn modelling(alloc: Global, words: &[String]) -> Result<Command, WordsNo>
    ensures ok { IfOk result (λ c. option_map modelling_of (read_as modelling_form (map string_bytes words.now)) ≡ Some c) }
    ensures usage { result ≡ Err WordsNo.Usage → option_map modelling_of (read_as modelling_form (map string_bytes words.now)) ≡ None }
{
    let found = read(parsers::modelling(alloc)?, words)?;
    let folder = value_or(alloc, &found, "o", "conjure-output")?;
    let file = value_or(alloc, &found, "operand", "")?;
    let use_repr = value(alloc, &found, "--use-repr")?;
    Ok(Command::Modelling(folder, file, Options { use_repr }))
}

/// The command `translate-parameter` with these words behind its name. `Usage` where they don't fit its form.
fn parameter(alloc: Global, words: &[String]) -> Result<Command, WordsNo>
    ensures ok { IfOk result (λ c. option_map parameter_of (read_as parameter_form (map string_bytes words.now)) ≡ Some c) }
    ensures usage { result ≡ Err WordsNo.Usage → option_map parameter_of (read_as parameter_form (map string_bytes words.now)) ≡ None }
{
    let found = read(parsers::parameter(alloc)?, words)?;
    let model = value_or(alloc, &found, "--eprime", "")?;
    let from = value_or(alloc, &found, "--essence-param", "")?;
    let to = value_or(alloc, &found, "--eprime-param", "")?;
    Ok(Command::Parameter(model, from, to))
}

/// The command `translate-solution` with these words behind its name. `Usage` where they don't fit its form.
fn solution(alloc: Global, words: &[String]) -> Result<Command, WordsNo>
    ensures ok { IfOk result (λ c. option_map solution_of (read_as solution_form (map string_bytes words.now)) ≡ Some c) }
    ensures usage { result ≡ Err WordsNo.Usage → option_map solution_of (read_as solution_form (map string_bytes words.now)) ≡ None }
{
    let found = read(parsers::solution(alloc)?, words)?;
    let model = value_or(alloc, &found, "--eprime", "")?;
    let param = value_or(alloc, &found, "--essence-param", "")?;
    let from = value_or(alloc, &found, "--eprime-solution", "")?;
    let to = value_or(alloc, &found, "--essence-solution", "")?;
    Ok(Command::Solution(model, param, from, to))
}

/// The command `validate-solution` with these words behind its name. `Usage` where they don't fit its form.
fn validate(alloc: Global, words: &[String]) -> Result<Command, WordsNo>
    ensures ok { IfOk result (λ c. option_map validate_of (read_as validate_form (map string_bytes words.now)) ≡ Some c) }
    ensures usage { result ≡ Err WordsNo.Usage → option_map validate_of (read_as validate_form (map string_bytes words.now)) ≡ None }
{
    let found = read(parsers::validate(alloc)?, words)?;
    let essence = value_or(alloc, &found, "--essence", "")?;
    let param = value_or(alloc, &found, "--param", "")?;
    let solution = value_or(alloc, &found, "--solution", "")?;
    Ok(Command::Validate(essence, param, solution))
}

/// The command `selftest` with these words behind its name. `Usage` where they don't fit its form.
fn selftest(alloc: Global, words: &[String]) -> Result<Command, WordsNo>
    ensures ok { IfOk result (λ c. option_and_then selftest_of (read_as selftest_form (map string_bytes words.now)) ≡ Some c) }
    ensures usage { result ≡ Err WordsNo.Usage → option_and_then selftest_of (read_as selftest_form (map string_bytes words.now)) ≡ None }
{
    let found = read(parsers::selftest(alloc)?, words)?;
    let text = value_or(alloc, &found, "operand", "")?;
    match number_of(text.as_str()) {
        Some(number) => Ok(Command::Selftest(number)),
        None => Err(WordsNo::Usage),
    }
}

/// The command of this name, with these words behind it.
fn command_named(alloc: Global, name: &str, words: &[String]) -> Result<Command, WordsNo>
    ensures ok { IfOk result (λ c. command_named name.now (map string_bytes words.now) ≡ Some c) }
    ensures usage { result ≡ Err WordsNo.Usage → command_named name.now (map string_bytes words.now) ≡ None }
{
    if name == "modelling" {
        modelling(alloc, words)
    } else if name == "translate-parameter" {
        parameter(alloc, words)
    } else if name == "translate-solution" {
        solution(alloc, words)
    } else if name == "validate-solution" {
        validate(alloc, words)
    } else if name == "selftest" {
        selftest(alloc, words)
    } else {
        Err(WordsNo::Usage)
    }
}

/// The command that the words behind the program's name ask for.
///
/// The first word names the command. The others are options in any order, each at most once and with one value, and
/// operands: `modelling [-o DIR] [--use-repr LIST] FILE`, `translate-parameter --eprime M --essence-param P
/// --eprime-param Q`, `translate-solution --eprime M --essence-param P --eprime-solution C --essence-solution S`,
/// `validate-solution --essence E --param P --solution S` and `selftest N`. DIR is `conjure-output` where it isn't given.
///
/// `Usage` where the words don't fit, and `NoMemory` where there is no room to read them.
pub fn words_of(alloc: Global, words: &[String]) -> Result<Command, WordsNo>
    ensures ok { IfOk result (λ c. command_of (map string_bytes words.now) ≡ Some c) }
    ensures usage { result ≡ Err WordsNo.Usage → command_of (map string_bytes words.now) ≡ None }
{
    match words {
        [name, rest @ ..] => command_named(alloc, name.as_str(), rest),
        [] => Err(WordsNo::Usage),
    }
}
