// The parser of each form, and what it reads.
ghost use Rattle.std.specs.Prelude.{◌≡◌, IfOk, Err, None, Some, List, ℕ, map, string_bytes, unwrap_or, option_map};
ghost use Rattle.clap.specs.Words.{app_of, with_rule, first_value, found_of};
ghost use Rattle.conjure_cli_words.specs.Items.{long, short};
ghost use Rattle.conjure_cli_words.specs.Forms.{Form, read_as};
ghost use Rattle.conjure_cli_words.specs.Commands.{modelling_form, parameter_form, selftest_form, solution_form, validate_form};
ghost use Rattle.conjure_cli_words.specs.Parsers.{IsSmall, ReadsAs, bare, id_of, operand_rule, option_rule, parser_of};

use crate::no::{WordsNo, no_of};
use clap::{Arg, ArgAction, ArgMatches, Command};
use ess_rows::{NoMemory, Text};
use std::alloc::{AllocError, Global};

/// A parser of no options yet.
fn bare<'a>(alloc: Global) -> Command<'a>
    ensures { app_of result ≡ bare }
{
    Command::new(alloc, "conjure")
        .no_binary_name(true)
        .disable_help_flag(true)
        .disable_version_flag(true)
}

/// The parser with one more option, of a long name. The id is the name behind `--`.
fn with_long<'a>(
    alloc: Global,
    parser: Command<'a>,
    id: &'a str,
    name: &'a str,
    required: bool,
) -> Result<Command<'a>, AllocError>
    ensures { id.entry.now ≡ id_of (long name.entry.now)
        → IfOk result (λ p. app_of p ≡ with_rule (app_of parser.entry) (option_rule required (long name.entry.now))) }
{
    let option = Arg::new(alloc, id)
        .long(name)
        .action(ArgAction::Set)
        .required(required);
    parser.arg(option)
}

/// The parser with an operand.
fn with_operand<'a>(alloc: Global, parser: Command<'a>) -> Result<Command<'a>, AllocError>
    ensures { IfOk result (λ p. app_of p ≡ with_rule (app_of parser.entry) operand_rule) }
{
    let operand = Arg::new(alloc, "operand")
        .action(ArgAction::Set)
        .required(true);
    parser.arg(operand)
}

/// The parser of `modelling`.
pub(crate) fn modelling<'a>(alloc: Global) -> Result<Command<'a>, AllocError>
    ensures { IfOk result (λ p. app_of p ≡ parser_of modelling_form) }
{
    let folder = Arg::new(alloc, "o")
        .short('o')
        .action(ArgAction::Set)
        .required(false);
    let parser = bare(alloc).arg(folder)?;
    let parser = with_long(alloc, parser, "--use-repr", "use-repr", false)?;
    with_operand(alloc, parser)
}

/// The parser of `translate-parameter`.
pub(crate) fn parameter<'a>(alloc: Global) -> Result<Command<'a>, AllocError>
    ensures { IfOk result (λ p. app_of p ≡ parser_of parameter_form) }
{
    let parser = with_long(alloc, bare(alloc), "--eprime", "eprime", true)?;
    let parser = with_long(alloc, parser, "--essence-param", "essence-param", true)?;
    with_long(alloc, parser, "--eprime-param", "eprime-param", true)
}

/// The parser of `translate-solution`.
pub(crate) fn solution<'a>(alloc: Global) -> Result<Command<'a>, AllocError>
    ensures { IfOk result (λ p. app_of p ≡ parser_of solution_form) }
{
    let parser = with_long(alloc, bare(alloc), "--eprime", "eprime", true)?;
    let parser = with_long(alloc, parser, "--essence-param", "essence-param", true)?;
    let parser = with_long(alloc, parser, "--eprime-solution", "eprime-solution", true)?;
    with_long(
        alloc,
        parser,
        "--essence-solution",
        "essence-solution",
        true,
    )
}

/// The parser of `validate-solution`.
pub(crate) fn validate<'a>(alloc: Global) -> Result<Command<'a>, AllocError>
    ensures { IfOk result (λ p. app_of p ≡ parser_of validate_form) }
{
    let parser = with_long(alloc, bare(alloc), "--essence", "essence", true)?;
    let parser = with_long(alloc, parser, "--param", "param", true)?;
    with_long(alloc, parser, "--solution", "solution", true)
}

/// The parser of `selftest`.
pub(crate) fn selftest<'a>(alloc: Global) -> Result<Command<'a>, AllocError>
    ensures { IfOk result (λ p. app_of p ≡ parser_of selftest_form) }
{
    with_operand(alloc, bare(alloc))
}

/// What the parser of a form finds in words. `Usage` where they don't fit the form.
pub(crate) fn read<'a>(parser: Command<'a>, words: &'a [String]) -> Result<ArgMatches<'a>, WordsNo>
    ensures ok { (form : Form) → app_of parser.entry ≡ parser_of form → IsSmall form
        → IfOk result (ReadsAs form (map string_bytes words.entry.now)) }
    ensures usage { (form : Form) → app_of parser.entry ≡ parser_of form → IsSmall form
        → result ≡ Err WordsNo.Usage → read_as form (map string_bytes words.entry.now) ≡ None }
{
    match parser.try_get_matches_from(words) {
        Ok(matches) => Ok(matches),
        Err(error) => Err(no_of(&error)),
    }
}

/// The value of an option or an operand, where it was found.
pub(crate) fn value(alloc: Global, matches: &ArgMatches, id: &str) -> Result<Option<Text>, NoMemory>
    ensures { IfOk result (λ v. v ≡ first_value (found_of matches.now) id.now) }
{
    match matches.get_str(id) {
        Some(text) => Ok(Some(Text::from_str(alloc, text)?)),
        None => Ok(None),
    }
}

/// The value of an option or an operand, and another text where it wasn't found.
pub(crate) fn value_or(
    alloc: Global,
    matches: &ArgMatches,
    id: &str,
    other: &str,
) -> Result<Text, NoMemory>
    ensures { IfOk result (λ v. v ≡ unwrap_or (first_value (found_of matches.now) id.now) other.now) }
{
    match matches.get_str(id) {
        Some(text) => Text::from_str(alloc, text),
        None => Text::from_str(alloc, other),
    }
}
