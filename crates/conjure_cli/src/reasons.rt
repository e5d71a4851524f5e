// The texts of verdicts and of refusals.
ghost use Rattle.std.specs.Prelude.{◌≡◌, ◌++◌, IfOk, OnOk, [], codes, decimal};
ghost use Rattle.conjure_cli.specs.Reasons.{at_place, at_statement, read_reason, type_reason, param_reason, model_reason, refusal_told};
ghost use Rattle.conjure_cli.specs.Reasons.{refusal_line, item_line, verdict_reason, verdict_told, verdict_line};

use eprime_verdicts::PVerdict;
use ess_core::{NoMemory, Place, Text};
use ess_domains::{ParamVerdict, Verdict};
use ess_parse::ReadNo;
use ess_translate::TransNo;
use ess_types::TypeNo;
use std::alloc::Global;

/// The line of a verdict on standard output.
pub(crate) fn verdict_line(alloc: Global, verdict: &Verdict) -> Result<Text, NoMemory>
    ensures { IfOk result (λ line. line ≡ verdict_line verdict.now) }
{
    let mut line = Text::new(alloc);
    push_verdict(&mut line, verdict)?;
    line.push_str("\n")?;
    Ok(line)
}

/// Writes what is said of a verdict.
fn push_verdict(line: &mut Text, verdict: &Verdict) -> Result<(), NoMemory>
    ensures { OnOk result (line.new ≡ line.old ++ verdict_told verdict.now) }
{
    match verdict {
        Verdict::Valid => line.push_str("valid"),
        _ => {
            line.push_str("not valid: ")?;
            push_reason(line, verdict)
        }
    }
}

/// Writes why a solution isn't valid.
fn push_reason(line: &mut Text, verdict: &Verdict) -> Result<(), NoMemory>
    ensures { OnOk result (line.new ≡ line.old ++ verdict_reason verdict.now) }
{
    match verdict {
        Verdict::Valid => Ok(()),
        Verdict::Missing(name) => push_two(line, "missing ", name.as_str()),
        Verdict::Extra(name) => push_two(line, "extra ", name.as_str()),
        Verdict::NotMember(name) => push_two(line, name.as_str(), " is not in its domain"),
        Verdict::False(number) => {
            line.push_str("statement ")?;
            line.push_u64(u64::from(*number))?;
            line.push_str(" is false")
        }
        Verdict::NoObjective => line.push_str("the objective is undefined"),
    }
}

/// Writes one text behind another.
fn push_two(line: &mut Text, first: &str, second: &str) -> Result<(), NoMemory>
    ensures { OnOk result (line.new ≡ line.old ++ (first.now ++ second.now)) }
{
    line.push_str(first)?;
    line.push_str(second)
}

/// The line of a refusal on standard error; the file is the one that is looked at.
pub(crate) fn refusal_line(alloc: Global, file: &str, why: &TransNo) -> Result<Text, NoMemory>
    ensures { IfOk result (λ line. line ≡ refusal_line file.now why.now) }
{
    let mut line = Text::new(alloc);
    line.push_str("conjure: ")?;
    push_refusal(&mut line, file, why)?;
    line.push_str("\n")?;
    Ok(line)
}

/// The line of a refused item of the list of representations.
pub(crate) fn item_line(alloc: Global, number: u64) -> Result<Text, NoMemory>
    ensures { IfOk result (λ line. line ≡ item_line number) }
{
    let mut line = Text::new(alloc);
    line.push_str("conjure: --use-repr: item ")?;
    line.push_u64(number)?;
    line.push_str(" is refused\n")?;
    Ok(line)
}

/// Writes what is said of a refusal.
fn push_refusal(line: &mut Text, file: &str, why: &TransNo) -> Result<(), NoMemory>
    ensures { OnOk result (line.new ≡ line.old ++ refusal_told file.now why.now) }
{
    match why {
        TransNo::HeaderBad => push_two(line, file, ": no header of this tool"),
        TransNo::Read(_, why) => {
            line.push_str(file)?;
            push_read(line, *why)
        }
        TransNo::Typing(why) => {
            line.push_str(file)?;
            push_type(line, *why)
        }
        TransNo::InvalidParameter(why) => {
            line.push_str(file)?;
            push_param(line, why)
        }
        TransNo::TooManyCells(name, count) => push_count(line, name.as_str(), *count),
        TransNo::Unsatisfied(why) => {
            line.push_str(file)?;
            push_model(line, why)
        }
        TransNo::NotRepresented(name) => {
            line.push_str(file)?;
            push_named(line, name.as_str(), " stands for no value")
        }
        TransNo::Big => line.push_str("a number is outside 64 bits"),
        TransNo::NoMemory => line.push_str("out of memory"),
    }
}

/// Writes what is said of a text that isn't read.
fn push_read(line: &mut Text, why: ReadNo) -> Result<(), NoMemory>
    ensures { OnOk result (line.new ≡ line.old ++ read_reason why) }
{
    match why {
        ReadNo::BadByte(place) => push_at(line, place, "byte not allowed"),
        ReadNo::WideNumber(place) => push_at(line, place, "number too large"),
        ReadNo::Unsupported(place) => push_at(line, place, "word outside the profile"),
        ReadNo::TooDeep(place) => push_at(line, place, "nested too deeply"),
        ReadNo::Syntax(place) => push_at(line, place, "syntax error"),
        ReadNo::NoMemory => line.push_str(": out of memory"),
    }
}

/// Writes a text behind a place.
fn push_at(line: &mut Text, place: Place, text: &str) -> Result<(), NoMemory>
    ensures { OnOk result (line.new ≡ line.old ++ at_place place text.now) }
{
    line.push_str(":")?;
    line.push_u64(u64::from(place.line))?;
    line.push_str(":")?;
    line.push_u64(u64::from(place.col))?;
    line.push_str(": ")?;
    line.push_str(text)
}

/// Writes a text behind the number of a statement.
fn push_statement(line: &mut Text, number: u32, text: &str) -> Result<(), NoMemory>
    ensures { OnOk result (line.new ≡ line.old ++ at_statement number text.now) }
{
    line.push_str(": statement ")?;
    line.push_u64(u64::from(number))?;
    line.push_str(": ")?;
    line.push_str(text)
}

/// Writes what is said of an ill typed specification.
fn push_type(line: &mut Text, why: TypeNo) -> Result<(), NoMemory>
    ensures { OnOk result (line.new ≡ line.old ++ type_reason why) }
{
    match why {
        TypeNo::UnknownName(n) => push_statement(line, n, "unknown name"),
        TypeNo::DoubleName(n) => push_statement(line, n, "name declared twice"),
        TypeNo::IllTyped(n) => push_statement(line, n, "ill typed"),
        TypeNo::NotFinite(n) => push_statement(line, n, "not finite"),
        TypeNo::NotEnumerable(n) => push_statement(line, n, "not enumerable"),
        TypeNo::OpenGiven(n) => push_statement(line, n, "needs an unknown number of slots"),
        TypeNo::NoMemory => line.push_str(": out of memory"),
    }
}

/// Writes what is said of a parameter that doesn't fit.
fn push_param(line: &mut Text, why: &ParamVerdict) -> Result<(), NoMemory>
    ensures { OnOk result (line.new ≡ line.old ++ param_reason why.now) }
{
    match why {
        ParamVerdict::Fits => Ok(()),
        ParamVerdict::Missing(name) => push_two(line, ": missing ", name.as_str()),
        ParamVerdict::Extra(name) => push_two(line, ": extra ", name.as_str()),
        ParamVerdict::NoMeaning(n) => push_statement(line, *n, "a domain has no meaning"),
        ParamVerdict::BelowZero(n) => push_statement(line, *n, "a size is below 0"),
        ParamVerdict::NotMember(n) => push_statement(line, *n, "the value is not in its domain"),
        ParamVerdict::Needs(n) => push_statement(line, *n, "the condition is false"),
    }
}

/// Writes what is said of cells that don't satisfy a model.
fn push_model(line: &mut Text, why: &PVerdict) -> Result<(), NoMemory>
    ensures { OnOk result (line.new ≡ line.old ++ model_reason why.now) }
{
    match why {
        PVerdict::Yes => Ok(()),
        PVerdict::Missing(name) => push_two(line, ": missing ", name.as_str()),
        PVerdict::Extra(name) => push_two(line, ": extra ", name.as_str()),
        PVerdict::OutOfDomain(name) => push_named(line, name.as_str(), " is outside its domain"),
        PVerdict::False(number) => {
            line.push_str(": constraint ")?;
            line.push_u64(u64::from(*number))?;
            line.push_str(" is false")
        }
    }
}

/// Writes a name, with what is said of it.
fn push_named(line: &mut Text, name: &str, text: &str) -> Result<(), NoMemory>
    ensures { OnOk result (line.new ≡ line.old ++ (codes ": " ++ name.now ++ text.now)) }
{
    line.push_str(": ")?;
    line.push_str(name)?;
    line.push_str(text)
}

/// Writes how many cells a given or find has.
fn push_count(line: &mut Text, name: &str, count: u128) -> Result<(), NoMemory>
    ensures { OnOk result (line.new
        ≡ line.old ++ (name.now ++ codes ": " ++ decimal count ++ codes " cells, the limit is 16777216")) }
{
    line.push_str(name)?;
    line.push_str(": ")?;
    push_u128(line, count)?;
    line.push_str(" cells, the limit is 16777216")
}

/// Writes a number in decimal.
fn push_u128(line: &mut Text, number: u128) -> Result<(), NoMemory>
    ensures { OnOk result (line.new ≡ line.old ++ decimal number) }
{
    if number < 10 {
        return line.push_u64(number as u64);
    }
    push_u128(line, number / 10)?;
    line.push_u64((number % 10) as u64)
}
