//! The counts of the self-test.
ghost use Rattle.std.specs.Prelude.{◌≡◌, IfOk};
ghost use Rattle.conjure_modelling.specs.Modelled.{IsTold};
ghost use Rattle.conjure_cli.specs.Counted.{is_valid, IsToldOfModel, HasMembers, HasCounts};
ghost use Rattle.conjure_cli.specs.Counted.{CountsValid, CountsSolution, CountsMembers, CountsModel};

use crate::counts_line::Counts;
use crate::members::{all_members, read_file};
use crate::models::model_made;
use crate::texts::{cells_text, pairs, specification_text};
use conjure_modelling::ModelNo;
use ess_core::NoMemory;
use ess_domains::Verdict;
use ess_translate::{TransNo, validate};
use ess_translate_solutions::{parameter, solution};
use std::alloc::Global;

/// The text of the parameter.
const PARAMETER: &[u8] = b"letting n be 20\n";

/// No members are counted behind a refusal. `NoMemory` where it is one.
fn none_counted(why: TransNo) -> Result<u64, NoMemory>
    ensures { IfOk result (λ n. (n ≡ 0) × IsTold why) }
{
    match why {
        TransNo::NoMemory => Err(NoMemory),
        other => {
            drop(other);
            Ok(0)
        }
    }
}

/// Nothing is counted behind a refusal of `modelling`. `NoMemory` where it is one.
fn none_made(why: ModelNo) -> Result<(u64, u64), NoMemory>
    ensures { IfOk result (λ n. (n.0 ≡ 0) × (n.1 ≡ 0) × IsToldOfModel why) }
{
    match why {
        ModelNo::NoMemory => Err(NoMemory),
        other => {
            drop(other);
            Ok((0, 0))
        }
    }
}

/// Whether the verdict is that a solution is valid.
fn is_valid(verdict: &Verdict) -> bool
    ensures { result ≡ is_valid verdict.now }
{
    match verdict {
        Verdict::Valid => true,
        _ => false,
    }
}

/// The members of the sets in the text of a solution. `NoMemory` also where it isn't read, as that of a solution is.
fn members_in(alloc: Global, number: u64, sol: &[u8]) -> Result<u64, NoMemory>
    ensures { IfOk result (HasMembers number sol.now) }
{
    match read_file(alloc, sol) {
        Ok(file) => {
            let members = all_members(alloc, file.list.as_slice(), pairs(number));
            drop(file);
            members
        }
        Err(_) => Err(NoMemory),
    }
}

/// The members of the sets in the text of a solution, if it is valid.
fn valid_members(alloc: Global, number: u64, sol: &[u8]) -> Result<u64, NoMemory>
    ensures { IfOk result (CountsValid number sol.now) }
{
    let essence = specification_text(alloc, number)?;
    match validate(alloc, essence.as_bytes(), PARAMETER, sol) {
        Ok(verdict) => {
            let valid = is_valid(&verdict);
            drop(verdict);
            if valid {
                members_in(alloc, number, sol)
            } else {
                Ok(0)
            }
        }
        Err(why) => none_counted(why),
    }
}

/// The members of the sets in the solution for which the cells stand under a model.
fn solved_members(alloc: Global, number: u64, model: &[u8]) -> Result<u64, NoMemory>
    ensures { IfOk result (CountsSolution number model.now) }
{
    let cells = cells_text(alloc, number)?;
    match solution(alloc, model, PARAMETER, cells.as_bytes()) {
        Ok(sol) => valid_members(alloc, number, sol.as_slice()),
        Err(why) => none_counted(why),
    }
}

/// The members of the sets behind the translation of the parameter.
fn members_under(alloc: Global, number: u64, model: &[u8]) -> Result<u64, NoMemory>
    ensures { IfOk result (CountsMembers number model.now) }
{
    match parameter(alloc, model, PARAMETER) {
        Ok(_) => solved_members(alloc, number, model),
        Err(why) => none_counted(why),
    }
}

/// The constraints of the model, and the members of the sets under it.
fn counted(alloc: Global, number: u64) -> Result<(u64, u64), NoMemory>
    ensures { IfOk result (λ n. CountsModel number n.0 n.1) }
{
    let essence = specification_text(alloc, number)?;
    match model_made(alloc, essence.as_bytes()) {
        Ok(made) => {
            let members = members_under(alloc, number, made.text.as_slice())?;
            Ok((made.rules, members))
        }
        Err(why) => none_made(why),
    }
}

/// Runs the self-test with a number: its specification through `modelling`, whose text isn't read again here, its parameter through
/// `translate-parameter`, the cells of its solution through `translate-solution`, and what that answers through `validate-solution`. A
/// refusal by one of them leaves the counts behind it 0. `NoMemory` for want of memory.
pub fn counts(alloc: Global, number: u64) -> Result<Counts, NoMemory>
    ensures { IfOk result (HasCounts number) }
{
    let (constraints, members) = counted(alloc, number)?;
    Ok(Counts {
        statements: 3 * pairs(number) + 1,
        cells: 60 * pairs(number),
        constraints,
        members,
    })
}
