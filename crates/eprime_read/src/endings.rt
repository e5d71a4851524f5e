ghost use Rattle.std.specs.Prelude.{◌≡◌, [], IfOk, IfSome, map};
ghost use Rattle.std.specs.Option.{option_map};
ghost use Rattle.ess_grammar.specs.Words.{given_word, find_word, such_word, minimising_word, maximising_word};
ghost use Rattle.ess_grammar.specs.Readable.{ReadableStm, ReadableStms};
ghost use Rattle.ess_core.specs.StatementViews.{pure_stm};
ghost use Rattle.eprime_read_laws.specs.ModelMachine.{with_part};
ghost use Rattle.eprime_tree.specs.Views.{pure_ex};
ghost use Rattle.eprime_read_convert.specs.Lines.{scope_of};
ghost use Rattle.eprime_read.specs.Openings.{word_of};
ghost use Rattle.eprime_read.specs.Drafts.{Fits};
ghost use Rattle.eprime_read.specs.Statements.{model_rule, model_rules};
ghost use Rattle.eprime_read.specs.Views.{view_draft};

use crate::converting::model_expression;
use crate::drafts::Draft;
use crate::growing::{with_find, with_given, with_greatest, with_least};
use crate::openings::Opening;
use crate::statements::{find_in, given_in, greatest_in, least_in, only};
use eprime_read_convert::{Lines, Scopes};
use eprime_tree::PEx;
use ess_core::Stm;
use ess_rows::{NoMemory, Row};
use std::alloc::Global;

/// The constraint of a model that a statement is, if it is one.
fn rule_of(alloc: Global, lines: &Lines, bound: &Scopes, stm: &Stm) -> Result<Option<PEx>, NoMemory>
    requires bound { bound.now ≡ [] }
    requires readable { ReadableStm (pure_stm stm.now) }
    ensures { IfOk result (λ o. option_map (pure_ex (scope_of lines.now)) o ≡ model_rule (scope_of lines.now) (pure_stm stm.now)) }
{
    match stm {
        Stm::SuchThat(ex) => Ok(model_expression(alloc, lines, true, bound, ex.get())?),
        _ => Ok(None),
    }
}

/// The constraints of a model that statements are, where all are such.
fn rules_of(alloc: Global, lines: &Lines, stms: &[Stm]) -> Result<Option<Row<PEx>>, NoMemory>
    requires { ReadableStms (map pure_stm stms.now) }
    ensures { IfOk result (λ o. option_map (map (pure_ex (scope_of lines.now))) o ≡ model_rules (scope_of lines.now) (map pure_stm stms.now)) }
{
    let bound = Scopes::new(alloc);
    let mut rules = Row::new(alloc);
    for stm in stms {
        match rule_of(alloc, lines, &bound, stm)? {
            Some(rule) => rules.push(rule)?,
            None => return Ok(None),
        }
    }
    Ok(Some(rules))
}

/// The model behind a given, where the statements are one.
#[tactic(auto, using(crate::proofs::PartStatements::given_by, crate::proofs::PartStatements::only_readable, crate::proofs::PartStatements::given_readable))]
fn with_given_part(alloc: Global, draft: Draft, stms: Row<Stm>) -> Result<Option<Draft>, NoMemory>
    requires fits { Fits given_word draft.model }
    requires readable { ReadableStms (map pure_stm stms) }
    ensures model { IfOk result (λ d. with_part given_word (view_draft draft) (map pure_stm stms) ≡ option_map view_draft d) }
    ensures fits { IfOk result (λ d. IfSome d (λ d. Fits given_word d.model)) }
{
    let Some(stm) = only(stms) else {
        return Ok(None);
    };
    match given_in(stm) {
        Some((name, dom)) => Ok(with_given(alloc, draft, &name, dom.get())?),
        None => Ok(None),
    }
}

/// The model behind a find, where the statements are one.
#[tactic(auto, using(crate::proofs::PartStatements::find_by, crate::proofs::PartStatements::only_readable, crate::proofs::PartStatements::find_readable))]
fn with_find_part(alloc: Global, draft: Draft, stms: Row<Stm>) -> Result<Option<Draft>, NoMemory>
    requires fits { Fits find_word draft.model }
    requires readable { ReadableStms (map pure_stm stms) }
    ensures model { IfOk result (λ d. with_part find_word (view_draft draft) (map pure_stm stms) ≡ option_map view_draft d) }
    ensures fits { IfOk result (λ d. IfSome d (λ d. Fits find_word d.model)) }
{
    let Some(stm) = only(stms) else {
        return Ok(None);
    };
    match find_in(stm) {
        Some((name, dom)) => Ok(with_find(alloc, draft, &name, dom.get())?),
        None => Ok(None),
    }
}

/// The model behind an objective that is minimised, where the statements are one.
#[tactic(auto, using(crate::proofs::PartStatements::least_by, crate::proofs::PartStatements::only_readable, crate::proofs::PartStatements::least_readable))]
fn with_least_part(alloc: Global, draft: Draft, stms: Row<Stm>) -> Result<Option<Draft>, NoMemory>
    requires readable { ReadableStms (map pure_stm stms) }
    ensures model { IfOk result (λ d. with_part minimising_word (view_draft draft) (map pure_stm stms) ≡ option_map view_draft d) }
{
    let Some(stm) = only(stms) else {
        return Ok(None);
    };
    match least_in(stm) {
        Some(ex) => Ok(with_least(alloc, draft, ex.get())?),
        None => Ok(None),
    }
}

/// The model behind an objective that is maximised, where the statements are one.
#[tactic(auto, using(crate::proofs::PartStatements::greatest_by, crate::proofs::PartStatements::only_readable, crate::proofs::PartStatements::greatest_readable))]
fn with_greatest_part(
    alloc: Global,
    draft: Draft,
    stms: Row<Stm>,
) -> Result<Option<Draft>, NoMemory>
    requires readable { ReadableStms (map pure_stm stms) }
    ensures model { IfOk result (λ d. with_part maximising_word (view_draft draft) (map pure_stm stms) ≡ option_map view_draft d) }
{
    let Some(stm) = only(stms) else {
        return Ok(None);
    };
    match greatest_in(stm) {
        Some(ex) => Ok(with_greatest(alloc, draft, ex.get())?),
        None => Ok(None),
    }
}

/// The model behind constraints, where the statements are such.
#[tactic(auto, using(crate::proofs::Growth::rules_found, crate::proofs::Growth::rules_readable))]
fn with_constraints_part(
    alloc: Global,
    draft: Draft,
    stms: Row<Stm>,
) -> Result<Option<Draft>, NoMemory>
    requires { ReadableStms (map pure_stm stms) }
    ensures { IfOk result (λ d. with_part such_word (view_draft draft) (map pure_stm stms) ≡ option_map view_draft d) }
{
    match rules_of(alloc, &draft.lines, stms.as_slice())? {
        Some(rules) => Ok(Some(draft.with_rules(rules))),
        None => Ok(None),
    }
}

/// The model behind a part that begins with this word and is read as these statements, where it is a part of a model.
pub(crate) fn with_part(
    alloc: Global,
    opening: Opening,
    draft: Draft,
    stms: Row<Stm>,
) -> Result<Option<Draft>, NoMemory>
    requires fits { Fits (word_of opening) draft.model }
    requires readable { ReadableStms (map pure_stm stms) }
    ensures model { IfOk result (λ d. with_part (word_of opening) (view_draft draft) (map pure_stm stms) ≡ option_map view_draft d) }
    ensures fits { IfOk result (λ d. IfSome d (λ d. Fits (word_of opening) d.model)) }
{
    match opening {
        Opening::Given => Ok(with_given_part(alloc, draft, stms)?),
        Opening::Find => Ok(with_find_part(alloc, draft, stms)?),
        Opening::Minimising => Ok(with_least_part(alloc, draft, stms)?),
        Opening::Maximising => Ok(with_greatest_part(alloc, draft, stms)?),
        Opening::Such => Ok(with_constraints_part(alloc, draft, stms)?),
        Opening::Letting | Opening::Where => Ok(None),
    }
}
