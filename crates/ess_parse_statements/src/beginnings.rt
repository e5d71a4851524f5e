#![tactic(auto, using(ess_parse_frames::proofs::RowLaws::names_none))]

ghost use Rattle.std.specs.Prelude.{◌≡◌, IfOk};
ghost use Rattle.ess_semantics.specs.Values.{Text};
ghost use Rattle.ess_grammar.specs.Kinds.{token};
ghost use Rattle.ess_parse_laws.specs.StatementSteps.{another_part, step_statement_read};
ghost use Rattle.ess_parse_frames.specs.Rows.{back_stms};
ghost use Rattle.ess_parse_frames.specs.Views.{Steps, opening_word};
ghost use Rattle.ess_parse_statements.specs.Beginnings.{is_comma};

use ess_core::Stm;
use ess_grammar::Kind;
use ess_parse_frames::stack::outside;
use ess_parse_frames::statements::{begin, no_state_behind};
use ess_parse_frames::{Declaring, Mode, Opening, State};
use ess_rows::{NoMemory, Row};
use std::alloc::Global;

/// Behind a comma that follows a statement which ends in no expression and no domain: another part of its list.
pub fn begin_part(
    alloc: Global,
    opening: Opening,
    stms: Row<Stm>,
) -> Result<Option<State>, NoMemory>
    ensures { IfOk result (Steps (another_part (opening_word opening) (back_stms stms))) }
{
    match opening {
        Opening::Given => Ok(outside(
            alloc,
            Mode::NamesWanted(Declaring::Given, Row::new(alloc), stms),
        )),
        Opening::Letting => Ok(outside(alloc, Mode::LettingWanted(stms))),
        Opening::Language => Ok(no_state_behind(stms)),
    }
}

/// Whether a token of this kind is a comma.
fn is_comma(kind: Kind) -> bool
    ensures { (bytes : Text) → result ≡ is_comma (token kind bytes) }
{
    matches!(kind, Kind::Comma)
}

/// Behind a statement that ends in no expression and no domain, and behind the language line.
#[tactic(auto, using(crate::proofs::OtherTokens::no_comma))]
pub fn step_statement_read(
    alloc: Global,
    kind: Kind,
    text: &[u8],
    opening: Opening,
    stms: Row<Stm>,
) -> Result<Option<State>, NoMemory>
    ensures { IfOk result (Steps (step_statement_read (token kind text.now) (opening_word opening) (back_stms stms))) }
{
    if is_comma(kind) {
        return begin_part(alloc, opening, stms);
    }
    begin(alloc, kind, stms)
}
