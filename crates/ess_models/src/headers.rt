//! The lines of a model's header.
ghost use Rattle.std.specs.Prelude.{◌≡◌, map, filter, IfOk};
ghost use Rattle.ess_semantics.specs.ModelTrees.{in_header};
ghost use Rattle.ess_core.specs.StatementViews.{pure_stm};
ghost use Rattle.ess_parse.specs.NamedReprViews.{pure_named_reprs};
ghost use Rattle.ess_translate_header_laws.specs.WrittenLines.{header_texts};

use ess_core::Stm;
use ess_parse::NamedReprs;
use ess_rows::{NoMemory, Row, Text};
use ess_translate_header_lines::write_header_lines;
use std::alloc::Global;

/// The lines of the header of a model of these statements, which has neither constraints nor objectives, with these representations.
pub(crate) fn header_lines(
    alloc: Global,
    stms: &[Stm],
    reprs: &[NamedReprs],
) -> Result<Row<Text>, NoMemory>
    ensures { IfOk result (λ ls. ls ≡ header_texts (record {
      statements = filter in_header (map pure_stm stms.now);
      reprs = map pure_named_reprs reprs.now;
    })) }
{
    let kept = kept_statements(alloc, stms)?;
    write_header_lines(alloc, kept.as_slice(), reprs)
}

/// The statements that stand in the header.
#[tactic(auto, using(crate::proofs::Heads::kept_one, crate::proofs::Heads::kept_none))]
fn kept_statements(alloc: Global, stms: &[Stm]) -> Result<Row<Stm>, NoMemory>
    ensures { IfOk result (λ ss. map pure_stm ss ≡ filter in_header (map pure_stm stms.now)) }
{
    let mut kept = Row::new(alloc);
    for stm in stms {
        if stands_in_header(stm) {
            let copy = stm.copy(alloc)?;
            kept.push(copy)?;
        }
    }
    Ok(kept)
}

/// Whether a statement stands in headers: it is neither a constraint nor an objective.
fn stands_in_header(stm: &Stm) -> bool
    ensures { result ≡ in_header (pure_stm stm.now) }
{
    match stm {
        Stm::SuchThat(_) => false,
        Stm::Minimise(_) => false,
        Stm::Maximise(_) => false,
        _ => true,
    }
}
