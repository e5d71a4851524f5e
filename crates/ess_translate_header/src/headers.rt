//! The header of a model's text.
ghost use Rattle.std.specs.Prelude.{◌≡◌, true, false, Err, IfOk, IfErr, OnOk, map};
ghost use Rattle.std.specs.List.{list_all};
ghost use Rattle.ess_semantics.specs.Prepared.{prepared};
ghost use Rattle.ess_semantics.specs.ModelTrees as pure;
ghost use Rattle.ess_semantics.specs.ModelTrees.{in_header};
ghost use Rattle.ess_core.specs.StatementViews.{pure_stm, pure_spec};
ghost use Rattle.ess_translate_header_laws.specs.Headers.{HasHeader, IsOurs};
ghost use Rattle.ess_translate_header_lines.specs.Views.{header_with};
ghost use Rattle.ess_parse.specs.NamedReprViews.{pure_named_reprs};
ghost use Rattle.ess_types.specs.declared.refusal.TypeNo.{TypeNo};
ghost use Rattle.ess_translate_header.specs.Views.{pure_header, represent};
ghost use Rattle.ess_translate_header.specs.declared.headers.HeadNo.{HeadNo};
ghost use Rattle.ess_translate_header.specs.declared.headers.HeadNo.TheVariants.{HeaderBad};

use crate::represented::are_reprs_of;
use ess_core::{NoMemory, Row, Spec, Stm};
use ess_parse::NamedReprs;
use ess_translate_header_lines::{HeaderLines, read_header_lines};
use ess_types::{TypeNo, Typed, check};
use std::alloc::Global;
use thiserror::Error;

/// The header of a model, of the first version: its specification, which has neither constraints nor objectives, and the
/// representations of each given and find with a domain, in order.
#[derive(Drop)]
pub struct Header {
    pub spec: Typed,
    pub reprs: Row<NamedReprs>,
}

/// Why a text has no header.
#[derive(Clone, Copy, Debug, PartialEq, Eq, Error)]
pub enum HeadNo {
    /// The text doesn't begin with a header of this tool: its lines aren't those of one, its specification is refused or has
    /// a constraint or an objective, or the representations aren't of its givens and finds, or one doesn't fit.
    #[error("no header of this tool")]
    HeaderBad,
    /// There was no room in memory.
    #[error("out of memory")]
    NoMemory,
}

impl From<NoMemory> for HeadNo {
    ghost from_gives = { λ _ no. no ≡ HeadNo.NoMemory };

    fn from(_: NoMemory) -> HeadNo {
        HeadNo::NoMemory
    }
}

/// Reads the header with which the text of a model begins. What stands behind the header doesn't matter. The answer is the one
/// header of this tool with which the text begins, and its specification with lettings put in and resolved. `HeaderBad` comes
/// exactly where the text begins with no header of this tool, `NoMemory` for want of memory.
#[tactic(auto, using(crate::proofs::Judged::no_lines_found))]
pub fn read_header(alloc: Global, text: &[u8]) -> Result<Header, HeadNo>
    ensures header { IfOk result (λ h. HasHeader text.now (pure_header h)) }
    ensures only { IfOk result (λ h. (H : pure.Header) → HasHeader text.now H → H ≡ pure_header h) }
    ensures prepared { IfOk result (λ h. pure_spec h.spec.prepared ≡ prepared (pure_spec h.spec.spec)) }
    ensures bad { result ≡ Err HeaderBad → (H : pure.Header) → HasHeader text.now H → ⊥ }
{
    match read_header_lines(alloc, text)? {
        Some(HeaderLines { statements, reprs }) => judged(alloc, statements, reprs),
        None => Err(HeadNo::HeaderBad),
    }
}

/// The header of these statements and representations, where it is one of this tool.
#[tactic(auto, using(crate::proofs::Judged::other_statements))]
fn judged(alloc: Global, statements: Row<Stm>, reprs: Row<NamedReprs>) -> Result<Header, HeadNo>
    ensures header { IfOk result (λ h. pure_header h ≡ header_with statements reprs) }
    ensures ours { IfOk result (λ h. IsOurs (header_with statements reprs)) }
    ensures prepared { IfOk result (λ h. pure_spec h.spec.prepared ≡ prepared (pure_spec h.spec.spec)) }
    ensures bad { result ≡ Err HeaderBad → IsOurs (header_with statements reprs) → ⊥ }
{
    if !all_stand_in_header(statements.as_slice()) {
        return Err(HeadNo::HeaderBad);
    }
    match check(alloc, Spec { stms: statements }) {
        Ok(spec) => with_reprs(spec, reprs),
        Err(no) => {
            of_specification(no)?;
            Err(HeadNo::HeaderBad)
        }
    }
}

/// Whether a refusal is one of the specification: `NoMemory` where it isn't.
fn of_specification(no: TypeNo) -> Result<(), NoMemory>
    ensures { OnOk result (no ≡ TypeNo.NoMemory → ⊥) }
{
    match no {
        TypeNo::NoMemory => Err(NoMemory),
        _ => Ok(()),
    }
}

/// The header with these representations, where they are those of its givens and finds and fit.
fn with_reprs(spec: Typed, reprs: Row<NamedReprs>) -> Result<Header, HeadNo>
    ensures header { IfOk result (λ h. (h.spec ≡ spec) × (h.reprs ≡ reprs)) }
    ensures fits { IfOk result (λ h. represent (pure_spec spec.prepared) (map pure_named_reprs reprs) ≡ true) }
    ensures bad { IfErr result (λ no. represent (pure_spec spec.prepared) (map pure_named_reprs reprs) ≡ false) }
{
    if are_reprs_of(spec.prepared.stms.as_slice(), reprs.as_slice()) {
        Ok(Header { spec, reprs })
    } else {
        Err(HeadNo::HeaderBad)
    }
}

/// Whether each statement stands in headers.
fn all_stand_in_header(stms: &[Stm]) -> bool
    ensures { result ≡ list_all (λ s. in_header (pure_stm s)) stms.now }
{
    stms.iter().all(|stm| stands_in_header(stm))
}

/// Whether a statement stands in headers: it is neither a constraint nor an objective.
fn stands_in_header(stm: &Stm) -> bool
    ensures { result ≡ in_header (pure_stm stm.now) }
{
    match stm {
        Stm::SuchThat(_) => false,
        Stm::Minimise(_) => false,
        Stm::Maximise(_) => false,
        _ => true,
    }
}
