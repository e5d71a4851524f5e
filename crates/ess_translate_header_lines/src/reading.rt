//! The lines of a header as statements and representations.
ghost use Rattle.std.specs.Prelude.{◌≡◌, IfOk, MatchOption, map};
ghost use Rattle.ess_core.specs.StatementViews.{pure_stm};
ghost use Rattle.ess_parse.specs.NamedReprViews.{pure_named_reprs};
ghost use Rattle.ess_translate_header_laws.specs.Reading.{AreLinesOf, AreNoLines};

use crate::lines::{HeadLine, line_of};
use ess_core::{NoMemory, Row, Stm, Text};
use ess_parse::NamedReprs;
use std::alloc::Global;

/// The statements of a header, and the representations of names, each in order.
#[derive(Drop)]
pub struct HeaderLines {
    pub statements: Row<Stm>,
    pub reprs: Row<NamedReprs>,
}

/// Which lines of a header are wanted.
#[derive(Clone, Copy)]
enum Wanted {
    /// Statements, and then the rest.
    Statements,
    /// Representations, to the end.
    Representations,
}

/// The statements and representations of the lines behind the first one, up to the end of the header. None where they are
/// no header.
pub(crate) fn read_lines(alloc: Global, lines: &[Text]) -> Result<Option<HeaderLines>, NoMemory>
    ensures { IfOk result (λ o. MatchOption o (AreNoLines lines.now)
        (λ l. AreLinesOf (map pure_stm l.statements) (map pure_named_reprs l.reprs) lines.now)) }
{
    let mut statements = Row::new(alloc);
    let mut reprs = Row::new(alloc);
    let mut wanted = Wanted::Statements;
    for line in lines {
        match line_of(alloc, line)? {
            HeadLine::Statement(stm) => match wanted {
                Wanted::Statements => statements.push(stm.into_inner())?,
                Wanted::Representations => return Ok(None),
            },
            HeadLine::Representations(named) => {
                reprs.push(named)?;
                wanted = Wanted::Representations;
            }
            HeadLine::End => return Ok(Some(HeaderLines { statements, reprs })),
            HeadLine::Other => return Ok(None),
        }
    }
    Ok(None)
}
