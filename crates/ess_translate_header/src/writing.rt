//! The lines of a header as they are written.
ghost use Rattle.std.specs.Prelude.{◌≡◌, IfOk};
ghost use Rattle.ess_grammar.specs.HeaderTexts.{IsHeader};
ghost use Rattle.ess_translate_header_laws.specs.Headers.{StandsFirst};
ghost use Rattle.ess_translate_header_laws.specs.WrittenLines.{header_texts, ReadableHeader, AreShallow};
ghost use Rattle.ess_translate_header.specs.Views.{pure_header};

use crate::headers::Header;
use ess_core::{NoMemory, Row, Text};
use ess_translate_header_lines::write_header_lines;
use std::alloc::Global;

/// The lines of a header, each without the `$ ` at its begin in a model: its version, each statement as it is printed, each
/// given and find with its representations, and the end. Where the header is one that can be read, its lines are that header by
/// the rules, and a reader finds it in them where none of them is nested too deeply. `NoMemory` where there is no room for them.
pub fn write_header(alloc: Global, header: &Header) -> Result<Row<Text>, NoMemory>
    ensures lines { IfOk result (λ ls. ls ≡ header_texts (pure_header header.now)) }
    ensures header { ReadableHeader (pure_header header.now) → IfOk result (λ ls. IsHeader (pure_header header.now) ls) }
    ensures found { ReadableHeader (pure_header header.now) → IfOk result (λ ls. AreShallow ls → StandsFirst (pure_header header.now) ls) }
{
    write_header_lines(
        alloc,
        header.spec.spec.stms.as_slice(),
        header.reprs.as_slice(),
    )
}
