ghost use Rattle.std.specs.Prelude.{◌≡◌, IfOk};
ghost use Rattle.std.specs.Str.{IsAscii};
ghost use Rattle.ess_grammar.specs.Kinds.{token};

use ess_grammar::Kind;
use ess_rows::{NoMemory, Text};
use std::alloc::Global;

/// The bytes of a token as a name, where it is one. `NoMemory` where there is no room for them.
pub(crate) fn name_of(alloc: Global, kind: Kind, text: &[u8]) -> Result<Text, NoMemory>
    requires { IsAscii text.now }
    ensures same { IfOk result (λ name. token kind name ≡ token kind text.now) }
    ensures ascii { IfOk result (λ name. IsAscii name) }
{
    match kind {
        Kind::Name => Text::from_ascii(alloc, text),
        _ => Ok(Text::new(alloc)),
    }
}
