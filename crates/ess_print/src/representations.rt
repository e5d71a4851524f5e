ghost use Rattle.std.specs.Prelude.{◌≡◌, IfOk, OnOk, map};
ghost use Rattle.ess_core.specs.TreeViews.{pure_repr};
ghost use Rattle.ess_grammar.specs.Tokens.{lexed, first_outside};
ghost use Rattle.ess_grammar.specs.Texts.{ReadsRepresentation};
ghost use Rattle.ess_semantics.specs.Choice.{reprs_of};
ghost use Rattle.ess_print_laws.specs.Texts.{repr_text};
ghost use Rattle.ess_print_laws.specs.Statements.{repr_pieces, children, children_pieces};
ghost use Rattle.ess_print.specs.Written.{Puts};

use crate::parts::put_comma;
use crate::words::kind_name;
use ess_core::{NoMemory, Repr, Text};
use std::alloc::Global;

/// The text of a representation: the name of its kind, and its children in square brackets where it has any, as the Conjure
/// manual writes them. The text is derived by the grammar's rules for exactly that representation, and no word of it stands
/// outside the subset. `NoMemory` where there is no room for the text.
pub fn print_repr(alloc: Global, repr: &Repr) -> Result<Text, NoMemory>
    ensures text { IfOk result (λ t. t ≡ repr_text (pure_repr repr.now)) }
    ensures representation { IfOk result (λ t. ReadsRepresentation t (pure_repr repr.now)) }
    ensures subset { IfOk result (λ t. first_outside (lexed t) ≡ None) }
{
    let mut out = Text::new(alloc);
    put_repr(&mut out, repr)?;
    Ok(out)
}

/// Writes a representation.
#[cycle(put_repr)]
fn put_repr(out: &mut Text, repr: &Repr) -> Result<(), NoMemory>
    ensures { OnOk result (Puts out.old out.new (repr_pieces (pure_repr repr.now))) }
{
    out.push_str(kind_name(repr.kind))?;
    put_children(out, repr.children.as_slice())
}

/// Writes representations in square brackets, if there are any.
#[cycle(put_repr)]
fn put_children(out: &mut Text, reprs: &[Repr]) -> Result<(), NoMemory>
    ensures { OnOk result (Puts out.old out.new (children_pieces (children (reprs_of (map pure_repr reprs.now))))) }
{
    if reprs.is_empty() {
        return Ok(());
    }
    out.push_str("[")?;
    for (index, repr) in reprs.iter().enumerate() {
        put_comma(out, index)?;
        put_repr(out, repr)?;
    }
    out.push_str("]")
}
