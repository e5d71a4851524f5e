ghost use Rattle.std.specs.Prelude.{OnOk, map};
ghost use Rattle.ess_core.specs.TreeViews.{pure_pat, pats_of};
ghost use Rattle.ess_print_laws.specs.Parts.{commas, pat_pieces, pat_printers};
ghost use Rattle.ess_print.specs.Written.{Puts};

use crate::parts::put_comma;
use ess_core::{NoMemory, Pat, Text};

/// Writes a pattern.
#[cycle(put_pat)]
pub(crate) fn put_pat(out: &mut Text, pat: &Pat) -> Result<(), NoMemory>
    ensures { OnOk result (Puts out.old out.new (pat_pieces (pure_pat pat.now))) }
{
    match pat {
        Pat::Name(name) => out.push_str(name.as_str()),
        Pat::Tuple(pats) => {
            out.push_str("(")?;
            put_pats(out, pats.as_slice())?;
            out.push_str(")")
        }
    }
}

/// Writes patterns with commas between.
#[cycle(put_pat)]
fn put_pats(out: &mut Text, pats: &[Pat]) -> Result<(), NoMemory>
    ensures { OnOk result (Puts out.old out.new (commas (pat_printers (pats_of (map pure_pat pats.now))))) }
{
    for (index, pat) in pats.iter().enumerate() {
        put_comma(out, index)?;
        put_pat(out, pat)?;
    }
    Ok(())
}
