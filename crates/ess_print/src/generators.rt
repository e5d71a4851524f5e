ghost use Rattle.std.specs.Prelude.{◌≡◌, OnOk, drop};
ghost use Rattle.ess_core.specs.TreeViews.{pure_gens, pure_gen};
ghost use Rattle.ess_print_laws.specs.Brackets.{starts_generator};
ghost use Rattle.ess_print_laws.specs.Expressions.{gens_pieces};
ghost use Rattle.ess_print.specs.Written.{Puts, item_pieces};

use crate::brackets::is_pattern;
use crate::domains::put_dom;
use crate::expressions::{put_bracketed, put_ex};
use crate::parts::put_comma;
use crate::patterns::put_pat;
use ess_core::{Gen, NoMemory, Text};

/// Writes generators and conditions with commas between.
#[cycle(put)]
pub(crate) fn put_gens(out: &mut Text, gens: &[Gen]) -> Result<(), NoMemory>
    ensures { OnOk result (Puts out.old out.new (gens_pieces (pure_gens gens.now))) }
{
    for (index, item) in gens.iter().enumerate() {
        put_comma(out, index)?;
        put_gen(out, item, is_generator_at(gens, index + 1))?;
    }
    Ok(())
}

/// Does a generator stand at the index?
fn is_generator_at(gens: &[Gen], index: usize) -> bool
    ensures { result ≡ starts_generator (pure_gens (drop index gens.now)) }
{
    matches!(gens.get(index), Some(Gen::Over(_, _) | Gen::From(_, _)))
}

/// Writes a generator or a condition. A condition that is printed as a pattern stands in brackets before a generator, of
/// whose patterns it would be one.
#[cycle(put)]
fn put_gen(out: &mut Text, item: &Gen, before_generator: bool) -> Result<(), NoMemory>
    ensures { OnOk result (Puts out.old out.new (item_pieces before_generator (pure_gen item.now))) }
{
    match item {
        Gen::Over(pat, dom) => {
            put_pat(out, pat)?;
            out.push_str(" : ")?;
            put_dom(out, dom)
        }
        Gen::From(pat, ex) => {
            put_pat(out, pat)?;
            out.push_str(" <- ")?;
            put_ex(out, ex)
        }
        Gen::If(ex) => put_bracketed(out, before_generator && is_pattern(ex), ex),
    }
}
