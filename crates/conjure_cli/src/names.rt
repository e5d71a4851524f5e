// Which names are found, and which may be spoken of.
ghost use Rattle.std.specs.Prelude.{◌≡◌, List, [], ◌∷◌, ◌++◌, ℕ, IfOk, true};
ghost use Rattle.conjure_cli_laws.specs.SmallGrammar.{fits_after, found_names};
ghost use Rattle.conjure_cli.specs.Reading.{fit_from};
ghost use Rattle.conjure_cli.specs.Lines.{statement, statements, Holds};

use crate::line::Line;
use ess_rows::NoMemory;
use std::alloc::Global;
use std::collections::BTreeSet;

/// Whether the line fits after the names that are known. The name that it finds is known from then on.
fn fits<'a>(known: &mut BTreeSet<&'a [u8]>, line: &Line<'a>) -> Result<bool, NoMemory>
    ensures { IfOk result (λ fits. (names : List (List ℕ)) → Holds known.old names →
        (fits ≡ fits_after names (statement line.now))
        × (fits ≡ true → Holds known.new (names ++ found_names (statement line.now ∷ [])))) }
{
    match line {
        Line::Find { name, .. } => Ok(known.insert(*name)?),
        Line::SuchThat { name, .. } => Ok(known.contains(name)),
    }
}

/// Whether each line fits after the names that are found before it.
pub(crate) fn are_well_named(alloc: Global, lines: &[Line]) -> Result<bool, NoMemory>
    ensures { IfOk result (λ fit. fit ≡ fit_from [] (statements lines.now)) }
{
    let mut known = BTreeSet::new(alloc);
    for line in lines {
        if !fits(&mut known, line)? {
            return Ok(false);
        }
    }
    Ok(true)
}
