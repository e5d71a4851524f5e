ghost use Rattle.std.specs.Prelude.{◌≡◌, [], ◌∷◌, ◌++◌, IfOk, reverse};
ghost use Rattle.ess_grammar.specs.Models.{names_of_gens};
ghost use Rattle.ess_core.specs.TreeViews.{pure_ex as read_ex, pure_gen as read_gen, pure_gens as read_gens};
ghost use Rattle.std.specs.Option.{option_copied};
ghost use Rattle.eprime_read_convert.specs.Converted.{name_in, names_of_item};

use ess_bound_names::BoundNames;
use ess_core::{Ex, Gen, Pat};
use ess_rows::{NoMemory, Text};
use std::alloc::Global;

/// The name that an expression is, where it is one.
pub fn name_of(ex: &Ex) -> Option<&Text>
    ensures { option_copied result ≡ name_in (read_ex ex.now) }
{
    match ex {
        Ex::Name(name) => Some(name),
        _ => None,
    }
}

/// These names, and behind them the one that an item binds. `NoMemory` where there is no room for it.
#[tactic(auto, using(crate::proofs::NameLaws::one_newer))]
pub fn with_name(alloc: Global, part: &Gen, names: BoundNames) -> Result<BoundNames, NoMemory>
    ensures { IfOk result (λ ns. reverse ns ≡ names_of_item (read_gen part.now) ++ reverse names) }
{
    match part {
        Gen::Over(Pat::Name(name), _) | Gen::From(Pat::Name(name), _) => names.with(alloc, name),
        _ => Ok(names),
    }
}

/// These names, and behind them the one that a generator over a domain binds.
#[tactic(auto, using(crate::proofs::NameLaws::one_newer))]
fn with_name_over(alloc: Global, part: &Gen, names: BoundNames) -> Result<BoundNames, NoMemory>
    ensures { IfOk result (λ ns. reverse ns ≡ names_of_gens (read_gens (part.now ∷ [])) ++ reverse names) }
{
    match part {
        Gen::Over(Pat::Name(name), _) => names.with(alloc, name),
        _ => Ok(names),
    }
}

/// The names that generators over domains bind, the first one last. `NoMemory` where there is no room for them.
#[tactic(auto, using(crate::proofs::NameLaws::names_newer))]
pub fn names_of(alloc: Global, gens: &[Gen]) -> Result<BoundNames, NoMemory>
    ensures { IfOk result (λ ns. reverse ns ≡ names_of_gens (read_gens gens.now)) }
{
    let mut names = BoundNames::new(alloc);
    let mut left = gens.len();
    while left > 0 {
        left -= 1;
        names = with_name_over(alloc, &gens[left], names)?;
    }
    Ok(names)
}
