ghost use Rattle.std.specs.Prelude.{◌≡◌, ◌≢◌, ◌++◌, ◌+◌, IfOk, IfErr, map, min, option_map, true};
ghost use Rattle.std.specs.List.{list_any};
ghost use Rattle.ess_semantics.specs.Names.{Names};
ghost use Rattle.ess_semantics.specs.Tables as pure;
ghost use Rattle.ess_semantics.specs.ModelTrees.{Model, all_decls};
ghost use Rattle.ess_semantics.specs.LargeModels.{ex_is_large};
ghost use Rattle.ess_semantics.specs.Satisfaction.{first_false as first_false_of};
ghost use Rattle.ess_grammar.specs.Models.{Scope};
ghost use Rattle.eprime_tree.specs.Views.{pure_ex};
ghost use Rattle.eprime_eval_kinds.specs.Shapes.{shape_of};
ghost use Rattle.eprime_eval.specs.KnownTables.{IsKnown};
ghost use Rattle.eprime_eval.specs.UnderTables.{IsUnder};
ghost use Rattle.eprime_eval.specs.declared.closing.EvalNo.TheVariants.{Undefined, Big};

use eprime_eval::{EvalNo, Under, truth_in};
use eprime_tree::PEx;
use std::alloc::Global;

/// The number of the first constraint that isn't true, counted from 1 and kept at 2^32 - 1, if there is one. `Big` where a number
/// on the way lies outside 64 bits, `NoMemory` where there is no room to tell.
pub(crate) fn first_false(
    alloc: Global,
    rules: &[PEx],
    under: &Under,
) -> Result<Option<u32>, EvalNo>
    requires known { IsKnown under.now.known }
    ensures ok { IfOk result (λ o. (E : Model) (q c : Names pure.Table) (s : Scope) → IsUnder under.now (map shape_of (all_decls E)) (q ++ c)
        → option_map (λ k. min k 4294967295) (first_false_of E q c 1 (map (pure_ex s) rules.now)) ≡ o) }
    ensures big { result ≡ Err Big → (E : Model) (q c : Names pure.Table) (s : Scope) → IsUnder under.now (map shape_of (all_decls E)) (q ++ c)
        → list_any (ex_is_large (all_decls E) (q ++ c)) (map (pure_ex s) rules.now) ≡ true }
    ensures defined { IfErr result (λ no. no ≢ Undefined) }
{
    for (place, rule) in rules.iter().enumerate() {
        if !truth_in(alloc, rule, under)? {
            return Ok(Some(number_of(place)));
        }
    }
    Ok(None)
}

/// The number of what stands at a place, counted from 1 and kept at 2^32 - 1.
fn number_of(place: usize) -> u32
    ensures { result ≡ min (1 + place) 4294967295 }
{
    if place < 4294967295 {
        place as u32 + 1
    } else {
        4294967295
    }
}
