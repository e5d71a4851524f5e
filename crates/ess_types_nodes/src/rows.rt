//! The types of several parts, where each has one, and pairs beside their types.
ghost use Rattle.std.specs.Prelude.{◌≡◌, false, [], ◌∷◌, map, option_map, IfOk};
ghost use Rattle.ess_semantics.specs.Names.{Names};
ghost use Rattle.ess_semantics.specs.Types.{Ty as PureTy};
ghost use Rattle.ess_semantics.specs.Trees.{tuple_literal, node_ex, more_exs, no_exs};
ghost use Rattle.ess_semantics.specs.Typing.{type_of};
ghost use Rattle.ess_core.specs.TypeViews.{pure_ty};
ghost use Rattle.ess_core.specs.TreeViews.{pure_ex, pure_pair_ex};
ghost use Rattle.ess_types_nodes.specs.Parts.{joined};

use crate::types::type_of_two_parts;
use ess_core::{Boxed, Ex, NoMemory, PairEx, Row, Ty};
use std::alloc::Global;

/// The types of parts, and that of one more: nothing where one of them has none. `NoMemory` where there is no room for it.
#[tactic(auto, using(crate::proofs::PartTypes::one_more))]
pub fn with_type(tys: Option<Row<Ty>>, ty: Option<Boxed<Ty>>) -> Result<Option<Row<Ty>>, NoMemory>
    ensures { IfOk result (λ o. option_map (map pure_ty) o
        ≡ joined (option_map (map pure_ty) tys) (option_map (λ t. t ∷ []) (option_map pure_ty ty))) }
{
    match (tys, ty) {
        (Some(tys), Some(ty)) => {
            let mut tys = tys;
            tys.push(ty.into_inner())?;
            Ok(Some(tys))
        }
        (_, _) => Ok(None),
    }
}

/// A pair of a function literal, which is a tuple: its type is right under any names where those of its parts are. `NoMemory`
/// where there is no room for it.
#[tactic(auto, using(ess_core::proofs::PartEquations::pure_pair_ex_is, crate::proofs::NodeTypes::pair_typed))]
pub fn pair_node(
    alloc: Global,
    from: (Boxed<Ex>, Option<Boxed<Ty>>),
    to: (Boxed<Ex>, Option<Boxed<Ty>>),
) -> Result<(Boxed<PairEx>, Option<Boxed<Ty>>), NoMemory>
    ensures tree { IfOk result (λ r. pure_pair_ex r.0
        ≡ node_ex false tuple_literal (more_exs (pure_ex from.0) (more_exs (pure_ex to.0) no_exs))) }
    ensures types { IfOk result (λ r. (g : Names PureTy) → option_map pure_ty from.1 ≡ type_of (pure_ex from.0) g
        → option_map pure_ty to.1 ≡ type_of (pure_ex to.0) g
        → option_map pure_ty r.1 ≡ type_of (pure_pair_ex r.0) g) }
{
    let (from, first) = from;
    let (to, second) = to;
    let ty = type_of_two_parts(alloc, first, second)?;
    let (from, to) = (from.into_inner(), to.into_inner());
    let pair = Boxed::new(alloc, PairEx { from, to })?;
    Ok((pair, ty))
}
