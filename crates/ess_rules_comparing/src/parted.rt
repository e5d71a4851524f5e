//! Which comparisons the rule of `!=` is for: those of compound values. Of scalars models say `!=` themselves.
ghost use Rattle.std.specs.Prelude.{◌≡◌, IfOk, option_map};
ghost use Rattle.std.specs.Option.{option_copied};
ghost use Rattle.ess_core.specs.TypeViews.{pure_ty};
ghost use Rattle.ess_core_nodes.specs.NodeViews.{pure_node};
ghost use Rattle.ess_node_types.specs.TypedNames.{pure_names};
ghost use Rattle.ess_rules_laws.specs.Progress.{is_parted};
ghost use Rattle.ess_refine_laws.specs.AllRules.{compares_compound};

use crate::fields::are_fields;
use ess_core::{Op2, Ty};
use ess_core_nodes::Node;
use ess_node_types::{NameTypes, type_of};
use ess_rows::NoMemory;
use ess_rules_forms::{seen_type, truth_pair};
use std::alloc::Global;

/// Whether the root says that compound values differ: `a != b` of tuples, records with fields that differ, matrices, and containers.
/// `NoMemory` where there is no room for the types.
#[tactic(auto, using(crate::proofs::PairRules::compares_of_pair))]
pub fn compares_compound(alloc: Global, names: &NameTypes, node: &Node) -> Result<bool, NoMemory>
    ensures { IfOk result (λ t. t ≡ compares_compound (pure_names names.now) (pure_node node.now)) }
{
    match truth_pair(node) {
        Some((Op2::Ne, (a, b))) => {
            let first = type_of(alloc, a, names)?;
            let second = type_of(alloc, b, names)?;
            Ok(is_parted(seen_type(&first)) && is_parted(seen_type(&second)))
        }
        _ => Ok(false),
    }
}

/// Whether it is a type of compound values.
#[tactic(auto, using(ess_core::proofs::TypeEquations::pure_rec))]
fn is_parted(ty: Option<&Ty>) -> bool
    ensures { result ≡ is_parted (option_map pure_ty (option_copied ty.entry)) }
{
    match ty {
        None => false,
        Some(ty) => match ty {
            Ty::Any => false,
            Ty::Bool => false,
            Ty::Int => false,
            Ty::Named(_) => false,
            Ty::Rec(fields) => are_fields(fields.as_slice(), fields.as_slice()),
            _ => true,
        },
    }
}
