ghost use Rattle.std.specs.Prelude.{◌≡◌, [], ◌∷◌, List, map, is_some, option_map};
ghost use Rattle.ess_semantics.specs.Values.{a_matrix};
ghost use Rattle.ess_semantics.specs.Types.{Ty, join, int_ty, compound2};
ghost use Rattle.ess_semantics.specs.OperatorTypes.{type_of_op, type_of_binary, type_of_word1};
ghost use Rattle.ess_semantics.specs.ModelMeaning.{kind_of_op, is_int_kind};
ghost use Rattle.ess_semantics.specs.Trees.{binary, word};
ghost use Rattle.eprime_tree.specs.Views.{pure_op1, pure_op2, pure_fun};
ghost use Rattle.eprime_eval_kinds.specs.KindedViews.{pure_kind};

use crate::tree::Kind;
use eprime_tree::{PFun, POp1, POp2};

impl Kind {
    /// The kind with which both agree.
    pub(crate) fn joined(self, other: Kind) -> Option<Kind>
        ensures { option_map pure_kind result ≡ join (pure_kind self) (pure_kind other) }
    {
        match (self, other) {
            (Kind::Any, kind) => Some(kind),
            (kind, Kind::Any) => Some(kind),
            (Kind::Bool, Kind::Bool) => Some(Kind::Bool),
            (Kind::Int, Kind::Int) => Some(Kind::Int),
            (_, _) => None,
        }
    }

    /// Whether what is of this kind fits where a number is asked.
    pub(crate) fn fits_int(self) -> bool
        ensures { result ≡ is_int_kind (pure_kind self) }
    {
        match self {
            Kind::Any => true,
            Kind::Bool => false,
            Kind::Int => true,
        }
    }
}

/// Whether an operator takes an operand of this kind.
pub(crate) fn takes_one(op: POp1, kind: Kind) -> bool
    ensures { result ≡ is_some (type_of_op (pure_op1 op) (pure_kind kind ∷ [])) }
{
    match op {
        POp1::Minus | POp1::Bar => match kind {
            Kind::Any | Kind::Int => true,
            Kind::Bool => false,
        },
        POp1::Not | POp1::ToInt => match kind {
            Kind::Any | Kind::Bool => true,
            Kind::Int => false,
        },
    }
}

/// Whether an operator takes operands of these kinds.
pub(crate) fn takes_two(op: POp2, a: Kind, b: Kind) -> bool
    ensures { result ≡ is_some (type_of_binary (pure_op2 op) (pure_kind a) (pure_kind b)) }
{
    match a.joined(b) {
        Some(kind) => takes_both(op, kind),
        None => false,
    }
}

/// Whether an operator takes operands that agree with this kind.
fn takes_both(op: POp2, kind: Kind) -> bool
    ensures { result ≡ is_some (type_of_binary (pure_op2 op) (pure_kind kind) (pure_kind kind)) }
{
    match op {
        POp2::Eq | POp2::Ne | POp2::Lt | POp2::Le | POp2::Gt | POp2::Ge => true,
        POp2::And | POp2::Or | POp2::Implies | POp2::Iff => match kind {
            Kind::Any | Kind::Bool => true,
            Kind::Int => false,
        },
        POp2::LexLt | POp2::LexLe | POp2::LexGt | POp2::LexGe => match kind {
            Kind::Any => true,
            Kind::Bool | Kind::Int => false,
        },
        POp2::Pow | POp2::Times | POp2::Div | POp2::Mod | POp2::Plus | POp2::Minus => match kind {
            Kind::Any | Kind::Int => true,
            Kind::Bool => false,
        },
    }
}

/// Whether a word takes a list whose items are of this kind.
pub(crate) fn takes_list(word: PFun, item: Kind) -> bool
    ensures { (i : Ty) → is_some (type_of_word1 (pure_fun word) (compound2 a_matrix i (pure_kind item))) ≡ result }
{
    match word {
        PFun::And | PFun::Or => match item {
            Kind::Any | Kind::Bool => true,
            Kind::Int => false,
        },
        PFun::Sum | PFun::Product | PFun::Min | PFun::Max => match item {
            Kind::Any | Kind::Int => true,
            Kind::Bool => false,
        },
        PFun::AllDiff => true,
    }
}

/// Whether an operator compares lists.
pub(crate) fn compares_lists(op: POp2) -> bool
    ensures { (i : Kind) (e : Kind) → is_some (type_of_binary (pure_op2 op) (compound2 a_matrix (pure_kind i) (pure_kind e)) (compound2 a_matrix (pure_kind i) (pure_kind e))) ≡ result }
{
    match op {
        POp2::Eq | POp2::Ne => true,
        POp2::LexLt | POp2::LexLe | POp2::LexGt | POp2::LexGe => true,
        POp2::Lt | POp2::Le | POp2::Gt | POp2::Ge => false,
        POp2::And | POp2::Or | POp2::Implies | POp2::Iff => false,
        POp2::Pow | POp2::Times | POp2::Div | POp2::Mod | POp2::Plus | POp2::Minus => false,
    }
}

/// The kind that an operator with one operand gives.
pub(crate) fn kind_of_one(op: POp1) -> Kind
    ensures { (t : Ty) → kind_of_op (pure_op1 op) t ≡ pure_kind result }
{
    match op {
        POp1::Not => Kind::Bool,
        POp1::Minus | POp1::Bar | POp1::ToInt => Kind::Int,
    }
}

/// The kind that an operator with two operands gives.
pub(crate) fn kind_of_two(op: POp2) -> Kind
    ensures { (t : Ty) → kind_of_op (binary (pure_op2 op)) t ≡ pure_kind result }
{
    match op {
        POp2::Pow | POp2::Times | POp2::Div | POp2::Mod | POp2::Plus | POp2::Minus => Kind::Int,
        _ => Kind::Bool,
    }
}

/// The kind that a word over a list gives.
pub(crate) fn kind_of_fold(fun: PFun) -> Kind
    ensures { (t : Ty) → kind_of_op (word (pure_fun fun)) t ≡ pure_kind result }
{
    match fun {
        PFun::And | PFun::Or | PFun::AllDiff => Kind::Bool,
        PFun::Sum | PFun::Product | PFun::Min | PFun::Max => Kind::Int,
    }
}
