ghost use Rattle.std.specs.Prelude.{◌≡◌};
ghost use Rattle.ess_grammar.specs.Words.{Text};
ghost use Rattle.ess_grammar.specs.Kinds.{token};
ghost use Rattle.ess_parse_frames.specs.Roles.{operator_in, function_in};

use ess_core::{Fun, Op2};
use ess_grammar::Kind;

/// The binary operator that a token of this kind is, if it is one.
pub fn operator_of(kind: Kind) -> Option<Op2>
    ensures { (bytes : Text) → result ≡ operator_in (token kind bytes) }
{
    Some(match kind {
        Kind::In => Op2::Member,
        Kind::Subset => Op2::Subset,
        Kind::SubsetEq => Op2::SubsetEq,
        Kind::Supset => Op2::Supset,
        Kind::SupsetEq => Op2::SupsetEq,
        Kind::Union => Op2::Union,
        Kind::Intersect => Op2::Intersect,
        Kind::Equal => Op2::Eq,
        Kind::NotEqual => Op2::Ne,
        Kind::Less => Op2::Lt,
        Kind::LessEqual => Op2::Le,
        Kind::Greater => Op2::Gt,
        Kind::GreaterEqual => Op2::Ge,
        Kind::Plus => Op2::Plus,
        Kind::Minus => Op2::Minus,
        Kind::Star => Op2::Times,
        Kind::Slash => Op2::Div,
        Kind::Percent => Op2::Mod,
        Kind::StarStar => Op2::Pow,
        Kind::Conjunction => Op2::And,
        Kind::Disjunction => Op2::Or,
        Kind::Implies => Op2::Implies,
        Kind::Iff => Op2::Iff,
        Kind::LexLess => Op2::LexLt,
        Kind::LexLessEqual => Op2::LexLe,
        Kind::LexGreater => Op2::LexGt,
        Kind::LexGreaterEqual => Op2::LexGe,
        _ => return None,
    })
}

/// The function word that a token of this kind is, if it is one.
pub fn function_of(kind: Kind) -> Option<Fun>
    ensures { (bytes : Text) → result ≡ function_in (token kind bytes) }
{
    Some(match kind {
        Kind::Sum => Fun::Sum,
        Kind::Product => Fun::Product,
        Kind::And => Fun::And,
        Kind::Or => Fun::Or,
        Kind::Min => Fun::Min,
        Kind::Max => Fun::Max,
        Kind::AllDiff => Fun::AllDiff,
        Kind::ToInt => Fun::ToInt,
        Kind::Image => Fun::Image,
        Kind::PreImage => Fun::PreImage,
        Kind::Defined => Fun::Defined,
        Kind::Range => Fun::Range,
        Kind::ToSet => Fun::ToSet,
        Kind::ToMSet => Fun::ToMSet,
        Kind::ToRelation => Fun::ToRelation,
        Kind::Freq => Fun::Freq,
        Kind::Parts => Fun::Parts,
        Kind::Party => Fun::Party,
        Kind::Participants => Fun::Participants,
        Kind::Together => Fun::Together,
        _ => return None,
    })
}
