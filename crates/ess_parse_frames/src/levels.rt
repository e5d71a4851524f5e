ghost use Rattle.std.specs.Prelude.{◌≡◌};
ghost use Rattle.ess_grammar.specs.Levels.{level, left_least, right_least};

use ess_core::Op2;

/// The level of an operator: a higher one binds tighter.
pub fn level_of(operator: Op2) -> u8
    ensures { result ≡ level operator }
{
    match operator {
        Op2::Pow => 8,
        Op2::Times | Op2::Div | Op2::Mod | Op2::Intersect => 7,
        Op2::Plus | Op2::Minus | Op2::Union => 6,
        Op2::And => 4,
        Op2::Or => 3,
        Op2::Implies => 2,
        Op2::Iff => 1,
        _ => 5,
    }
}

/// The least level of a left operand without brackets.
pub fn least_on_the_left(operator: Op2) -> u8
    ensures { result ≡ left_least operator }
{
    match operator {
        Op2::Pow => 9,
        Op2::Times | Op2::Div | Op2::Mod | Op2::Intersect => 7,
        Op2::Plus | Op2::Minus | Op2::Union => 6,
        Op2::And => 4,
        Op2::Or | Op2::Implies => 3,
        Op2::Iff => 2,
        _ => 6,
    }
}

/// The least level of a right operand without brackets.
pub fn least_on_the_right(operator: Op2) -> u8
    ensures { result ≡ right_least operator }
{
    match operator {
        Op2::Pow | Op2::Times | Op2::Div | Op2::Mod | Op2::Intersect => 8,
        Op2::Plus | Op2::Minus | Op2::Union => 7,
        Op2::And => 5,
        Op2::Or => 4,
        Op2::Implies | Op2::Iff => 2,
        _ => 6,
    }
}
