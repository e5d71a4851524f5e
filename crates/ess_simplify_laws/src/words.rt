/// What becomes of a connective on two operands.
#[derive(Clone, Copy, Debug, PartialEq, Eq)]
pub enum Outcome {
    /// It stays.
    Stays,
    /// The first operand alone is left.
    First,
    /// The second operand alone is left.
    Second,
    /// The first operand is left, under `!`.
    FirstDenied,
    /// The second operand is left, under `!`.
    SecondDenied,
    /// A truth value is left.
    Says(bool),
}
