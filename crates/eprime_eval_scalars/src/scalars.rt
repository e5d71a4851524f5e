ghost use Rattle.std.specs.Prelude.{◌≡◌};
ghost use Rattle.ess_semantics.specs.Operators.{number_in as the_number, truth_in as the_truth};
ghost use Rattle.eprime_eval_scalars.specs.ScalarViews.{pure_scalar};

/// A value of a model's expression that isn't a list.
#[derive(Clone, Copy, Debug, PartialEq, Eq)]
pub enum Scalar {
    /// A whole number.
    Num(i64),
    /// A truth value.
    Truth(bool),
}

/// The whole number that an operator reads: 0 for a truth value.
pub fn number_in(scalar: Scalar) -> i64
    ensures { result ≡ the_number (pure_scalar scalar) }
{
    match scalar {
        Scalar::Num(number) => number,
        Scalar::Truth(_) => 0,
    }
}

/// The truth value that an operator reads: false for a number.
pub fn truth_in(scalar: Scalar) -> bool
    ensures { result ≡ the_truth (pure_scalar scalar) }
{
    match scalar {
        Scalar::Num(_) => false,
        Scalar::Truth(truth) => truth,
    }
}
