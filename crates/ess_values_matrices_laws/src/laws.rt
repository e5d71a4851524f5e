//! Laws of equal matrices and values, each the contract of a function that does nothing.

ghost use Rattle.ess_values_matrices_laws.specs.MatricesKeepValues.{MatricesKeepValues};

/// The rule of `=` of matrices over two index domains keeps at its root that each part of the tree has a value wherever its context holds,
/// but for numbers in natural places, where it has what it counts on and the index domains have values.
pub fn matrices_keep_values()
    ensures { MatricesKeepValues }
{}
