/// Whose values a file gives.
#[derive(Clone, Copy, Debug, PartialEq, Eq)]
pub(crate) enum Side {
    /// Those of the givens.
    Givens,
    /// Those of the finds.
    Finds,
}
