use ess_rows::Row;
use ess_semantics::words::ReprKind;

/// A representation: a way to keep a value in tables of cells, and ways to keep its parts.
#[derive(Drop, PartialEq)]
pub struct Repr {
    /// How the value itself is kept.
    pub kind: ReprKind,
    /// How its parts are kept, one for each child of the kind.
    pub children: Row<Repr>,
}
