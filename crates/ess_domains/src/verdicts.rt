use ess_core::Text;

/// What a parameter fails first, by a name or by the number of a statement, or that it fits. A number above 2^32 - 1 is
/// given as 2^32 - 1.
#[derive(Debug, Drop)]
pub enum ParamVerdict {
    /// It is a parameter of the specification.
    Fits,
    /// A given has no letting.
    Missing(Text),
    /// A letting names no given, or one that has a letting before, or gives a type a value's name that can't be new.
    Extra(Text),
    /// A bound, an attribute value or a type size of the statement has no meaning.
    NoMeaning(u32),
    /// An attribute value or a type size of the statement is below 0.
    BelowZero(u32),
    /// The value of the given that the statement declares is no member of its domain.
    NotMember(u32),
    /// The `where` of the statement isn't true.
    Needs(u32),
}

/// What a solution fails first, by a name or by the number of a statement, or that it is one. A number above 2^32 - 1 is
/// given as 2^32 - 1.
#[derive(Debug, Drop)]
pub enum Verdict {
    /// It is a solution.
    Valid,
    /// A find has no letting.
    Missing(Text),
    /// A letting names no find, or one that has a letting before.
    Extra(Text),
    /// The value of a find is no member of its domain.
    NotMember(Text),
    /// The constraint of the statement isn't true.
    False(u32),
    /// The objective has no value.
    NoObjective,
}
