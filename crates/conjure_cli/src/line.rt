// What a line of a text says.

/// What a line says. A name is its part of the text.
#[derive(Clone, Copy)]
pub enum Line<'a> {
    /// A set of numbers from `low` to `high` is to be found.
    Find {
        /// Its name.
        name: &'a [u8],
        /// The lowest number that may be a member.
        low: u64,
        /// The highest.
        high: u64,
    },
    /// A number is a member of a set.
    SuchThat {
        /// The number.
        number: u64,
        /// The set's name.
        name: &'a [u8],
    },
}
