//! The reserved names that the rules of items take.
use ess_rows::Text;

/// What the rules take at a place: a name for the item, one for what a source picks, one for members that are counted, and some for what
/// is picked within and for generators.
#[derive(Clone, Copy)]
pub struct ItemNames<'a> {
    /// The name of the item.
    pub item: &'a Text,
    /// The name of what a source picks.
    pub other: &'a Text,
    /// The name of members that are counted.
    pub counted: &'a Text,
    /// The names of what is picked within, and behind these of generators.
    pub parts: &'a [Text],
}
