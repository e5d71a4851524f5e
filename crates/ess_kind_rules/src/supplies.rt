//! The reserved names that rules take.
ghost use Rattle.std.specs.Prelude.{◌≡◌};

use ess_rows::Text;
use ess_rules_sources::OnceNames;

/// What rules take at a place: three names, some for components, and the number of the first name behind these.
#[derive(Clone, Copy)]
pub struct Taken<'a> {
    /// The first name.
    pub one: &'a Text,
    /// The second name.
    pub other: &'a Text,
    /// The third name.
    pub third: &'a Text,
    /// Names of components.
    pub parts: &'a [Text],
    /// The number of the first name behind these.
    pub next: u64,
}

/// The three names.
pub(crate) fn three<'a>(taken: &Taken<'a>) -> OnceNames<'a>
    ensures { result ≡ record { one = taken.now.one; other = taken.now.other; third = taken.now.third } }
{
    OnceNames {
        one: taken.one,
        other: taken.other,
        third: taken.third,
    }
}
