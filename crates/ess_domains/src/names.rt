ghost use Rattle.std.specs.Prelude.{◌≡◌};
ghost use Rattle.std.specs.List.{list_any};
ghost use Rattle.ess_semantics.specs.Names.{is_among as stands_among};
ghost use Rattle.ess_semantics.specs.Order.{same_text};

use ess_core::Text;
use std::cmp::Ordering;

/// Whether two names are equal.
pub(crate) fn same_name(a: &Text, b: &Text) -> bool
    ensures { result ≡ same_text a.now b.now }
{
    a.cmp(b) == Ordering::Equal
}

/// Whether a name stands among these.
pub(crate) fn is_among(names: &[Text], name: &Text) -> bool
    ensures { result ≡ stands_among names.now name.now }
{
    names.iter().any(|other| same_name(other, name))
}

/// Whether a name is one of these words.
pub(crate) fn is_word(words: &[&str], name: &Text) -> bool
    ensures { result ≡ list_any (λ word. same_text word.now name.now) words.now }
{
    words.iter().any(|word| word.as_bytes().cmp(name.as_bytes()) == Ordering::Equal)
}
