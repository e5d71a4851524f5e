//! Laws of plain keys, each the contract of a function that does nothing.

ghost use Rattle.ess_keys_laws.specs.Laws.{PlainKeysKeep, PlainKeysStayRefined};

/// A refined tree in which no bound name hides another one means the same with plain keys.
pub fn plain_keys_keep()
    ensures { PlainKeysKeep }
{}

/// A refined tree stays refined with plain keys.
pub fn plain_keys_stay_refined()
    ensures { PlainKeysStayRefined }
{}
