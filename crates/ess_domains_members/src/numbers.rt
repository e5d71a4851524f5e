ghost use Rattle.std.specs.Prelude.{◌≡◌, pos, int_le};
ghost use Rattle.ess_semantics.specs.Attributes.{size_holds as sizes_hold};

use ess_core::Key;

/// Whether a size attribute with this number allows so many members. Any other attribute allows all.
pub fn size_holds(key: Key, number: i64, size: usize) -> bool
    ensures { result ≡ sizes_hold key number size }
{
    match key {
        Key::Size => is_at_most(number, size) && is_at_least(number, size),
        Key::MinSize => is_at_most(number, size),
        Key::MaxSize => is_at_least(number, size),
        _ => true,
    }
}

/// Whether a number is at most a size.
pub fn is_at_most(number: i64, size: usize) -> bool
    ensures { result ≡ int_le number (pos size) }
{
    number as i128 <= size as i128
}

/// Whether a number is at least a size.
pub fn is_at_least(number: i64, size: usize) -> bool
    ensures { result ≡ int_le (pos size) number }
{
    size as i128 <= number as i128
}
