// Numbers in words.
ghost use Rattle.std.specs.Prelude.{◌≡◌};
ghost use Rattle.std.specs.List.{list_all as each};
ghost use Rattle.conjure_cli_words.specs.Commands.{is_digit, number_of};

/// The largest number.
const MOST: u64 = 9223372036854775807;

/// Whether a byte is an ASCII digit.
fn is_digit(byte: u8) -> bool
    ensures { result ≡ is_digit byte }
{
    48 <= byte && byte <= 57
}

/// Whether all bytes are ASCII digits.
fn are_digits(bytes: &[u8]) -> bool
    ensures { result ≡ each is_digit bytes.now }
{
    for byte in bytes {
        if !is_digit(*byte) {
            return false;
        }
    }
    true
}

/// The number that a text writes: one or more digits, of a value below 2^63.
pub(crate) fn number_of(text: &str) -> Option<u64>
    ensures { result ≡ number_of text.now }
{
    if text.is_empty() || !are_digits(text.as_bytes()) {
        return None;
    }
    match text.parse::<u64>() {
        Ok(number) if number <= MOST => Some(number),
        Ok(_) => None,
        Err(_) => None,
    }
}
