ghost use Rattle.std.specs.Prelude.{◌≡◌, ◌≤◌, ◌<◌, ◌^◌, length, pos, MatchOption};
ghost use Rattle.std.specs.List.{prefix_len};
ghost use Rattle.ess_grammar.specs.Tokens.{is_digit, is_letter, is_name_byte, is_white, value_of, begins_with_name_byte};

/// Is the byte a letter of ASCII or `_`?
pub(crate) fn is_letter(byte: u8) -> bool
    ensures { result ≡ is_letter byte }
{
    byte.is_ascii_alphabetic() || byte == b'_'
}

/// May the byte stand in a name, behind the first?
pub(crate) fn is_name_byte(byte: u8) -> bool
    ensures { result ≡ is_name_byte byte }
{
    is_letter(byte) || byte.is_ascii_digit()
}

/// Is the byte white space?
pub(crate) fn is_white(byte: u8) -> bool
    ensures { result ≡ is_white byte }
{
    byte == b' ' || byte == b'\t' || byte == b'\r' || byte == b'\n'
}

/// Does the text begin with a byte that a name may go on with?
pub(crate) fn begins_with_name_byte(text: &[u8]) -> bool
    ensures { result ≡ begins_with_name_byte text.now }
{
    match text.first() {
        Some(byte) => is_name_byte(*byte),
        None => false,
    }
}

/// How many bytes of a name the text begins with.
pub(crate) fn name_len(text: &[u8]) -> usize
    ensures { result ≡ prefix_len is_name_byte text.now }
{
    text.iter().take_while(|byte| is_name_byte(**byte)).count()
}

/// How many digits the text begins with.
pub(crate) fn digits_len(text: &[u8]) -> usize
    ensures { result ≡ prefix_len is_digit text.now }
{
    text.iter().take_while(|byte| byte.is_ascii_digit()).count()
}

/// The value of some digits, or None where it is above 2^63 - 1.
pub(crate) fn number(digits: &[u8]) -> Option<i64>
    ensures { MatchOption result (2 ^ 63 ≤ value_of digits.now) (λ n. (n ≡ pos (value_of digits.now)) × (value_of digits.now < 2 ^ 63)) }
{
    let mut value: u64 = 0;
    for digit in digits {
        let Some(tens) = value.checked_mul(10) else {
            return None;
        };
        let Some(next) = tens.checked_add(u64::from(digit.saturating_sub(b'0'))) else {
            return None;
        };
        value = next;
    }
    i64::try_from(value).ok()
}
