use ess_rows::NoMemory;
use std::fmt::Write;

/// The number that a word is, if it is one of 64 bits.
pub fn number_of(word: &str) -> Option<i64> {
    match word.as_bytes().split_first() {
        Some((b'-', digits)) => opposite_of(digits),
        _ => opposite_of(word.as_bytes())?.checked_neg(),
    }
}

/// The opposite of the number that has these digits, if it is one of 64 bits.
fn opposite_of(digits: &[u8]) -> Option<i64> {
    if digits.is_empty() {
        return None;
    }
    let mut number: i64 = 0;
    for digit in digits {
        if *digit < b'0' || *digit > b'9' {
            return None;
        }
        number = number.checked_mul(10)?.checked_sub((*digit - b'0') as i64)?;
    }
    Some(number)
}

/// Puts a number.
pub fn put_number(out: &mut String, number: i64) -> Result<(), NoMemory> {
    Ok(write!(out, "{number}")?)
}

/// Puts numbers with `,` between each two.
pub fn put_numbers(out: &mut String, numbers: &[i64]) -> Result<(), NoMemory> {
    for (index, number) in numbers.iter().enumerate() {
        if index > 0 {
            out.push_str(",")?;
        }
        put_number(out, *number)?;
    }
    Ok(())
}
