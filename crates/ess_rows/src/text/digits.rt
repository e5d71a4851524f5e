//! The digits of numbers, written into a buffer from its end.
ghost use Rattle.std.specs.Prelude.{◌≡◌, ◌+◌, ◌<◌, drop};
ghost use Rattle.std.specs.Fmt.{decimal, signed_decimal};

/// Room for a sign and the digits of any 64-bit number.
pub const ROOM: usize = 21;

/// Writes a number at the end of the buffer, and answers where it starts there.
pub fn write(number: u64, buffer: &mut [u8; ROOM]) -> usize
    ensures digits { drop result buffer.new ≡ decimal number }
    ensures room_for_sign { 0 < result }
    ensures within { result < 21 }
{
    let mut left = number;
    let mut start = ROOM - 1;
    while left >= 10 {
        buffer[start] = digit(left % 10);
        left /= 10;
        start -= 1;
    }
    buffer[start] = digit(left);
    start
}

/// As `write`, with a sign where the number is below 0.
pub fn write_signed(number: i64, buffer: &mut [u8; ROOM]) -> usize
    ensures digits { drop result buffer.new ≡ signed_decimal number }
    ensures within { result < 21 }
{
    let start = write(number.unsigned_abs(), buffer);
    if number >= 0 {
        return start;
    }
    buffer[start - 1] = b'-';
    start - 1
}

fn digit(value: u64) -> u8
    requires { value < 10 }
    ensures { result ≡ 48 + value }
{
    b'0' + value as u8
}
