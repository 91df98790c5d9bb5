//! Bytes that hex digits spell. No step hangs on the data, so that the compiler can make vectors of the loop.

ghost use Rattle.std.specs.Prelude.{◌≡◌, ◌*◌, ◌<◌, ℕ, true, length, IsOk, Some, Ok};
ghost use Rattle.hex.specs.Hex.{decode_of, hex_digit_value, is_hex_digit, pair_value};

/// The value of a hex digit of either case.
fn digit_value(digit: u8) -> u8
    requires { is_hex_digit digit ≡ true }
    ensures value { hex_digit_value digit ≡ Some result }
    ensures small { result < 16 }
{
    (digit & 15) + 9 * (digit >> 6)
}

/// The byte that two hex digits spell.
fn spelled_byte(high: u8, low: u8) -> u8
    requires high { is_hex_digit high ≡ true }
    requires low { is_hex_digit low ≡ true }
    ensures { (i : ℕ) → pair_value high low i ≡ Ok result }
{
    digit_value(high) * 16 + digit_value(low)
}

/// Writes the bytes that the hex digits spell.
pub fn decode(digits: &[u8], bytes: &mut [u8])
    requires spelled { IsOk (decode_of digits.now) }
    requires room { length digits.now ≡ 2 * length bytes.old }
    ensures { decode_of digits.now ≡ Ok bytes.new }
{
    for i in 0..bytes.len() {
        bytes[i] = spelled_byte(digits[2 * i], digits[2 * i + 1]);
    }
}
