//! Numbers that are read back from their digits.

ghost use Rattle.std.specs.Prelude.{◌≡◌, ◌<◌, ◌≤◌, ◌*◌, ◌^◌, ◌%◌, ℕ, ℤ, length};
ghost use Rattle.std.specs.Fmt.{decimal, signed_decimal};
ghost use Rattle.byte_code.specs.Numbers.{number_of_bits, word_of};
ghost use Rattle.abi_inspect.specs.invariants.Digits.{IsBelowWord, hex_value, hex_word};

use crate::splits::behind;
use byte_code::BitWidth;
use std::str;

/// The number whose digits these are, and 0 where there is none below 2^64. It takes no memory.
pub(crate) fn read_number(text: &[u8]) -> u64
    ensures { (n : ℕ) → n < 2 ^ 64 → text.now ≡ decimal n → result ≡ n }
{
    let Ok(digits) = str::from_utf8(text) else {
        return 0;
    };
    match digits.parse::<u64>() {
        Ok(n) => n,
        Err(_) => 0,
    }
}

/// The word of the number whose digits these are, behind `-` where it is below 0. It takes no memory.
pub(crate) fn read_signed(text: &[u8]) -> u64
    ensures { (z : ℤ) → IsBelowWord z → text.now ≡ signed_decimal z → result ≡ word_of z }
{
    match behind(text, b"-") {
        Some(digits) => read_number(digits).wrapping_neg(),
        None => read_number(text),
    }
}

/// The number of a hexadecimal digit, and 0 for any other byte.
fn hex_value(digit: u8) -> u8
    ensures is { result ≡ hex_value digit }
    ensures few { result < 16 }
{
    match digit {
        b'0'..=b'9' => digit - b'0',
        b'a'..=b'f' => digit - b'a' + 10,
        _ => 0,
    }
}

/// The word whose bytes, the low one first, have these digits. It takes no memory.
pub(crate) fn read_bytes(text: &[u8]) -> u64
    requires { length text.now ≤ 16 }
    ensures { result ≡ hex_word text.now }
{
    match text {
        [high, low, rest @ ..] => {
            let byte = 16 * hex_value(*high) + hex_value(*low);
            read_bytes(rest).wrapping_mul(256).wrapping_add(byte as u64)
        }
        _ => 0,
    }
}

/// The number that the low bits of a word stand for. It takes no memory.
#[tactic(auto, using(byte_code::proofs::Pow::bits_word, byte_code::proofs::Pow::bit_pos))]
pub(crate) fn number_in(width: BitWidth, word: u64) -> i128
    requires { width.bits ≤ 64 }
    ensures { result ≡ number_of_bits width word }
{
    let range = 1u128 << width.bits;
    let low = word as u128 % range;
    if width.signed && 2 * low >= range {
        low as i128 - range as i128
    } else {
        low as i128
    }
}

/// The word that stands for a number.
pub(crate) fn word(number: i128) -> u64
    ensures { result ≡ word_of number }
{
    number.rem_euclid(0x1_0000_0000_0000_0000) as u64
}
