//! The longest token at the front of a text.

ghost use Rattle.std.specs.Prelude.{◌≡◌, ℕ, ◌≤◌, ◌<◌, ◌^◌, true, length, take, drop, IfSome, IfNone};
ghost use Rattle.std.specs.List.{list_all, prefix_len};
ghost use Rattle.cxx_text.specs.Bytes.{is_digit, is_word_byte};
ghost use Rattle.cxx_text.specs.OneToken.{is_numeral, decimal};
ghost use Rattle.cxx_text.specs.Longest.{IsLongest, NoToken};
ghost use Rattle.cxx_text.specs.invariants.Front.{sign_len, number_value, value_below};

use crate::bytes::{is_digit, is_letter, is_one_byte_sign, is_two_byte_sign, is_word_byte};
use crate::token::Kind;

/// The most bytes of a word.
pub const MOST_WORD_BYTES: usize = 255;

/// A token at the front of a text, and its length in bytes.
#[derive(Clone, Copy, Debug)]
pub(crate) struct Found {
    pub kind: Kind,
    pub len: usize,
    pub value: u64,
}

// The letters, digits and `_` at the front.
fn run_len(text: &[u8]) -> usize
    ensures value { result ≡ prefix_len is_word_byte text.now }
    ensures within { result ≤ length text.now }
{
    text.iter().take_while(|b| is_word_byte(**b)).count()
}

// The bytes of the longest sign at the front, or 0.
fn sign_len(text: &[u8]) -> usize
    ensures { result ≡ sign_len text.now }
{
    match text {
        [] => 0,
        [a] => is_one_byte_sign(*a) as usize,
        [a, b, ..] => {
            if is_two_byte_sign(*a, *b) {
                2
            } else {
                is_one_byte_sign(*a) as usize
            }
        }
    }
}

// Whether all the bytes are digits.
fn are_digits(bytes: &[u8]) -> bool
    ensures { result ≡ list_all is_digit bytes.now }
{
    bytes.iter().all(|b| is_digit(*b))
}

// Whether the bytes are `0`, or a digit from 1 to 9 followed by digits.
fn is_numeral(bytes: &[u8]) -> bool
    ensures { result ≡ is_numeral bytes.now }
{
    match bytes {
        [] => false,
        [b'0', _, ..] => false,
        _ => are_digits(bytes),
    }
}

// The value of digits, where it is below 2 ^ 63.
fn decimal(digits: &[u8]) -> Option<u64>
    requires { list_all is_digit digits.now ≡ true }
    ensures { result ≡ value_below (decimal digits.now) }
{
    let mut value: u64 = 0;
    for d in digits {
        let digit = u64::from(*d - b'0');
        if value > (i64::MAX as u64 - digit) / 10 {
            return None;
        }
        value = value * 10 + digit;
    }
    Some(value)
}

// The value of a number.
fn number_value(bytes: &[u8]) -> Option<u64>
    ensures { result ≡ number_value bytes.now }
{
    if !is_numeral(bytes) {
        return None;
    }
    decimal(bytes)
}

/// The longest token at the front of a text.
pub(crate) fn token_at(text: &[u8]) -> Option<Found>
    ensures found { IfSome result (λ f. (0 < f.len) × (f.len ≤ length text.now) × IsLongest text.now (take f.len text.now) (drop f.len text.now) f.kind f.value) }
    ensures none { IfNone result (NoToken text.now) }
{
    let [first, ..] = text else {
        return None;
    };
    if is_letter(*first) {
        let len = run_len(text).min(MOST_WORD_BYTES);
        Some(Found {
            kind: Kind::Word,
            len,
            value: 0,
        })
    } else if is_digit(*first) {
        let len = run_len(text);
        let (run, _) = text.split_at(len);
        let value = number_value(run)?;
        Some(Found {
            kind: Kind::Number,
            len,
            value,
        })
    } else {
        let len = sign_len(text);
        if len == 0 {
            return None;
        }
        Some(Found {
            kind: Kind::Sign,
            len,
            value: 0,
        })
    }
}
