//! Numbers in words: what ops compute, and whether a result fits.

ghost use Rattle.std.specs.Prelude.{◌≡◌, ◌<◌, ◌≤◌, ◌^◌, ◌%◌, true, Some, ℤ, int_lt, SomeIff, FitsSigned};
ghost use Rattle.std.specs.Int.{w64};
ghost use Rattle.byte_code.specs.Numbers.{number_of_word, signed_of};
ghost use Rattle.byte_machine.specs.Checks.{exact, is_number_of};
ghost use Rattle.byte_machine.specs.Values.{calculated_word, converted_word, truth_word};

use byte_code::{ArithKind, BitWidth, NumberKind, Width};

/// The low bits of a word.
fn low_bits(width: BitWidth, word: u64) -> u64
    requires { width.bits ≤ 64 }
    ensures value { result ≡ word % 2 ^ width.bits }
    ensures fits { result < 2 ^ width.bits }
{
    if width.bits == 64 {
        word
    } else {
        word % (1 << width.bits)
    }
}

/// 1 where it holds.
fn truth(holds: bool) -> u64
    ensures { result ≡ truth_word holds }
{
    if holds { 1 } else { 0 }
}

/// The number that a signed width reads.
#[inline(always)]
fn signed_number(width: Width, word: u64) -> i64
    requires bytes { width.bytes ≤ 8 }
    requires signed { width.signed ≡ true }
    ensures { result ≡ number_of_word width word }
{
    width.extend(width.low(word)).cast_signed()
}

/// Whether the number of a word is less than that of another.
#[inline(always)]
fn is_less(width: Width, left: u64, right: u64) -> bool
    requires { width.bytes ≤ 8 }
    ensures { result ≡ int_lt (number_of_word width left) (number_of_word width right) }
{
    if width.signed {
        signed_number(width, left) < signed_number(width, right)
    } else {
        width.low(left) < width.low(right)
    }
}

/// What two words give, read in a width.
#[inline(always)]
pub fn calculate(kind: ArithKind, width: Width, left: u64, right: u64) -> u64
    requires { width.bytes ≤ 8 }
    ensures { result ≡ calculated_word kind width (number_of_word width left) (number_of_word width right) }
{
    match kind {
        ArithKind::Add => width.extend(width.low(left.wrapping_add(right))),
        ArithKind::Subtract => width.extend(width.low(left.wrapping_sub(right))),
        ArithKind::Multiply => width.extend(width.low(left.wrapping_mul(right))),
        ArithKind::Less => truth(is_less(width, left, right)),
        ArithKind::LessEqual => truth(!is_less(width, right, left)),
        ArithKind::Equal => truth(!is_less(width, left, right) && !is_less(width, right, left)),
        ArithKind::NotEqual => truth(is_less(width, left, right) || is_less(width, right, left)),
    }
}

/// What a conversion makes of a word.
#[inline(always)]
pub fn convert(kind: NumberKind, word: u64) -> u64
    ensures { result ≡ converted_word kind word }
{
    match kind {
        NumberKind::Truth => truth(word != 0),
        NumberKind::Bytes(width) => {
            if width.bytes <= 8 {
                width.extend(width.low(word))
            } else {
                word
            }
        }
        NumberKind::Bits(width) => {
            if width.bits <= 64 {
                width.extend(low_bits(width, word))
            } else {
                word
            }
        }
    }
}

/// Whether a result, where it fits 64 bits, is a number of a signed width.
#[inline(always)]
fn is_in_width(width: Width, exact: Option<i64>) -> bool
    requires bytes { width.bytes ≤ 8 }
    requires signed { width.signed ≡ true }
    ensures { (z : ℤ) → SomeIff exact (FitsSigned w64 z) z → result ≡ is_number_of width (Some z) }
{
    match exact {
        None => false,
        Some(number) => signed_number(width, number.cast_unsigned()) == number,
    }
}

/// Whether the exact result of a calculation is a number of the width, where that is signed.
#[inline(always)]
pub fn fits(kind: ArithKind, width: Width, left: u64, right: u64) -> bool
    requires { width.bytes ≤ 8 }
    ensures { result ≡ is_number_of width (exact kind (number_of_word width left) (number_of_word width right)) }
{
    if !width.signed {
        return true;
    }
    let left = signed_number(width, left);
    let right = signed_number(width, right);
    match kind {
        ArithKind::Add => is_in_width(width, left.checked_add(right)),
        ArithKind::Subtract => is_in_width(width, left.checked_sub(right)),
        ArithKind::Multiply => is_in_width(width, left.checked_mul(right)),
        _ => true,
    }
}
