//! Numbers as words.

ghost use Rattle.std.specs.Prelude.{◌≡◌};
ghost use Rattle.byte_code.specs.Numbers.{word_of};
ghost use Rattle.abi_slots.specs.Images.{this_constant, this_vcall, return_constant, return_vbase, number_or_zero};

use abi_slots::{ReturnAdjust, ThisAdjust};

/// The word of a signed number.
pub fn word_of(number: i64) -> u64
    ensures { result ≡ word_of number }
{
    if number >= 0 {
        number as u64
    } else {
        u64::MAX - (-1 - number) as u64
    }
}

fn number_or_zero(number: Option<i64>) -> i64
    ensures { result ≡ number_or_zero number }
{
    match number {
        Some(number) => number,
        None => 0,
    }
}

/// What is added to `this` first, in bytes.
pub fn this_constant(this: Option<ThisAdjust>) -> i64
    ensures { result ≡ this_constant this }
{
    match this {
        Some(adjust) => adjust.constant,
        None => 0,
    }
}

/// Where the vcall word stands, in bytes from the address point, or 0.
pub fn this_vcall(this: Option<ThisAdjust>) -> i64
    ensures { result ≡ this_vcall this }
{
    match this {
        Some(adjust) => number_or_zero(adjust.vcall),
        None => 0,
    }
}

/// What is added to a result last, in bytes.
pub fn return_constant(adjusted: Option<ReturnAdjust>) -> i64
    ensures { result ≡ return_constant adjusted }
{
    match adjusted {
        Some(adjust) => adjust.constant,
        None => 0,
    }
}

/// Where the vbase word for a result stands, in bytes from the address point, or 0.
pub fn return_vbase(adjusted: Option<ReturnAdjust>) -> i64
    ensures { result ≡ return_vbase adjusted }
{
    match adjusted {
        Some(adjust) => number_or_zero(adjust.vbase),
        None => 0,
    }
}
