//! Codes of some bits each, as the digits of a word.

ghost use Rattle.std.specs.Prelude.{◌≡◌, ◌<◌, ◌/◌, ◌^◌, ℕ, nat_eq, if◌then◌else◌};
ghost use Rattle.path_columns.specs.Digits.{digit, IsCodeWidth};

/// The digit of a word at a place.
#[inline(always)]
pub(crate) fn digit(word: u64, bits: u64, place: u64) -> u64
    requires wide { IsCodeWidth bits }
    requires within { place < 64 / bits }
    ensures { result ≡ digit bits word place }
{
    let power = 1 << (bits * place);
    let base = 1 << bits;
    word / power % base
}

/// The word with this digit at a place.
#[inline(always)]
pub(crate) fn with_digit(word: u64, bits: u64, place: u64, code: u64) -> u64
    requires wide { IsCodeWidth bits }
    requires within { place < 64 / bits }
    requires small { code < 2 ^ bits }
    ensures { (p : ℕ) → digit bits result p ≡ (if nat_eq p place then code else digit bits word p) }
{
    let power = 1 << (bits * place);
    let base = 1 << bits;
    let old = word / power % base;
    word - old * power + code * power
}
