//! Pieces that a text begins with: written ones, and numbers.

ghost use Rattle.std.specs.Prelude.{◌≡◌, ◌++◌, MatchOption, true};
ghost use Rattle.std.specs.Char.{is_ascii_digit};
ghost use Rattle.std.specs.List.{list_all};
ghost use Rattle.abi_foreign.specs.invariants.Pieces.{IsNotBehind, IsNoDigit, IsApart, DigitsSay, HasNoNumber, BeginsWithNumber, HasNoneBefore, IsNumberBefore};

/// The largest number of a listing.
pub(crate) const MOST: u32 = 1_048_576;

/// What a text has behind a piece, where it begins with that.
pub(crate) fn behind<'a>(text: &'a [u8], piece: &[u8]) -> Option<&'a [u8]>
    ensures { MatchOption result (IsNotBehind text.now piece.now) (λ rest. text.now ≡ piece.now ++ rest.now) }
{
    text.strip_prefix(piece)
}

/// The digits that a text begins with, and what follows them.
fn split_digits(text: &[u8]) -> (&[u8], &[u8])
    ensures parts { text.now ≡ result.0.now ++ result.1.now }
    ensures digits { list_all is_ascii_digit result.0.now ≡ true }
    ensures rest { IsNoDigit result.1.now }
{
    for (n, b) in text.iter().enumerate() {
        if !b.is_ascii_digit() {
            return text.split_at(n);
        }
    }
    text.split_at(text.len())
}

/// The number that digits say, and None where it is too large for a listing.
fn value_of(digits: &[u8]) -> Option<u32>
    requires { list_all is_ascii_digit digits.now ≡ true }
    ensures { DigitsSay digits.now result }
{
    let mut value: u32 = 0;
    for d in digits {
        if value > MOST / 10 {
            return None;
        }
        value = 10 * value + (*d - b'0') as u32;
    }
    if value > MOST { None } else { Some(value) }
}

/// The number that a text begins with, without leading zeros, and what follows it.
fn number_at(text: &[u8]) -> Option<(u32, &[u8])>
    ensures { MatchOption result (HasNoNumber text.now) (λ p. BeginsWithNumber text.now p.0 p.1.now) }
{
    let (digits, rest) = split_digits(text);
    match digits {
        [] => return None,
        [first, _, ..] => {
            if *first == b'0' {
                return None;
            }
        }
        [_] => {}
    }
    match value_of(digits) {
        Some(value) => Some((value, rest)),
        None => None,
    }
}

/// The number that a text begins with, where a piece follows it, and what follows that. The piece does not begin with a digit.
pub(crate) fn number_before<'a>(text: &'a [u8], piece: &[u8]) -> Option<(u32, &'a [u8])>
    requires { IsApart piece.now }
    ensures { MatchOption result (HasNoneBefore text.now piece.now) (λ p. IsNumberBefore text.now piece.now p.0 p.1.now) }
{
    let (value, rest) = number_at(text)?;
    let rest = behind(rest, piece)?;
    Some((value, rest))
}
