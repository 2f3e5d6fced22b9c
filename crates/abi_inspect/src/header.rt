//! The first line of a dump, read.

ghost use Rattle.std.specs.Prelude.{◌≡◌, ◌++◌, ℕ, List, Contains, MatchOption, IsTrue, ◌↔◌, codes};
ghost use Rattle.cxx_text.specs.OneToken.{IsToken, is_numeral};
ghost use Rattle.cxx_text.specs.Bytes.{is_digit, is_letter, is_word_byte};
ghost use Rattle.cxx_text.specs.declared.token.Kind.TheVariants.{Word};
ghost use Rattle.std.specs.List.{list_all};
ghost use Rattle.abi_inspect.specs.invariants.FirstLines.{IsFirstLine};

use crate::splits::{behind, split_at_byte};
use cxx_text::MOST_WORD_BYTES;

/// The parts of the first line of a dump, as they are written, and what stands behind the line.
#[derive(Clone, Copy)]
pub(crate) struct FirstLine<'a> {
    pub number: &'a [u8],
    pub name: &'a [u8],
    pub size: &'a [u8],
    pub rest: &'a [u8],
}

/// The first line of a text, by its parts; None exactly where it has other parts than that of a dump. It takes no memory.
pub(crate) fn first_line(text: &[u8]) -> Option<FirstLine<'_>>
    ensures { MatchOption result ((number name size rest : List ℕ) → IsFirstLine number name size rest text.now → ⊥) (λ line. IsFirstLine line.number.now line.name.now line.size.now line.rest.now text.now) }
{
    let text = behind(text, b"dump #")?;
    let (line, rest) = split_at_byte(text, b'\n')?;
    let (number, line) = split_at_byte(line, b' ')?;
    let (name, size) = split_at_byte(line, b' ')?;
    Some(FirstLine {
        number,
        name,
        size,
        rest,
    })
}

fn is_letter(byte: u8) -> bool
    ensures { result ≡ is_letter byte }
{
    byte.is_ascii_alphabetic() || byte == b'_'
}

fn is_digit(byte: u8) -> bool
    ensures { result ≡ is_digit byte }
{
    byte.is_ascii_digit()
}

fn is_word_byte(byte: u8) -> bool
    ensures { result ≡ is_word_byte byte }
{
    is_letter(byte) || is_digit(byte)
}

/// Whether all bytes are digits.
fn are_digits(bytes: &[u8]) -> bool
    ensures { result ≡ list_all is_digit bytes.now }
{
    bytes.iter().all(|byte| is_digit(*byte))
}

/// Whether all bytes are letters, digits or `_`.
fn are_word_bytes(bytes: &[u8]) -> bool
    ensures { result ≡ list_all is_word_byte bytes.now }
{
    bytes.iter().all(|byte| is_word_byte(*byte))
}

/// Whether a text is a word of the language (ISO C++03 2.10). It takes no memory.
#[tactic(auto, using(crate::proofs::Headers::word_made, crate::proofs::Headers::word_parts))]
pub(crate) fn is_word(text: &[u8]) -> bool
    ensures { IsTrue result ↔ IsToken text.now Word 0 }
{
    let [first, ..] = text else {
        return false;
    };
    if text.len() > MOST_WORD_BYTES {
        return false;
    }
    if !is_letter(*first) {
        return false;
    }
    are_word_bytes(&text[1..])
}

/// Whether a text is a decimal number without a zero in front of it. It takes no memory.
pub(crate) fn is_numeral(text: &[u8]) -> bool
    ensures { result ≡ is_numeral text.now }
{
    match text {
        [] => false,
        [b'0', _, ..] => false,
        _ => are_digits(text),
    }
}
